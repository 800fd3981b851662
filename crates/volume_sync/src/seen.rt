//! What is seen of the claim that a volume's reference names.

ghost use Rattle.std.specs.Prelude.{◌≡◌};
ghost use Rattle.std.specs.Option.{option_copied};
ghost use Rattle.binder_model.specs.BinderDue.{claim_with};
ghost use Rattle.volume_sync.specs.VolumeDecision.{claim_of, live_claim, seen_claim};

use kube_types::bindings::is_uid;
use kube_types::lookup::{Live, Lookup};
use kube_types::objects::{Claim, Object, Ref, Volume};
use kube_types::parts::Kind;
use kube_types::uid::Uid;
use volume_match::row_named;

/// The claim of the UID that is in the volume's reference: the row of the look-up, else what was
/// read by itself.
pub(crate) fn seen_claim<'a, L: Lookup>(
    lookup: &'a L,
    volume: &Volume,
    live: Live<'a>,
) -> Option<&'a Claim>
    ensures { option_copied result ≡ seen_claim (L.rows lookup.now) volume.now live.entry }
{
    match &volume.claim_ref {
        None => None,
        Some(reference) => match reference.uid {
            None => None,
            Some(uid) => claim_of(lookup, reference, uid, live),
        },
    }
}

fn claim_of<'a, L: Lookup>(
    lookup: &'a L,
    reference: &Ref,
    uid: Uid,
    live: Live<'a>,
) -> Option<&'a Claim>
    ensures { option_copied result ≡ claim_of (L.rows lookup.now) reference.now uid live.entry }
{
    let row = row_named(
        lookup,
        Kind::PersistentVolumeClaim,
        reference.namespace.as_str(),
        reference.name.as_str(),
    );
    match claim_with(uid, row) {
        Some(claim) => Some(claim),
        None => live_claim(uid, live),
    }
}

fn live_claim<'a>(uid: Uid, live: Live<'a>) -> Option<&'a Claim>
    ensures { option_copied result ≡ live_claim uid live.entry }
{
    match live {
        Live::NotAsked | Live::Absent => None,
        Live::Present(object) => claim_with(uid, Some(object)),
    }
}

/// The claim, where it has the UID.
#[tactic(auto, unfolding(binder_model::specs::BinderDue::claim_with))]
pub fn claim_with<'a>(uid: Uid, object: Option<&'a Object>) -> Option<&'a Claim>
    ensures { option_copied result ≡ claim_with uid (option_copied object.entry) }
{
    match object {
        Some(Object::Claim(claim)) => {
            if is_uid(claim.meta.uid, uid) {
                Some(claim)
            } else {
                None
            }
        }
        _ => None,
    }
}

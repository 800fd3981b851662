//! What is seen of the volume that a claim names.

ghost use Rattle.std.specs.Prelude.{◌≡◌};
ghost use Rattle.std.specs.Option.{option_copied};
ghost use Rattle.volume_index.specs.VolumeIndex.{as_volume};
ghost use Rattle.binder_model.specs.BinderDue.{has_other_uid};
ghost use Rattle.claim_sync.specs.ClaimDecision.{named_volume};
ghost use Rattle.claim_sync.specs.Conditions.{lacks_claim, live_volume, reads_live};

use kube_types::bindings::{is_completed, is_uid};
use kube_types::lookup::{Live, Lookup};
use kube_types::objects::{Claim, Object, Volume};
use kube_types::parts::Kind;
use volume_match::row_named;

/// The volume that the claim names, in the look-up.
pub(crate) fn named_volume<'a, L: Lookup>(lookup: &'a L, claim: &Claim) -> Option<&'a Volume>
    ensures { option_copied result ≡ named_volume (L.rows lookup.now) claim.now }
{
    let row = row_named(
        lookup,
        Kind::PersistentVolume,
        "",
        claim.volume_name.as_str(),
    );
    as_volume(row)
}

/// The volume, as it was read by itself.
pub(crate) fn live_volume<'a>(live: Live<'a>) -> Option<&'a Volume>
    ensures { option_copied result ≡ live_volume live.entry }
{
    match live {
        Live::NotAsked | Live::Absent => None,
        Live::Present(object) => as_volume(Some(object)),
    }
}

/// The object, where it is a volume.
pub fn as_volume<'a>(object: Option<&'a Object>) -> Option<&'a Volume>
    ensures { option_copied result ≡ as_volume (option_copied object.entry) }
{
    match object {
        Some(Object::Volume(volume)) => Some(volume),
        _ => None,
    }
}

/// Whether the volume that was read by itself is to be looked at, where the look-up shows this one.
pub(crate) fn reads_live(claim: &Claim, live: Live, volume: Option<&Volume>) -> bool
    ensures { result ≡ reads_live claim.now live.entry (option_copied volume.entry) }
{
    is_completed(claim) && live.is_present() && lacks_claim(claim, volume)
}

fn lacks_claim(claim: &Claim, volume: Option<&Volume>) -> bool
    ensures { result ≡ lacks_claim claim.now (option_copied volume.entry) }
{
    match volume {
        None => true,
        Some(volume) => has_other_uid(volume, claim),
    }
}

/// Whether the volume's reference has a UID, and not the claim's.
pub(crate) fn has_other_uid(volume: &Volume, claim: &Claim) -> bool
    ensures { result ≡ has_other_uid volume.now claim.now }
{
    match &volume.claim_ref {
        None => false,
        Some(reference) => match reference.uid {
            None => false,
            Some(uid) => !is_uid(claim.meta.uid, uid),
        },
    }
}

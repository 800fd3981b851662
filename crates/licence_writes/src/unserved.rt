//! Where the node chosen for a claim may be dropped.

ghost use Rattle.std.specs.Prelude.{◌≡◌, IsTrue, Some, reverse};
ghost use Rattle.binder_model.specs.Licence.{AtClaim};
ghost use Rattle.binder_model.specs.OpsLicence.{IsThisClaim, IsUnserved, MayClearNode, TellsExhausted};
ghost use Rattle.binder_model.specs.Provisioning.{data_name};
ghost use Rattle.binder_model.specs.Told.{After, ToldClaim};
ghost use Rattle.licence_record.specs.Judged.{Judges};

use crate::roles::ops::{is_without_node, was_exhausted};
use evidence_pages::sought::Sought;
use kube_types::bindings::{SELECTED_NODE, is_completed};
use kube_types::objects::{Claim, Version};
use kube_types::parts::Kind;
use kube_types::text::Text;
use kube_types::uid::Uid;
use licence_record::record::Record;
use licence_record::sure::{SureClaim, told_claim_at};
use uuid::Uuid;

/// Whether what was provisioned for the claim shows that no pool has its bytes.
fn is_exhausted<R: Record>(seat: &R, claim: &Claim, uid: Uid) -> bool
    ensures { Judges (R.whole seat.now) result (After (ToldClaim (IsThisClaim claim.now)) (TellsExhausted (data_name uid)) (R.told seat.now)) }
{
    let mut buffer = Uuid::encode_buffer();
    let uuid = Uuid::from_u128(uid.0);
    let text = uuid.hyphenated().encode_lower(&mut buffer);
    was_exhausted(
        seat.wanted(text, Sought::Exhausted(Some(claim.meta.version))),
        claim,
        uid,
    )
}

/// Whether the claim cannot be provisioned on the node that was chosen for it.
fn is_unserved<R: Record>(seat: &R, claim: &Claim, uid: Uid, node: &Text) -> bool
    ensures { Judges (R.whole seat.now) result (IsUnserved (R.told seat.now) claim.now uid node.now) }
{
    if is_exhausted(seat, claim, uid) {
        return true;
    }
    seat.is_node_absent(node.as_str())
}

/// The annotation that names a node may be dropped from the claim.
#[derive(Drop)]
struct ClearNode<'a, R> {
    seat: &'a R,
    new: &'a Claim,
}

impl<'a, R: Record> SureClaim for ClearNode<'a, R> {
    ghost allows = { λ t c. MayClearNode (R.told t.seat.now) c t.new.now };

    ghost sure = { λ t. R.whole t.seat.now };

    fn test(&self, claim: &Claim) -> bool {
        clears(self.seat, claim, self.new)
    }
}

fn clears<R: Record>(seat: &R, old: &Claim, new: &Claim) -> bool
    ensures { Judges (R.whole seat.now) result (MayClearNode (R.told seat.now) old.now new.now) }
{
    if is_completed(old) {
        return false;
    }
    if !is_without_node(old, new) {
        return false;
    }
    match old.meta.uid {
        None => false,
        Some(uid) => match old.meta.annotations.get(SELECTED_NODE) {
            None => false,
            Some(node) => is_unserved(seat, old, uid, node),
        },
    }
}

/// Whether the annotation which names a node may be dropped from the claim.
pub fn may_clear_node<R: Record>(seat: &R, new: &Claim, given: Option<Version>) -> bool
    ensures { Judges (R.whole seat.now) result (AtClaim (R.told seat.now) new.now given (λ o. MayClearNode (R.told seat.now) o new.now)) }
{
    let namespace = &new.meta.namespace;
    let name = &new.meta.name;
    let row = ClearNode { seat, new };
    let page = seat.about(
        Kind::PersistentVolumeClaim,
        namespace.as_str(),
        name.as_str(),
        Sought::Version(given),
    );
    told_claim_at(&row, page, given, namespace, name)
}

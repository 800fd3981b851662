//! Words that several rows share.

ghost use Rattle.std.specs.Prelude.{◌≡◌, ◌↔◌, IsTrue};
ghost use Rattle.kube_objects.specs.Bindings.{is_bound, is_delete, ref_uid};
ghost use Rattle.binder_model.specs.At.{IsElsewhere, IsSameObject};
ghost use Rattle.binder_model.specs.BinderDue.{is_reclaimed};

use kube_types::bindings::PROVISIONED_BY;
use kube_types::objects::{Claim, Meta, Ref, Volume};
use kube_types::parts::{Policy, VolumePhase};
use kube_types::uid::Uid;
use licence_scans::rows::ClaimTest;
use plain_data::copies::Plain;

pub fn is_bound(phase: VolumePhase) -> bool
    ensures { result ≡ is_bound phase }
{
    match phase {
        VolumePhase::Bound => true,
        _ => false,
    }
}

pub fn is_delete(policy: Policy) -> bool
    ensures { result ≡ is_delete policy }
{
    match policy {
        Policy::Delete => true,
        _ => false,
    }
}

/// The UID in the reference.
pub fn ref_uid(reference: &Option<Ref>) -> Option<Uid>
    ensures { result ≡ ref_uid reference.now }
{
    match reference {
        None => None,
        Some(reference) => reference.uid,
    }
}

/// Whether the object has this UID.
pub fn is_known(meta: &Meta, uid: Uid) -> bool
    ensures { IsTrue result ↔ (meta.now.uid ≡ Some uid) }
{
    match meta.uid {
        None => false,
        Some(own) => own.0 == uid.0,
    }
}

/// Whether both are the same object.
pub fn is_same_object(old: &Meta, other: &Meta) -> bool
    ensures { IsTrue result ↔ IsSameObject old.now other.now }
{
    match old.uid {
        None => false,
        Some(uid) => is_known(other, uid),
    }
}

/// Whether the volume goes with its data once it is released.
pub fn is_reclaimed(volume: &Volume) -> bool
    ensures { result ≡ is_reclaimed volume.now }
{
    volume.meta.annotations.get(PROVISIONED_BY).is_some() && is_delete(volume.policy)
}

/// The claim has the UID and names another volume.
#[derive(Drop)]
pub struct Elsewhere<'a> {
    pub volume: &'a Volume,
    pub uid: Uid,
}

impl<'a> ClaimTest for Elsewhere<'a> {
    ghost allows = { λ t c. IsElsewhere t.volume.now.meta.name t.uid c };

    fn test(&self, claim: &Claim) -> bool {
        if !is_known(&claim.meta, self.uid) {
            return false;
        }
        if claim.volume_name.as_str().is_empty() {
            return false;
        }
        !claim.volume_name.same(&self.volume.meta.name)
    }
}

//! The words of bindings: classes, completed, for, carries, protected, uses.

ghost use Rattle.std.specs.Prelude.{◌≡◌, ◌≤◌, IfOk};
ghost use Rattle.std.specs.List.{list_any};
ghost use Rattle.kube_objects.specs.Bindings.{carries, class_of_claim, class_of_volume, count_one, is_completed, is_deleting, is_empty, is_ended, is_for, is_lost, is_protected_claim, is_protected_volume, is_scheduled, is_uid, lacks_class, mode_count, names_claim, uid_fits, uses};

use crate::objects::{Claim, Meta, Object, Pod, Ref, Volume};
use kube_parts::parts::{ClaimPhase, Modes, VolumePhase};
use kube_parts::uid::Uid;
use plain_data::copies::{OutOfMemory, Plain};
use plain_data::text::Text;
use std::alloc::Global;

/// The annotation of a claim whose binding was decided.
pub const BIND_COMPLETED: &str = "pv.kubernetes.io/bind-completed";
/// The annotation of a binding that the controller made.
pub const BOUND_BY_CONTROLLER: &str = "pv.kubernetes.io/bound-by-controller";
/// The annotation that names the provisioner that made a volume.
pub const PROVISIONED_BY: &str = "pv.kubernetes.io/provisioned-by";
/// The annotation that names the node chosen for a claim's first pod.
pub const SELECTED_NODE: &str = "volume.kubernetes.io/selected-node";
/// The annotation of the class of claims that name none.
pub const IS_DEFAULT_CLASS: &str = "storageclass.kubernetes.io/is-default-class";
/// The older place of a class's name, an annotation.
pub const BETA_CLASS: &str = "volume.beta.kubernetes.io/storage-class";
/// The protection finalizer of claims.
pub const PVC_PROTECTION: &str = "kubernetes.io/pvc-protection";
/// The protection finalizer of volumes.
pub const PV_PROTECTION: &str = "kubernetes.io/pv-protection";
/// The value that the binder writes for its annotations.
pub const YES: &str = "yes";
/// The provisioner that provisions nothing.
pub const NO_PROVISIONER: &str = "kubernetes.io/no-provisioner";

/// The class of a volume, empty where it has none.
pub fn class_of_volume(volume: &Volume) -> &str
    ensures { result.now ≡ class_of_volume volume.now }
{
    match volume.meta.annotations.get(BETA_CLASS) {
        Some(class) => class.as_str(),
        None => volume.class.as_str(),
    }
}

/// The class of a claim, empty where it has none.
pub fn class_of_claim(claim: &Claim) -> &str
    ensures { result.now ≡ class_of_claim claim.now }
{
    match claim.meta.annotations.get(BETA_CLASS) {
        Some(class) => class.as_str(),
        None => match &claim.class {
            Some(class) => class.as_str(),
            None => "",
        },
    }
}

/// Whether the text is empty.
#[tactic(auto, using(crate::proofs::EmptyTexts::is_empty_by_length))]
pub fn is_empty(text: &Text) -> bool
    ensures { result ≡ is_empty text.now }
{
    text.as_str().is_empty()
}

/// Whether the binding of the claim was decided: it carries the annotation.
pub fn is_completed(claim: &Claim) -> bool
    ensures { result ≡ is_completed claim.now }
{
    claim.meta.annotations.get(BIND_COMPLETED).is_some()
}

/// Whether the claim names no class, neither in its spec nor in the older annotation. The empty class is a class.
pub fn lacks_class(claim: &Claim) -> bool
    ensures { result ≡ lacks_class claim.now }
{
    claim.class.is_none() && claim.meta.annotations.get(BETA_CLASS).is_none()
}

/// Whether the object is being deleted.
pub fn is_deleting(meta: &Meta) -> bool
    ensures { result ≡ is_deleting meta.now }
{
    meta.deleted.is_some()
}

/// Whether the pod has a node.
pub fn is_scheduled(pod: &Pod) -> bool
    ensures { result ≡ is_scheduled pod.now }
{
    !pod.node.as_str().is_empty()
}

/// Whether the object is a scheduled pod of the claim's namespace that names the claim.
pub fn uses(claim: &Claim, object: &Object) -> bool
    ensures { result ≡ uses claim.now object.now }
{
    match object {
        Object::Pod(pod) => {
            is_scheduled(pod)
                && pod.meta.namespace.is(claim.meta.namespace.as_str())
                && pod.claims.contains(claim.meta.name.as_str())
        }
        _ => false,
    }
}

/// Whether one of the objects is a pod that uses the claim.
pub fn some_uses(claim: &Claim, objects: &[Object]) -> bool
    ensures { result ≡ list_any (uses claim.now) objects.now }
{
    for object in objects {
        if uses(claim, object) {
            return true;
        }
    }
    false
}

/// Whether the volume has its protection finalizer.
pub fn is_protected_volume(volume: &Volume) -> bool
    ensures { result ≡ is_protected_volume volume.now }
{
    volume.meta.finalizers.contains(PV_PROTECTION)
}

/// Whether the claim has its protection finalizer.
pub fn is_protected_claim(claim: &Claim) -> bool
    ensures { result ≡ is_protected_claim claim.now }
{
    claim.meta.finalizers.contains(PVC_PROTECTION)
}

/// Whether an object's id is this one.
pub fn is_uid(given: Option<Uid>, uid: Uid) -> bool
    ensures { result ≡ is_uid given uid }
{
    match given {
        None => false,
        Some(own) => own.0 == uid.0,
    }
}

/// Whether the reference has the namespace and the name of the claim.
pub fn names_claim(reference: &Ref, claim: &Claim) -> bool
    ensures { result ≡ names_claim reference.now claim.now }
{
    reference.namespace.is(claim.meta.namespace.as_str())
        && reference.name.is(claim.meta.name.as_str())
}

/// Whether the reference has the claim's id, or none.
fn may_have_uid(reference: &Ref, claim: &Claim) -> bool
    ensures { result ≡ uid_fits reference.now.uid claim.now }
{
    match reference.uid {
        None => true,
        Some(uid) => is_uid(claim.meta.uid, uid),
    }
}

/// Whether the volume's reference names the claim, with its id or with none.
pub fn is_for(volume: &Volume, claim: &Claim) -> bool
    ensures { result ≡ is_for volume.now claim.now }
{
    match &volume.claim_ref {
        None => false,
        // Ids are compared first, which costs least.
        Some(reference) => may_have_uid(reference, claim) && names_claim(reference, claim),
    }
}

/// Whether the volume's reference names the claim with its id.
pub fn carries(volume: &Volume, claim: &Claim) -> bool
    ensures { result ≡ carries volume.now claim.now }
{
    match &volume.claim_ref {
        None => false,
        Some(reference) => {
            names_claim(reference, claim)
                && match reference.uid {
                    None => false,
                    Some(uid) => is_uid(claim.meta.uid, uid),
                }
        }
    }
}

/// Whether the phase is one in which a volume serves no claim any more: Released or Failed.
pub fn is_ended(phase: VolumePhase) -> bool
    ensures { result ≡ is_ended phase }
{
    match phase {
        VolumePhase::Released | VolumePhase::Failed => true,
        _ => false,
    }
}

/// Whether the claim's phase is Lost.
pub fn is_lost(phase: ClaimPhase) -> bool
    ensures { result ≡ is_lost phase }
{
    match phase {
        ClaimPhase::Lost => true,
        _ => false,
    }
}

/// The reference to a claim, with its id.
pub fn ref_to(alloc: Global, claim: &Claim) -> Result<Ref, OutOfMemory>
    ensures { IfOk result (λ reference. reference ≡ record { namespace = claim.now.meta.namespace; name = claim.now.meta.name; uid = claim.now.meta.uid }) }
{
    Ok(Ref {
        namespace: claim.meta.namespace.copy(alloc)?,
        name: claim.meta.name.copy(alloc)?,
        uid: claim.meta.uid,
    })
}

/// How many access modes are set.
pub fn mode_count(modes: Modes) -> u8
    ensures { result ≡ mode_count modes }
{
    count_one(modes.rwo) + count_one(modes.rox) + count_one(modes.rwx) + count_one(modes.rwop)
}

/// One where it is set, and else none.
pub fn count_one(is_set: bool) -> u8
    ensures value { result ≡ count_one is_set }
    ensures bound { result ≤ 1 }
{
    if is_set { 1 } else { 0 }
}

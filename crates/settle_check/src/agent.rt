//! What a node agent has to do for a pod that its node runs.

ghost use Rattle.std.specs.Prelude.{◌≡◌};
ghost use Rattle.std.specs.List.{list_all, list_any};
ghost use Rattle.std.specs.Option.{option_copied};
ghost use Rattle.kube_objects.specs.Keys.{row_at};
ghost use Rattle.binder_model.specs.BindWrites.{is_claim_bound};
ghost use Rattle.binder_model.specs.Choice.{claim_named};
ghost use Rattle.binder_model.specs.Due.{agent_due, carried_by, is_pod_mounted, is_ready};
ghost use Rattle.binder_model.specs.ObjectKeys.{volume_key};
ghost use Rattle.binder_model.specs.Same.{same_uid};
ghost use Rattle.settle_check.specs.WorldOf.{world_of};

use call_types::reply::MountRow;
use delayed_binding::claim_named;
use device_model::devices::Devices;
use kube_types::bindings::{carries, is_completed, is_deleting, is_protected_claim};
use kube_types::names::Due;
use kube_types::objects::{Claim, Object, Pod};
use kube_types::parts::{ClaimPhase, Kind};
use kube_types::uid::Uid;
use version_store::store::Store;
use volume_match::row_named;
use world_core::world::World;

/// What the agent of its node has to do for the pod.
pub(crate) fn agent_due(world: &World, pod: &Pod) -> Option<Due>
    ensures { result ≡ agent_due (world_of world.now) pod.now }
{
    if is_deleting(&pod.meta) {
        return Some(Due::Finish);
    }
    if !is_mounted(world.devices(), pod) && are_ready(world.store(), pod) {
        return Some(Due::Mount);
    }
    None
}

/// Whether the pod is mounted on its node.
fn is_mounted(devices: &Devices, pod: &Pod) -> bool
    ensures { result ≡ is_pod_mounted devices.now.devices pod.now }
{
    match pod.meta.uid {
        None => false,
        Some(uid) => is_in(devices.mounts(&pod.node), uid),
    }
}

/// Whether the pod is among these mounts.
fn is_in(mounts: &[MountRow], pod: Uid) -> bool
    ensures { result ≡ list_any (λ r. same_uid r.pod pod) mounts.now }
{
    mounts.iter().any(|row| row.pod == pod)
}

/// Whether each claim of the pod is ready: a look-up by key for the claim, and one for its volume.
fn are_ready(store: &Store, pod: &Pod) -> bool
    ensures { result ≡ list_all (λ name. is_ready store.now.rows (claim_named store.now.rows pod.now.meta.namespace name)) pod.now.claims }
{
    for name in pod.claims.as_slice() {
        if !is_ready(
            store,
            claim_named(store, pod.meta.namespace.as_str(), name.as_str()),
        ) {
            return false;
        }
    }
    true
}

/// Whether there is the claim, and it stays, is protected, completed and bound, and its volume carries it.
fn is_ready(store: &Store, claim: Option<&Claim>) -> bool
    ensures { result ≡ is_ready store.now.rows (option_copied claim.entry) }
{
    match claim {
        None => false,
        Some(claim) => {
            !is_deleting(&claim.meta)
                && is_protected_claim(claim)
                && is_completed(claim)
                && is_claim_bound(claim.phase)
                && is_carried(store, claim)
        }
    }
}

fn is_claim_bound(phase: ClaimPhase) -> bool
    ensures { result ≡ is_claim_bound phase }
{
    match phase {
        ClaimPhase::Bound => true,
        _ => false,
    }
}

/// Whether the volume that the claim names carries it.
fn is_carried(store: &Store, claim: &Claim) -> bool
    ensures { result ≡ carried_by claim.now (row_at (volume_key claim.now.volume_name) store.now.rows) }
{
    match row_named(
        store,
        Kind::PersistentVolume,
        "",
        claim.volume_name.as_str(),
    ) {
        Some(Object::Volume(volume)) => carries(volume, claim),
        _ => false,
    }
}

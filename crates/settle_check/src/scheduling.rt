//! What the scheduler has to do for a pod that no node runs: what it chooses where the look-up is the store itself, as far as
//! the devices can give what is to be provisioned.

ghost use Rattle.std.specs.Prelude.{◌≡◌, false, IfOk, Some};
ghost use Rattle.std.specs.Bool.{Decides};
ghost use Rattle.std.specs.List.{list_all};
ghost use Rattle.kube_objects.specs.declared.objects.Object.TheVariants as objects;
ghost use Rattle.kube_objects.specs.Bindings.{class_of_claim, is_scheduled};
ghost use Rattle.kube_objects.specs.Keys.{row_at};
ghost use Rattle.binder_model.specs.Due.{CanPrepare, IsDue, is_served, is_served_on};
ghost use Rattle.binder_model.specs.ObjectKeys.{class_key};
ghost use Rattle.delayed_binding.specs.ChoiceLaw.{HaveNoNamespace, IsDueBy};
ghost use Rattle.settle_check.specs.Steps.Searching.{CanPrepareAt, CanPrepareOn, is_given, key_is_served};
ghost use Rattle.settle_check.specs.WorldOf.{world_of};

use crate::provision::is_served;
use delayed_binding::{Choice, choose, prepare_on};
use kube_types::bindings::class_of_claim;
use kube_types::copies::OutOfMemory;
use kube_types::key::Key;
use kube_types::names::Due;
use kube_types::objects::{Claim, Class, Node, Object, Pod};
use kube_types::parts::Kind;
use kube_types::uid::Uid;
use reclaim_ops::data_name;
use std::alloc::Global;
use volume_match::row_named;
use world_core::world::World;

/// What the scheduler has to do for the pod, which no node runs. Of the history only the imports count: since they passed,
/// no node and no volume stands in a namespace.
pub(crate) fn scheduling_due(
    alloc: Global,
    world: &World,
    pod: &Pod,
) -> Result<Option<Due>, OutOfMemory>
    requires { is_scheduled pod.now ≡ false }
    ensures { IfOk result (λ action. IsDue world.now.setup (world_of world.now) (objects.Pod pod.now) action) }
{
    let _history = world.history();
    let choice = choose(alloc, world.store(), pod, None)?;
    due_by(alloc, world, pod, &choice)
}

/// What is due for the pod for which this is chosen.
fn due_by(
    alloc: Global,
    world: &World,
    pod: &Pod,
    choice: &Choice,
) -> Result<Option<Due>, OutOfMemory>
    requires { HaveNoNamespace (world_of world.now).store.rows }
    ensures { IfOk result (λ action. IsDueBy world.now.setup (world_of world.now) pod.now choice.now action) }
{
    match choice {
        Choice::Assign(_) => Ok(Some(Due::Assign)),
        Choice::Wait | Choice::NoNode => Ok(None),
        Choice::Prepare {
            node: _,
            binds: _,
            provisions: _,
        } => {
            if can_prepare(alloc, world, pod)? {
                Ok(Some(Due::Prepare))
            } else {
                Ok(None)
            }
        }
    }
}

/// Whether some node serves all claims of the pod, and the devices can give what is to be provisioned there.
fn can_prepare(alloc: Global, world: &World, pod: &Pod) -> Result<bool, OutOfMemory>
    requires { HaveNoNamespace (world_of world.now).store.rows }
    ensures { IfOk result (λ can. Decides can (CanPrepare world.now.setup (world_of world.now) pod.now)) }
{
    for place in 0..world.store().count(Kind::Node) {
        if can_prepare_at(alloc, world, pod, place)? {
            return Ok(true);
        }
    }
    Ok(false)
}

/// The same of the node at a place.
fn can_prepare_at(
    alloc: Global,
    world: &World,
    pod: &Pod,
    place: usize,
) -> Result<bool, OutOfMemory>
    requires { HaveNoNamespace (world_of world.now).store.rows }
    ensures { IfOk result (λ can. Decides can (CanPrepareAt world.now.setup (world_of world.now) pod.now place)) }
{
    match world.store().at(Kind::Node, place) {
        Some(Object::Node(node)) => can_prepare_on(alloc, world, pod, node),
        _ => Ok(false),
    }
}

/// The same of one node: what would be prepared there tells which claims are to be provisioned.
fn can_prepare_on(alloc: Global, world: &World, pod: &Pod, node: &Node) -> Result<bool, OutOfMemory>
    requires { HaveNoNamespace (world_of world.now).store.rows }
    ensures { IfOk result (λ can. Decides can (CanPrepareOn world.now.setup (world_of world.now) pod.now node.now)) }
{
    let found = prepare_on(alloc, world.store(), pod, node)?;
    is_given(alloc, world, node, &found)
}

/// Whether something is prepared, and the devices can give what is to be provisioned for it on the node.
fn is_given(
    alloc: Global,
    world: &World,
    node: &Node,
    found: &Option<Choice>,
) -> Result<bool, OutOfMemory>
    ensures { IfOk result (λ given. given ≡ is_given world.now.setup (world_of world.now) node.now found.now) }
{
    match found {
        Some(
            Choice::Prepare {
                node: _,
                binds: _,
                provisions,
            },
        ) => are_served(alloc, world, node, provisions.as_slice()),
        _ => Ok(false),
    }
}

/// Whether each of the claims under the keys has its data there, or a pool fits on the node.
fn are_served(alloc: Global, world: &World, node: &Node, keys: &[Key]) -> Result<bool, OutOfMemory>
    ensures { IfOk result (λ served. served ≡ list_all (key_is_served world.now.setup (world_of world.now) node.now) keys.now) }
{
    for key in keys {
        if !is_key_served(alloc, world, node, key)? {
            return Ok(false);
        }
    }
    Ok(true)
}

fn is_key_served(alloc: Global, world: &World, node: &Node, key: &Key) -> Result<bool, OutOfMemory>
    ensures { IfOk result (λ served. served ≡ key_is_served world.now.setup (world_of world.now) node.now key.now) }
{
    match world.store().row(key) {
        Some(Object::Claim(claim)) => is_claim_served(alloc, world, node, claim),
        _ => Ok(false),
    }
}

fn is_claim_served(
    alloc: Global,
    world: &World,
    node: &Node,
    claim: &Claim,
) -> Result<bool, OutOfMemory>
    ensures { IfOk result (λ served. served ≡ is_served_on world.now.setup (world_of world.now) node.now claim.now claim.now.meta.uid (row_at (class_key (class_of_claim claim.now)) (world_of world.now).store.rows)) }
{
    match claim.meta.uid {
        None => Ok(false),
        Some(uid) => {
            match row_named(world.store(), Kind::StorageClass, "", class_of_claim(claim)) {
                Some(Object::Class(class)) => is_class_served(
                    alloc, world, node, claim, uid, class,
                ),
                _ => Ok(false),
            }
        }
    }
}

fn is_class_served(
    alloc: Global,
    world: &World,
    node: &Node,
    claim: &Claim,
    uid: Uid,
    class: &Class,
) -> Result<bool, OutOfMemory>
    ensures { IfOk result (λ served. served ≡ is_served world.now.setup (world_of world.now).devices claim.now uid class.now (Some node.now.meta.labels)) }
{
    let name = data_name(alloc, uid)?;
    let labels = Some(&node.meta.labels);
    Ok(is_served(world, &name, &class.provisioner, claim.amount.bytes, labels))
}

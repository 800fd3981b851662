//! A turn: what is idle is detached, and then what is asked for is attached.

ghost use Rattle.std.specs.Prelude.{◌≡◌, ◌++◌, ◌∷◌, [], OnErr, OnOk, None, false};
ghost use Rattle.std.specs.Option.{option_copied};
ghost use Rattle.binder_model.specs.World.{world as world_of};
ghost use Rattle.binder_model.specs.Choice.{claim_named};
ghost use Rattle.attach_law.specs.declared.attachment.AttachAsk.TheVariants.{Attach, Detach};
ghost use Rattle.attach_law.specs.Attached.{is_attached};
ghost use Rattle.attach_law.specs.Calls.{after_attach, attach_fault, without_attachment};
ghost use Rattle.attach_law.specs.Next.{ask_for_claim, first_idle, next};
ghost use Rattle.attach_control.specs.Steps.Trying.{Continues, IsTried, pod_that_asks};

use crate::asking::volume_for;
use crate::idle::is_idle;
use crate::list::{put_volume, take_out};
use crate::objects::volume_with;
use attach_law::attachment::{AttachAsk, Attachment};
use kube_types::bindings::{is_deleting, is_scheduled};
use kube_types::copies::{OutOfMemory, Plain};
use kube_types::lookup::Lookup;
use kube_types::objects::{Object, Pod};
use kube_types::parts::Kind;
use kube_types::text::Text;
use kube_types::uid::Uid;
use std::alloc::Global;
use world_core::world::World;

/// Detaches the volume, and notes it.
fn detach_noted(
    alloc: Global,
    list: &mut Vec<Attachment>,
    asks: &mut Vec<AttachAsk>,
    volume: Uid,
    node: Text,
) -> Result<(), OutOfMemory>
    ensures list { OnOk result (list.new.items ≡ without_attachment volume node list.old.items) }
    ensures asks { OnOk result (asks.new.items ≡ asks.old.items ++ Detach volume node ∷ []) }
    ensures err { OnErr result ((list.new.items ≡ list.old.items) × (asks.new.items ≡ asks.old.items)) }
{
    let noted = node.copy(alloc)?;
    asks.push(AttachAsk::Detach {
        volume,
        node: noted,
    })?;
    take_out(list, volume, &node);
    Ok(())
}

/// Detaches each attachment that is idle, in order.
pub(crate) fn detach_idle(
    alloc: Global,
    world: &World,
    list: &mut Vec<Attachment>,
    asks: &mut Vec<AttachAsk>,
) -> Result<(), OutOfMemory>
    ensures made { Continues (world_of world.now.setup world.now.past) asks.old.items list.old.items asks.new.items list.new.items }
    ensures idle { OnOk result (first_idle (world_of world.now.setup world.now.past) list.new.items ≡ None) }
{
    let mut at = 0;
    while at < list.as_slice().len() {
        let attachment = &list[at];
        if is_idle(world, attachment) {
            let volume = attachment.volume;
            let node = attachment.node.copy(alloc)?;
            detach_noted(alloc, list, asks, volume, node)?;
        } else {
            at += 1;
        }
    }
    Ok(())
}

/// Attaches a volume that is not attached and is not refused, and notes it.
fn attach_noted<L: Lookup>(
    alloc: Global,
    lookup: &L,
    list: &mut Vec<Attachment>,
    asks: &mut Vec<AttachAsk>,
    volume: Uid,
    node: &Text,
) -> Result<(), OutOfMemory>
    requires free { attach_fault (L.rows lookup.now) volume node.now list.old.items ≡ None }
    requires apart { is_attached volume node.now list.old.items ≡ false }
    ensures list { OnOk result (list.new.items ≡ after_attach (L.rows lookup.now) volume node.now list.old.items) }
    ensures asks { OnOk result (asks.new.items ≡ asks.old.items ++ Attach volume node.now ∷ []) }
    ensures err { OnErr result ((list.new.items ≡ list.old.items) × (asks.new.items ≡ asks.old.items)) }
{
    let noted = node.copy(alloc)?;
    asks.reserve(1)?;
    if let Some(found) = volume_with(lookup, volume) {
        put_volume(alloc, list, found, volume, node)?;
    }
    asks.push_reserved(AttachAsk::Attach {
        volume,
        node: noted,
    });
    Ok(())
}

/// Attaches the own volume of the pod's claim of this name, where that is asked for.
fn try_claim(
    alloc: Global,
    world: &World,
    list: &mut Vec<Attachment>,
    asks: &mut Vec<AttachAsk>,
    pod: &Pod,
    name: &Text,
) -> Result<(), OutOfMemory>
    ensures ok { OnOk result (IsTried (world_of world.now.setup world.now.past) (ask_for_claim (world_of world.now.setup world.now.past).store.rows list.old.items pod.now.node (claim_named (world_of world.now.setup world.now.past).store.rows pod.now.meta.namespace name.now)) list.old.items asks.old.items list.new.items asks.new.items) }
    ensures err { OnErr result ((list.new.items ≡ list.old.items) × (asks.new.items ≡ asks.old.items)) }
{
    match volume_for(world.store(), list, pod, name) {
        None => Ok(()),
        Some(volume) => attach_noted(alloc, world.store(), list, asks, volume, &pod.node),
    }
}

/// The pod that is the object, where it is scheduled and stays.
fn pod_that_asks(object: &Object) -> Option<&Pod>
    ensures { option_copied result ≡ pod_that_asks object.now }
{
    match object {
        Object::Pod(pod) => {
            if is_scheduled(pod) && !is_deleting(&pod.meta) {
                Some(pod)
            } else {
                None
            }
        }
        _ => None,
    }
}

/// Attaches what is asked for, pod by pod and claim by claim, where nothing is idle.
pub(crate) fn attach_asked(
    alloc: Global,
    world: &World,
    list: &mut Vec<Attachment>,
    asks: &mut Vec<AttachAsk>,
) -> Result<(), OutOfMemory>
    requires { first_idle (world_of world.now.setup world.now.past) list.old.items ≡ None }
    ensures made { Continues (world_of world.now.setup world.now.past) asks.old.items list.old.items asks.new.items list.new.items }
    ensures done { OnOk result (next (world_of world.now.setup world.now.past) list.new.items ≡ None) }
{
    // A history has no two objects of one UID: what is attached for a pod is used by it, and so is never idle.
    let _ = world.history();
    for object in world.store().of_kind(Kind::Pod) {
        if let Some(pod) = pod_that_asks(object) {
            for name in pod.claims.as_slice() {
                try_claim(alloc, world, list, asks, pod, name)?;
            }
        }
    }
    Ok(())
}

//! Which attachments are idle: no pod of the node uses the volume, and no mount there has it.

ghost use Rattle.std.specs.Prelude.{◌≡◌, IfOk};
ghost use Rattle.std.specs.Option.{option_copied};
ghost use Rattle.std.specs.List.{list_any};
ghost use Rattle.binder_model.specs.World.{world as world_of};
ghost use Rattle.attach_law.specs.Next.{first_idle, is_idle, is_used, is_used_claim, is_user_on};

use crate::objects::{user_of, volume_with};
use attach_law::attachment::{AttachAsk, Attachment};
use kube_types::bindings::{carries, uses};
use kube_types::copies::{OutOfMemory, Plain};
use kube_types::lookup::Lookup;
use kube_types::objects::{Claim, Object, Volume};
use kube_types::parts::Kind;
use kube_types::text::Text;
use std::alloc::Global;
use world_core::world::World;

/// Whether the object is a pod that is scheduled on the node and uses the claim.
fn is_user_on(node: &Text, claim: &Claim, object: &Object) -> bool
    ensures { result ≡ is_user_on node.now claim.now object.now }
{
    match object {
        Object::Pod(pod) => pod.node.is(node.as_str()) && uses(claim, object),
        _ => false,
    }
}

/// Whether one of these objects is such a pod.
fn has_user_on(node: &Text, claim: &Claim, objects: &[Object]) -> bool
    ensures { result ≡ list_any (is_user_on node.now claim.now) objects.now }
{
    for object in objects {
        if is_user_on(node, claim, object) {
            return true;
        }
    }
    false
}

/// Whether there is such a pod.
fn has_user<L: Lookup>(lookup: &L, node: &Text, claim: &Claim) -> bool
    ensures { result ≡ list_any (is_user_on node.now claim.now) (L.rows lookup.now) }
{
    has_user_on(node, claim, lookup.of_kind(Kind::Pod))
}

/// Whether the object is a claim that the volume carries, and such a pod uses it.
fn is_used_claim<L: Lookup>(lookup: &L, volume: &Volume, node: &Text, object: &Object) -> bool
    ensures { result ≡ is_used_claim (L.rows lookup.now) volume.now node.now object.now }
{
    match object {
        Object::Claim(claim) => carries(volume, claim) && has_user(lookup, node, claim),
        _ => false,
    }
}

/// Whether one of these objects is such a claim.
fn has_used_claim<L: Lookup>(lookup: &L, volume: &Volume, node: &Text, objects: &[Object]) -> bool
    ensures { result ≡ list_any (is_used_claim (L.rows lookup.now) volume.now node.now) objects.now }
{
    for object in objects {
        if is_used_claim(lookup, volume, node, object) {
            return true;
        }
    }
    false
}

/// Whether there is such a claim.
fn has_used<L: Lookup>(lookup: &L, volume: &Volume, node: &Text) -> bool
    ensures { result ≡ list_any (is_used_claim (L.rows lookup.now) volume.now node.now) (L.rows lookup.now) }
{
    let claims = lookup.of_kind(Kind::PersistentVolumeClaim);
    has_used_claim(lookup, volume, node, claims)
}

/// Whether a pod that is scheduled on the node uses a claim which the volume carries.
fn is_used<L: Lookup>(lookup: &L, volume: Option<&Volume>, node: &Text) -> bool
    ensures { result ≡ is_used (L.rows lookup.now) (option_copied volume.entry) node.now }
{
    match volume {
        None => false,
        Some(volume) => has_used(lookup, volume, node),
    }
}

/// Whether the attachment is idle.
pub(crate) fn is_idle(world: &World, attachment: &Attachment) -> bool
    ensures { result ≡ is_idle (world_of world.now.setup world.now.past) attachment.now }
{
    let volume = volume_with(world.store(), attachment.volume);
    if is_used(world.store(), volume, &attachment.node) {
        return false;
    }
    let mounts = world.devices().mounts(&attachment.node);
    user_of(world.store(), attachment.volume, mounts).is_none()
}

/// The first idle attachment is to be detached.
pub(crate) fn first_idle(
    alloc: Global,
    world: &World,
    list: &[Attachment],
) -> Result<Option<AttachAsk>, OutOfMemory>
    ensures { IfOk result (λ ask. ask ≡ first_idle (world_of world.now.setup world.now.past) list.now) }
{
    for attachment in list {
        if is_idle(world, attachment) {
            return Ok(Some(AttachAsk::Detach {
                volume: attachment.volume,
                node: attachment.node.copy(alloc)?,
            }));
        }
    }
    Ok(None)
}

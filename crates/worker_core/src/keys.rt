//! The keys of an actor: which are queued, and which of them gives a call.

ghost use Rattle.std.specs.Prelude.{◌≡◌, IfOk, None, OnOk, is_some, map};
ghost use Rattle.kube_objects.specs.Keys.{key_of, row_at};
ghost use Rattle.informer_cache.specs.All.{all_objects};
ghost use Rattle.worker_core.specs.Absorbs.{all_added, kind_added, kinds_added};
ghost use Rattle.worker_core.specs.Roles.{IsBuiltKind};
ghost use Rattle.worker_core.specs.States.{agent_start, start_call};
ghost use Rattle.worker_core.specs.Tasks.{IsAgentFirst, IsDecision};
ghost use Rattle.worker_core.specs.Turns.{Decides};

use crate::memory::Remembered;
use crate::near::Near;
use crate::rests::rests;
use crate::role::Role;
use crate::task::{
    First, Under, first_of_agent, first_of_binder, first_of_claims, first_of_ops,
    first_of_scheduler, first_of_volumes,
};
use call_types::request::SeatKind;
use informer_cache::caches::Caches;
use kube_types::copies::{OutOfMemory, Plain};
use kube_types::key::Key;
use kube_types::lookup::Lookup;
use kube_types::objects::Object;
use kube_types::parts::Kind;
use kube_types::text::Text;
use std::alloc::Global;
use sync_queue::queue::Queue;
use volume_match::place_near;

/// What the decision on the key comes to. Where its row rests, no task is made room for.
fn first_for<L: Lookup>(
    alloc: Global,
    role: &Role,
    memory: &Remembered,
    lookup: &L,
    key: &Key,
) -> Result<First, OutOfMemory>
    requires built { IsBuiltKind role.now.kind }
    requires started { start_call role.now memory.now ≡ None }
    ensures { IfOk result (λ first. IsDecision role.now memory.now (L.rows lookup.now) key.now first) }
{
    if rests(role.kind, lookup, lookup.row(key)) {
        return Ok(First::Drops);
    }
    decided(alloc, role, memory, lookup, key)
}

/// What the decision on the key comes to, by the kind of the actor.
#[inline(never)]
fn decided<L: Lookup>(
    alloc: Global,
    role: &Role,
    memory: &Remembered,
    lookup: &L,
    key: &Key,
) -> Result<First, OutOfMemory>
    requires built { IsBuiltKind role.now.kind }
    requires started { start_call role.now memory.now ≡ None }
    ensures { IfOk result (λ first. IsDecision role.now memory.now (L.rows lookup.now) key.now first) }
{
    match role.kind {
        SeatKind::Binder => first_of_binder(alloc, lookup, key),
        SeatKind::Ops => first_of_ops(alloc, lookup, key),
        SeatKind::Scheduler => {
            first_of_scheduler(alloc, lookup, memory.tries.refused.as_slice(), key)
        }
        SeatKind::ClaimProtect => first_of_claims(alloc, lookup, key),
        SeatKind::VolumeProtect => first_of_volumes(alloc, lookup, key),
        SeatKind::Agent => first_for_agent(alloc, &role.node, memory, lookup, key),
        SeatKind::User => Ok(First::Drops),
    }
}

/// What an agent's decision on the key comes to, once its start is made.
fn first_for_agent<L: Lookup>(
    alloc: Global,
    node: &Text,
    memory: &Remembered,
    lookup: &L,
    key: &Key,
) -> Result<First, OutOfMemory>
    requires { agent_start node.now memory.now.epoch (is_some memory.now.mounts) ≡ None }
    ensures { IfOk result (λ first. IsAgentFirst node.now memory.now.epoch memory.now.mounts (row_at key.now (L.rows lookup.now)) first) }
{
    match (memory.epoch, &memory.mounts) {
        (Some(epoch), Some(rows)) => {
            first_of_agent(alloc, lookup, node, epoch, rows.as_slice(), key)
        }
        _ => Ok(First::Drops),
    }
}

/// Where the row of the key is, or is likely to be: at `near`, as a wake queues the keys in the order of the rows. No decision
/// depends on it.
fn likely_place(caches: &Caches, key: &Key, near: usize) -> usize {
    let found = place_near(
        caches,
        key.kind,
        key.namespace.as_str(),
        key.name.as_str(),
        near,
    );
    match found {
        Some(place) => place,
        None => near,
    }
}

/// The waiting keys are decided, the oldest first, until one gives a call or none is left.
pub(crate) fn decide_keys(
    alloc: Global,
    role: &Role,
    memory: &Remembered,
    caches: &Caches,
    queue: &mut Queue,
) -> Result<Option<Under>, OutOfMemory>
    requires built { IsBuiltKind role.now.kind }
    requires started { start_call role.now memory.now ≡ None }
    ensures { IfOk result (λ under. Decides role.now memory.now (all_objects caches.now) queue.new under queue.old) }
{
    let mut near = 0;
    loop {
        let _ = queue.len();
        let key = match queue.take_shared()? {
            None => return Ok(None),
            Some(key) => key,
        };
        let lent = key.get();
        let place = likely_place(caches, lent, near);
        near = place.saturating_add(1);
        let seen = Near { caches, place };
        match first_for(alloc, role, memory, &seen, lent)? {
            First::Drops => queue.done(lent),
            First::Queues(other) => {
                queue.add(&other)?;
                queue.done(lent);
            }
            First::Begins(task) => match task.next(alloc)? {
                None => queue.done(lent),
                Some(call) => {
                    let own = lent.copy(alloc)?;
                    return Ok(Some(Under {
                        key: own,
                        task,
                        call,
                    }));
                }
            },
        }
    }
}

/// Queues the keys, in order.
pub(crate) fn add_all(queue: &mut Queue, keys: &[Key]) -> Result<(), OutOfMemory>
    ensures { OnOk result (queue.new ≡ all_added keys.now queue.old) }
{
    for key in keys {
        queue.add(key)?;
    }
    Ok(())
}

/// Queues the keys of the objects, in order.
fn add_objects(queue: &mut Queue, objects: &[Object]) -> Result<(), OutOfMemory>
    ensures { OnOk result (queue.new ≡ all_added (map key_of objects.now) queue.old) }
{
    for object in objects {
        queue.add_object(object)?;
    }
    Ok(())
}

/// Queues every cached key of a kind, in the order of namespace and name.
fn add_kind(queue: &mut Queue, caches: &Caches, kind: Kind) -> Result<(), OutOfMemory>
    ensures { OnOk result (queue.new ≡ kind_added caches.now kind queue.old) }
{
    add_objects(queue, caches.cache(kind).objects())
}

/// Queues every cached key, in the order of the kinds and then of namespace and name.
pub(crate) fn add_cached(
    queue: &mut Queue,
    caches: &Caches,
    kinds: &[Kind],
) -> Result<(), OutOfMemory>
    ensures { OnOk result (queue.new ≡ kinds_added caches.now kinds.now queue.old) }
{
    for kind in kinds {
        add_kind(queue, caches, *kind)?;
    }
    Ok(())
}

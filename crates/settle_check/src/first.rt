//! The first action that is due.

ghost use Rattle.std.specs.Prelude.{◌≡◌, IfOk, Some};
ghost use Rattle.kube_objects.specs.Keys.{key_of, row_at};
ghost use Rattle.binder_model.specs.Due.{IsDue, IsFirstDue};
ghost use Rattle.settle_check.specs.ClaimDues.{claim_due_rows};
ghost use Rattle.settle_check.specs.First.{first_key};
ghost use Rattle.settle_check.specs.VolumeDues.{volume_due_rows};
ghost use Rattle.settle_check.specs.WorldOf.{world_of};
ghost use Rattle.settle_check.specs.Steps.Scan.{IsFirstIn, first_pair};

use crate::claim_table::claim_due_table;
use crate::objects::{due_of_claim, due_of_pod};
use crate::volume_table::volume_due_table;
use crate::volumes::due_of_volume;
use case_table::CaseTable;
use kube_types::copies::OutOfMemory;
use kube_types::key::{Key, key_of};
use kube_types::names::Due;
use kube_types::objects::Object;
use std::alloc::Global;
use world_core::world::World;

/// An object, and the action that is due for it.
#[derive(Clone, Copy, Debug)]
pub struct FirstDue<'a> {
    pub object: &'a Object,
    pub action: Due,
}

/// What is due for the object, which stands in the store.
fn object_due(
    alloc: Global,
    world: &World,
    object: &Object,
    volumes: &CaseTable<11, 21>,
    claims: &CaseTable<12, 18>,
) -> Result<Option<Due>, OutOfMemory>
    requires stands { row_at (key_of object.now) (world_of world.now).store.rows ≡ Some object.now }
    requires volumes { volumes.now ≡ volume_due_rows }
    requires claims { claims.now ≡ claim_due_rows }
    ensures { IfOk result (λ action. IsDue world.now.setup (world_of world.now) object.now action) }
{
    match object {
        Object::Volume(volume) => Ok(due_of_volume(world.store(), volume, volumes)),
        Object::Claim(claim) => due_of_claim(alloc, world, claim, claims),
        Object::Pod(pod) => due_of_pod(alloc, world, pod),
        Object::Class(_) | Object::Node(_) => Ok(None),
    }
}

/// The first object for which something is due, in the order of keys.
fn scan(alloc: Global, world: &World) -> Result<Option<FirstDue<'_>>, OutOfMemory>
    ensures { IfOk result (λ first. IsFirstIn (IsDue world.now.setup (world_of world.now)) (world_of world.now).store.rows (first_pair first)) }
{
    let volumes = volume_due_table();
    let claims = claim_due_table();
    let objects = world.store().objects();
    for object in objects {
        if let Some(action) = object_due(alloc, world, object, &volumes, &claims)? {
            return Ok(Some(FirstDue { object, action }));
        }
    }
    Ok(None)
}

/// The first object for which something is due, in the order of kinds, namespaces and names; none exactly where the world
/// is settled. One scan over the objects, which ends at the first that is due; only what the provisioner and the
/// scheduler would do takes memory.
pub fn first_due(alloc: Global, world: &World) -> Result<Option<FirstDue<'_>>, OutOfMemory>
    ensures { IfOk result (λ first. IsFirstDue world.now.setup (world_of world.now) (first_key first)) }
{
    scan(alloc, world)
}

/// The key of the first object for which something is due, in the order of kinds, namespaces and names, with the action;
/// none exactly where the world is settled.
pub fn due(alloc: Global, world: &World) -> Result<Option<(Key, Due)>, OutOfMemory>
    ensures { IfOk result (λ first. IsFirstDue world.now.setup (world_of world.now) first) }
{
    match first_due(alloc, world)? {
        None => Ok(None),
        Some(first) => Ok(Some((key_of(alloc, first.object)?, first.action))),
    }
}

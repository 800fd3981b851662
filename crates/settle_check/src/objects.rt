//! What the actors have to do together for a claim and for a pod.

ghost use Rattle.std.specs.Prelude.{◌≡◌, IfOk, Some};
ghost use Rattle.kube_objects.specs.declared.objects.Object.TheVariants as objects;
ghost use Rattle.kube_objects.specs.Keys.{row_at};
ghost use Rattle.binder_model.specs.Due.{IsDue};
ghost use Rattle.binder_model.specs.ObjectKeys.{claim_key};
ghost use Rattle.settle_check.specs.ClaimDues.{claim_due_rows};
ghost use Rattle.settle_check.specs.WorldOf.{world_of};

use crate::agent::agent_due;
use crate::claims::kept_due;
use crate::provision::provision_due;
use crate::scheduling::scheduling_due;
use case_table::CaseTable;
use kube_types::bindings::is_scheduled;
use kube_types::copies::OutOfMemory;
use kube_types::names::Due;
use kube_types::objects::{Claim, Pod};
use std::alloc::Global;
use world_core::world::World;

/// What is due for the claim, which stands in the store: what protection has to do comes first, and the provisioner last.
pub(crate) fn due_of_claim(
    alloc: Global,
    world: &World,
    claim: &Claim,
    table: &CaseTable<12, 18>,
) -> Result<Option<Due>, OutOfMemory>
    requires stands { row_at (claim_key claim.now.meta.namespace claim.now.meta.name) (world_of world.now).store.rows ≡ Some (objects.Claim claim.now) }
    requires table { table.now ≡ claim_due_rows }
    ensures { IfOk result (λ action. IsDue world.now.setup (world_of world.now) (objects.Claim claim.now) action) }
{
    match kept_due(world.store(), claim, table) {
        Some(action) => Ok(Some(action)),
        None => provision_due(alloc, world, claim),
    }
}

/// What is due for the pod: of the agent of its node, or of the scheduler where no node runs it.
pub(crate) fn due_of_pod(
    alloc: Global,
    world: &World,
    pod: &Pod,
) -> Result<Option<Due>, OutOfMemory>
    ensures { IfOk result (λ action. IsDue world.now.setup (world_of world.now) (objects.Pod pod.now) action) }
{
    if is_scheduled(pod) {
        Ok(agent_due(world, pod))
    } else {
        scheduling_due(alloc, world, pod)
    }
}

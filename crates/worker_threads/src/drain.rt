//! Rounds while something is due.

ghost use Rattle.std.specs.Prelude.{◌≡◌, ◌≤◌, ◌<◌, ◌-◌, ℕ, IfOk, OnOk, OnErr, Some};
ghost use Rattle.binder_model.specs.Told.{own};
ghost use Rattle.binder_model.specs.Due.{IsSettled};
ghost use Rattle.settle_check.specs.WorldOf.{world_of};
ghost use Rattle.size_law.specs.Calls.Calls.{AreByActors};
ghost use Rattle.actor_rounds.specs.Drainers.{AreStanding, roles_of, seats_of};
ghost use Rattle.actor_rounds.specs.Longer.{HasGrown, IsLonger, IsOneOf, users_of};
ghost use Rattle.actor_rounds.specs.Rounds.{Drains, EndsHere, EndsWith, all_pass, made_of};
ghost use Rattle.worker_threads.specs.Settling.{DrainSettles, RoundsOfDrainAreShort, RoundsOfDrainLast};

use crate::round::round;
use actor_rounds::drainers::Drainers;
use kube_types::copies::OutOfMemory;
use kube_types::key::key_of;
use settle_check::first_due;
use std::alloc::Global;
use world_core::drained::Drained;
use world_core::kept::KeptWorld;
use world_core::world::World;

/// Makes rounds while something is due and calls are left. A drain that finds the world settled makes no call. After want
/// of memory the entries that were made stand, and the drainers may only be made anew.
pub fn drain(
    world: &mut KeptWorld,
    drainers: &mut Drainers,
    budget: u64,
) -> Result<Drained, OutOfMemory>
    requires stands { AreStanding drainers.old world.old.past }
    ensures ends { IfOk result (λ d. EndsWith world.new.setup world.new.past budget d) }
    ensures rounds { IfOk result (λ d. Drains all_pass world.old.setup drainers.new world.new.past (budget - made_of d) drainers.old world.old.past budget) }
    ensures stands { OnOk result (AreStanding drainers.new world.new.past) }
    ensures entries { IfOk result (λ d. IsLonger (seats_of drainers.old) (made_of d) world.old.past world.new.past) }
    ensures others { (seat : ℕ) → (IsOneOf (seats_of drainers.old) seat → ⊥) → own seat world.new.past ≡ own seat world.old.past }
    ensures few { IfOk result (λ d. made_of d ≤ budget) }
    ensures lasting { IfOk result (λ d. RoundsOfDrainLast world.old.setup drainers.new world.new.past (budget - made_of d) drainers.old world.old.past budget) }
    ensures short { IfOk result (λ d. RoundsOfDrainAreShort world.old.setup drainers.new world.new.past (budget - made_of d) drainers.old world.old.past budget) }
    ensures settles { IfOk result (λ d. DrainSettles world.old.setup drainers.old world.old.past world.new.past budget d) }
    ensures none { OnOk result (IsSettled world.old.setup (world_of world.old) → world.new.past ≡ world.old.past) }
    ensures err { OnErr result (HasGrown (seats_of drainers.old) world.old.past world.new.past) }
    ensures users { users_of world.new.past ≡ users_of world.old.past }
    ensures actors { AreByActors world.old.past → AreByActors world.new.past }
    ensures setup { world.new.setup ≡ world.old.setup }
    ensures seats { seats_of drainers.new ≡ seats_of drainers.old }
    ensures roles { OnOk result (roles_of drainers.new ≡ roles_of drainers.old) }
{
    let mut left = budget;
    'rounds: loop {
        match ended(drainers.allocator(), world.world(), budget, left)? {
            Some(drained) => return Ok(drained),
            None => {
                let rounded = round(world, drainers, left)?;
                left -= rounded.made;
            }
        }
    }
}

/// How the drain ends here, with so many calls left of the budget; none where it goes on.
fn ended(
    alloc: Global,
    world: &World,
    budget: u64,
    left: u64,
) -> Result<Option<Drained>, OutOfMemory>
    requires { left ≤ budget }
    ensures { IfOk result (λ ended. EndsHere world.now.setup world.now.past budget left ended) }
{
    match first_due(alloc, world)? {
        None => Ok(Some(Drained::Settled {
            made: budget - left,
        })),
        Some(first) => {
            if left == 0 {
                let key = key_of(alloc, first.object)?;
                Ok(Some(Drained::Spent {
                    made: budget,
                    key,
                    due: first.action,
                }))
            } else {
                Ok(None)
            }
        }
    }
}

//! The turns of a round.

ghost use Rattle.std.specs.Prelude.{◌≡◌, ◌≢◌, ◌<◌, ℕ, [], ◌∷◌, IfOk, OnOk, true};
ghost use Rattle.call_types.specs.declared.request.SeatKind.TheVariants.{Agent};
ghost use Rattle.worker_core.specs.Absorbs.{woken};
ghost use Rattle.size_law.specs.Calls.Calls.{AreByActors};
ghost use Rattle.actor_rounds.specs.Drainers.{AreIdle, AreSeats, AreStanding, IsIdleNow, IsStanding, roles_of, seats_of};
ghost use Rattle.actor_rounds.specs.Longer.{HasGrown, users_of};
ghost use Rattle.actor_rounds.specs.Rounds.{IsRound, OrdersNone, Runs, ServesSeats};

use crate::answering::answers::Answers;
use crate::drainers::{Drainer, Drainers};
use crate::run::{Ran, run};
use kube_types::copies::OutOfMemory;

/// Makes one turn of each drainer, with at most so many calls in all: in its turn it is woken, and runs until it is idle. All
/// were idle where `idle` says so. After want of memory the entries that were made stand, and the drainers may only be made anew.
pub fn turns<W: Answers>(
    desk: &mut W,
    drainers: &mut Drainers,
    budget: u64,
) -> Result<Ran, OutOfMemory>
    requires serves { ServesSeats (W.serves desk.old) (seats_of drainers.old) }
    requires free { OrdersNone (W.orders desk.old) }
    requires stands { AreStanding drainers.old (W.past desk.old) }
    ensures round { IfOk result (λ ran. IsRound (W.lets desk.old) (W.past desk.new) ran.left drainers.old (W.past desk.old) budget drainers.new ran.idle) }
    ensures stands { OnOk result (AreStanding drainers.new (W.past desk.new)) }
    ensures idle { IfOk result (λ ran. ran.idle ≡ true → AreIdle drainers.new (W.past desk.new)) }
    ensures some { IfOk result (λ ran. 0 < budget → ran.left < budget) }
    ensures grown { HasGrown (seats_of drainers.old) (W.past desk.old) (W.past desk.new) }
    ensures users { users_of (W.past desk.new) ≡ users_of (W.past desk.old) }
    ensures actors { AreByActors (W.past desk.old) → AreByActors (W.past desk.new) }
    ensures lets { W.lets desk.new ≡ W.lets desk.old }
    ensures setup { W.setup desk.new ≡ W.setup desk.old }
    ensures lent { W.lent desk.new ≡ W.lent desk.old }
    ensures serves { OnOk result ((seat : ℕ) → W.serves desk.old seat → W.serves desk.new seat) }
    ensures orders { OnOk result (OrdersNone (W.orders desk.new)) }
    ensures differ { AreSeats (seats_of drainers.new) }
    ensures seats { seats_of drainers.new ≡ seats_of drainers.old }
    ensures roles { OnOk result (roles_of drainers.new ≡ roles_of drainers.old) }
{
    let mut left = budget;
    let mut whole = true;
    for place in 0..drainers.list.len() {
        let ran = turn(desk, &mut drainers.list[place], left)?;
        left = ran.left;
        whole = whole && ran.idle;
    }
    Ok(Ran { left, idle: whole })
}

/// One drainer's turn: it is woken, and runs until it is idle. An agent whose epoch is stale is idle at once.
fn turn<W: Answers>(desk: &mut W, drainer: &mut Drainer, budget: u64) -> Result<Ran, OutOfMemory>
    requires serves { W.serves desk.old drainer.old.seat }
    requires free { OrdersNone (W.orders desk.old) }
    requires stands { IsStanding drainer.old (W.past desk.old) }
    ensures runs { IfOk result (λ ran. Runs (W.lets desk.old) drainer.old.seat drainer.new.actor (W.past desk.new) ran.left ran.idle (woken drainer.old.actor) (W.past desk.old) budget) }
    ensures stands { OnOk result (IsStanding drainer.new (W.past desk.new)) }
    ensures idle { IfOk result (λ ran. ran.idle ≡ true → IsIdleNow drainer.new (W.past desk.new)) }
    ensures some { IfOk result (λ ran. drainer.old.actor.role.kind ≢ Agent → 0 < budget → ran.left < budget) }
    ensures role { OnOk result (drainer.new.actor.role ≡ drainer.old.actor.role) }
    ensures grown { HasGrown (drainer.old.seat ∷ []) (W.past desk.old) (W.past desk.new) }
    ensures users { users_of (W.past desk.new) ≡ users_of (W.past desk.old) }
    ensures actors { AreByActors (W.past desk.old) → AreByActors (W.past desk.new) }
    ensures lets { W.lets desk.new ≡ W.lets desk.old }
    ensures setup { W.setup desk.new ≡ W.setup desk.old }
    ensures lent { W.lent desk.new ≡ W.lent desk.old }
    ensures serves { OnOk result ((seat : ℕ) → W.serves desk.old seat → W.serves desk.new seat) }
    ensures orders { OnOk result (OrdersNone (W.orders desk.new)) }
    ensures seat { drainer.new.seat ≡ drainer.old.seat }
{
    let kind = drainer.actor.kind();
    drainer.actor.wake()?;
    run(desk, drainer.seat, kind, &mut drainer.actor, budget)
}

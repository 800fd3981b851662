//! One round of a drain.

ghost use Rattle.std.specs.Prelude.{◌≡◌, ◌≤◌, ◌<◌, ◌-◌, ℕ, IfOk, OnOk, OnErr, false, true};
ghost use Rattle.binder_model.specs.Told.{own};
ghost use Rattle.size_law.specs.Calls.Calls.{AreByActors};
ghost use Rattle.actor_rounds.specs.Drainers.{AreAtRest, AreIdle, AreStanding, roles_of, seats_of};
ghost use Rattle.actor_rounds.specs.Longer.{GrowsWithin, HasGrown, IsLonger, IsOneOf, users_of};
ghost use Rattle.actor_rounds.specs.Rounds.{IsRound, OrdersNone, ServesSeats, all_pass};
ghost use Rattle.worker_threads.specs.Settling.{RoundIsShort, RoundLasts};

use actor_rounds::answering::answers::Answers;
use actor_rounds::drainers::Drainers;
use actor_rounds::turns::turns;
use kube_types::copies::OutOfMemory;

/// What a round came to: how many calls it made, and whether each actor was idle at the end of its turn.
#[derive(Clone, Copy, Debug, PartialEq, Eq)]
pub struct Rounded {
    pub made: u64,
    pub whole: bool,
}

/// Makes one round with at most so many calls: each drainer in its turn is woken, and runs until it is idle. The round is
/// whole where each was idle, and fails to be only where the budget was spent. After want of memory the entries that were
/// made stand, and the drainers may only be made anew. What answers the calls answers all seats of the drainers, in any
/// order; it may hold calls back, and these count.
pub fn round<W: Answers>(
    desk: &mut W,
    drainers: &mut Drainers,
    budget: u64,
) -> Result<Rounded, OutOfMemory>
    requires serves { ServesSeats (W.serves desk.old) (seats_of drainers.old) }
    requires free { OrdersNone (W.orders desk.old) }
    requires stands { AreStanding drainers.old (W.past desk.old) }
    ensures round { IfOk result (λ r. IsRound (W.lets desk.old) (W.past desk.new) (budget - r.made) drainers.old (W.past desk.old) budget drainers.new r.whole) }
    ensures stands { OnOk result (AreStanding drainers.new (W.past desk.new)) }
    ensures within { IfOk result (λ r. GrowsWithin (seats_of drainers.old) r.made (W.past desk.old) (W.past desk.new)) }
    ensures entries { IfOk result (λ r. W.lets desk.old ≡ all_pass → IsLonger (seats_of drainers.old) r.made (W.past desk.old) (W.past desk.new)) }
    ensures others { (seat : ℕ) → (IsOneOf (seats_of drainers.old) seat → ⊥) → own seat (W.past desk.new) ≡ own seat (W.past desk.old) }
    ensures few { IfOk result (λ r. r.made ≤ budget) }
    ensures some { IfOk result (λ r. 0 < budget → 0 < r.made) }
    ensures idle { IfOk result (λ r. r.whole ≡ true → AreIdle drainers.new (W.past desk.new)) }
    ensures part { IfOk result (λ r. r.whole ≡ false → r.made ≡ budget) }
    ensures rests { IfOk result (λ r. r.whole ≡ true → AreAtRest drainers.new) }
    ensures lasting { IfOk result (λ r. r.whole ≡ true → RoundLasts (W.setup desk.old) (W.lets desk.old) drainers.old (W.past desk.old) (W.past desk.new)) }
    ensures short { IfOk result (λ r. RoundIsShort (W.setup desk.old) (W.lets desk.old) drainers.old (W.past desk.old) (W.past desk.new) r.made) }
    ensures err { OnErr result (HasGrown (seats_of drainers.old) (W.past desk.old) (W.past desk.new)) }
    ensures users { users_of (W.past desk.new) ≡ users_of (W.past desk.old) }
    ensures actors { AreByActors (W.past desk.old) → AreByActors (W.past desk.new) }
    ensures lets { W.lets desk.new ≡ W.lets desk.old }
    ensures setup { W.setup desk.new ≡ W.setup desk.old }
    ensures lent { W.lent desk.new ≡ W.lent desk.old }
    ensures serves { OnOk result ((seat : ℕ) → W.serves desk.old seat → W.serves desk.new seat) }
    ensures orders { OnOk result (OrdersNone (W.orders desk.new)) }
    ensures seats { seats_of drainers.new ≡ seats_of drainers.old }
    ensures roles { OnOk result (roles_of drainers.new ≡ roles_of drainers.old) }
{
    let ran = turns(desk, drainers, budget)?;
    Ok(Rounded {
        made: budget - ran.left,
        whole: ran.idle,
    })
}

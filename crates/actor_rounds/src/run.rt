//! One actor that is run on what answers its calls.

ghost use Rattle.std.specs.Prelude.{◌≡◌, ◌<◌, ◌-◌, ℕ, true, [], ◌∷◌, IfOk, OnOk, OnErr};
ghost use Rattle.binder_model.specs.Licence.{Licensed};
ghost use Rattle.binder_model.specs.Told.{own};
ghost use Rattle.worker_core.specs.Roles.{IsBuiltKind};
ghost use Rattle.worker_core.specs.Stands.{AreOwn, MayBeIdle};
ghost use Rattle.size_law.specs.Calls.Calls.{AreByActors};
ghost use Rattle.actor_rounds.specs.Calling.{CameTo};
ghost use Rattle.actor_rounds.specs.Drainers.{StandsWhole};
ghost use Rattle.actor_rounds.specs.Longer.{HasGrown, users_of};
ghost use Rattle.actor_rounds.specs.Rounds.{OrdersNone, Runs};

use crate::answering::answers::Answers;
use crate::answering::asking::ask_of;
use call_types::ask::Ask;
use call_types::request::SeatKind;
use kube_types::copies::OutOfMemory;
use worker_core::actor::Actor;
use worker_core::turn::Outcome;

/// How far actors were run: how many calls of the budget are left, and whether each was idle at its end.
#[derive(Clone, Copy, Debug)]
pub struct Ran {
    pub left: u64,
    pub idle: bool,
}

/// Runs the actor at its seat until it is idle or the budget is spent.
pub(crate) fn run<W: Answers>(
    desk: &mut W,
    seat: u64,
    kind: SeatKind,
    actor: &mut Actor,
    budget: u64,
) -> Result<Ran, OutOfMemory>
    requires kind { kind ≡ actor.old.role.kind }
    requires built { IsBuiltKind kind }
    requires serves { W.serves desk.old seat }
    requires free { OrdersNone (W.orders desk.old) }
    requires stands { StandsWhole actor.old (own seat (W.past desk.old)) }
    ensures runs { IfOk result (λ ran. Runs (W.lets desk.old) seat actor.new (W.past desk.new) ran.left ran.idle actor.old (W.past desk.old) budget) }
    ensures stands { OnOk result (StandsWhole actor.new (own seat (W.past desk.new))) }
    ensures idle { IfOk result (λ ran. ran.idle ≡ true → MayBeIdle actor.new.role actor.new.memory (own seat (W.past desk.new))) }
    ensures role { OnOk result (actor.new.role ≡ actor.old.role) }
    ensures grown { HasGrown (seat ∷ []) (W.past desk.old) (W.past desk.new) }
    ensures users { users_of (W.past desk.new) ≡ users_of (W.past desk.old) }
    ensures actors { AreByActors (W.past desk.old) → AreByActors (W.past desk.new) }
    ensures serves { OnOk result ((other : ℕ) → W.serves desk.old other → W.serves desk.new other) }
    ensures orders { OnOk result (OrdersNone (W.orders desk.new)) }
    ensures lets { W.lets desk.new ≡ W.lets desk.old }
    ensures setup { W.setup desk.new ≡ W.setup desk.old }
    ensures lent { W.lent desk.new ≡ W.lent desk.old }
{
    let mut left = budget;
    while left > 0 {
        let next = actor.next()?;
        match ask_of(next, kind) {
            None => return Ok(Ran { left, idle: true }),
            Some(ask) => {
                let outcome = call(desk, seat, &ask)?;
                actor.absorb(&ask.request, outcome)?;
                left -= 1;
            }
        }
    }
    Ok(Ran { left, idle: false })
}

/// Makes one call, and is told the answer. A call that was held back is lost.
fn call<W: Answers>(desk: &mut W, seat: u64, ask: &Ask) -> Result<Outcome, OutOfMemory>
    requires serves { W.serves desk.old seat }
    requires free { OrdersNone (W.orders desk.old) }
    requires licensed { Licensed ask.now.kind (own seat (W.past desk.old)) ask.now.request }
    ensures came { IfOk result (λ outcome. CameTo (W.lets desk.old) seat ask.now.kind ask.now.request outcome (W.past desk.old) (W.past desk.new)) }
    ensures own { OnOk result (AreOwn (own seat (W.past desk.new))) }
    ensures serves { OnOk result ((other : ℕ) → W.serves desk.old other → W.serves desk.new other) }
    ensures orders { OnOk result (OrdersNone (W.orders desk.new)) }
    ensures lets { W.lets desk.new ≡ W.lets desk.old }
    ensures setup { W.setup desk.new ≡ W.setup desk.old }
    ensures lent { W.lent desk.new ≡ W.lent desk.old }
    ensures err { OnErr result (W.past desk.new ≡ W.past desk.old) }
{
    match desk.call(seat, ask, true)? {
        Some(reply) => Ok(Outcome::Told(reply)),
        None => Ok(Outcome::Lost),
    }
}

//! One call of an actor.

ghost use Rattle.std.specs.Prelude.{◌≡◌, ℕ, false, Some, IfOk, OnOk};
ghost use Rattle.binder_model.specs.Licence.{Licensed};
ghost use Rattle.binder_model.specs.Told.{own};
ghost use Rattle.actor_rounds.specs.Answers.Answered.{IsLatest, all_pass};
ghost use Rattle.worker_core.specs.Stands.{StandsFor};
ghost use Rattle.worker_core.specs.States.{asked};
ghost use Rattle.size_law.specs.Calls.Calls.{AreByActors};
ghost use Rattle.actor_turns.specs.declared.loss.Fate.TheVariants.{LostAfter, LostBefore, Told};
ghost use Rattle.actor_turns.specs.Calls.{IsCallBy};
ghost use Rattle.actor_turns.specs.Steps.Living.{GoesOn};
ghost use Rattle.actor_turns.specs.Steps.Playing.{HasCalled};

use crate::loss::Fate;
use actor_rounds::answering::answers::Answers;
use call_types::ask::Ask;
use kube_types::copies::OutOfMemory;
use worker_core::actor::Actor;
use worker_core::turn::Outcome;

/// Makes this call, which the actor has given, and tells it the answer. Says whether it was held back.
fn make_told<W: Answers>(
    desk: &mut W,
    seat: u64,
    actor: &mut Actor,
    ask: &Ask,
) -> Result<bool, OutOfMemory>
    requires kind { ask.now.kind ≡ actor.old.role.kind }
    requires asked { asked actor.old ≡ Some ask.now.request }
    requires serves { W.serves desk.old seat }
    requires latest { IsLatest (W.orders desk.old) seat (W.past desk.old) }
    requires licensed { Licensed ask.now.kind (own seat (W.past desk.old)) ask.now.request }
    ensures called { IfOk result (λ held. HasCalled seat (IsCallBy (W.lets desk.old) held Told seat ask.now.kind) (W.past desk.old) (W.past desk.new) actor.old actor.new) }
    ensures goes { IfOk result (λ held. GoesOn seat held Told ask.now.request (W.past desk.old) (W.past desk.new) actor.old actor.new) }
    ensures passes { IfOk result (λ held. W.lets desk.old ≡ all_pass → held ≡ false) }
    ensures actors { OnOk result (StandsFor actor.old (own seat (W.past desk.old)) → AreByActors (W.past desk.old) → AreByActors (W.past desk.new)) }
    ensures serves { OnOk result ((other : ℕ) → W.serves desk.old other → W.serves desk.new other) }
    ensures orders { OnOk result ((other : ℕ) → W.orders desk.new other → W.orders desk.old other) }
    ensures lets { W.lets desk.new ≡ W.lets desk.old }
    ensures setup { W.setup desk.new ≡ W.setup desk.old }
    ensures lent { W.lent desk.new ≡ W.lent desk.old }
{
    let reply = desk.call(seat, ask, true)?;
    let _built = actor.kind();
    match reply {
        Some(reply) => {
            actor.absorb(&ask.request, Outcome::Told(reply))?;
            Ok(false)
        }
        None => {
            actor.absorb(&ask.request, Outcome::Lost)?;
            Ok(true)
        }
    }
}

/// Makes this call, which the actor has given, and loses the answer. Says whether it was held back.
fn make_untold<W: Answers>(
    desk: &mut W,
    seat: u64,
    actor: &mut Actor,
    ask: &Ask,
) -> Result<bool, OutOfMemory>
    requires kind { ask.now.kind ≡ actor.old.role.kind }
    requires asked { asked actor.old ≡ Some ask.now.request }
    requires serves { W.serves desk.old seat }
    requires latest { IsLatest (W.orders desk.old) seat (W.past desk.old) }
    requires licensed { Licensed ask.now.kind (own seat (W.past desk.old)) ask.now.request }
    ensures called { IfOk result (λ held. HasCalled seat (IsCallBy (W.lets desk.old) held LostAfter seat ask.now.kind) (W.past desk.old) (W.past desk.new) actor.old actor.new) }
    ensures goes { IfOk result (λ held. GoesOn seat held LostAfter ask.now.request (W.past desk.old) (W.past desk.new) actor.old actor.new) }
    ensures passes { IfOk result (λ held. W.lets desk.old ≡ all_pass → held ≡ false) }
    ensures actors { OnOk result (StandsFor actor.old (own seat (W.past desk.old)) → AreByActors (W.past desk.old) → AreByActors (W.past desk.new)) }
    ensures serves { OnOk result ((other : ℕ) → W.serves desk.old other → W.serves desk.new other) }
    ensures orders { OnOk result ((other : ℕ) → W.orders desk.new other → W.orders desk.old other) }
    ensures lets { W.lets desk.new ≡ W.lets desk.old }
    ensures setup { W.setup desk.new ≡ W.setup desk.old }
    ensures lent { W.lent desk.new ≡ W.lent desk.old }
{
    let reply = desk.call(seat, ask, false)?;
    let _built = actor.kind();
    actor.absorb(&ask.request, Outcome::Lost)?;
    match &reply {
        Some(_) => Ok(false),
        None => Ok(true),
    }
}

/// Loses this call, which the actor has given, before its effect: it is not held back.
fn make_none<W: Answers>(
    desk: &W,
    seat: u64,
    actor: &mut Actor,
    ask: &Ask,
) -> Result<bool, OutOfMemory>
    requires asked { asked actor.old ≡ Some ask.now.request }
    ensures called { IfOk result (λ held. HasCalled seat (IsCallBy (W.lets desk.now) held LostBefore seat ask.now.kind) (W.past desk.now) (W.past desk.now) actor.old actor.new) }
    ensures goes { IfOk result (λ held. GoesOn seat held LostBefore ask.now.request (W.past desk.now) (W.past desk.now) actor.old actor.new) }
    ensures passes { IfOk result (λ held. held ≡ false) }
{
    actor.absorb(&ask.request, Outcome::Lost)?;
    Ok(false)
}

/// Makes this call, which the actor has given. Says whether it was held back.
pub(crate) fn make<W: Answers>(
    desk: &mut W,
    seat: u64,
    actor: &mut Actor,
    ask: &Ask,
    fate: Fate,
) -> Result<bool, OutOfMemory>
    requires kind { ask.now.kind ≡ actor.old.role.kind }
    requires asked { asked actor.old ≡ Some ask.now.request }
    requires serves { W.serves desk.old seat }
    requires latest { IsLatest (W.orders desk.old) seat (W.past desk.old) }
    requires licensed { Licensed ask.now.kind (own seat (W.past desk.old)) ask.now.request }
    ensures called { IfOk result (λ held. HasCalled seat (IsCallBy (W.lets desk.old) held fate seat ask.now.kind) (W.past desk.old) (W.past desk.new) actor.old actor.new) }
    ensures goes { IfOk result (λ held. GoesOn seat held fate ask.now.request (W.past desk.old) (W.past desk.new) actor.old actor.new) }
    ensures passes { IfOk result (λ held. W.lets desk.old ≡ all_pass → held ≡ false) }
    ensures actors { OnOk result (StandsFor actor.old (own seat (W.past desk.old)) → AreByActors (W.past desk.old) → AreByActors (W.past desk.new)) }
    ensures serves { OnOk result ((other : ℕ) → W.serves desk.old other → W.serves desk.new other) }
    ensures orders { OnOk result ((other : ℕ) → W.orders desk.new other → W.orders desk.old other) }
    ensures lets { W.lets desk.new ≡ W.lets desk.old }
    ensures setup { W.setup desk.new ≡ W.setup desk.old }
    ensures lent { W.lent desk.new ≡ W.lent desk.old }
{
    match fate {
        Fate::Told => make_told(desk, seat, actor, ask),
        Fate::LostAfter => make_untold(desk, seat, actor, ask),
        Fate::LostBefore => make_none(desk, seat, actor, ask),
    }
}

//! Turns of an actor, one after the other.

ghost use Rattle.std.specs.Prelude.{◌≡◌, ◌≢◌, ◌<◌, ◌+◌, ◌-◌, ◌^◌, ℕ, List, true, false, OnOk, length};
ghost use Rattle.attention_law.specs.Diligence.{Call};
ghost use Rattle.actor_rounds.specs.Answers.Answered.{all_pass};
ghost use Rattle.size_law.specs.Calls.Calls.{AreByActors};
ghost use Rattle.worker_core.specs.declared.role.Role.{Role};
ghost use Rattle.actor_turns.specs.Calls.{AreCalls};
ghost use Rattle.actor_turns.specs.Steps.Living.{Lives};
ghost use Rattle.actor_turns.specs.Steps.Playing.{OrdersLives, ServesLives, SomePlays};
ghost use Rattle.actor_work.specs.Work.Working.{AreWorkedLives, HasWorked, SomeLives};

use actor_rounds::answering::answers::Answers;
use actor_turns::player::{Player, turn};
use fault_io::gate::Listener;
use kube_types::copies::OutOfMemory;

/// Whether an actor that was woken has made no call since.
fn is_stuck(woken: bool, before: u64, made: u64) -> bool
    ensures stuck { result ≡ true → (woken ≡ true) × (made ≡ before) }
    ensures goes { result ≡ false → woken ≡ true → made ≢ before }
{
    woken && made == before
}

/// Makes so many calls, or fewer where the life that would make the next one gives none though it was woken.
pub(crate) fn turns<W: Answers, L: Listener>(
    desk: &mut W,
    player: &mut Player,
    listener: &L,
    calls: u64,
) -> Result<(), OutOfMemory>
    requires passes { W.lets desk.old ≡ all_pass }
    requires serves { ServesLives (W.serves desk.old) player.old.part }
    requires orders { OrdersLives (W.orders desk.old) player.old.part }
    requires named { player.old.part.named ≡ true }
    requires seats { player.old.part.first + length player.old.part.restarts < 2 ^ 32 }
    requires few { player.old.made + calls < 2 ^ 32 }
    requires plays { SomePlays player.old (W.past desk.old) }
    ensures part { OnOk result (player.new.part ≡ player.old.part) }
    ensures held { OnOk result (player.new.held ≡ player.old.held) }
    ensures calls { OnOk result (AreCalls all_pass player.old.held player.old.part (W.past desk.new) (player.old.made + 1) (player.new.made - player.old.made) (W.past desk.old)) }
    ensures whole { OnOk result (HasWorked player.old.part (player.old.made + calls) player.new.made (W.past desk.new)) }
    ensures each { OnOk result ((role : Role) (idle : ℕ → List Call) → Lives role player.old (W.past desk.old) idle → AreWorkedLives role player.new (W.past desk.new)) }
    ensures actors { OnOk result (AreByActors (W.past desk.old) → AreByActors (W.past desk.new)) }
    ensures plays { OnOk result (SomePlays player.new (W.past desk.new)) }
    ensures lived { OnOk result ((role : Role) (idle : ℕ → List Call) → Lives role player.old (W.past desk.old) idle → SomeLives role player.new (W.past desk.new)) }
    ensures serves { OnOk result ((other : ℕ) → W.serves desk.old other → W.serves desk.new other) }
    ensures orders { OnOk result ((other : ℕ) → W.orders desk.new other → W.orders desk.old other) }
    ensures lent { W.lent desk.new ≡ W.lent desk.old }
{
    let _kind = player.actor.kind();
    let end = player.made + calls;
    let mut woken = false;
    while player.made < end {
        let before = player.made;
        turn(desk, player, listener, end - before)?;
        if is_stuck(woken, before, player.made) {
            return Ok(());
        }
        woken = true;
    }
    Ok(())
}

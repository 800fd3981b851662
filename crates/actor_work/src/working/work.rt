//! The work of one actor.

ghost use Rattle.std.specs.Prelude.{◌≡◌, ◌<◌, ◌+◌, ◌-◌, ◌^◌, ℕ, List, true, IfOk, length};
ghost use Rattle.attention_law.specs.Diligence.{Call};
ghost use Rattle.actor_rounds.specs.Answers.Answered.{all_pass};
ghost use Rattle.actor_work.specs.Lives.Lived.{AreLives, past_of};
ghost use Rattle.size_law.specs.Calls.Calls.{AreByActors};
ghost use Rattle.worker_core.specs.declared.role.Role.{Role};
ghost use Rattle.actor_turns.specs.Calls.{AreCalls};
ghost use Rattle.actor_turns.specs.Parts.{lives_of};
ghost use Rattle.actor_turns.specs.Steps.Living.{Lives as ActorLives};
ghost use Rattle.actor_turns.specs.Steps.Playing.{SomePlays};
ghost use Rattle.actor_work.specs.Work.Working.{AreWorkedLives, HasWorked, SomeLives};

use crate::passes::lives::Lives;
use crate::working::turns::turns;
use actor_turns::player::Player;
use fault_io::gate::Listener;
use kube_types::copies::OutOfMemory;
use shared_world::shared::{SharedWorld, WorldPass};
use std::sync::Wait;

/// What an actor's work came to: the passes of its lives, and the actor, which may go on.
pub struct Worked {
    pub lives: Vec<WorldPass>,
    pub player: Player,
}

impl Drop for Worked {
    fn drop(self) {
        let Worked { lives, player } = self;
        drop(lives);
        drop(player);
    }
}

impl Worked {
    /// The passes and the actor.
    pub fn into_parts(self) -> (Vec<WorldPass>, Player)
        ensures { (result.0 ≡ self.lives) × (result.1 ≡ self.player) }
    {
        let Worked { lives, player } = self;
        (lives, player)
    }
}

/// Makes so many calls, by the passes of the actor's lives, of a shared world of which so many passes were made; or fewer
/// where the life that would make the next one was told StaleEpoch. The listener is told before each call and after it.
pub fn work<R: Wait, L: Listener>(
    rt: &R,
    shared: &SharedWorld,
    made: u64,
    lives: Vec<WorldPass>,
    player: Player,
    listener: &L,
    calls: u64,
) -> Result<Worked, OutOfMemory>
    requires lives { AreLives shared.now made player.part.first lives.items }
    requires many { length lives.items ≡ lives_of player.part }
    requires named { player.part.named ≡ true }
    requires seats { player.part.first + length player.part.restarts < 2 ^ 32 }
    requires few { player.made + calls < 2 ^ 32 }
    requires plays { SomePlays player (past_of lives.items) }

    ensures lives { IfOk result (λ w. AreLives shared.now made player.part.first w.lives.items) }
    ensures many { IfOk result (λ w. length w.lives.items ≡ length lives.items) }
    ensures part { IfOk result (λ w. w.player.part ≡ player.part) }
    ensures held { IfOk result (λ w. w.player.held ≡ player.held) }
    ensures calls { IfOk result (λ w. AreCalls all_pass player.held player.part (past_of w.lives.items) (player.made + 1) (w.player.made - player.made) (past_of lives.items)) }
    ensures whole { IfOk result (λ w. HasWorked player.part (player.made + calls) w.player.made (past_of w.lives.items)) }
    ensures each { IfOk result (λ w. (role : Role) (idle : ℕ → List Call) → ActorLives role player (past_of lives.items) idle → AreWorkedLives role w.player (past_of w.lives.items)) }
    ensures actors { IfOk result (λ w. AreByActors (past_of lives.items) → AreByActors (past_of w.lives.items)) }
    ensures plays { IfOk result (λ w. SomePlays w.player (past_of w.lives.items)) }
    ensures lived { IfOk result (λ w. (role : Role) (idle : ℕ → List Call) → ActorLives role player (past_of lives.items) idle → SomeLives role w.player (past_of w.lives.items)) }
{
    let mut player = player;
    let mut desk = Lives::of(rt, shared, made, player.part.first, lives);
    turns(&mut desk, &mut player, listener, calls)?;
    Ok(Worked {
        lives: desk.into_passes(),
        player,
    })
}

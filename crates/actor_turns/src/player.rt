//! The turns of one actor over its lives.

ghost use Rattle.std.specs.Prelude.{◌≡◌, ◌<◌, ◌+◌, ◌^◌, ℕ, List, true, IfOk, OnOk, length};
ghost use Rattle.call_types.specs.declared.entry.Entry.{Entry};
ghost use Rattle.size_law.specs.Calls.Calls.{AreByActors};
ghost use Rattle.attention_law.specs.Diligence.{Call};
ghost use Rattle.actor_rounds.specs.Answers.Answered.{all_pass};
ghost use Rattle.worker_core.specs.declared.role.Role.{Role};
ghost use Rattle.actor_turns.specs.Calls.{restarts_before, seat_at};
ghost use Rattle.actor_turns.specs.Steps.Living.{HasLived, HasLivedOn, Lives};
ghost use Rattle.actor_turns.specs.Steps.Playing.{HasStepped, HasTurned, IsSmall, OrdersLives, Plays, ServesLives, SomePlays, and_held};

use crate::call::make;
use crate::loss::fate_of;
use crate::part::Part;
use actor_rounds::answering::answers::Answers;
use actor_rounds::answering::asking::ask_of;
use fault_io::gate::Listener;
use kube_types::copies::OutOfMemory;
use kube_types::items::Items;
use worker_core::actor::Actor;

/// An actor with its part: the seat of its life, how many calls it has made, lost ones and those that were held back too,
/// the numbers of the latter, and how many it had made when its life began. After a turn in which it was idle it is woken at
/// once, as no other call changes it before its next turn.
pub struct Player {
    pub part: Part,
    pub seat: u64,
    pub made: u64,
    pub held: Items<u64>,
    pub began: u64,
    pub actor: Actor,
}

impl Drop for Player {
    fn drop(self) {
        let Player {
            part,
            seat: _,
            made: _,
            held,
            began: _,
            actor,
        } = self;
        drop(part);
        drop(held);
        drop(actor);
    }
}

/// How many of the restarts come before the call of this number.
fn restarts_before(restarts: &[u64], number: u64) -> u64
    ensures { result ≡ restarts_before number restarts.now }
{
    let mut before = 0;
    for after in restarts {
        if *after < number {
            before += 1;
        }
    }
    before
}

/// The seat of the life that makes the call of this number.
fn seat_at(part: &Part, number: u64) -> u64
    requires { part.now.first + length part.now.restarts < 2 ^ 32 }
    ensures { result ≡ seat_at part.now number }
{
    part.first + restarts_before(part.restarts.as_slice(), number)
}

/// Begins a new life where one makes the next call.
fn begin_life(player: &mut Player)
    requires { IsSmall player.old }
    ensures part { player.new.part ≡ player.old.part }
    ensures made { player.new.made ≡ player.old.made }
    ensures held { player.new.held ≡ player.old.held }
    ensures seat { player.new.seat ≡ seat_at player.old.part (player.old.made + 1) }
    ensures plays { (past : List Entry) (idle : ℕ → List Entry) → player.old.part.named ≡ true → Plays player.old past idle → Plays player.new past idle }
    ensures lives { (role : Role) (past : List Entry) (told : ℕ → List Entry) (idle : ℕ → List Call) → player.old.part.named ≡ true → Plays player.old past told → Lives role player.old past idle → Lives role player.new past idle }
{
    let seat = seat_at(&player.part, player.made + 1);
    if seat != player.seat {
        player.actor.restart();
        player.seat = seat;
        player.began = player.made;
    }
}

/// Counts the call that was made, and its number among those that were held back if it was.
fn count(player: &mut Player, held: bool) -> Result<(), OutOfMemory>
    requires { IsSmall player.old }
    ensures part { player.new.part ≡ player.old.part }
    ensures counted { OnOk result (player.new ≡ record player.old { made = player.old.made + 1; held = and_held held (player.old.made + 1) player.old.held }) }
{
    player.made += 1;
    if held {
        player.held.push(player.made)?;
    }
    Ok(())
}

/// Makes the next call; false where the life that would make it is idle. The listener is told before it and after it.
fn step<W: Answers, L: Listener>(
    desk: &mut W,
    player: &mut Player,
    listener: &L,
) -> Result<bool, OutOfMemory>
    requires named { player.old.part.named ≡ true }
    requires small { IsSmall player.old }
    requires plays { SomePlays player.old (W.past desk.old) }
    requires serves { ServesLives (W.serves desk.old) player.old.part }
    requires orders { OrdersLives (W.orders desk.old) player.old.part }
    ensures part { player.new.part ≡ player.old.part }
    ensures stepped { IfOk result (λ called. (idle : ℕ → List Entry) → Plays player.old (W.past desk.old) idle → HasStepped (W.lets desk.old) idle (W.past desk.old) (W.past desk.new) player.old player.new called) }
    ensures lived { IfOk result (λ called. (role : Role) (idle : ℕ → List Call) → Lives role player.old (W.past desk.old) idle → HasLived role (W.past desk.new) idle player.new called) }
    ensures passes { OnOk result (W.lets desk.old ≡ all_pass → player.new.held ≡ player.old.held) }
    ensures actors { OnOk result (AreByActors (W.past desk.old) → AreByActors (W.past desk.new)) }
    ensures serves { OnOk result ((other : ℕ) → W.serves desk.old other → W.serves desk.new other) }
    ensures orders { OnOk result ((other : ℕ) → W.orders desk.new other → W.orders desk.old other) }
    ensures lets { W.lets desk.new ≡ W.lets desk.old }
    ensures setup { W.setup desk.new ≡ W.setup desk.old }
    ensures lent { W.lent desk.new ≡ W.lent desk.old }
{
    begin_life(player);
    let _kind = player.actor.kind();
    let next = player.actor.next()?;
    let kind = player.actor.kind();
    match ask_of(next, kind) {
        None => Ok(false),
        Some(ask) => {
            let nth = player.made.saturating_sub(player.began) + 1;
            let fate = fate_of(player.part.losses.as_slice(), player.made + 1);
            listener.comes(player.seat, nth);
            let held = make(desk, player.seat, &mut player.actor, &ask, fate)?;
            listener.went(player.seat, nth);
            count(player, held)?;
            Ok(true)
        }
    }
}

/// Makes so many calls, or fewer where the life that would make the next one is idle; it is then woken. What answers the
/// calls answers the seats of the actor's lives, and no others in their order alone; it may hold calls back, and these
/// count. The listener is told before each call and after it.
pub fn turn<W: Answers, L: Listener>(
    desk: &mut W,
    player: &mut Player,
    listener: &L,
    calls: u64,
) -> Result<(), OutOfMemory>
    requires named { player.old.part.named ≡ true }
    requires seats { player.old.part.first + length player.old.part.restarts < 2 ^ 32 }
    requires made { player.old.made + calls < 2 ^ 32 }
    requires plays { SomePlays player.old (W.past desk.old) }
    requires serves { ServesLives (W.serves desk.old) player.old.part }
    requires orders { OrdersLives (W.orders desk.old) player.old.part }
    ensures part { player.new.part ≡ player.old.part }
    ensures turned { OnOk result ((idle : ℕ → List Entry) → Plays player.old (W.past desk.old) idle → HasTurned (W.lets desk.old) calls idle (W.past desk.old) (W.past desk.new) player.old player.new) }
    ensures lives { OnOk result (HasLivedOn calls (W.past desk.old) (W.past desk.new) player.old player.new) }
    ensures passes { OnOk result (W.lets desk.old ≡ all_pass → player.new.held ≡ player.old.held) }
    ensures actors { OnOk result (AreByActors (W.past desk.old) → AreByActors (W.past desk.new)) }
    ensures serves { OnOk result ((other : ℕ) → W.serves desk.old other → W.serves desk.new other) }
    ensures orders { OnOk result ((other : ℕ) → W.orders desk.new other → W.orders desk.old other) }
    ensures lets { W.lets desk.new ≡ W.lets desk.old }
    ensures setup { W.setup desk.new ≡ W.setup desk.old }
    ensures lent { W.lent desk.new ≡ W.lent desk.old }
{
    let mut made = 0;
    while made < calls {
        if !step(desk, player, listener)? {
            player.actor.wake()?;
            return Ok(());
        }
        made += 1;
    }
    Ok(())
}

//! An actor that makes calls of its seats.

ghost use Rattle.std.specs.Prelude.{◌≡◌, ◌+◌, ◌<◌, ◌^◌, true, [], IfOk, length};
ghost use Rattle.worker_core.specs.Roles.{IsBuiltKind};
ghost use Rattle.actor_turns.specs.Parts.{lives_of};
ghost use Rattle.shared_work.specs.Seats.{seats_at};
ghost use Rattle.actor_work.specs.Crew.Acting.{MayAct, seats_of_lives};

use crate::working::begin::begin;
use crate::working::work::work;
use actor_turns::part::Part;
use actor_turns::player::Player;
use fault_io::gate::Listener;
use kube_types::copies::OutOfMemory;
use kube_types::text::Text;
use shared_work::crew::Hired;
use shared_work::worker::Worker;
use shared_world::shared::{SharedWorld, WorldPass};
use std::alloc::Global;
use std::sync::Wait;

/// An actor before its first call, and how many calls it is to make. It has a seat for each of its lives, in order.
pub struct ActorCalls<'a, L> {
    pub listener: &'a L,
    pub player: Player,
    pub calls: u64,
}

impl<'a, L> Drop for ActorCalls<'a, L> {
    fn drop(self) {
        let ActorCalls {
            listener: _,
            player,
            calls: _,
        } = self;
        drop(player);
    }
}

/// How many seats an actor has.
fn seats(part: &Part) -> usize
    requires { length part.now.restarts < 2 ^ 32 }
    ensures { result ≡ lives_of part.now }
{
    if part.named {
        part.restarts.as_slice().len() + 1
    } else {
        0
    }
}

/// An actor before its first call, hired to make so many calls. An agent serves the node. Its seats are to follow on the first
/// one of its part, and have no entries.
pub fn hire<'a, L>(
    alloc: Global,
    listener: &'a L,
    part: Part,
    node: &Text,
    calls: u64,
) -> Result<Hired<ActorCalls<'a, L>>, OutOfMemory>
    requires built { IsBuiltKind part.kind }
    requires named { part.named ≡ true }
    requires small { part.first + length part.restarts < 2 ^ 32 }
    requires few { calls < 2 ^ 32 }
    ensures part { IfOk result (λ hired. hired.worker.player.part ≡ part) }
    ensures role { IfOk result (λ hired. hired.worker.player.actor.role ≡ record { kind = part.kind; node = node.now }) }
    ensures calls { IfOk result (λ hired. hired.worker.calls ≡ calls) }
    ensures seats { IfOk result (λ hired. hired.seats ≡ lives_of part) }
    ensures may { IfOk result (λ hired. MayAct hired.worker.player hired.worker.calls (seats_at [] (seats_of_lives part))) }
{
    let seats = seats(&part);
    let player = begin(alloc, part, node)?;
    Ok(Hired {
        worker: ActorCalls {
            listener,
            player,
            calls,
        },
        seats,
    })
}

impl<'a, L: Listener> Worker for ActorCalls<'a, L> {
    ghost use Rattle.actor_work.specs.Crew.Acting.{HasActed, MayAct};
    ghost use Rattle.actor_work.specs.Lives.Order.{AreInOrder};

    ghost needs = { λ actor before. MayAct actor.player actor.calls before };

    ghost does = { λ actor before after. HasActed actor.player.actor.role actor.player.part actor.calls after };

    ghost leaves = { λ actor past. AreInOrder actor.player.part past };

    fn work<R: Wait>(
        self,
        rt: &R,
        shared: &SharedWorld,
        made: u64,
        passes: Vec<WorldPass>,
    ) -> Result<Vec<WorldPass>, OutOfMemory> {
        let ActorCalls {
            listener,
            player,
            calls,
        } = self;
        let worked = work(rt, shared, made, passes, player, listener, calls)?;
        let (lives, player) = worked.into_parts();
        drop(player);
        Ok(lives)
    }
}

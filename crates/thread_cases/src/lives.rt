//! One actor at work on one thread, on a world that it shares with another actor and a user.

ghost use Rattle.std.specs.Prelude.{◌≡◌, ◌+◌, ◌<◌, [], ◌∷◌, ◌++◌, true, IfOk, vec_len};
ghost use Rattle.actor_work.specs.Work.Beginning.{AreFrom};
ghost use Rattle.shared_world.specs.Passes.{IsOf, past_given};
ghost use Rattle.worker_core.specs.Roles.{IsBuiltKind};
ghost use Rattle.thread_cases.specs.Works.{MayGoOn};

use actor_turns::loss::Loss;
use actor_turns::part::Part;
use actor_work::working::begin::{begin, have_lives, have_passes};
use actor_work::working::work::{Worked, work};
use call_types::ask::Ask;
use call_types::request::SeatKind;
use fault_io::gate::Listener;
use kube_types::copies::OutOfMemory;
use kube_types::items::Items;
use kube_types::text::Text;
use sample_objects::lines::{request, split};
use sample_objects::setups::bare;
use shared_world::shared::{SharedWorld, WorldPass};
use std::alloc::Global;
use std::sync::Wait;
use world_core::kept::KeptWorld;

/// The node that agents serve.
const NODE: &str = "n";

/// More than a case asks for: of lives and of calls.
const MOST: u64 = 1000;

/// A shared world with nothing in it: the passes of an actor's lives, that of another actor, and that of a user.
#[derive(Drop)]
pub struct Opened {
    pub shared: SharedWorld,
    pub lives: Vec<WorldPass>,
    pub other: Vec<WorldPass>,
    pub user: WorldPass,
}

/// So many lives have the seats from 1 on.
pub fn open(alloc: Global, lives: usize) -> Result<Opened, OutOfMemory>
    requires { lives < 1000 }
    ensures none { IfOk result (λ o. past_given o.shared ≡ []) }
    ensures lives { IfOk result (λ o. AreFrom o.shared (lives + 2) 1 o.lives.items) }
    ensures other { IfOk result (λ o. AreFrom o.shared (lives + 2) (lives + 1) o.other.items) }
    ensures user { IfOk result (λ o. IsOf o.shared o.user) }
{
    let world = KeptWorld::new(alloc, &bare(alloc), 64)?;
    let Ok((shared, mut passes)) = SharedWorld::new(alloc, world, lives + 2) else {
        return Err(OutOfMemory);
    };
    let user = passes.pop().unwrap();
    let other = passes.split_off(lives)?;
    Ok(Opened {
        shared,
        lives: passes,
        other,
        user,
    })
}

/// What a case says of an actor, whose first life has this seat.
pub fn part(
    alloc: Global,
    kind: SeatKind,
    first: u64,
    unmade: &[u64],
    untold: &[u64],
    restarts: &[u64],
) -> Result<Part, OutOfMemory>
    ensures { IfOk result (λ part. (part.kind ≡ kind) × (part.named ≡ true) × (part.first ≡ first)) }
{
    let mut losses = Items::new(alloc);
    for call in unmade {
        losses.push(Loss {
            call: *call,
            after: false,
        })?;
    }
    for call in untold {
        losses.push(Loss {
            call: *call,
            after: true,
        })?;
    }
    Ok(Part {
        name: Text::new(alloc, "")?,
        kind,
        named: true,
        first,
        losses,
        restarts: Items::from_vec(restarts.to_vec(alloc)?),
    })
}

/// The actor before its first call, where there is a new pass for each of its lives.
pub fn begin_with(
    alloc: Global,
    shared: &SharedWorld,
    made: u64,
    lives: Vec<WorldPass>,
    part: Part,
) -> Result<Worked, OutOfMemory>
    requires none { past_given shared.now ≡ [] }
    requires from { AreFrom shared.now made part.first lives.items }
    requires built { IsBuiltKind part.kind }
    requires named { part.named ≡ true }
    ensures { IfOk result (λ w. MayGoOn shared.now made w.lives.items w.player) }
{
    let restarts = part.restarts.as_slice().len() as u64;
    if part.first > MOST || restarts > MOST || lives.len() as u64 != restarts + 1 {
        return Err(OutOfMemory);
    }
    have_lives(shared, made, part.first, &lives);
    let node = Text::new(alloc, NODE)?;
    let player = begin(alloc, part, &node)?;
    Ok(Worked { lives, player })
}

/// So many calls more of the actor.
pub fn go_on<R: Wait, L: Listener>(
    rt: &R,
    shared: &SharedWorld,
    made: u64,
    worked: Worked,
    listener: &L,
    calls: u64,
) -> Result<Worked, OutOfMemory>
    requires { MayGoOn shared.now made worked.lives.items worked.player }
    ensures { IfOk result (λ w. MayGoOn shared.now made w.lives.items w.player) }
{
    let (lives, player) = worked.into_parts();
    if player.made > MOST || calls > MOST {
        return Err(OutOfMemory);
    }
    work(rt, shared, made, lives, player, listener, calls)
}

/// The user's call of this line, if it is one.
pub fn ask<R: Wait>(
    rt: &R,
    alloc: Global,
    shared: &SharedWorld,
    user: &mut WorldPass,
    line: &str,
) -> Result<(), OutOfMemory>
    requires { IsOf shared.now user.old }
    ensures { IsOf shared.now user.new }
{
    let (verb, rest) = split(line);
    let Some(request) = request(alloc, verb, rest)? else {
        return Ok(());
    };
    let ask = Ask {
        kind: SeatKind::User,
        request,
    };
    let _reply = shared.call(rt, user, &ask, true)?;
    Ok(())
}

/// The passes of the user and of both actors.
fn all_passes(
    alloc: Global,
    user: WorldPass,
    others: Vec<WorldPass>,
    lives: Vec<WorldPass>,
) -> Result<Vec<WorldPass>, OutOfMemory>
    ensures all { IfOk result (λ all. all.items ≡ user ∷ (others.items ++ lives.items)) }
    ensures some { IfOk result (λ all. 0 < vec_len all) }
{
    let mut all = vec![in alloc; user]?;
    let mut others = others;
    all.append(&mut others)?;
    let mut lives = lives;
    all.append(&mut lives)?;
    Ok(all)
}

/// The world, with the passes of both actors and the user.
pub fn close(
    alloc: Global,
    shared: SharedWorld,
    made: u64,
    user: WorldPass,
    other: Worked,
    one: Worked,
) -> Result<KeptWorld, OutOfMemory>
    requires user { IsOf shared user }
    requires other { MayGoOn shared made other.lives.items other.player }
    requires one { MayGoOn shared made one.lives.items one.player }
{
    let (others, agent) = other.into_parts();
    have_passes(&shared, made, agent.part.first, &others);
    let (lives, player) = one.into_parts();
    have_passes(&shared, made, player.part.first, &lives);
    let passes = all_passes(alloc, user, others, lives)?;
    match shared.close(passes) {
        Ok(world) => Ok(world),
        Err(_) => Err(OutOfMemory),
    }
}

//! A world behind the lock, on one thread and on two.
ghost use Rattle.std.specs.Prelude.{◌≡◌, ◌<◌};
ghost use Rattle.seat_lock.specs.Passes.{forks_of};
ghost use Rattle.shared_world.specs.Passes.{IsOf};

use call_types::ask::Ask;
use call_types::reply::{Refusal, Reply};
use call_types::request::{Request, SeatKind};
use call_types::setup::Setup;
use kube_types::copies::OutOfMemory;
use kube_types::items::Items;
use kube_types::key::Key;
use kube_types::parts::Kind;
use kube_types::text::Text;
use shared_world::shared::{SharedWorld, WorldPass};
use std::alloc::Global;
use std::process::Abort;
use std::sync::Wait;
use std::thread::{Threads, join};
use world_core::kept::KeptWorld;

/// A shared world with nothing in it, and its two passes.
fn two_passes<R: Abort>(rt: &R, alloc: Global) -> (SharedWorld, WorldPass, WorldPass)
    ensures { IsOf result.0 result.1 × IsOf result.0 result.2 }
{
    let setup = Setup {
        pools: Items::new(alloc),
        faults: Items::new(alloc),
        imports: Items::new(alloc),
    };
    let Ok(world) = KeptWorld::new(alloc, &setup, 4) else {
        panic!(rt; "memory")
    };
    let Ok((shared, mut passes)) = SharedWorld::new(alloc, world, 2) else {
        panic!(rt; "memory")
    };
    let second = passes.pop().unwrap();
    let first = passes.pop().unwrap();
    (shared, first, second)
}

/// A user's Get of a volume that is not there: whether nothing was found.
fn finds_nothing<R: Wait>(
    rt: &R,
    alloc: Global,
    shared: &SharedWorld,
    pass: &mut WorldPass,
) -> Result<bool, OutOfMemory>
    requires { IsOf shared.now pass.old }
    ensures { IsOf shared.now pass.new }
{
    let namespace = Text::new(alloc, "")?;
    let name = Text::new(alloc, "a")?;
    let ask = Ask {
        kind: SeatKind::User,
        request: Request::Get {
            key: Key {
                kind: Kind::PersistentVolume,
                namespace,
                name,
            },
        },
    };
    let reply = shared.call(rt, pass, &ask, true)?;
    match &reply {
        Reply::Refused(Refusal::NotFound) => Ok(true),
        _ => Ok(false),
    }
}

fn asks<R: Wait>(rt: &R, alloc: Global, shared: &SharedWorld, pass: &mut WorldPass) -> bool
    requires { IsOf shared.now pass.old }
    ensures { IsOf shared.now pass.new }
{
    match finds_nothing(rt, alloc, shared, pass) {
        Ok(nothing) => nothing,
        Err(OutOfMemory) => false,
    }
}

/// An end that is refused: what comes back, and how many passes are missing.
fn refused<R: Abort>(
    rt: &R,
    alloc: Global,
    shared: SharedWorld,
    pass: WorldPass,
) -> (SharedWorld, WorldPass, u64)
    requires { IsOf shared pass }
    ensures shared { result.0 ≡ shared }
    ensures pass { IsOf shared result.1 }
{
    let passes = vec![in alloc; pass].expect(rt, "memory");
    let Err(mut left) = shared.close(passes) else {
        panic!(rt; "a pass is missing")
    };
    let pass = left.passes.pop().unwrap();
    (left.shared, pass, left.missing)
}

/// The world, with these passes.
fn close<R: Abort>(
    rt: &R,
    alloc: Global,
    shared: SharedWorld,
    first: WorldPass,
    second: WorldPass,
) -> KeptWorld
    requires { IsOf shared first × IsOf shared second }
{
    let passes = vec![in alloc; first, second].expect(rt, "memory");
    let Ok(world) = shared.close(passes) else {
        panic!(rt; "no pass is missing")
    };
    world
}

/// Whether the entries are those of these two seats, the older one first.
fn are_of(world: &KeptWorld, older: u64, newer: u64) -> bool {
    match world.world().history() {
        [one, two] => one.seat == older && two.seat == newer,
        _ => false,
    }
}

#[test]
fn two_seats(rt: HostRuntime) {
    let alloc = rt.alloc();
    let (shared, mut first, mut second) = two_passes(&rt, alloc);
    assert!(rt; asks(&rt, alloc, &shared, &mut second));
    assert!(rt; asks(&rt, alloc, &shared, &mut first));
    let (shared, first, missing) = refused(&rt, alloc, shared, first);
    assert_eq!(rt; missing, 1);
    let world = close(&rt, alloc, shared, first, second);
    assert!(rt; are_of(&world, 2, 1));
}

/// The fork asks, and then the pass that meets it.
fn fork_and_pass<R: Wait>(rt: &R, alloc: Global, shared: &SharedWorld, pass: WorldPass) -> WorldPass
    requires { IsOf shared.now pass }
    ensures { IsOf shared.now result }
{
    let mut pass = pass;
    if pass.forks() > 0 {
        let mut fork = shared.fork(&mut pass);
        asks(rt, alloc, shared, &mut fork);
        shared.meet(&mut pass, fork);
    }
    asks(rt, alloc, shared, &mut pass);
    pass
}

#[test]
fn a_fork_and_a_meeting(rt: HostRuntime) {
    let alloc = rt.alloc();
    let (shared, first, second) = two_passes(&rt, alloc);
    let first = fork_and_pass(&rt, alloc, &shared, first);
    assert_eq!(rt; (first.number(), first.met()), (1, 1));
    let world = close(&rt, alloc, shared, first, second);
    assert!(rt; are_of(&world, 3, 1));
}

const ROUNDS: usize = 100;

fn ask_on<R: Wait>(rt: &R, alloc: Global, shared: &SharedWorld, pass: WorldPass) -> WorldPass
    requires { IsOf shared.now pass }
    ensures { IsOf shared.now result }
{
    let mut pass = pass;
    for _ in 0..ROUNDS {
        asks(rt, alloc, shared, &mut pass);
    }
    pass
}

fn both<R: Threads + Wait + Sync>(
    rt: &R,
    alloc: Global,
    shared: &SharedWorld,
    a: WorldPass,
    b: WorldPass,
) -> (WorldPass, WorldPass)
    requires { IsOf shared.now a × IsOf shared.now b }
    ensures { IsOf shared.now result.0 × IsOf shared.now result.1 }
{
    join(
        rt,
        || ask_on(rt, alloc, shared, a),
        || ask_on(rt, alloc, shared, b),
    )
}

fn count_of(world: &KeptWorld, seat: u64) -> usize {
    world
        .world()
        .history()
        .iter()
        .filter(|entry| entry.seat == seat)
        .count()
}

#[test]
fn two_threads(rt: HostRuntime) {
    let alloc = rt.alloc();
    let (shared, first, second) = two_passes(&rt, alloc);
    let (first, second) = both(&rt, alloc, &shared, first, second);
    let world = close(&rt, alloc, shared, first, second);
    assert_eq!(rt; world.world().history().len(), 2 * ROUNDS);
    assert_eq!(rt;
        (count_of(&world, 1), count_of(&world, 2)),
        (ROUNDS, ROUNDS)
    );
}

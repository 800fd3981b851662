//! Users of a script, one by one and at the same time.
ghost use Rattle.std.specs.Prelude.{◌≡◌, [], IfSome};
ghost use Rattle.shared_world.specs.Passes.{IsOf};

use crate::gates::{Counts, Holds};
use crate::scripts::{Word, count_of, has_words, script_of, setup};
use fault_io::gate::Gate;
use script_text::script::Script;
use shared_work::lines::do_lines;
use shared_work::users::run_users;
use shared_world::shared::{SharedWorld, WorldPass};
use std::alloc::Global;
use std::sync::Wait;
use std::thread::Threads;
use world_core::kept::KeptWorld;

/// A world with nothing in it.
fn empty(alloc: Global) -> Option<KeptWorld>
    ensures { IfSome result (λ world. world.past ≡ []) }
{
    let setup = setup(alloc);
    KeptWorld::new(alloc, &setup, 16).ok()
}

/// The world, shared, and its only pass.
fn shared(alloc: Global) -> Option<(SharedWorld, WorldPass)>
    ensures { IfSome result (λ t. IsOf t.0 t.1) }
{
    let world = empty(alloc)?;
    let Ok((shared, mut passes)) = SharedWorld::new(alloc, world, 1) else {
        return None;
    };
    let pass = passes.pop().unwrap();
    Some((shared, pass))
}

/// The first user's lines on a world of its own, done twice.
fn twice<R: Wait>(rt: &R, alloc: Global, gate: &Counts, script: &Script) -> Option<KeptWorld> {
    let (shared, mut pass) = shared(alloc)?;
    let lines = script.lines.as_slice();
    do_lines(rt, alloc, gate, &shared, &mut pass, lines).ok()?;
    do_lines(rt, alloc, &Counts::new(), &shared, &mut pass, lines).ok()?;
    let passes = vec![in alloc; pass].ok()?;
    shared.close(passes).ok()
}

const WORDS: [(u64, Word); 9] = [
    (1, Word::Get),
    (2, Word::List),
    (1, Word::List),
    (4, Word::Get),
    (2, Word::Time),
    (1, Word::Get),
    (2, Word::Get),
    (2, Word::List),
    (4, Word::Time),
];

#[test]
fn one_user_on_one_thread(rt: HostRuntime) {
    let alloc = rt.alloc();
    let gate = Counts::new();
    let script = script_of(alloc, &WORDS).ok().expect(&rt, "memory");
    let world = twice(&rt, alloc, &gate, &script).expect(&rt, "memory");
    assert!(rt; gate.are(&[3, 0, 0, 0]));
    assert_eq!(rt; world.world().history().len(), 6);
    assert_eq!(rt; count_of(&world, 1), 6);
}

/// What four users leave of an empty world.
fn run<R: Threads + Wait + Sync, G: Gate>(
    rt: &R,
    alloc: Global,
    gate: &G,
    words: &[(u64, Word)],
) -> Option<KeptWorld> {
    let script = script_of(alloc, words).ok()?;
    let world = empty(alloc)?;
    run_users(rt, alloc, gate, world, &script).ok()
}

fn has_all(alloc: Global, world: &KeptWorld, words: &[(u64, Word)]) -> bool {
    for user in 1..5 {
        match has_words(alloc, world, user, words) {
            Ok(true) => {}
            _ => return false,
        }
    }
    world.world().history().len() == words.len()
}

#[test]
fn four_users_at_once(rt: HostRuntime) {
    let alloc = rt.alloc();
    let gate = Counts::new();
    let world = run(&rt, alloc, &gate, &WORDS).expect(&rt, "memory");
    assert!(rt; has_all(alloc, &world, &WORDS));
    assert!(rt; gate.are(&[3, 4, 0, 2]));
}

#[test]
fn nobody_asks(rt: HostRuntime) {
    let alloc = rt.alloc();
    let gate = Counts::new();
    let world = run(&rt, alloc, &gate, &[]).expect(&rt, "memory");
    assert!(rt; has_all(alloc, &world, &[]));
    assert!(rt; gate.are(&[0, 0, 0, 0]));
}

#[test]
fn each_waits_for_the_other(rt: HostRuntime) {
    let alloc = rt.alloc();
    let gate = Holds::new(1, 2);
    let world = run(&rt, alloc, &gate, &WORDS).expect(&rt, "memory");
    assert!(rt; !gate.has_given_up());
    assert!(rt; has_all(alloc, &world, &WORDS));
    assert!(rt; gate.counts.are(&[3, 4, 0, 2]));
}

//! Runs of scripts on threads.

ghost use Rattle.std.specs.Prelude.{◌≡◌, ◌≤◌, ◌<◌, IfOk, IfSome};
ghost use Rattle.script_runs.specs.Limits.{IsReadable};

use crate::gates::{Counts, Holds};
use crate::scripts::count_of;
use fault_io::gate::{Gate, NoGate};
use script_text::errors::ScriptError;
use script_text::reading::read_script;
use script_text::script::Script;
use script_threads::run::{ThreadedRun, run};
use script_threads::threads::run_all;
use std::alloc::Global;
use std::sync::Wait;
use std::thread::Threads;
use world_core::drained::Drained;
use world_core::kept::KeptWorld;

/// Two users; a node, a volume and a claim.
const SCRIPT: &str =
    r#"{"do":"create","object":{"apiVersion":"v1","kind":"Node","metadata":{"name":"n1"}}}
{"do":"create","user":2,"object":{"apiVersion":"v1","kind":"PersistentVolume","metadata":{"name":"a"},"spec":{"capacity":{"storage":"5Gi"},"accessModes":["ReadWriteOnce"],"nfs":{"server":"s","path":"/a"}}}}
{"do":"turn","actor":"binder-1","calls":3}
{"do":"create","object":{"apiVersion":"v1","kind":"PersistentVolumeClaim","metadata":{"name":"c"},"spec":{"resources":{"requests":{"storage":"3Gi"}},"accessModes":["ReadWriteOnce"],"storageClassName":""}}}
{"do":"drain"}
{"do":"list","kind":"Pod","user":2}
{"do":"restart","actor":"binder-2","after":1}
"#;

/// The same, and a binder that is restarted after two calls, and whose fourth call is lost before its effect.
const RESTARTED: &str = r#"{"do":"restart","actor":"binder-1","after":2}
{"do":"lose","actor":"binder-1","call":4,"when":"before"}
{"do":"create","object":{"apiVersion":"v1","kind":"Node","metadata":{"name":"n1"}}}
"#;

/// The script of a text.
fn read_readable(alloc: Global, text: &[u8]) -> Result<Script, ScriptError>
    ensures { IfOk result IsReadable }
{
    let script = read_script(alloc, text)?;
    Ok(script)
}

/// The script of a text, if it is one.
fn read(alloc: Global, text: &str) -> Option<Script>
    ensures { IfSome result IsReadable }
{
    read_readable(alloc, text.as_bytes()).ok()
}

/// What a run of one worker of each kind leaves of an empty world.
fn work<R: Threads + Wait + Sync, G: Gate>(
    rt: &R,
    alloc: Global,
    text: &str,
    calls: u64,
    gate: &G,
) -> Option<KeptWorld>
    requires { calls ≤ 1000 }
{
    let script = read(alloc, text)?;
    let world = KeptWorld::new(alloc, &script.setup, 64).ok()?;
    run_all(rt, alloc, world, &script, 1, calls, gate).ok()
}

/// Whether the seats from the first one on have so many entries, and there are no others.
fn has_counts(world: &KeptWorld, many: &[usize]) -> bool {
    let mut seat = 0;
    let mut all: usize = 0;
    for count in many {
        seat += 1;
        if count_of(world, seat) != *count {
            return false;
        }
        all = all.saturating_add(*count);
    }
    world.world().history().len() == all
}

#[test]
fn workers_side_by_side(rt: HostRuntime) {
    let alloc = rt.alloc();
    let gate = Holds::new(5, 8);
    let world = work(&rt, alloc, SCRIPT, 6, &gate).expect(&rt, "memory");
    assert!(rt; !gate.has_given_up());
    assert!(rt; gate.counts.are(&[2, 2, 0, 0, 6, 6, 6, 6, 6, 6]));
    assert!(rt; has_counts(&world, &[2, 2, 0, 0, 6, 6, 6, 6, 6, 6]));
}

#[test]
fn a_new_life_and_a_lost_call(rt: HostRuntime) {
    let alloc = rt.alloc();
    let gate = Counts::new();
    let world = work(&rt, alloc, RESTARTED, 5, &gate).expect(&rt, "memory");
    assert!(rt; gate.are(&[1, 0, 0, 0, 2, 3, 5, 5, 5, 5, 5]));
    assert!(rt; has_counts(&world, &[1, 0, 0, 0, 2, 2, 5, 5, 5, 5, 5]));
}

#[test]
fn users_alone(rt: HostRuntime) {
    let alloc = rt.alloc();
    let gate = Counts::new();
    let world = work(&rt, alloc, SCRIPT, 0, &gate).expect(&rt, "memory");
    assert!(rt; gate.are(&[2, 2]));
    assert!(rt; has_counts(&world, &[2, 2]));
}

/// A run with two workers of each kind.
fn whole<R: Threads + Wait + Sync, G: Gate>(
    rt: &R,
    alloc: Global,
    budget: Option<u64>,
    gate: &G,
) -> Option<ThreadedRun> {
    let script = read(alloc, SCRIPT)?;
    run(rt, alloc, &script, 2, 20, budget, gate).ok()
}

fn is_settled(ending: &Drained) -> bool {
    match ending {
        Drained::Settled { made: _ } => true,
        Drained::Spent {
            made: _,
            key: _,
            due: _,
        } => false,
    }
}

#[test]
fn a_run_ends_settled(rt: HostRuntime) {
    let alloc = rt.alloc();
    let ran = whole(&rt, alloc, None, &NoGate).expect(&rt, "memory");
    assert!(rt; is_settled(&ran.ending));
}

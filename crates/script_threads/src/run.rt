//! A script run on threads.

ghost use Rattle.std.specs.Prelude.{◌≡◌, ◌≤◌, ◌<◌, IfOk};
ghost use Rattle.size_law.specs.Calls.Calls.{AreByActors};
ghost use Rattle.script_runs.specs.Limits.{IsReadable};
ghost use Rattle.script_threads.specs.Runs.{IsRun};

use crate::threads::work_all;
use actor_rounds::drainers::Drainers;
use fault_io::gate::Gate;
use kube_types::copies::OutOfMemory;
use script_runs::budget::raised;
use script_runs::stage::{MOST_ENTRIES, first_budget};
use script_text::script::Script;
use std::alloc::Global;
use std::sync::Wait;
use std::thread::Threads;
use worker_threads::drain::drain;
use world_core::drained::Drained;
use world_core::kept::KeptWorld;

/// A world that a run has made, and how its drain ended, with the calls that the drain has made.
pub struct ThreadedRun {
    pub world: KeptWorld,
    pub ending: Drained,
}

impl Drop for ThreadedRun {
    fn drop(self) {
        let ThreadedRun { world, ending } = self;
        drop(world);
        drop(ending);
    }
}

/// The users of a script, so many workers of each kind, and an agent of each node work on threads, with so many calls of each
/// worker and agent; then comes a drain on one thread. Without a given budget that of the drain is raised as it begins. The
/// script is one that the reader gives.
pub fn run<R: Threads + Wait + Sync, G: Gate>(
    rt: &R,
    alloc: Global,
    script: &Script,
    workers: u64,
    calls: u64,
    option: Option<u64>,
    gate: &G,
) -> Result<ThreadedRun, OutOfMemory>
    requires readable { IsReadable script.now }
    requires workers { (0 < workers) × (workers < 5) }
    requires calls { calls ≤ 1000 }
    ensures run { IfOk result (λ r. IsRun script.now workers calls option r.world.past r.ending) }
    ensures actors { IfOk result (λ r. AreByActors r.world.past) }
    ensures setup { IfOk result (λ r. r.world.setup ≡ script.now.setup) }
{
    let world = KeptWorld::new(alloc, &script.setup, MOST_ENTRIES)?;
    let (mut world, first) = work_all(rt, alloc, world, script, workers, calls, gate)?;
    let mut drainers = Drainers::new(alloc, &script.node_names, first)?;
    let budget = raised(option, world.world(), first_budget(option));
    let ending = drain(&mut world, &mut drainers, budget)?;
    Ok(ThreadedRun { world, ending })
}

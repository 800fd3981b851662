//! Users, workers and agents on threads.

ghost use Rattle.std.specs.Prelude.{◌≡◌, ◌≤◌, ◌<◌, [], IfOk};
ghost use Rattle.size_law.specs.Calls.Calls.{AreByActors};
ghost use Rattle.script_runs.specs.Limits.{IsReadable};
ghost use Rattle.script_threads.specs.Started.{drain_seat};
ghost use Rattle.script_threads.specs.Threads.{IsThreadedWork};

use crate::crew::crew;
use fault_io::gate::Gate;
use kube_types::copies::OutOfMemory;
use script_text::script::Script;
use shared_work::crew::run_crew;
use std::alloc::Global;
use std::sync::Wait;
use std::thread::Threads;
use world_core::kept::KeptWorld;

/// As `run_all`. Gives also the seat after those of the actors' lives.
pub(crate) fn work_all<R: Threads + Wait + Sync, G: Gate>(
    rt: &R,
    alloc: Global,
    world: KeptWorld,
    script: &Script,
    workers: u64,
    calls: u64,
    gate: &G,
) -> Result<(KeptWorld, u64), OutOfMemory>
    requires readable { IsReadable script.now }
    requires setup { world.setup ≡ script.now.setup }
    requires none { world.past ≡ [] }
    requires workers { (0 < workers) × (workers < 5) }
    requires calls { calls ≤ 1000 }
    ensures work { IfOk result (λ t. IsThreadedWork script.now workers calls t.0.past) }
    ensures actors { IfOk result (λ t. AreByActors t.0.past) }
    ensures setup { IfOk result (λ t. t.0.setup ≡ script.now.setup) }
    ensures seat { IfOk result (λ t. t.1 ≡ drain_seat workers script.now) }
{
    let (crew, seat) = crew(alloc, gate, script, workers, calls)?;
    let world = run_crew(rt, alloc, world, crew)?;
    Ok((world, seat))
}

/// The users of a script do their lines, and so many workers of each kind and an agent of each node make so many calls each, all
/// on one world, each on a thread of its own where one can be made. The world has the script's setup and no entries.
pub fn run_all<R: Threads + Wait + Sync, G: Gate>(
    rt: &R,
    alloc: Global,
    world: KeptWorld,
    script: &Script,
    workers: u64,
    calls: u64,
    gate: &G,
) -> Result<KeptWorld, OutOfMemory>
    requires readable { IsReadable script.now }
    requires setup { world.setup ≡ script.now.setup }
    requires none { world.past ≡ [] }
    requires workers { (0 < workers) × (workers < 5) }
    requires calls { calls ≤ 1000 }
    ensures work { IfOk result (λ after. IsThreadedWork script.now workers calls after.past) }
    ensures actors { IfOk result (λ after. AreByActors after.past) }
    ensures setup { IfOk result (λ after. after.setup ≡ script.now.setup) }
{
    let (world, _) = work_all(rt, alloc, world, script, workers, calls, gate)?;
    Ok(world)
}

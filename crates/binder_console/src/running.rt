//! The run of a script on threads.

ghost use Rattle.std.specs.Prelude.{◌≡◌, ◌≤◌, Err, IfOk};
ghost use Rattle.script_text.specs.Grammar.{script_of};
ghost use Rattle.binder_console.specs.Outcomes.{IsAnswer};
ghost use Rattle.binder_console.specs.Scripts.{IfNotReplayed};

use crate::answers::Answer;
use crate::commands::Task;
use crate::printing::print_replay;
use crate::replaying::{answer_ended, read_readable};
use fault_io::gate::Gate;
use script_text::errors::ScriptError;
use script_threads::run::run;
use std::alloc::Global;
use std::sync::Wait;
use std::thread::Threads;

/// The text of the run of an input on threads, told apart by how its drain ended. The gate is told before and after each call
/// of a worker or an agent.
#[tactic(auto, using(crate::proofs::Promised::run_answers))]
pub fn threads_run<R: Threads + Wait + Sync, G: Gate>(
    rt: &R,
    alloc: Global,
    input: &[u8],
    workers: u64,
    calls: u64,
    budget: Option<u64>,
    gate: &G,
) -> Result<Answer, ScriptError>
    requires workers { (1 ≤ workers) × (workers ≤ 4) }
    requires calls { calls ≤ 1000 }
    ensures ok { IfOk result (IsAnswer (Task.Run workers calls budget) input.now) }
    ensures refused { IfNotReplayed result (λ bad. script_of input.now ≡ Err bad) }
{
    let script = read_readable(alloc, input)?;
    let ran = run(rt, alloc, &script, workers, calls, budget, gate)?;
    let text = print_replay(alloc, ran.world.world(), &ran.ending)?;
    Ok(answer_ended(&ran.ending, text))
}

//! What comes of an input that was read whole.

ghost use Rattle.std.specs.Prelude.{◌≤◌, IfOk};
ghost use Rattle.binder_console.specs.Commands.{IsInRange};
ghost use Rattle.binder_console.specs.Outcomes.{IsAnswer};

use crate::auditing::{audited, print_history_refusal};
use crate::checking::{checked, print_refusal};
use crate::commands::Task;
use crate::errors::CheckError;
use crate::extending::extended;
use crate::generating::generated;
use crate::replaying::{print_script_refusal, replayed};
use crate::running::threads_run;
use fault_io::gate::Gate;
use history_read::errors::HistoryError;
use piece_print::pieces::PieceText;
use plain_data::copies::OutOfMemory;
use script_text::errors::ScriptError;
use std::alloc::Global;
use std::sync::Wait;
use std::thread::Threads;

/// A text to be written: what the task writes, with nothing due at the end, with the calls spent, or of a history that is
/// no run; or a refusal.
#[derive(Drop)]
pub enum Answer {
    Output(PieceText),
    Unsettled(PieceText),
    No(PieceText),
    Refusal(PieceText),
}

fn answer_replay(alloc: Global, input: &[u8], budget: Option<u64>) -> Result<Answer, OutOfMemory>
    ensures { IfOk result (IsAnswer (Task.Replay budget) input.now) }
{
    match replayed(alloc, input, budget) {
        Ok(answer) => Ok(answer),
        Err(ScriptError::BadLine(bad)) => Ok(Answer::Refusal(print_script_refusal(alloc, bad)?)),
        Err(ScriptError::OutOfMemory) => Err(OutOfMemory),
    }
}

fn answer_run<R: Threads + Wait + Sync, G: Gate>(
    rt: &R,
    alloc: Global,
    input: &[u8],
    workers: u64,
    calls: u64,
    budget: Option<u64>,
    gate: &G,
) -> Result<Answer, OutOfMemory>
    requires workers { (1 ≤ workers) × (workers ≤ 4) }
    requires calls { calls ≤ 1000 }
    ensures { IfOk result (IsAnswer (Task.Run workers calls budget) input.now) }
{
    match threads_run(rt, alloc, input, workers, calls, budget, gate) {
        Ok(answer) => Ok(answer),
        Err(ScriptError::BadLine(bad)) => Ok(Answer::Refusal(print_script_refusal(alloc, bad)?)),
        Err(ScriptError::OutOfMemory) => Err(OutOfMemory),
    }
}

fn answer_check(alloc: Global, input: &[u8]) -> Result<Answer, OutOfMemory>
    ensures { IfOk result (IsAnswer Task.Check input.now) }
{
    match checked(alloc, input) {
        Ok(text) => Ok(Answer::Output(text)),
        Err(CheckError::Refused(error)) => Ok(Answer::Refusal(print_refusal(alloc, error)?)),
        Err(CheckError::OutOfMemory) => Err(OutOfMemory),
    }
}

fn answer_audit(alloc: Global, input: &[u8]) -> Result<Answer, OutOfMemory>
    ensures { IfOk result (IsAnswer Task.Audit input.now) }
{
    match audited(alloc, input) {
        Ok(answer) => Ok(answer),
        Err(HistoryError::BadLine(bad)) => {
            Ok(Answer::Refusal(print_history_refusal(alloc, bad)?))
        }
        Err(HistoryError::OutOfMemory) => Err(OutOfMemory),
    }
}

fn answer_extend(alloc: Global, input: &[u8], budget: Option<u64>) -> Result<Answer, OutOfMemory>
    ensures { IfOk result (IsAnswer (Task.Extend budget) input.now) }
{
    match extended(alloc, input, budget) {
        Ok(answer) => Ok(answer),
        Err(ScriptError::BadLine(bad)) => Ok(Answer::Refusal(print_script_refusal(alloc, bad)?)),
        Err(ScriptError::OutOfMemory) => Err(OutOfMemory),
    }
}

/// What the task makes of the input.
pub fn answer_of<R: Threads + Wait + Sync, G: Gate>(
    rt: &R,
    alloc: Global,
    task: Task,
    input: &[u8],
    gate: &G,
) -> Result<Answer, OutOfMemory>
    requires { IsInRange task }
    ensures { IfOk result (IsAnswer task input.now) }
{
    match task {
        Task::Replay { budget } => answer_replay(alloc, input, budget),
        Task::Run {
            workers,
            calls,
            budget,
        } => answer_run(rt, alloc, input, workers, calls, budget, gate),
        Task::Check => answer_check(alloc, input),
        Task::Audit => answer_audit(alloc, input),
        Task::Gen { seed, budget } => generated(alloc, seed, budget),
        Task::Extend { budget } => answer_extend(alloc, input, budget),
    }
}

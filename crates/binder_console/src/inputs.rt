//! The input of a task.

ghost use Rattle.std.specs.Prelude.{ℕ, List, ◌≡◌, ◌≢◌, ◌≤◌, OnOk, IfOk, IsErr, Some, Err};
ghost use Rattle.fault_io.specs.Faults.{Rose};
ghost use Rattle.fault_io.specs.Reading.{TakesFront};
ghost use Rattle.binder_console.specs.Inputs.{IsInput, IsReadPast, IsReadThrough, IsTooLong, IsTooMuch, ReadsNothing, most_input};

use crate::commands::Task;
use fault_io::ends::{ReadError, Source, read_all};
use plain_data::text::Bytes;
use std::alloc::Global;

/// How many bytes a script, or a list of manifests, may have: 1 MiB.
const MOST_TEXT: usize = 1048576;

/// How many bytes a history may have: 256 MiB.
const MOST_HISTORY: usize = 268435456;

/// How many bytes of input the task takes, if it reads any.
fn most_input(task: Task) -> Option<usize>
    ensures { result ≡ most_input task }
{
    match task {
        Task::Replay { budget: _ }
        | Task::Extend { budget: _ }
        | Task::Run {
            workers: _,
            calls: _,
            budget: _,
        }
        | Task::Check => Some(MOST_TEXT),
        Task::Audit => Some(MOST_HISTORY),
        Task::Gen { seed: _, budget: _ } => None,
    }
}

/// The input of the task: all that the source has left, or nothing where the task reads none.
pub fn read_input<S: Source>(alloc: Global, task: Task, source: &mut S) -> Result<Bytes, ReadError>
    ensures whole { IfOk result (λ bytes. IsInput task (S.left source.old) bytes) }
    ensures end { OnOk result (IsReadThrough task (S.left source.new)) }

    // Too long exactly where more bytes stand before the end than the task takes, but for a fault and want of memory.
    ensures too_long { result ≡ Err ReadError.TooLong → IsTooLong task (S.left source.old) }
    ensures too_much { (bytes : List ℕ) → S.left source.old ≡ Some bytes → IsTooMuch task bytes → IsErr result }

    ensures past_limit { result ≡ Err ReadError.TooLong → IsReadPast task (S.left source.old) (S.left source.new) }

    // A fault only of a task that reads, after a front of the input.
    ensures fault { result ≡ Err ReadError.ReadFault → Rose (S.faults source.old) (S.faults source.new) }
    ensures reads { result ≡ Err ReadError.ReadFault → ReadsNothing task → ⊥ }
    ensures front { result ≡ Err ReadError.ReadFault → TakesFront (S.left source.old) (S.left source.new) }

    // With any other answer no read failed.
    ensures unfailed { result ≢ Err ReadError.ReadFault → S.faults source.new ≡ S.faults source.old }
    ensures later { S.faults source.old ≤ S.faults source.new }
    ensures unread { ReadsNothing task → source.new ≡ source.old }
{
    match most_input(task) {
        Some(most) => read_all(alloc, source, most),
        None => Ok(Bytes::from_vec(Vec::new(alloc))),
    }
}

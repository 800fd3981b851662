//! What the words ask for, and how the program ends.

ghost use Rattle.std.specs.Prelude.{◌≡◌, IfOk, map, string_bytes};
ghost use Rattle.pvstore.specs.Tasks.{fence_of, judge_of, judged_status, status_number, status_of, task_of};

use crate::options::options_of;
use kube_types::copies::OutOfMemory;
use std::alloc::Global;
use store_judge::answering::JudgeAnswer;
use store_judge::printing::JudgeOptions;
use store_serving::stops::ServeStop;

/// What the program is asked to do.
#[derive(Drop)]
pub enum StoreTask {
    /// To answer the lines of standard input, with the fence of the licence or without it.
    Serve { fenced: bool },
    /// To name every fault of the history on standard input.
    Judge(JudgeOptions),
}

/// How the program ends.
#[derive(Clone, Copy)]
pub enum StoreStatus {
    /// All was written.
    Done,
    /// The words are none of the program's.
    Usage,
    /// No setup was read, or 4 MiB with no line feed; or the input is no history.
    Refused,
    ReadFault,
    WriteFault,
    /// Memory was wanting.
    Memory,
    /// A fault was named.
    Faulty,
}

impl StoreStatus {
    /// The exit status.
    pub fn number(self) -> u8
        ensures { result ≡ status_number self }
    {
        match self {
            StoreStatus::Done => 0,
            StoreStatus::Usage => 1,
            StoreStatus::Refused => 2,
            StoreStatus::ReadFault => 4,
            StoreStatus::WriteFault => 5,
            StoreStatus::Memory => 6,
            StoreStatus::Faulty => 7,
        }
    }
}

/// Whether there is a fence, where the words ask to serve.
fn fence_of(words: &[String]) -> Option<bool>
    ensures { result ≡ fence_of (map string_bytes words.now) }
{
    match words {
        [word] if word.as_str() == "serve" => Some(false),
        [word, option] if word.as_str() == "serve" && option.as_str() == "--fence" => Some(true),
        _ => None,
    }
}

/// The options, where the words ask to judge.
fn judge_of(alloc: Global, words: &[String]) -> Result<Option<JudgeOptions>, OutOfMemory>
    ensures { IfOk result (λ options. options ≡ judge_of (map string_bytes words.now)) }
{
    match words {
        [word, rest @ ..] if word.as_str() == "judge" => options_of(alloc, rest),
        _ => Ok(None),
    }
}

/// What the words ask for, if it is something.
pub fn task_of(alloc: Global, words: &[String]) -> Result<Option<StoreTask>, OutOfMemory>
    ensures { IfOk result (λ task. task ≡ task_of (map string_bytes words.now)) }
{
    if let Some(fenced) = fence_of(words) {
        return Ok(Some(StoreTask::Serve { fenced }));
    }
    match judge_of(alloc, words)? {
        Some(options) => Ok(Some(StoreTask::Judge(options))),
        None => Ok(None),
    }
}

/// The status of a judgement.
pub fn judged_status(answer: &JudgeAnswer) -> StoreStatus
    ensures { result ≡ judged_status answer.now }
{
    match answer {
        JudgeAnswer::Judged { shown: true, .. } => StoreStatus::Faulty,
        JudgeAnswer::Judged { shown: false, .. } => StoreStatus::Done,
        JudgeAnswer::NoHistory { .. } => StoreStatus::Refused,
    }
}

/// The status with which serving ends.
pub fn status_of(served: Result<bool, ServeStop>) -> StoreStatus
    ensures { result ≡ status_of served }
{
    match served {
        Ok(true) => StoreStatus::Done,
        Ok(false) => StoreStatus::Refused,
        Err(ServeStop::TooLong) => StoreStatus::Refused,
        Err(ServeStop::ReadFault) => StoreStatus::ReadFault,
        Err(ServeStop::WriteFault) => StoreStatus::WriteFault,
        Err(ServeStop::OutOfMemory) => StoreStatus::Memory,
    }
}

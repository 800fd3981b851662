//! The store on standard input and output: whatever program is attached there asks it, line by line.
//!
//! `pvstore serve` answers each line before it reads the next; with `--fence` it refuses what the licence does not allow.
//! `pvstore judge` names every fault of a history. Promises: `task_of` says what the words ask for, `status_of` and
//! `judged_status` with which status the program ends. What is read and written is `store_serving`'s and `store_judge`'s to say.
#![tactic(auto)]

mod options;
mod tasks;

use crate::tasks::{StoreStatus, StoreTask, judged_status, status_of, task_of};
use fault_io::ends::{ReadError, Sink, Source, read_all, write_all};
use fault_io::standard::{StdSink, StdSource};
use std::alloc::Global;
use std::env::{Args, Env, FillError};
use std::process::ExitCode;
use std::{env, io};
use store_judge::answering::{JudgeAnswer, judged};
use store_judge::printing::JudgeOptions;
use store_serving::serving::serve;

const USAGE: &str = "usage: pvstore serve [--fence] | judge [--json] [--without RULE]..\n";

const TOO_LONG: &str = "input: TooLong\n";

/// How many bytes a history may have: 256 MiB.
const MOST_HISTORY: usize = 268_435_456;

/// The arguments behind the program's own name, which may be no UTF-8.
#[derive(Drop)]
struct Arguments<R: Env> {
    env: R,
}

impl<R: Env> Env for Arguments<R> {
    fn arg(&self, i: usize, buf: &mut [u8]) -> Result<usize, FillError> {
        self.env.arg(i.saturating_add(1), buf)
    }

    fn var(&self, name: &str, buf: &mut [u8]) -> Result<usize, FillError> {
        self.env.var(name, buf)
    }

    fn var_at(&self, i: usize, buf: &mut [u8]) -> Result<usize, FillError> {
        self.env.var_at(i, buf)
    }
}

/// The words; none where one of them is no UTF-8, since such a word asks for nothing, as no words do.
fn words_in(alloc: Global, args: io::Result<Args>) -> io::Result<Vec<String>> {
    let mut words = Vec::new(alloc);
    match args {
        Ok(args) => {
            for word in args {
                words.push(word)?;
            }
            Ok(words)
        }
        Err(error) if error.kind() == io::ErrorKind::InvalidData => Ok(words),
        Err(error) => Err(error),
    }
}

/// Writes a text. The status is this one, but for a fault.
fn end_with<K: Sink>(sink: &mut K, text: &[u8], status: StoreStatus) -> StoreStatus {
    match write_all(sink, text) {
        Ok(()) => status,
        Err(_) => StoreStatus::WriteFault,
    }
}

/// Names every fault of the history that a source gives.
fn judge<S: Source, K: Sink>(
    alloc: Global,
    options: &JudgeOptions,
    source: &mut S,
    sink: &mut K,
) -> StoreStatus {
    let input = match read_all(alloc, source, MOST_HISTORY) {
        Ok(input) => input,
        Err(ReadError::ReadFault) => return StoreStatus::ReadFault,
        Err(ReadError::OutOfMemory) => return StoreStatus::Memory,
        Err(ReadError::TooLong) => {
            return end_with(sink, TOO_LONG.as_bytes(), StoreStatus::Refused);
        }
    };
    match judged(alloc, input.as_slice(), options) {
        Ok(answer) => {
            let status = judged_status(&answer);
            match answer {
                JudgeAnswer::Judged { text, shown: _ } => end_with(sink, text.as_slice(), status),
                JudgeAnswer::NoHistory { text } => end_with(sink, text.as_slice(), status),
            }
        }
        Err(_) => StoreStatus::Memory,
    }
}

fn main(rt: HostRuntime) -> ExitCode {
    let arguments = (Arguments { env: &rt }, rt.alloc());
    let words = match words_in(rt.alloc(), env::args(&arguments)) {
        Ok(words) => words,
        Err(_) => return ExitCode::from(StoreStatus::Memory.number()),
    };
    let mut source = StdSource::new(rt.stdin());
    let mut sink = StdSink::new(rt.stdout());
    let status = match task_of(rt.alloc(), &words) {
        Ok(Some(StoreTask::Serve { fenced })) => {
            status_of(serve(rt.alloc(), fenced, &mut source, &mut sink))
        }
        Ok(Some(StoreTask::Judge(options))) => {
            judge(rt.alloc(), &options, &mut source, &mut sink)
        }
        Ok(None) => end_with(&mut sink, USAGE.as_bytes(), StoreStatus::Usage),
        Err(_) => StoreStatus::Memory,
    };
    ExitCode::from(status.number())
}

//! Tables of runs: each front of an input, each limit of a sink, each read that fails.

use crate::cases::{Case, input, shown, words_of};
use binder_console::console::pvbind;
use fault_io::gate::NoGate;
use fault_io::memory::{MemorySink, MemorySource};
use plain_data::copies::OutOfMemory;
use std::alloc::Global;
use std::sync::Wait;
use std::thread::Threads;

/// How many bytes the source gives a call.
const PIECE: usize = 10;

/// What a run came to.
#[derive(Drop)]
struct Ended {
    status: u8,
    written: Vec<u8>,
}

/// The run with this input, whose read of this number fails, and with room for so many bytes.
fn run<R: Threads + Wait + Sync>(
    rt: &R,
    alloc: Global,
    words: &[String],
    given: &[u8],
    fails: u64,
    limit: usize,
) -> Result<Ended, OutOfMemory> {
    let mut source = MemorySource::new(alloc, given, PIECE, &[fails])?;
    let mut sink = MemorySink::new(alloc, limit)?;
    let status = pvbind(rt, alloc, words, &mut source, &mut sink, &NoGate).number();
    let mut written = Vec::new(alloc);
    written.extend_from_slice(sink.written())?;
    Ok(Ended { status, written })
}

/// The status, and of a refusal the line too.
fn told(alloc: Global, ended: &Ended) -> Result<String, OutOfMemory> {
    let status = ended.status;
    if status == 2 {
        let text = shown(alloc, &ended.written)?;
        return Ok(format!(in alloc; "{status} {text}")?);
    }
    Ok(format!(in alloc; "{status}")?)
}

/// What the program comes to for each front of the input, from each length at which that changes.
pub fn cuts<R: Threads + Wait + Sync>(
    rt: &R,
    alloc: Global,
    case: Case<'_>,
    asked: &str,
) -> Result<String, OutOfMemory> {
    let words = words_of(alloc, asked)?;
    let whole = input(alloc, case)?;
    let mut front = Vec::new(alloc);
    let mut before = told(alloc, &run(rt, alloc, &words, &front, 0, case.limit)?)?;
    let mut all = format!(in alloc; "0: {before}")?;
    for byte in &whole {
        front.push(*byte)?;
        let now = told(alloc, &run(rt, alloc, &words, &front, 0, case.limit)?)?;
        if now != before {
            let length = front.len();
            all.push_str(format!(in alloc; ", {length}: {now}")?.as_str())?;
            before = now;
        }
    }
    Ok(all)
}

/// How long the output is, and the first limit below that at which the status is not 5 or what was written no front of it.
pub fn sinks<R: Threads + Wait + Sync>(
    rt: &R,
    alloc: Global,
    case: Case<'_>,
    asked: &str,
) -> Result<String, OutOfMemory> {
    let words = words_of(alloc, asked)?;
    let given = input(alloc, case)?;
    let whole = run(rt, alloc, &words, &given, 0, case.limit)?;
    let length = whole.written.len();
    for limit in 0..length {
        let cut = run(rt, alloc, &words, &given, 0, limit)?;
        if cut.status != 5
            || cut.written.len() != limit
            || !whole.written.starts_with(&cut.written)
        {
            return Ok(format!(in alloc; "wrong at {limit} of {length}")?);
        }
    }
    let exact = run(rt, alloc, &words, &given, 0, length)?;
    let status = exact.status;
    let same = exact.written == whole.written;
    Ok(format!(in alloc; "{length} bytes, then {status} {same}")?)
}

/// How many reads can fail with status 4 and nothing written, and the status where none fails.
pub fn reads<R: Threads + Wait + Sync>(
    rt: &R,
    alloc: Global,
    case: Case<'_>,
    asked: &str,
) -> Result<String, OutOfMemory> {
    let words = words_of(alloc, asked)?;
    let given = input(alloc, case)?;
    for fails in 1..u64::MAX {
        let cut = run(rt, alloc, &words, &given, fails, case.limit)?;
        if cut.status != 4 || !cut.written.is_empty() {
            let reads = fails.saturating_sub(1);
            let status = cut.status;
            return Ok(format!(in alloc; "{reads} reads, then {status}")?);
        }
    }
    Ok(String::new(alloc))
}

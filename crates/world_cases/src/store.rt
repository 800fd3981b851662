//! Lines of the store, its watch log and the devices: each is one call on those that stand, and the line of its history
//! entry is written. Words that set something up write nothing.

mod bench;
mod shown;

pub use crate::store::bench::Bench;
use crate::store::shown::shown;
use crate::words::word;
use plain_data::copies::OutOfMemory;
use sample_objects::lines::{request, split};
use sample_objects::nodes::pool;
use sample_objects::words::{number, seat, small, words_of};
use std::alloc::Global;
use watch_log::log::WatchLog;

// Sets up what the words say. True where they set something up.
fn sets_up(
    alloc: Global,
    bench: &mut Bench,
    verb: &str,
    words: &[&str],
) -> Result<bool, OutOfMemory> {
    match (verb, words) {
        ("new", _) => bench.clear()?,
        ("base", [word]) => bench.log = WatchLog::from_base(alloc, small(word)),
        ("as", [word]) => bench.kind = seat(word),
        ("fault", [word]) => bench.faults.push(number(word))?,
        ("devices", _) => bench.equip()?,
        ("pool", _) => match pool(alloc, words)? {
            None => return Ok(false),
            Some(pool) => bench.pools.push(pool)?,
        },
        _ => return Ok(false),
    }
    Ok(true)
}

fn no_call(alloc: Global) -> Result<Option<String>, OutOfMemory> {
    Ok(Some(word(alloc, "no such call")?))
}

fn called(
    alloc: Global,
    bench: &mut Bench,
    verb: &str,
    rest: &str,
) -> Result<Option<String>, OutOfMemory> {
    match request(alloc, verb, rest)? {
        None => no_call(alloc),
        Some(request) => {
            let reply = bench.call(&request)?;
            Ok(Some(bench.line(request, reply, true)?))
        }
    }
}

// The call on the store alone.
fn stored(
    alloc: Global,
    bench: &mut Bench,
    verb: &str,
    rest: &str,
) -> Result<Option<String>, OutOfMemory> {
    match request(alloc, verb, rest)? {
        None => no_call(alloc),
        Some(request) => {
            let reply = bench.call_store(&request)?;
            Ok(Some(bench.line(request, reply, true)?))
        }
    }
}

// What the call would be answered. It counts as not told.
fn answered(
    alloc: Global,
    bench: &Bench,
    verb: &str,
    rest: &str,
) -> Result<Option<String>, OutOfMemory> {
    match request(alloc, verb, rest)? {
        None => no_call(alloc),
        Some(request) => {
            let reply = bench.answer(&request)?;
            Ok(Some(bench.line(request, reply, false)?))
        }
    }
}

// The call so many times, without a line.
fn repeated(
    alloc: Global,
    bench: &mut Bench,
    count: &str,
    call: &str,
) -> Result<Option<String>, OutOfMemory> {
    let (verb, rest) = split(call);
    match request(alloc, verb, rest)? {
        None => no_call(alloc),
        Some(request) => {
            for _ in 0..small(count) {
                let _ = bench.call(&request)?;
            }
            Ok(None)
        }
    }
}

fn other(
    alloc: Global,
    bench: &mut Bench,
    verb: &str,
    rest: &str,
) -> Result<Option<String>, OutOfMemory> {
    let words = words_of(alloc, rest)?;
    if sets_up(alloc, bench, verb, &words)? {
        return Ok(None);
    }
    match shown(alloc, bench, verb, &words)? {
        None => called(alloc, bench, verb, rest),
        Some(text) => Ok(Some(text)),
    }
}

/// What is written for a line, if anything.
pub fn answer(alloc: Global, bench: &mut Bench, line: &str) -> Result<Option<String>, OutOfMemory> {
    let (verb, rest) = split(line);
    let (next, behind) = split(rest);
    match verb {
        "create" | "update" | "create-in" => called(alloc, bench, verb, rest),
        "plain" => stored(alloc, bench, next, behind),
        "answer" => answered(alloc, bench, next, behind),
        "repeat" => repeated(alloc, bench, next, behind),
        _ => other(alloc, bench, verb, rest),
    }
}

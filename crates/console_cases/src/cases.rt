//! One run of the program.

use crate::{ends, tables};
use binder_console::console::pvbind;
use fault_io::gate::NoGate;
use fault_io::memory::{MemorySink, MemorySource};
use plain_data::copies::OutOfMemory;
use std::alloc::Global;
use std::sync::Wait;
use std::thread::Threads;

/// How many bytes the source gives a call.
const PIECE: usize = 100;

/// A case: the words, the limit of the sink, the call that fails, and the input.
#[derive(Clone, Copy)]
pub struct Case<'a> {
    pub words: &'a str,
    pub limit: usize,
    pub fails: u64,
    pub times: usize,
    pub text: &'a str,
}

fn number(word: &str) -> u64 {
    word.parse::<u64>().unwrap_or(0)
}

fn size(word: &str) -> usize {
    word.parse::<usize>().unwrap_or(0)
}

fn split(line: &str) -> (&str, &str) {
    match line.split_once(' ') {
        None => (line, ""),
        Some(parts) => parts,
    }
}

fn case_of(line: &str) -> Case<'_> {
    let (words, rest) = split(line);
    let (limit, rest) = split(rest);
    let (fails, rest) = split(rest);
    let (times, text) = split(rest);
    Case {
        words,
        limit: size(limit),
        fails: number(fails),
        times: size(times),
        text,
    }
}

/// The words, which commas join.
pub fn words_of(alloc: Global, words: &str) -> Result<Vec<String>, OutOfMemory> {
    let mut found = Vec::new(alloc);
    if words != "-" {
        for word in words.split(',') {
            found.push(String::from_str(alloc, word)?)?;
        }
    }
    Ok(found)
}

fn plain(byte: u8) -> u8 {
    match byte {
        b'|' => b'\n',
        b'~' => b' ',
        _ => byte,
    }
}

/// The bytes of the input.
pub fn input(alloc: Global, case: Case<'_>) -> Result<Vec<u8>, OutOfMemory> {
    let mut bytes = Vec::new(alloc);
    for _ in 0..case.times {
        for byte in case.text.as_bytes() {
            bytes.push(plain(*byte))?;
        }
    }
    Ok(bytes)
}

/// The source of the input.
pub fn source(alloc: Global, case: Case<'_>) -> Result<MemorySource, OutOfMemory> {
    let bytes = input(alloc, case)?;
    MemorySource::new(alloc, &bytes, PIECE, &[case.fails])
}

/// The bytes as one line.
pub fn shown(alloc: Global, written: &[u8]) -> Result<String, OutOfMemory> {
    let mut bytes = Vec::new(alloc);
    for byte in written {
        bytes.push(if *byte == b'\n' { b'|' } else { *byte })?;
    }
    match str::from_utf8(&bytes) {
        Ok(text) => Ok(String::from_str(alloc, text)?),
        Err(_) => Ok(String::from_str(alloc, "no text")?),
    }
}

/// The seat of the entry that a line is; 0 where it is none.
fn seat_of(line: &str) -> u64 {
    match line.split_once(",\"seat\":") {
        Some((_, rest)) => match rest.split_once(',') {
            Some((seat, _)) => number(seat),
            None => 0,
        },
        None => 0,
    }
}

/// The output without the lines from the first entry of this seat, or of a later one, up to those of the objects.
fn before(alloc: Global, output: &str, seat: u64) -> Result<String, OutOfMemory> {
    let mut kept = String::new(alloc);
    let mut keeps = true;
    for line in output.split('|') {
        if seat_of(line) >= seat {
            keeps = false;
        }
        if line == "objects" {
            keeps = true;
        }
        if keeps {
            if !kept.is_empty() {
                kept.push('|')?;
            }
            kept.push_str(line)?;
        }
    }
    Ok(kept)
}

// The status and the output of the program; a first word of digits is a seat.
fn run<R: Threads + Wait + Sync>(
    rt: &R,
    alloc: Global,
    case: Case<'_>,
) -> Result<String, OutOfMemory> {
    let (seat, asked) = match case.words.split_once('@') {
        Some((seat, asked)) => (number(seat), asked),
        None => (0, case.words),
    };
    let words = words_of(alloc, asked)?;
    let mut source = source(alloc, case)?;
    let mut sink = MemorySink::new(alloc, case.limit)?;
    let status = pvbind(rt, alloc, &words, &mut source, &mut sink, &NoGate).number();
    let output = shown(alloc, sink.written())?;
    let told = if seat > 0 {
        before(alloc, output.as_str(), seat)?
    } else {
        output
    };
    Ok(format!(in alloc; "{status} {told}")?)
}

/// What is written for a line.
pub fn answer<R: Threads + Wait + Sync>(
    rt: &R,
    alloc: Global,
    line: &str,
) -> Result<String, OutOfMemory> {
    let case = case_of(line);
    if let Some((table, asked)) = case.words.split_once('=') {
        return match table {
            "@cuts" => tables::cuts(rt, alloc, case, asked),
            "@sinks" => tables::sinks(rt, alloc, case, asked),
            "@reads" => tables::reads(rt, alloc, case, asked),
            _ => run(rt, alloc, case),
        };
    }
    match case.words {
        "@read" => ends::read(alloc, case),
        "@write" => ends::write(alloc, case),
        "@broken-source" => ends::broken_source(alloc, case.fails),
        "@broken-sink" => ends::broken_sink(alloc, case.fails),
        _ => run(rt, alloc, case),
    }
}

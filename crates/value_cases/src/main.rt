//! Cases of values and texts: of what is computed from objects, words and texts, without a world. A line that is read is the
//! word of its family, a blank and what the family reads; what the family answers is written.
//!
//! `match`: which volume a claim may have, what the binder decides, and its writes; `delayed`: the scheduler's choice, and its
//! writes; `manifest`: manifests that are read and printed; `quantity`: texts of bytes; `part`: ids, names, pairs, keys and
//! modes; `shared`: texts with two owners; `table`: decision tables; `format`: the words of the formats; `words`: the words of
//! the command line; `cache`: the caches and the queue of an actor, which stand from line to line; `script` and `history`:
//! texts that are read, and printed again; `gen`: generated scripts; `audit`: a history that goes on from line to line, and
//! the verdict on it. Calls of a history are written as `sample_objects` reads them.
#![tactic(auto)]

mod answers;
mod caches;
mod command_line;
mod delayed;
mod format_words;
mod manifests;
mod matching;
mod owners;
mod parts;
mod quantities;
mod tables;
mod texts;
mod words;

use crate::caches::Bench;
use crate::texts::audits::Told;
use plain_data::copies::OutOfMemory;
use std::io;

fn main(rt: HostRuntime) -> io::Result<()> {
    let mut bench = Bench::new(rt.alloc());
    let mut told = match Told::new(rt.alloc()) {
        Ok(told) => told,
        Err(OutOfMemory) => return println!(rt; "no memory"),
    };
    for line in rt.lines(rt.alloc()) {
        match answers::answer(rt.alloc(), &mut bench, &mut told, line?.as_str()) {
            Ok(None) => {}
            Ok(Some(text)) => println!(rt; "{text}")?,
            Err(OutOfMemory) => println!(rt; "no memory")?,
        }
    }
    Ok(())
}

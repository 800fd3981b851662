//! Cases of the whole program over a source and a sink in memory. A line that is read is its words,
//! joined by commas or `-` for none, the bytes that the sink has room for, the number of the call at
//! which the source fails or 0, how often the text behind stands in the input, and that text, in which
//! `|` stands for a line feed and `~` for a blank. A line is written with the status and the output. Where a
//! number and `@` stand before the words, the entries from the first of this seat or of a later one on are
//! left out, up to the objects.
//! In place of the words stand `@read` and `@write` for a source and a sink by themselves, and
//! `@broken-source` and `@broken-sink` for those over streams of std that break, which are interrupted as often before as
//! the third number says.
//! Before the words stand `@cuts=` for a run with each front of the input, `@sinks=` for one with room for each number of
//! bytes, and `@reads=` for one with ten bytes a read whose read k fails, for each k.
#![tactic(auto)]

mod cases;
mod ends;
mod tables;

use plain_data::copies::OutOfMemory;
use std::io;

fn main(rt: HostRuntime) -> io::Result<()> {
    for line in rt.lines(rt.alloc()) {
        match cases::answer(&rt, rt.alloc(), line?.as_str()) {
            Ok(text) => println!(rt; "{text}")?,
            Err(OutOfMemory) => println!(rt; "no memory")?,
        }
    }
    Ok(())
}

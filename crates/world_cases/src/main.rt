//! Cases of worlds, and of what seats may do there. A line that is read is the word of its family, a blank and what the
//! family reads; what the family answers is written.
//!
//! `store`: calls on a store, its log and the devices; `world`: calls on worlds, and what the licence says of them;
//! `evidence`: what one seat was told, and judgements of its requests; `actor`: actors on one world, some of whose calls are
//! lost. Each family goes on from line to line. Calls on a store and on worlds are written as `sample_objects` reads them.
#![tactic(auto)]

mod actors;
mod answers;
mod evidence;
mod store;
mod words;
mod worlds;

use crate::answers::Benches;
use plain_data::copies::OutOfMemory;
use std::io;

fn main(rt: HostRuntime) -> io::Result<()> {
    let mut benches = match Benches::new(rt.alloc()) {
        Ok(benches) => benches,
        Err(OutOfMemory) => return println!(rt; "no memory"),
    };
    for line in rt.lines(rt.alloc()) {
        match benches.answer(rt.alloc(), line?.as_str()) {
            Ok(text) => print!(rt; "{text}")?,
            Err(OutOfMemory) => println!(rt; "no memory")?,
        }
    }
    Ok(())
}

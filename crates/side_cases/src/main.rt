//! Cases of what stands beside a world. A line that is read is the word of its family, a blank and what the family reads;
//! what the family answers is written.
//!
//! `side`: objects, the quotas of their namespaces, what is counted against these, and claims that grow and the steps of it;
//! `snap`: calls on the store of snapshots, in a world of the objects that `side` was given; `text`: extended scripts that
//! are read; `serve`: a store that answers a program line by line. Each family goes on from line to line.
#![tactic(auto)]

mod answers;
mod copies;
mod growth;
mod quotas;
mod served;
mod side;
mod snap_asks;
mod snap_shown;
mod snapshots;
mod texts;

use crate::answers::Benches;
use plain_data::copies::OutOfMemory;
use std::io;

fn main(rt: HostRuntime) -> io::Result<()> {
    let mut benches = match Benches::new(rt.alloc()) {
        Ok(benches) => benches,
        Err(OutOfMemory) => return println!(rt; "no memory"),
    };
    for line in rt.lines(rt.alloc()) {
        match benches.answer(rt.alloc(), line?.as_str()) {
            Ok(text) => println!(rt; "{text}")?,
            Err(OutOfMemory) => println!(rt; "no memory")?,
        }
    }
    Ok(())
}

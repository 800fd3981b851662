//! Judgements of the requests of one seat, `binder`, `agent` or `ops`: how many entries it is told, and how often each
//! request is judged before it is noted.

mod agent;
mod bench;
mod binder;
mod objects;
mod ops;

use crate::licence::bench::Bench;
use call_types::request::SeatKind;
use kube_types::copies::OutOfMemory;
use std::alloc::Global;
use std::io;

/// How many judgements of so many entries allowed the request, each judged so often.
fn run(alloc: Global, seat: &str, entries: u64, times: u64) -> Result<u64, OutOfMemory> {
    let kind = match seat {
        "agent" => SeatKind::Agent,
        "ops" => SeatKind::Ops,
        _ => SeatKind::Binder,
    };
    let mut bench = Bench::new(alloc, kind, entries, times);
    match kind {
        SeatKind::Agent => agent::run(&mut bench)?,
        SeatKind::Ops => ops::run(&mut bench)?,
        _ => binder::run(&mut bench)?,
    }
    Ok(bench.allowed)
}

/// Says how many judgements allowed the request.
pub fn show(rt: &HostRuntime, seat: &str, entries: u64, times: u64) -> io::Result<()> {
    match run(rt.alloc(), seat, entries, times) {
        Ok(allowed) => println!(rt; "{seat} entries {entries} allowed {allowed}"),
        Err(OutOfMemory) => println!(rt; "no memory"),
    }
}

/// The same of each seat in turn.
pub fn show_each(rt: &HostRuntime, entries: u64, times: u64) -> io::Result<()> {
    show(rt, "binder", entries, times)?;
    show(rt, "agent", entries, times)?;
    show(rt, "ops", entries, times)
}

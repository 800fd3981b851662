//! Writes of a store: so many volumes are created, and then labelled in turn.

use crate::writes::{create_volume, label};
use call_types::request::{Request, SeatKind};
use kube_types::copies::OutOfMemory;
use kube_types::text::Text;
use std::alloc::Global;
use std::io;
use version_store::outcome::is_for_store;
use version_store::store::Store;

const MOMENT: &str = "2026-01-01T08:00:00Z";

fn write(store: &mut Store, request: &Request, moment: &Text) -> Result<(), OutOfMemory> {
    if is_for_store(request) && store.version() < 1_000_000_000 {
        let _ = store.call(SeatKind::User, request, moment)?;
    }
    Ok(())
}

/// The number of writes that a store has seen after these.
fn writes(alloc: Global, objects: u64, updates: u64) -> Result<u64, OutOfMemory> {
    let moment = Text::new(alloc, MOMENT)?;
    let mut store = Store::new(alloc);
    for number in 0..objects {
        write(&mut store, &create_volume(alloc, number)?, &moment)?;
    }
    if objects > 0 {
        for number in 0..updates {
            write(
                &mut store,
                &label(alloc, number % objects, number / objects)?,
                &moment,
            )?;
        }
    }
    Ok(store.version())
}

/// Says how many writes there were.
pub fn show(rt: &HostRuntime, objects: u64, updates: u64) -> io::Result<()> {
    match writes(rt.alloc(), objects, updates) {
        Ok(version) => println!(rt; "writes {version}"),
        Err(OutOfMemory) => println!(rt; "no memory"),
    }
}

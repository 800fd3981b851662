//! Lines of the store of snapshots: a call and its words.

use crate::snap_asks::ask_of;
use crate::snap_shown::reply_text;
use kube_types::table::Table;
use plain_data::copies::{OutOfMemory, Plain};
use sample_objects::lines::{split, word};
use sample_objects::words::words_of;
use snapshot_bind::calls::SnapAsk;
use snapshot_bind::store::SnapStore;
use std::alloc::Global;

/// More calls than any file of cases makes.
const MOST: u64 = 1_000_000;

fn called(
    alloc: Global,
    snaps: &mut SnapStore,
    world: &Table,
    ask: &SnapAsk,
) -> Result<String, OutOfMemory> {
    if snaps.number() >= MOST {
        return word(alloc, "too many calls");
    }
    let reply = snaps.call(world, ask)?;
    let copy = reply.copy(alloc)?;
    if !copy.same(&reply) {
        return word(alloc, "not the same");
    }
    reply_text(alloc, &copy)
}

/// What the call of a line answers in this world; `new` begins with no rows.
pub fn answer(
    alloc: Global,
    snaps: &mut SnapStore,
    world: &Table,
    line: &str,
) -> Result<String, OutOfMemory> {
    let (call, rest) = split(line);
    if call == "new" {
        *snaps = SnapStore::new(alloc);
        return word(alloc, "new");
    }
    let words = words_of(alloc, rest)?;
    match ask_of(alloc, call, &words)? {
        None => word(alloc, "no such call"),
        Some(ask) => called(alloc, snaps, world, &ask),
    }
}

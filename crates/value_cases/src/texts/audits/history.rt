//! The history that is to be judged.

use audit_check::audit;
use audit_check::verdict::Verdict;
use call_types::entry::Entry;
use call_types::histories::History;
use call_types::reply::Reply;
use call_types::request::{Request, SeatKind};
use plain_data::copies::{OutOfMemory, Plain};
use plain_data::items::Items;
use sample_objects::setups::bare;
use std::alloc::Global;
use world_core::world::World;

/// A world that answers, the entries that are told of it, and who makes the next call.
#[derive(Drop)]
pub struct Told {
    alloc: Global,
    pub kind: SeatKind,
    pub seat: u64,
    world: World,
    entries: Items<Entry>,
}

/// The last entry, with the empty list of a version as its reply where there is one.
fn last_entry(
    alloc: Global,
    world: &World,
    heard: Option<u64>,
) -> Result<Option<Entry>, OutOfMemory> {
    match world.history().last() {
        None => Ok(None),
        Some(entry) => {
            let mut entry = entry.copy(alloc)?;
            if let Some(version) = heard {
                let items = Items::new(alloc);
                entry.reply = Reply::Listed { items, version };
            }
            Ok(Some(entry))
        }
    }
}

fn shown(alloc: Global, verdict: Verdict, count: usize) -> Result<String, OutOfMemory> {
    match verdict {
        Verdict::Yes => Ok(format!(in alloc; "yes {count} entries")?),
        Verdict::No { entry, rule } => {
            let rule = rule.name();
            Ok(format!(in alloc; "no: entry {entry} {rule}")?)
        }
    }
}

impl Told {
    /// No entry yet, and a user.
    pub fn new(alloc: Global) -> Result<Told, OutOfMemory> {
        let setup = bare(alloc);
        Ok(Told {
            alloc,
            kind: SeatKind::User,
            seat: 1,
            world: World::new(alloc, &setup, 16)?,
            entries: Items::new(alloc),
        })
    }

    /// Makes a call, and tells its entry.
    pub fn call(
        &mut self,
        request: &Request,
        is_told: bool,
        heard: Option<u64>,
    ) -> Result<(), OutOfMemory> {
        let _reply = self.world.call(self.seat, self.kind, request, is_told)?;
        if let Some(entry) = last_entry(self.alloc, &self.world, heard)? {
            self.entries.push(entry)?;
        }
        Ok(())
    }

    /// The verdict on the history.
    pub fn audit(&self) -> Result<String, OutOfMemory> {
        let setup = bare(self.alloc);
        let entries = self.entries.copy(self.alloc)?;
        let history = History { setup, entries };
        let verdict = audit(self.alloc, &history)?;
        shown(self.alloc, verdict, history.entries.as_slice().len())
    }
}

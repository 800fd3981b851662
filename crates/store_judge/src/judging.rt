//! The judgement on all entries.

ghost use Rattle.std.specs.Prelude.{◌≡◌, ◌∷◌, List, [], IfOk, reverse};
ghost use Rattle.call_types.specs.declared.entry.Entry.{Entry};
ghost use Rattle.call_types.specs.declared.setup.Setup.{Setup};
ghost use Rattle.binder_model.specs.Imports.{ImportsPass};
ghost use Rattle.store_judge.specs.Faults.{FaultsIn};
ghost use Rattle.store_judge.specs.Steps.Judged.{JudgeStands, JudgesEntry};

use crate::faults::{EntryFault, Judged, push_faults, refusing};
use audit_check::seats::Seats;
use call_types::entry::Entry;
use call_types::setup::Setup;
use kube_types::copies::{OutOfMemory, Plain};
use kube_types::items::Items;
use std::alloc::Global;
use world_core::world::World;

/// A world that answers each request anew, and what each seat was told in the history, right or wrong.
pub(crate) struct Judge {
    world: World,
    seats: Seats,
}

impl Drop for Judge {
    fn drop(self) {
        let Judge { world, seats } = self;
        drop(world);
        drop(seats);
    }
}

impl Judge {
    /// Before the first entry.
    fn new(alloc: Global, setup: &Setup) -> Result<Judge, OutOfMemory>
        requires { ImportsPass setup.now.imports }
        ensures { IfOk result (λ j. JudgeStands j setup.now []) }
    {
        let world = World::new(alloc, setup, 0)?;
        Ok(Judge {
            world,
            seats: Seats::new(alloc),
        })
    }

    /// Judges one more entry. After want of memory nothing more may be asked.
    fn judge(&mut self, entry: &Entry) -> Result<Judged, OutOfMemory>
        ensures { IfOk result (λ judged. (setup : Setup) (past : List Entry) → JudgeStands self.old setup past → JudgesEntry self.new setup past entry.now judged) }
    {
        let allowed = self.seats.judge(entry.seat, entry.kind, &entry.request);
        let reply = self
            .world
            .call(entry.seat, entry.kind, &entry.request, entry.told)?;
        self.seats.note(entry)?;
        Ok(Judged {
            answered: reply.same(&entry.reply),
            refused: refusing(allowed),
        })
    }
}

/// All faults of entries, the oldest first, of a history of this setup.
pub fn judge_entries(
    alloc: Global,
    setup: &Setup,
    entries: &[Entry],
) -> Result<Items<EntryFault>, OutOfMemory>
    requires { ImportsPass setup.now.imports }
    ensures { IfOk result (FaultsIn setup.now (reverse entries.now)) }
{
    let mut judge = Judge::new(alloc, setup)?;
    let mut faults = Items::new(alloc);
    for (i, entry) in entries.iter().enumerate() {
        let judged = judge.judge(entry)?;
        push_faults(&mut faults, i as u64 + 1, judged)?;
    }
    Ok(faults)
}

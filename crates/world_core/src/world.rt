//! The world.

ghost use Rattle.std.specs.Prelude.{◌≡◌, ◌+◌, ◌<◌, ◌≤◌, ◌∷◌, [], IfOk, OnOk, OnErr, length, reverse};
ghost use Rattle.std.specs.Vec.{vec_capacity, vec_len};
ghost use Rattle.binder_model.specs.Imports.{ImportsPass};
ghost use Rattle.binder_model.specs.Promises.{most_entries};
ghost use Rattle.binder_model.specs.World.{IsHistory, world};
ghost use Rattle.world_core.specs.Kept.{reply_in};

use crate::parts::Parts;
use call_types::entry::Entry;
use call_types::reply::Reply;
use call_types::request::{Request, SeatKind};
use call_types::setup::Setup;
use device_model::devices::Devices;
use kube_types::copies::{OutOfMemory, Plain};
use std::alloc::Global;
use std::marker::Model;
use version_store::store::Store;

/// The number of entries that no history reaches, 2^60. An entry takes more than 16 bytes, so no memory holds as many.
const MOST_ENTRIES: usize = 1_152_921_504_606_846_976;

/// One world and the history of its calls. Contracts see the setup, the entries, the newest first, and how many entries
/// there is room for, those that stand included.
pub struct World {
    alloc: Global,
    setup: Setup,
    entries: Vec<Entry>,
    parts: Parts,
}

impl Drop for World {
    fn drop(self) {
        let World {
            alloc: _,
            setup,
            entries,
            parts,
        } = self;
        drop(setup);
        drop(entries);
        drop(parts);
    }
}

impl Model for World {
    ghost use Rattle.std.specs.Prelude.{reverse};
    ghost use Rattle.std.specs.Vec.{vec_capacity};
    ghost use Rattle.world_core.specs.Kept.{History, IsKept};

    ghost Value = { History };

    ghost view = { λ w. record { setup = w.setup; past = reverse w.entries.items; room = vec_capacity w.entries } };

    ghost invariant = { λ w. IsKept w.setup (reverse w.entries.items) w.parts };
}

/// Makes room for one entry more, where there is none.
fn make_room(entries: &mut Vec<Entry>) -> Result<(), OutOfMemory>
    ensures items { entries.new.items ≡ entries.old.items }
    ensures capacity { vec_capacity entries.old ≤ vec_capacity entries.new }
    ensures stays { length entries.old.items < vec_capacity entries.old → vec_capacity entries.new ≡ vec_capacity entries.old }
    ensures short { OnOk result (length entries.old.items + 1 < most_entries) }
    ensures ok { OnOk result (vec_len entries.new < vec_capacity entries.new) }
{
    let count = entries.as_slice().len();
    if count >= MOST_ENTRIES - 1 {
        return Err(OutOfMemory);
    }
    if count >= entries.capacity() {
        entries.reserve(1)?;
    }
    Ok(())
}

impl World {
    /// The world with which a history begins: the imports of the setup, and room for so many entries.
    pub fn new(alloc: Global, setup: &Setup, entries: usize) -> Result<World, OutOfMemory>
        requires { ImportsPass setup.now.imports }
        ensures setup { IfOk result (λ w. w.setup ≡ setup.now) }
        ensures past { IfOk result (λ w. w.past ≡ []) }
        ensures room { IfOk result (λ w. w.room ≡ entries) }
    {
        let entries = Vec::with_capacity(alloc, entries)?;
        let parts = Parts::new(alloc, setup)?;
        Ok(World {
            alloc,
            setup: setup.copy(alloc)?,
            entries,
            parts,
        })
    }

    /// Makes one whole call: answers the request, and appends its entry. The change of the store or of the devices is the
    /// last step that may take memory, so that after want of memory only the room may be greater than before. The call
    /// that would make 2^60 entries, more than any memory holds, answers want of memory too.
    pub fn call(
        &mut self,
        seat: u64,
        kind: SeatKind,
        request: &Request,
        told: bool,
    ) -> Result<Reply, OutOfMemory>
        ensures reply { IfOk result (λ reply. reply ≡ reply_in self.old kind request.now) }
        ensures entry { IfOk result (λ reply. self.new.past ≡ record { seat = seat; kind = kind; request = request.now; reply = reply; told = told } ∷ self.old.past) }
        ensures short { length self.new.past < most_entries }
        ensures setup { self.new.setup ≡ self.old.setup }
        ensures room { self.old.room ≤ self.new.room }
        ensures stays { length self.old.past < self.old.room → self.new.room ≡ self.old.room }
        ensures err { OnErr result (self.new.past ≡ self.old.past) }
    {
        make_room(&mut self.entries)?;
        let asked = request.copy(self.alloc)?;
        let (reply, kept) = self.parts.answer(self.alloc, kind, &asked)?;
        self.entries.push_reserved(Entry {
            seat,
            kind,
            request: asked,
            reply: kept,
            told,
        });
        Ok(reply)
    }

    /// The entries, the oldest first.
    pub fn history(&self) -> &[Entry]
        ensures entries { reverse result.now ≡ self.now.past }
        ensures history { IsHistory self.now.setup self.now.past }
        ensures short { length self.now.past < most_entries }
        ensures imports { ImportsPass self.now.setup.imports }
    {
        &self.entries
    }

    /// The objects, and the number of their writes.
    pub fn store(&self) -> &Store
        ensures { result.now ≡ (world self.now.setup self.now.past).store }
    {
        &self.parts.store
    }

    /// The devices. They keep the pools and the faults of the setup.
    pub fn devices(&self) -> &Devices
        ensures devices { result.now.devices ≡ (world self.now.setup self.now.past).devices }
        ensures setup { result.now.setup ≡ record { pools = self.now.setup.pools; faults = self.now.setup.faults; imports = [] } }
    {
        &self.parts.devices
    }

    /// How many entries the history has room for, those that stand included.
    pub fn room(&self) -> usize
        ensures { result ≡ self.now.room }
    {
        self.entries.capacity()
    }

    /// What the world began with.
    pub fn setup(&self) -> &Setup
        ensures { result.now ≡ self.now.setup }
    {
        &self.setup
    }
}

//! The worlds that stand while the lines are read.

use crate::words::word;
use crate::worlds::own::{own, pass};
use call_types::entry::Entry;
use call_types::reply::Reply;
use call_types::request::{Request, SeatKind};
use call_types::setup::Setup;
use history_text::entries::print_entry;
use history_text::lines::{Lines, push_objects};
use history_text::setups::print_setup;
use kube_types::names::LicenceRule;
use kube_types::objects::Object;
use licence_rules::licensed;
use plain_data::copies::{OutOfMemory, Plain};
use plain_data::items::Items;
use sample_objects::lines::text_of;
use sample_objects::setups::bare;
use std::alloc::Global;
use world_core::kept::KeptWorld;
use world_core::world::World;

/// Two worlds, who makes the next call, and what the next worlds begin with.
#[derive(Drop)]
pub struct Worlds {
    pub alloc: Global,
    pub kind: SeatKind,
    pub seat: u64,
    pub setup: Setup,
    pub kept: KeptWorld,
    pub free: World,
}

/// What a call on the kept world came to.
#[derive(Drop)]
pub enum Called {
    Refused(LicenceRule),
    Answered(Reply),
}

/// The call, where its seat may make it.
fn call_kept(
    alloc: Global,
    kept: &mut KeptWorld,
    seat: u64,
    kind: SeatKind,
    request: &Request,
    told: bool,
) -> Result<Called, OutOfMemory> {
    let mine = own(alloc, kept.world().history(), seat)?;
    match licensed(kind, &mine, request) {
        Err(rule) => Ok(Called::Refused(rule)),
        Ok(()) => Ok(Called::Answered(kept.call(seat, kind, request, told)?)),
    }
}

/// The line of the last entry, which is to have this reply.
fn last_line(alloc: Global, world: &World, reply: &Reply) -> Result<String, OutOfMemory> {
    match world.history().last() {
        None => word(alloc, "no entry"),
        Some(entry) => {
            if !entry.reply.same(reply) {
                return word(alloc, "another reply");
            }
            text_of(alloc, print_entry(alloc, entry)?)
        }
    }
}

impl Worlds {
    /// Empty worlds, and a user.
    pub fn new(alloc: Global) -> Result<Worlds, OutOfMemory> {
        let setup = bare(alloc);
        if !pass(setup.imports.as_slice()) {
            return Err(OutOfMemory);
        }
        let kept = KeptWorld::new(alloc, &setup, 16)?;
        let free = World::new(alloc, &setup, 16)?;
        Ok(Worlds {
            alloc,
            kind: SeatKind::User,
            seat: 1,
            setup,
            kept,
            free,
        })
    }

    /// The worlds with which the setup that was named begins. It is then forgotten.
    pub fn begin(&mut self) -> Result<String, OutOfMemory> {
        if !pass(self.setup.imports.as_slice()) {
            self.setup = bare(self.alloc);
            return word(self.alloc, "no such imports");
        }
        self.kept = KeptWorld::new(self.alloc, &self.setup, 16)?;
        self.free = World::new(self.alloc, &self.setup, 16)?;
        self.kind = SeatKind::User;
        self.seat = 1;
        let line = print_setup(self.alloc, &self.setup)?;
        self.setup = bare(self.alloc);
        text_of(self.alloc, line)
    }

    /// The call on the kept world: the line of its entry, or the rule that refuses it.
    pub fn call(&mut self, request: &Request, told: bool) -> Result<String, OutOfMemory> {
        let called = call_kept(
            self.alloc,
            &mut self.kept,
            self.seat,
            self.kind,
            request,
            told,
        )?;
        match called {
            Called::Refused(rule) => {
                let name = rule.name();
                Ok(format!(in self.alloc; "refused {name}")?)
            }
            Called::Answered(reply) => last_line(self.alloc, self.kept.world(), &reply),
        }
    }

    /// The call on the free world, and the line of its entry.
    pub fn call_free(&mut self, request: &Request, told: bool) -> Result<String, OutOfMemory> {
        let reply = self.free.call(self.seat, self.kind, request, told)?;
        last_line(self.alloc, &self.free, &reply)
    }

    /// Whether the seat may make the call after its entries in the free world.
    pub fn may(&self, request: &Request) -> Result<String, OutOfMemory> {
        let mine = own(self.alloc, self.free.history(), self.seat)?;
        match licensed(self.kind, &mine, request) {
            Ok(()) => word(self.alloc, "may"),
            Err(rule) => {
                let name = rule.name();
                Ok(format!(in self.alloc; "refused {name}")?)
            }
        }
    }

    /// The objects of the kept world, a line for each.
    pub fn objects(&self) -> Result<String, OutOfMemory> {
        let mut lines = Lines::new(self.alloc);
        lines.push(b"objects")?;
        push_objects(&mut lines, self.kept.world().store().objects())?;
        lines.push(b"end")?;
        text_of(self.alloc, lines.into_bytes())
    }
}

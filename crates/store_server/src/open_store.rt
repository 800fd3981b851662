//! A store whose history has begun.

ghost use Rattle.std.specs.Prelude.{◌≡◌, [], IfOk, OnOk, None};
ghost use Rattle.binder_model.specs.Imports.{ImportsPass};
ghost use Rattle.history_text.specs.Entries.{entry_line};
ghost use Rattle.history_text.specs.Output.{with_line};
ghost use Rattle.store_server.specs.Serving.{Judges, entry_for, with_entry};
ghost use Rattle.store_server.specs.Steps.Kept.{AnswersAsk, IsFenced, OpenStands, opened_of};

use crate::printing::{entry_text, refused_text};
use audit_check::seats::Seats;
use call_types::setup::Setup;
use kube_types::copies::OutOfMemory;
use kube_types::names::LicenceRule;
use kube_types::text::Bytes;
use piece_print::recent::Recent;
use std::alloc::Global;
use store_asks::asks::StoreAsk;
use world_core::world::World;

/// A world, what each seat was told of it where there is a fence, and the objects that were printed lately.
pub struct OpenStore {
    pub world: World,
    seats: Seats,
    recent: Recent,
}

impl Drop for OpenStore {
    fn drop(self) {
        let OpenStore {
            world,
            seats,
            recent,
        } = self;
        drop(world);
        drop(seats);
        drop(recent);
    }
}

impl OpenStore {
    /// With no entry yet.
    pub fn new(alloc: Global, setup: &Setup) -> Result<OpenStore, OutOfMemory>
        requires { ImportsPass setup.now.imports }
        ensures opened { IfOk result (λ o. opened_of o ≡ record { setup = setup.now; past = [] }) }
        ensures fenced { IfOk result IsFenced }
    {
        let recent = Recent::new(alloc)?;
        let world = World::new(alloc, setup, 0)?;
        Ok(OpenStore {
            world,
            seats: Seats::new(alloc),
            recent,
        })
    }

    /// The rule by which the fence refuses the ask, if there is a fence and it does.
    fn judge(&self, fenced: bool, asked: &StoreAsk) -> Option<LicenceRule>
        requires { OpenStands fenced self.now }
        ensures { Judges fenced self.now.world.past asked.now result }
    {
        if !fenced {
            return None;
        }
        match self.seats.judge(asked.seat, asked.kind, &asked.request) {
            Ok(()) => None,
            Err(rule) => Some(rule),
        }
    }

    /// Answers what was asked.
    fn enter(&mut self, alloc: Global, fenced: bool, asked: StoreAsk) -> Result<Bytes, OutOfMemory>
        requires stands { OpenStands fenced self.old }
        requires judged { Judges fenced self.old.world.past asked None }
        ensures stands { OnOk result (OpenStands fenced self.new) }
        ensures opened { OnOk result (opened_of self.new ≡ with_entry (opened_of self.old) (entry_for (opened_of self.old) asked)) }
        ensures text { IfOk result (λ text. text ≡ with_line [] (entry_line (entry_for (opened_of self.old) asked))) }
    {
        let reply = self
            .world
            .call(asked.seat, asked.kind, &asked.request, asked.told)?;
        let entry = asked.replied(reply);
        if fenced {
            self.seats.note(&entry)?;
        }
        entry_text(alloc, &mut self.recent, &entry)
    }

    /// Answers an ask, unless the fence refuses it. After want of memory nothing more may be asked.
    pub fn ask(
        &mut self,
        alloc: Global,
        fenced: bool,
        asked: StoreAsk,
    ) -> Result<Bytes, OutOfMemory>
        requires stands { OpenStands fenced self.old }
        ensures stands { OnOk result (OpenStands fenced self.new) }
        ensures answer { IfOk result (AnswersAsk fenced (opened_of self.old) (opened_of self.new) asked) }
    {
        match self.judge(fenced, &asked) {
            Some(rule) => refused_text(alloc, asked.seat, rule),
            None => self.enter(alloc, fenced, asked),
        }
    }
}

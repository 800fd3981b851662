//! A world whose history is a run.

ghost use Rattle.std.specs.Prelude.{◌≡◌, ◌<◌, ◌≤◌, ◌∷◌, [], IfOk, OnErr, length};
ghost use Rattle.binder_model.specs.Imports.{ImportsPass};
ghost use Rattle.binder_model.specs.Licence.{Licensed};
ghost use Rattle.binder_model.specs.Promises.{IsRunOf};
ghost use Rattle.binder_model.specs.Run.{Run};
ghost use Rattle.binder_model.specs.Safe.{Safe};
ghost use Rattle.binder_model.specs.Told.{own};
ghost use Rattle.world_core.specs.Kept.{reply_in};

use crate::world::World;
use call_types::reply::Reply;
use call_types::request::{Request, SeatKind};
use call_types::setup::Setup;
use kube_types::copies::OutOfMemory;
use std::alloc::Global;
use std::marker::Model;

/// A world in which each controller was allowed what it asked, by what it was told before. Contracts see the world.
pub struct KeptWorld {
    world: World,
}

impl Drop for KeptWorld {
    fn drop(self) {
        let KeptWorld { world } = self;
        drop(world);
    }
}

impl Model for KeptWorld {
    ghost use Rattle.binder_model.specs.Promises.{IsRunOf};
    ghost use Rattle.world_core.specs.Kept.{History};

    ghost Value = { History };

    ghost view = { λ k. k.world };

    ghost invariant = { λ k. IsRunOf k.world.setup k.world.past };
}

impl KeptWorld {
    /// The world with which a history begins: the imports of the setup, and room for so many entries.
    pub fn new(alloc: Global, setup: &Setup, entries: usize) -> Result<KeptWorld, OutOfMemory>
        requires { ImportsPass setup.now.imports }
        ensures setup { IfOk result (λ k. k.setup ≡ setup.now) }
        ensures past { IfOk result (λ k. k.past ≡ []) }
        ensures room { IfOk result (λ k. k.room ≡ entries) }
    {
        let world = World::new(alloc, setup, entries)?;
        Ok(KeptWorld { world })
    }

    /// A world whose history is a run.
    pub fn of(world: World) -> KeptWorld
        requires { Run world.setup world.past }
        ensures { result ≡ world }
    {
        let _ = world.history();
        KeptWorld { world }
    }

    /// Makes one whole call. A controller's request must be licensed after its seat's own earlier entries; of a user's
    /// nothing is asked, as the store's guard binds users.
    pub fn call(
        &mut self,
        seat: u64,
        kind: SeatKind,
        request: &Request,
        told: bool,
    ) -> Result<Reply, OutOfMemory>
        requires { Licensed kind (own seat self.old.past) request.now }
        ensures reply { IfOk result (λ reply. reply ≡ reply_in self.old kind request.now) }
        ensures entry { IfOk result (λ reply. self.new.past ≡ record { seat = seat; kind = kind; request = request.now; reply = reply; told = told } ∷ self.old.past) }
        ensures setup { self.new.setup ≡ self.old.setup }
        ensures room { self.old.room ≤ self.new.room }
        ensures stays { length self.old.past < self.old.room → self.new.room ≡ self.old.room }
        ensures err { OnErr result (self.new.past ≡ self.old.past) }
    {
        self.world.call(seat, kind, request, told)
    }

    /// The world. Its history is a run, and safe at every point.
    #[tactic(auto, using(safety_law::proofs::Law::Law::run_implies_safe))]
    pub fn world(&self) -> &World
        ensures value { result.now ≡ self.now }
        ensures of { IsRunOf self.now.setup self.now.past }
        ensures run { Run self.now.setup self.now.past }
        ensures safe { Safe self.now.setup self.now.past }
    {
        &self.world
    }

    /// The world, which may go on without licences.
    pub fn into_world(self) -> World
        ensures { result ≡ self }
    {
        let KeptWorld { world } = self;
        world
    }
}

//! What stands between a drain and its world.

ghost use Rattle.std.specs.Prelude.{◌≡◌, Bool, List, OnOk};
ghost use Rattle.kube_parts.specs.declared.names.Due.{Due};
ghost use Rattle.kube_objects.specs.declared.objects.Object.{Object};
ghost use Rattle.call_types.specs.declared.entry.Entry.{Entry};
ghost use Rattle.call_types.specs.declared.request.Request.{Request};
ghost use Rattle.call_types.specs.declared.setup.Setup.{Setup};
ghost use Rattle.binder_model.specs.World.{World as WorldState, world as world_of};

use call_types::request::Request;
use kube_types::copies::OutOfMemory;
use kube_types::names::Due;
use kube_types::objects::Object;
use std::alloc::Global;
use world_core::world::World;

/// A front lets requests through to the world or holds them back, and takes a turn of its own between rounds.
pub trait Front {
    /// Which requests it lets through after these entries.
    ghost lets: { Self → Setup → List Entry → Request → Bool };

    /// Which actions it holds back in this world, for this object.
    ghost holds: { Self → WorldState → Object → Due → Bool };

    /// What a turn may make of it, after these entries.
    ghost turns: { Self → Setup → List Entry → Self → Type 0 };

    fn passes(&self, world: &World, request: &Request) -> bool
        ensures { result ≡ lets self.now world.now.setup world.now.past request.now };

    fn holds(&self, world: &World, object: &Object, action: Due) -> bool
        ensures { result ≡ holds self.now (world_of world.now.setup world.now.past) object.now action };

    /// Takes a turn. After want of memory it may have been taken in part.
    fn turn(&mut self, alloc: Global, world: &World) -> Result<(), OutOfMemory>
        ensures { OnOk result (turns self.old world.now.setup world.now.past self.new) };
}

/// The front of a drain that holds nothing back.
#[derive(Clone, Copy)]
pub struct AlwaysPass;

impl Front for AlwaysPass {
    ghost use Rattle.std.specs.Prelude.{◌≡◌, true, false};
    ghost use Rattle.front_rounds.specs.Passing.{StaysItself, holds_none, lets_all};

    ghost lets = { λ f setup. lets_all f };

    ghost holds = { λ f. holds_none f };

    ghost turns = { λ f setup h g. StaysItself h f g };

    fn passes(&self, _world: &World, _request: &Request) -> bool {
        true
    }

    fn holds(&self, _world: &World, _object: &Object, _action: Due) -> bool {
        false
    }

    fn turn(&mut self, _alloc: Global, _world: &World) -> Result<(), OutOfMemory> {
        Ok(())
    }
}

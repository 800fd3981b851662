//! Where a drain ended settled, and whether the world has stayed so.

ghost use Rattle.std.specs.Prelude.{◌≡◌, true, ℕ};
ghost use Rattle.std.specs.List.{list_any};
ghost use Rattle.binder_model.specs.Due.{IsSettled};
ghost use Rattle.binder_model.specs.World.{world as world_of};
ghost use Rattle.actor_rounds.specs.Rounds.{EndsWith};
ghost use Rattle.script_runs.specs.Steps.Settled.{IsNoted, WasSettled, calls_device};

use call_types::entry::Entry;
use call_types::request::SeatKind;
use device_model::devices::is_for_devices;
use world_core::drained::Drained;
use world_core::world::World;

/// Where a drain ended settled: how many entries there were, and the version of the store.
#[derive(Clone, Copy, Debug, PartialEq, Eq)]
pub struct SettledAt {
    pub entries: usize,
    pub version: u64,
}

/// Where the drain that has just ended left the world settled, if it did.
pub fn settled_at(world: &World, drained: &Drained) -> Option<SettledAt>
    ensures { (budget : ℕ) → EndsWith world.now.setup world.now.past budget drained.now → IsNoted world.now.setup world.now.past result }
{
    match drained {
        Drained::Settled { made: _ } => Some(SettledAt {
            entries: world.history().len(),
            version: world.store().version(),
        }),
        Drained::Spent {
            made: _,
            key: _,
            due: _,
        } => None,
    }
}

/// Whether nothing was written since, and no device called: then nothing is due.
pub fn stays_settled(world: &World, noted: Option<SettledAt>) -> bool
    requires { IsNoted world.now.setup world.now.past noted }
    ensures { result ≡ true → IsSettled world.now.setup (world_of world.now.setup world.now.past) }
{
    match noted {
        None => false,
        Some(at) => {
            world.store().version() == at.version && !call_devices(&world.history()[at.entries..])
        }
    }
}

/// Whether one of these entries is a call that devices answered.
fn call_devices(entries: &[Entry]) -> bool
    ensures { result ≡ list_any calls_device entries.now }
{
    for entry in entries {
        if calls_device(entry) {
            return true;
        }
    }
    false
}

/// Whether devices answered the call.
fn calls_device(entry: &Entry) -> bool
    ensures { result ≡ calls_device entry.now }
{
    match entry.kind {
        SeatKind::User => false,
        _ => is_for_devices(&entry.request),
    }
}

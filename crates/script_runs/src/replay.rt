//! A script replayed.

ghost use Rattle.std.specs.Prelude.{◌≡◌, IfOk};
ghost use Rattle.script_runs.specs.Limits.{IsReadable};
ghost use Rattle.size_law.specs.Calls.Calls.{AreByActors};
ghost use Rattle.script_runs.specs.Played.{IsPlayedReplay, PlayedAreDiligent};
ghost use Rattle.script_runs.specs.Replays.{IsReplay};

use crate::stage::begin;
use kube_types::copies::OutOfMemory;
use script_text::script::Script;
use std::alloc::Global;
use world_core::drained::Drained;
use world_core::kept::KeptWorld;

/// A world that a script has made, and how its last drain ended, with the calls that all drains have made.
pub struct Replayed {
    pub world: KeptWorld,
    pub ending: Drained,
}

impl Drop for Replayed {
    fn drop(self) {
        let Replayed { world, ending } = self;
        drop(world);
        drop(ending);
    }
}

/// Goes through the lines of a script in order, on one thread, and then drains. Without a given budget that of all drains is
/// raised as each begins. The script is one that the reader gives.
pub fn replay(alloc: Global, script: &Script, budget: Option<u64>) -> Result<Replayed, OutOfMemory>
    requires readable { IsReadable script.now }
    ensures replay { IfOk result (λ r. IsReplay script.now budget r.world.past r.ending) }
    ensures played { IfOk result (λ r. IsPlayedReplay script.now budget r.world.past r.ending) }
    ensures actors { IfOk result (λ r. AreByActors r.world.past) }
    ensures setup { IfOk result (λ r. r.world.setup ≡ script.now.setup) }
{
    let mut stage = begin(alloc, script, budget)?;
    for place in 0..script.lines.as_slice().len() {
        stage.play(script, budget, place)?;
    }
    let ending = stage.end(alloc, script, budget)?;
    Ok(Replayed {
        world: stage.into_world(),
        ending,
    })
}

/// Where the lives of its actors were played by them, they were diligent. It does nothing.
pub fn played_are_diligent()
    ensures { PlayedAreDiligent }
{}

//! An extended script played.

ghost use Rattle.std.specs.Prelude.{◌≡◌, IfOk};
ghost use Rattle.script_runs.specs.Limits.{IsReadable};
ghost use Rattle.extended_runs.specs.Works.{given_of, works_of};
ghost use Rattle.extended_play.specs.Played.{IsPlayed};

use crate::walk::begin;
use extended_runs::sides::KeptSide;
use extended_text::sides::Extended;
use kube_types::copies::OutOfMemory;
use std::alloc::Global;
use world_core::drained::Drained;
use world_core::kept::KeptWorld;

/// A world that an extended script has made and its side, and how its last drain ended, with the calls that all drains have
/// made.
pub struct Played {
    pub world: KeptWorld,
    pub side: KeptSide,
    pub ending: Drained,
}

impl Drop for Played {
    fn drop(self) {
        let Played {
            world,
            side,
            ending,
        } = self;
        drop(world);
        drop(side);
        drop(ending);
    }
}

/// Does the works of an extended script in order, on one thread, and then drains. The quotas and the bytes for growth are
/// there from the start. Without a given budget that of all drains is raised as each begins. The script is one that the
/// reader gives.
pub fn play(alloc: Global, extended: &Extended, budget: Option<u64>) -> Result<Played, OutOfMemory>
    requires readable { IsReadable extended.now.script }
    ensures { IfOk result (IsPlayed extended.now.script (given_of extended.now) (works_of extended.now) budget) }
{
    let script = &extended.script;
    let mut walk = begin(
        alloc,
        script,
        extended.quotas.as_slice(),
        extended.reserve,
        budget,
    )?;
    for side in extended.sides.as_slice() {
        walk.lines_before(script, budget, side.before)?;
        walk.ask(&side.line)?;
    }
    walk.lines_before(script, budget, script.lines.as_slice().len())?;
    let ending = walk.end(alloc, script, budget)?;
    let (world, side) = walk.into_parts();
    Ok(Played {
        world,
        side,
        ending,
    })
}

//! Setups of worlds.

ghost use Rattle.std.specs.Prelude.{◌≡◌, []};

use call_types::setup::Setup;
use kube_types::items::Items;
use std::alloc::Global;

/// No pools, no faults and no imports.
pub fn bare(alloc: Global) -> Setup
    ensures { result.imports ≡ [] }
{
    Setup {
        pools: Items::new(alloc),
        faults: Items::new(alloc),
        imports: Items::new(alloc),
    }
}

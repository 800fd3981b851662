//! The script of a seed.

ghost use Rattle.std.specs.Prelude.{◌≡◌, [], ◌∷◌, ◌++◌, IfOk, OnOk};
ghost use Rattle.script_gen.specs.Objects.{pool, pool_size};
ghost use Rattle.script_gen.specs.Generated.{generated, node_names};

use crate::lines::lines_of;
use crate::objects::pool;
use call_types::setup::Setup;
use kube_types::copies::OutOfMemory;
use kube_types::items::Items;
use kube_types::text::{Names, Text};
use script_text::script::Script;
use std::alloc::Global;

fn setup_of(alloc: Global) -> Result<Setup, OutOfMemory>
    ensures { IfOk result (λ s. s ≡ record { pools = pool ∷ []; faults = []; imports = [] }) }
{
    let mut pools = Items::new(alloc);
    pools.push(pool(alloc)?)?;
    Ok(Setup {
        pools,
        faults: Items::new(alloc),
        imports: Items::new(alloc),
    })
}

fn push_name(alloc: Global, names: &mut Names, name: &str) -> Result<(), OutOfMemory>
    ensures { OnOk result (names.new ≡ names.old ++ name.now ∷ []) }
{
    let name = Text::new(alloc, name)?;
    names.push(&name)
}

fn node_names(alloc: Global) -> Result<Names, OutOfMemory>
    ensures { IfOk result (λ names. names ≡ node_names) }
{
    let mut names = Names::new(alloc);
    push_name(alloc, &mut names, "n0")?;
    push_name(alloc, &mut names, "n1")?;
    push_name(alloc, &mut names, "n2")?;
    push_name(alloc, &mut names, "n3")?;
    Ok(names)
}

fn sizes(alloc: Global) -> Result<Names, OutOfMemory>
    ensures { IfOk result (λ sizes. sizes ≡ pool_size ∷ []) }
{
    let mut sizes = Names::new(alloc);
    push_name(alloc, &mut sizes, "1Ti")?;
    Ok(sizes)
}

/// The script that the seed gives.
#[tactic(auto, unfolding(crate::specs::Generated::generated))]
pub fn generate(alloc: Global, seed: u64) -> Result<Script, OutOfMemory>
    ensures { IfOk result (λ s. s ≡ generated seed) }
{
    let lines = lines_of(alloc, seed)?;
    let node_names = node_names(alloc)?;
    let sizes = sizes(alloc)?;
    Ok(Script {
        setup: setup_of(alloc)?,
        lines,
        node_names,
        sizes,
    })
}

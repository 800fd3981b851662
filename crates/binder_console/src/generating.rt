//! The replay of a generated script.

ghost use Rattle.std.specs.Prelude.{ℕ, List, ◌≡◌, IfOk};
ghost use Rattle.script_gen.specs.Generated.{generated};
ghost use Rattle.script_runs.specs.Limits.{IsReadable};
ghost use Rattle.binder_console.specs.Outcomes.{IsAnswer};

use crate::answers::Answer;
use crate::commands::Task;
use crate::printing::print_summary;
use crate::replaying::answer_ended;
use plain_data::copies::OutOfMemory;
use script_gen::generate;
use script_runs::replay::replay;
use script_text::script::Script;
use std::alloc::Global;

/// The script of a seed, which keeps the limits of scripts.
#[tactic(auto, using(crate::proofs::Generated::generated_is_readable))]
fn generate_readable(alloc: Global, seed: u64) -> Result<Script, OutOfMemory>
    ensures script { IfOk result (λ script. script ≡ generated seed) }
    ensures readable { IfOk result IsReadable }
{
    let script = generate(alloc, seed)?;
    Ok(script)
}

/// The summary of the replay of the script of a seed, told apart by how the last drain ended.
pub fn generated(alloc: Global, seed: u64, budget: Option<u64>) -> Result<Answer, OutOfMemory>
    ensures { (input : List ℕ) → IfOk result (IsAnswer (Task.Gen seed budget) input) }
{
    let script = generate_readable(alloc, seed)?;
    let replayed = replay(alloc, &script, budget)?;
    let text = print_summary(alloc, replayed.world.world(), &replayed.ending)?;
    Ok(answer_ended(&replayed.ending, text))
}

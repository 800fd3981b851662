//! The run of an extended script.

ghost use Rattle.std.specs.Prelude.{◌≡◌, Ok, Err, IfOk};
ghost use Rattle.extended_text.specs.Extended.{extended_of};
ghost use Rattle.script_runs.specs.Limits.{IsReadable};
ghost use Rattle.binder_console.specs.Outcomes.{IsAnswer};
ghost use Rattle.binder_console.specs.Scripts.{IfNotReplayed};

use crate::answers::Answer;
use crate::commands::Task;
use crate::printing::print_played;
use crate::replaying::answer_ended;
use extended_play::play::play;
use extended_text::reading::read_extended;
use extended_text::sides::Extended;
use script_text::errors::ScriptError;
use std::alloc::Global;

/// The extended script of an input, whose script keeps the limits of scripts.
fn read_beside(alloc: Global, input: &[u8]) -> Result<Extended, ScriptError>
    ensures ok { IfOk result (λ extended. extended_of input.now ≡ Ok extended) }
    ensures readable { IfOk result (λ extended. IsReadable extended.script) }
    ensures refused { IfNotReplayed result (λ bad. extended_of input.now ≡ Err bad) }
{
    let extended = read_extended(alloc, input)?;
    Ok(extended)
}

/// The text of the run of an input with its side, told apart by how the last drain ended.
#[tactic(auto, using(crate::proofs::Beside::extend_answers))]
pub fn extended(alloc: Global, input: &[u8], budget: Option<u64>) -> Result<Answer, ScriptError>
    ensures ok { IfOk result (IsAnswer (Task.Extend budget) input.now) }
    ensures refused { IfNotReplayed result (λ bad. extended_of input.now ≡ Err bad) }
{
    let extended = read_beside(alloc, input)?;
    let played = play(alloc, &extended, budget)?;
    let text = print_played(alloc, played.world.world(), &played.side, &played.ending)?;
    Ok(answer_ended(&played.ending, text))
}

//! The replay of a script.

ghost use Rattle.std.specs.Prelude.{◌≡◌, Ok, Err, IfOk};
ghost use Rattle.script_text.specs.Grammar.{script_of};
ghost use Rattle.script_runs.specs.Limits.{IsReadable};
ghost use Rattle.binder_console.specs.Outcomes.{IsAnswer, answer_ended};
ghost use Rattle.binder_console.specs.Scripts.{IfNotReplayed, script_refusal_text};

use crate::answers::Answer;
use crate::commands::Task;
use crate::printing::{print_line, print_replay};
use piece_print::pieces::PieceText;
use plain_data::copies::OutOfMemory;
use script_runs::replay::replay;
use script_text::errors::{BadLine, ScriptError};
use script_text::reading::read_script;
use script_text::refusals::refusal_line;
use script_text::script::Script;
use std::alloc::Global;
use world_core::drained::Drained;

/// The script of an input, which keeps the limits of scripts.
#[tactic(auto, using(script_runs::proofs::Readable::read_is_readable))]
pub fn read_readable(alloc: Global, input: &[u8]) -> Result<Script, ScriptError>
    ensures ok { IfOk result (λ script. script_of input.now ≡ Ok script) }
    ensures readable { IfOk result IsReadable }
    ensures refused { IfNotReplayed result (λ bad. script_of input.now ≡ Err bad) }
{
    let script = read_script(alloc, input)?;
    Ok(script)
}

/// A text to be written, told apart by how the last drain ended.
pub fn answer_ended(ending: &Drained, text: PieceText) -> Answer
    ensures { result ≡ answer_ended ending.now text }
{
    match ending {
        Drained::Settled { made: _ } => Answer::Output(text),
        Drained::Spent {
            made: _,
            key: _,
            due: _,
        } => Answer::Unsettled(text),
    }
}

/// The text of the replay of an input, told apart by how the last drain ended.
#[tactic(auto, using(crate::proofs::Promised::replay_answers))]
pub fn replayed(alloc: Global, input: &[u8], budget: Option<u64>) -> Result<Answer, ScriptError>
    ensures ok { IfOk result (IsAnswer (Task.Replay budget) input.now) }
    ensures refused { IfNotReplayed result (λ bad. script_of input.now ≡ Err bad) }
{
    let script = read_readable(alloc, input)?;
    let replayed = replay(alloc, &script, budget)?;
    let text = print_replay(alloc, replayed.world.world(), &replayed.ending)?;
    Ok(answer_ended(&replayed.ending, text))
}

/// The line of a refusal.
pub fn print_script_refusal(alloc: Global, bad: BadLine) -> Result<PieceText, OutOfMemory>
    ensures { IfOk result (λ text. text ≡ script_refusal_text bad) }
{
    let line = refusal_line(alloc, bad)?;
    print_line(alloc, line.as_str())
}

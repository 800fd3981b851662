//! The audit of a history.

ghost use Rattle.std.specs.Prelude.{◌≡◌, Err, IfOk, string_bytes};
ghost use Rattle.history_read.specs.Grammar.{history_of};
ghost use Rattle.binder_console.specs.Audits.{IfNoHistory, history_refusal_text, verdict_line};
ghost use Rattle.binder_console.specs.Outcomes.{IsAnswer, answer_judged};

use crate::answers::Answer;
use crate::commands::Task;
use crate::printing::print_line;
use audit_check::audit;
use audit_check::verdict::Verdict;
use history_read::errors::{BadHistoryLine, HistoryError};
use history_read::reading::read_history;
use history_read::refusals::refusal_line;
use piece_print::pieces::PieceText;
use plain_data::copies::OutOfMemory;
use std::alloc::Global;

/// What is printed of a verdict on so many entries.
#[tactic(auto, unfolding(crate::specs::Audits::verdict_line))]
fn verdict_line(alloc: Global, verdict: Verdict, count: u64) -> Result<String, OutOfMemory>
    ensures { IfOk result (λ text. string_bytes text ≡ verdict_line verdict count) }
{
    match verdict {
        Verdict::Yes => Ok(format!(in alloc; "yes {count} entries")?),
        Verdict::No { entry, rule } => {
            let rule = rule.name();
            Ok(format!(in alloc; "no: entry {entry} {rule}")?)
        }
    }
}

/// A text to be written, told apart by the verdict.
fn answer_judged(verdict: Verdict, text: PieceText) -> Answer
    ensures { result ≡ answer_judged verdict text }
{
    match verdict {
        Verdict::Yes => Answer::Output(text),
        Verdict::No { entry: _, rule: _ } => Answer::No(text),
    }
}

/// The verdict on the history of an input, which ends at the line `end`. Of an extended run it judges that history, and says
/// nothing of the side that stands behind it.
pub fn audited(alloc: Global, input: &[u8]) -> Result<Answer, HistoryError>
    ensures ok { IfOk result (IsAnswer Task.Audit input.now) }
    ensures refused { IfNoHistory result (λ bad. history_of input.now ≡ Err bad) }
{
    let history = read_history(alloc, input)?;
    let verdict = audit(alloc, &history)?;
    let line = verdict_line(alloc, verdict, history.entries.as_slice().len() as u64)?;
    let text = print_line(alloc, line.as_str())?;
    Ok(answer_judged(verdict, text))
}

/// The line of a refusal.
pub fn print_history_refusal(alloc: Global, bad: BadHistoryLine) -> Result<PieceText, OutOfMemory>
    ensures { IfOk result (λ text. text ≡ history_refusal_text bad) }
{
    let line = refusal_line(alloc, bad)?;
    print_line(alloc, line.as_str())
}

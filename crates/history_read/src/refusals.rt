//! What is printed for a line at fault.

ghost use Rattle.std.specs.Prelude.{◌≡◌, IfOk, string_bytes};
ghost use Rattle.history_read.specs.Refusals.{reason_word, refusal_line};

use crate::errors::{BadHistoryLine, HistoryReason};
use kube_types::copies::OutOfMemory;
use std::alloc::Global;

/// The name of the reason.
pub fn reason_word(reason: HistoryReason) -> &'static str
    ensures { result.now ≡ reason_word reason }
{
    match reason {
        HistoryReason::TooLong => "TooLong",
        HistoryReason::NotCanonical => "NotCanonical",
        HistoryReason::MissingEnd => "Missing end",
    }
}

/// The line of a refusal, without a line feed.
#[tactic(auto, unfolding(crate::specs::Refusals::refusal_line))]
pub fn refusal_line(alloc: Global, bad: BadHistoryLine) -> Result<String, OutOfMemory>
    ensures { IfOk result (λ text. string_bytes text ≡ refusal_line bad) }
{
    let line = bad.line;
    let reason = reason_word(bad.reason);
    Ok(format!(in alloc; "line {line}: {reason}")?)
}

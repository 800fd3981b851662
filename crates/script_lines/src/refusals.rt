//! What is printed for a line at fault.

ghost use Rattle.std.specs.Prelude.{◌≡◌, IfOk, string_bytes};
ghost use Rattle.script_lines.specs.Refusals.{reason_member, reason_text, reason_word, refusal_line};

use crate::errors::{BadLine, Reason};
use crate::line_member::LineMember;
use kube_types::copies::OutOfMemory;
use std::alloc::Global;

fn reason_word(reason: Reason) -> &'static str
    ensures { result.now ≡ reason_word reason }
{
    match reason {
        Reason::TooLong => "TooLong",
        Reason::NotJson => "NotJson",
        Reason::NotObject => "NotObject",
        Reason::Missing(_) => "Missing",
        Reason::UnknownDo => "UnknownDo",
        Reason::WrongType(_) => "WrongType",
        Reason::UnknownKind => "UnknownKind",
        Reason::BadQuantity(_) => "BadQuantity",
        Reason::NotWhole => "NotWhole",
        Reason::BadValue(_) => "BadValue",
        Reason::TooManyLines => "TooManyLines",
        Reason::TooManyObjects => "TooManyObjects",
        Reason::TooManyNodes => "TooManyNodes",
        Reason::TooManyPools => "TooManyPools",
        Reason::TooManyFaults => "TooManyFaults",
        Reason::TooManyRestarts => "TooManyRestarts",
        Reason::TooManyLosses => "TooManyLosses",
        Reason::TooManyTurns => "TooManyTurns",
        Reason::TooManyQuotas => "TooManyQuotas",
    }
}

fn reason_member(reason: Reason) -> Option<LineMember>
    ensures { result ≡ reason_member reason }
{
    match reason {
        Reason::Missing(member) => Some(member),
        Reason::WrongType(member) => Some(member),
        Reason::BadQuantity(member) => Some(member),
        Reason::BadValue(member) => Some(member),
        _ => None,
    }
}

/// The name of the reason, and behind a blank the member, if it has one.
#[tactic(auto, unfolding(crate::specs::Refusals::reason_text))]
pub fn reason_text(alloc: Global, reason: Reason) -> Result<String, OutOfMemory>
    ensures { IfOk result (λ text. string_bytes text ≡ reason_text reason) }
{
    let word = reason_word(reason);
    match reason_member(reason) {
        Some(member) => {
            let name = member.name();
            Ok(format!(in alloc; "{word} {name}")?)
        }
        None => Ok(String::from_str(alloc, word)?),
    }
}

/// The line of a refusal, without a line feed.
#[tactic(auto, unfolding(crate::specs::Refusals::refusal_line))]
pub fn refusal_line(alloc: Global, bad: BadLine) -> Result<String, OutOfMemory>
    ensures { IfOk result (λ text. string_bytes text ≡ refusal_line bad) }
{
    let line = bad.line;
    let reason = reason_text(alloc, bad.reason)?;
    Ok(format!(in alloc; "line {line}: {reason}")?)
}

//! The history of a text.

ghost use Rattle.std.specs.Prelude.{◌≡◌, [], IfOk, bytes_eq, codes};
ghost use Rattle.binder_model.specs.Imports.{ImportsPass};
ghost use Rattle.history_lines.specs.Entries.{entry_of, setup_of};
ghost use Rattle.history_read.specs.Answers.{HistoryGives, LineGives, error_at};
ghost use Rattle.history_read.specs.Grammar.{entries_from, history_of, in_line, lines_of};

use crate::errors::{BadHistoryLine, HistoryError, HistoryLineError, HistoryReason};
use crate::lines::first_line;
use call_types::entry::Entry;
use call_types::histories::History;
use call_types::setup::Setup;
use history_lines::entries::entry_of;
use history_lines::errors::Unread;
use history_lines::setups::setup_of;
use kube_types::items::Items;
use piece_print::recent::Recent;
use std::alloc::Global;

const MOST_LINE_BYTES: usize = 4_194_304;

fn setup_in(alloc: Global, line: &[u8]) -> Result<Setup, HistoryLineError>
    ensures gives { LineGives result (in_line setup_of line.now) }
    ensures imports { IfOk result (λ s. ImportsPass s.imports) }
{
    if line.len() > MOST_LINE_BYTES {
        return Err(HistoryLineError::Refused(HistoryReason::TooLong));
    }
    match setup_of(alloc, line) {
        Ok(setup) => Ok(setup),
        Err(Unread::NotCanonical) => Err(HistoryLineError::Refused(HistoryReason::NotCanonical)),
        Err(Unread::OutOfMemory) => Err(HistoryLineError::OutOfMemory),
    }
}

fn entry_in(alloc: Global, recent: &mut Recent, line: &[u8]) -> Result<Entry, HistoryLineError>
    ensures { LineGives result (in_line entry_of line.now) }
{
    if line.len() > MOST_LINE_BYTES {
        return Err(HistoryLineError::Refused(HistoryReason::TooLong));
    }
    match entry_of(alloc, recent, line) {
        Ok(entry) => Ok(entry),
        Err(Unread::NotCanonical) => Err(HistoryLineError::Refused(HistoryReason::NotCanonical)),
        Err(Unread::OutOfMemory) => Err(HistoryLineError::OutOfMemory),
    }
}

fn is_end(line: &[u8]) -> bool
    ensures { result ≡ bytes_eq line.now (codes "end") }
{
    let end: &[u8] = b"end";
    line == end
}

/// The error of a line of this number.
fn error_at(line: u64, e: HistoryLineError) -> HistoryError
    ensures { result ≡ error_at line e }
{
    match e {
        HistoryLineError::OutOfMemory => HistoryError::OutOfMemory,
        HistoryLineError::Refused(reason) => HistoryError::BadLine(BadHistoryLine { line, reason }),
    }
}

/// The entries of lines up to the line `end`, the first of which is the second of the whole text.
#[tactic(auto, using(crate::proofs::FirstLine::no_lines))]
fn entries_of(alloc: Global, text: &[u8]) -> Result<Items<Entry>, HistoryError>
    ensures { HistoryGives result (entries_from 2 (lines_of text.now) []) }
{
    let mut recent = Recent::new(alloc)?;
    let mut found = Items::new(alloc);
    let mut rest = text;
    let mut line = 2;
    while !rest.is_empty() {
        let (first, after) = first_line(rest);
        if is_end(first) {
            return Ok(found);
        }
        match entry_in(alloc, &mut recent, first) {
            Ok(entry) => found.push(entry)?,
            Err(e) => return Err(error_at(line, e)),
        }
        rest = after;
        line += 1;
    }
    Err(HistoryError::BadLine(BadHistoryLine {
        line,
        reason: HistoryReason::MissingEnd,
    }))
}

/// The history of a text. What stands behind its line `end` is not looked at. A world may begin with the
/// imports of its setup.
#[tactic(auto, using(crate::proofs::FirstLine::no_lines))]
pub fn read_history(alloc: Global, text: &[u8]) -> Result<History, HistoryError>
    ensures gives { HistoryGives result (history_of text.now) }
    ensures imports { IfOk result (λ h. ImportsPass h.setup.imports) }
{
    if text.is_empty() {
        return Err(HistoryError::BadLine(BadHistoryLine {
            line: 1,
            reason: HistoryReason::MissingEnd,
        }));
    }
    let (first, rest) = first_line(text);
    match setup_in(alloc, first) {
        Ok(setup) => {
            let entries = entries_of(alloc, rest)?;
            Ok(History { setup, entries })
        }
        Err(e) => Err(error_at(1, e)),
    }
}

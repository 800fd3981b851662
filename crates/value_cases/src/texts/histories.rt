//! Lines of histories that are read, and printed again: a call, a blank and a text, in which `;;` stands for a line feed.

use crate::texts::words::{bytes_of, letters, with_feeds, with_marks, word};
use call_types::histories::History;
use history_read::errors::HistoryError;
use history_read::reading::read_history;
use history_read::refusals::refusal_line;
use history_text::histories::print_history;
use plain_data::copies::OutOfMemory;
use sample_objects::lines::split;
use sample_objects::words::number;
use std::alloc::Global;

/// The number of the entries, and the text that is printed of the history.
fn printed(alloc: Global, history: &History) -> Result<String, OutOfMemory> {
    let entries = history.entries.as_slice();
    let count = entries.len();
    let text = print_history(alloc, &history.setup, entries)?;
    let shown = with_marks(alloc, text.as_slice())?;
    Ok(format!(in alloc; "{count} {shown}")?)
}

/// The history of a text, printed again, or the line at fault and why.
fn read(alloc: Global, text: &[u8]) -> Result<String, OutOfMemory> {
    match read_history(alloc, text) {
        Ok(history) => printed(alloc, &history),
        Err(HistoryError::OutOfMemory) => Err(OutOfMemory),
        Err(HistoryError::BadLine(bad)) => refusal_line(alloc, bad),
    }
}

fn raw(alloc: Global, text: &str) -> Result<String, OutOfMemory> {
    let bytes = bytes_of(alloc, text)?;
    read(alloc, &bytes)
}

/// So many letters, and the text.
fn wide(alloc: Global, rest: &str) -> Result<String, OutOfMemory> {
    let (count, text) = split(rest);
    let mut all = letters(alloc, number(count), "a")?;
    all.push_str(with_feeds(alloc, text)?.as_str())?;
    read(alloc, all.as_str().as_bytes())
}

/// What is written for a line.
pub fn answer(alloc: Global, line: &str) -> Result<String, OutOfMemory> {
    let (call, rest) = split(line);
    match call {
        "read" => {
            let text = with_feeds(alloc, rest)?;
            read(alloc, text.as_str().as_bytes())
        }
        "raw" => raw(alloc, rest),
        "wide" => wide(alloc, rest),
        _ => word(alloc, "no such call"),
    }
}

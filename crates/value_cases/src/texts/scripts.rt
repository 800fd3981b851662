//! Lines of scripts that are read, and printed again: a call, a blank and a text, in which `;;` stands for a line feed.

use crate::texts::words::{bytes_of, letters, replaced, with_feeds, with_marks, word};
use plain_data::copies::OutOfMemory;
use sample_objects::lines::split;
use sample_objects::words::number;
use script_print::printing::print_script;
use script_text::errors::ScriptError;
use script_text::reading::{read_numbered, read_script};
use script_text::refusals::refusal_line;
use script_text::script::{Numbered, Script};
use std::alloc::Global;

fn refusal(alloc: Global, error: ScriptError) -> Result<String, OutOfMemory> {
    match error {
        ScriptError::OutOfMemory => Err(OutOfMemory),
        ScriptError::BadLine(bad) => refusal_line(alloc, bad),
    }
}

fn printed(alloc: Global, script: &Script) -> Result<String, OutOfMemory> {
    let text = print_script(alloc, script)?;
    let shown = with_marks(alloc, text.as_slice())?;
    match read_script(alloc, text.as_slice()) {
        Ok(again) => {
            let same = print_script(alloc, &again)?;
            if same.as_slice() == text.as_slice() {
                Ok(shown)
            } else {
                let same = with_marks(alloc, same.as_slice())?;
                Ok(format!(in alloc; "{shown} again {same}")?)
            }
        }
        Err(error) => {
            let error = refusal(alloc, error)?;
            Ok(format!(in alloc; "{shown} again {error}")?)
        }
    }
}

/// The canonical lines of a script, or the line at fault and why.
fn read(alloc: Global, text: &[u8]) -> Result<String, OutOfMemory> {
    match read_script(alloc, text) {
        Ok(script) => printed(alloc, &script),
        Err(error) => refusal(alloc, error),
    }
}

fn numbers(alloc: Global, numbered: &Numbered) -> Result<String, OutOfMemory> {
    let mut shown = String::from_str(alloc, "lines")?;
    for number in numbered.numbers.as_slice() {
        let number = format!(in alloc; " {number}")?;
        shown.push_str(number.as_str())?;
    }
    shown.push_str(" nodes")?;
    for node in numbered.script.nodes().as_slice() {
        shown.push_str(" ")?;
        shown.push_str(node.as_str())?;
    }
    Ok(shown)
}

/// The numbers of the lines of a script, and its nodes.
fn numbered(alloc: Global, text: &[u8]) -> Result<String, OutOfMemory> {
    match read_numbered(alloc, text) {
        Ok(found) => numbers(alloc, &found),
        Err(error) => refusal(alloc, error),
    }
}

/// How much a script has, or the line at fault and why.
fn counts(alloc: Global, text: &[u8]) -> Result<String, OutOfMemory> {
    match read_script(alloc, text) {
        Ok(script) => {
            let lines = script.lines.as_slice().len();
            let pools = script.setup.pools.as_slice().len();
            let faults = script.setup.faults.as_slice().len();
            let nodes = script.nodes().as_slice().len();
            let imports = script.setup.imports.as_slice().len();
            let shown = format!(in alloc;
                "lines {lines} pools {pools} faults {faults} nodes {nodes}"
            )?;
            if imports == 0 {
                Ok(shown)
            } else {
                Ok(format!(in alloc; "{shown} imports {imports}")?)
            }
        }
        Err(error) => refusal(alloc, error),
    }
}

/// The number with zeros before it, twelve digits in all.
fn padded(alloc: Global, number: &str) -> Result<String, OutOfMemory> {
    let zeros = 12_usize.saturating_sub(number.len());
    let mut padded = letters(alloc, zeros as u64, "0")?;
    padded.push_str(number)?;
    Ok(padded)
}

/// The text so many times, a line each, with the number of the time for `#`, in twelve digits for `%`, and then a
/// last text.
fn times(alloc: Global, count: u64, text: &str) -> Result<String, OutOfMemory> {
    let (text, last) = text.split_once("@@").unwrap_or((text, ""));
    let mut all = String::new(alloc);
    for i in 0..count {
        let number = i + 1;
        let number = format!(in alloc; "{number}")?;
        let line = replaced(alloc, text, "#", number.as_str())?;
        let digits = padded(alloc, number.as_str())?;
        let line = replaced(alloc, line.as_str(), "%", digits.as_str())?;
        all.push_str(line.as_str())?;
        all.push_str("\n")?;
    }
    all.push_str(last)?;
    with_feeds(alloc, all.as_str())
}

fn raw(alloc: Global, text: &str) -> Result<String, OutOfMemory> {
    let bytes = bytes_of(alloc, text)?;
    read(alloc, &bytes)
}

/// The text with so many letters for `#`.
fn wide(alloc: Global, count: u64, text: &str) -> Result<String, OutOfMemory> {
    let letters = letters(alloc, count, "a")?;
    let text = replaced(alloc, text, "#", letters.as_str())?;
    with_feeds(alloc, text.as_str())
}

fn counted(alloc: Global, call: &str, rest: &str) -> Result<String, OutOfMemory> {
    let (count, text) = split(rest);
    let count = number(count);
    match call {
        "times" => {
            let text = times(alloc, count, text)?;
            counts(alloc, text.as_str().as_bytes())
        }
        "wide" => {
            let text = wide(alloc, count, text)?;
            counts(alloc, text.as_str().as_bytes())
        }
        "blanks" => {
            let text = letters(alloc, count, " ")?;
            counts(alloc, text.as_str().as_bytes())
        }
        _ => word(alloc, "no such call"),
    }
}

/// What is written for a line.
pub fn answer(alloc: Global, line: &str) -> Result<String, OutOfMemory> {
    let (call, rest) = split(line);
    match call {
        "read" => {
            let text = with_feeds(alloc, rest)?;
            read(alloc, text.as_str().as_bytes())
        }
        "numbered" => {
            let text = with_feeds(alloc, rest)?;
            numbered(alloc, text.as_str().as_bytes())
        }
        "raw" => raw(alloc, rest),
        _ => counted(alloc, call, rest),
    }
}

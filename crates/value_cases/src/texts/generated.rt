//! Lines of generated scripts: a seed, a blank, and `lines`, `again` or the number of a line.

use crate::texts::words::word;
use plain_data::copies::OutOfMemory;
use plain_data::text::Bytes;
use sample_objects::lines::split;
use sample_objects::words::number;
use script_gen::generate;
use script_print::printing::print_script;
use script_text::reading::read_script;
use std::alloc::Global;

/// The line of this number, counted from 1.
fn line_at(alloc: Global, text: &str, number: u64) -> Result<String, OutOfMemory> {
    let mut left = number;
    for line in text.split('\n') {
        if left == 1 {
            return word(alloc, line);
        }
        left = left.saturating_sub(1);
    }
    word(alloc, "no such line")
}

fn line_count(text: &Bytes) -> u64 {
    let mut count = 0;
    for byte in text.as_slice() {
        if *byte == b'\n' && count < u64::MAX {
            count += 1;
        }
    }
    count
}

/// Whether the text is read, and printed again as it is.
fn is_read_again(alloc: Global, text: &Bytes) -> Result<bool, OutOfMemory> {
    match read_script(alloc, text.as_slice()) {
        Err(_) => Ok(false),
        Ok(script) => {
            let again = print_script(alloc, &script)?;
            Ok(again.as_slice() == text.as_slice())
        }
    }
}

fn shown(alloc: Global, text: &Bytes, what: &str) -> Result<String, OutOfMemory> {
    match what {
        "lines" => {
            let count = line_count(text);
            Ok(format!(in alloc; "{count}")?)
        }
        "again" => {
            let again = is_read_again(alloc, text)?;
            Ok(format!(in alloc; "{again}")?)
        }
        _ => match str::from_utf8(text.as_slice()) {
            Ok(text) => line_at(alloc, text, number(what)),
            Err(_) => word(alloc, "no text"),
        },
    }
}

/// How many lines the seed's script has, whether its text is read and printed again as it is, or that line of it.
pub fn answer(alloc: Global, line: &str) -> Result<String, OutOfMemory> {
    let (seed, what) = split(line);
    let script = generate(alloc, number(seed))?;
    let text = print_script(alloc, &script)?;
    shown(alloc, &text, what)
}

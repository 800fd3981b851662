//! Extended scripts: `line` puts a line to the text, `times` so many of one, `blanks` so many blanks; `read` reads the text
//! and begins another.

use extended_text::reading::read_extended;
use extended_text::sides::{Extended, PlacedSide, SideLine};
use plain_data::copies::OutOfMemory;
use sample_objects::lines::{split, word};
use sample_objects::words::small;
use script_text::errors::ScriptError;
use script_text::refusals::refusal_line;
use std::alloc::Global;

fn side(alloc: Global, side: &PlacedSide) -> Result<String, OutOfMemory> {
    let (before, number) = (side.before, side.number);
    match &side.line {
        SideLine::Quota(quota) => {
            let namespace = quota.namespace.as_str();
            let (bytes, claims) = (quota.bytes, quota.claims);
            Ok(format!(in alloc; "; {number} after {before}: quota {namespace} {bytes} {claims}")?)
        }
        SideLine::Reserve { bytes } => {
            Ok(format!(in alloc; "; {number} after {before}: reserve {bytes}")?)
        }
        SideLine::Grow { user, key, bytes } => {
            let (namespace, name) = (key.namespace.as_str(), key.name.as_str());
            Ok(format!(in alloc;
                "; {number} after {before}: grow {namespace}/{name} {bytes} by {user}"
            )?)
        }
    }
}

/// How much the script has, the bytes for growth, the namespaces that have a quota, and the lines of the side.
fn extended(alloc: Global, read: &Extended) -> Result<String, OutOfMemory> {
    let lines = read.script.lines.as_slice().len();
    let imports = read.script.setup.imports.as_slice().len();
    let reserve = read.reserve;
    let mut all = format!(in alloc; "lines {lines} imports {imports} reserve {reserve} quotas")?;
    for quota in read.quotas.as_slice() {
        all.push_str(" ")?;
        all.push_str(quota.namespace.as_str())?;
    }
    for line in read.sides.as_slice() {
        all.push_str(side(alloc, line)?.as_str())?;
    }
    Ok(all)
}

fn read(alloc: Global, text: &str) -> Result<String, OutOfMemory> {
    match read_extended(alloc, text.as_bytes()) {
        Ok(read) => extended(alloc, &read),
        Err(ScriptError::BadLine(bad)) => refusal_line(alloc, bad),
        Err(ScriptError::OutOfMemory) => Err(OutOfMemory),
    }
}

fn put(text: &mut String, count: u64, part: &str, end: &str) -> Result<(), OutOfMemory> {
    for _ in 0..count {
        text.push_str(part)?;
        text.push_str(end)?;
    }
    Ok(())
}

/// What is written for a line.
pub fn answer(alloc: Global, text: &mut String, line: &str) -> Result<String, OutOfMemory> {
    let (call, rest) = split(line);
    let (count, part) = split(rest);
    match call {
        "line" => put(text, 1, rest, "\n")?,
        "times" => put(text, small(count), part, "\n")?,
        "blanks" => put(text, small(count), " ", "")?,
        "read" => {
            let answer = read(alloc, text.as_str())?;
            *text = String::new(alloc);
            return Ok(answer);
        }
        _ => return word(alloc, "no such call"),
    }
    word(alloc, "put")
}

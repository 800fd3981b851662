//! Lines of audits: each is a call, whose entry a history gets; `audit` judges the history so far, and its verdict is
//! written.
//!
//! `as` names the kind and the seat that call next; `lost` makes a call whose answer does not come back; `heard` and a
//! version make a call whose entry has the empty list of this version in place of its answer; `new` begins anew.

mod history;

pub use crate::texts::audits::history::Told;
use crate::texts::words::word;
use plain_data::copies::OutOfMemory;
use sample_objects::lines::{request, split};
use sample_objects::words::{number, seat};
use std::alloc::Global;

/// Makes the call that the line says.
fn called(
    alloc: Global,
    told: &mut Told,
    line: &str,
    is_told: bool,
    heard: Option<u64>,
) -> Result<Option<String>, OutOfMemory> {
    let (verb, rest) = split(line);
    match request(alloc, verb, rest)? {
        None => Ok(Some(word(alloc, "no such call")?)),
        Some(request) => {
            told.call(&request, is_told, heard)?;
            Ok(None)
        }
    }
}

fn heard(alloc: Global, told: &mut Told, rest: &str) -> Result<Option<String>, OutOfMemory> {
    let (version, line) = split(rest);
    called(alloc, told, line, true, Some(number(version)))
}

fn begin(alloc: Global, told: &mut Told) -> Result<Option<String>, OutOfMemory> {
    *told = Told::new(alloc)?;
    Ok(None)
}

/// What is written for a line, if anything.
pub fn answer(alloc: Global, told: &mut Told, line: &str) -> Result<Option<String>, OutOfMemory> {
    let (verb, rest) = split(line);
    match verb {
        "new" => begin(alloc, told),
        "audit" => Ok(Some(told.audit()?)),
        "as" => {
            let (kind, name) = split(rest);
            told.kind = seat(kind);
            told.seat = number(name);
            Ok(None)
        }
        "lost" => called(alloc, told, rest, false, None),
        "heard" => heard(alloc, told, rest),
        _ => called(alloc, told, line, true, None),
    }
}

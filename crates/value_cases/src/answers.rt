//! Which family answers a line.

use crate::caches::{self, Bench};
use crate::texts::audits::{self, Told};
use crate::texts::{generated, histories, scripts};
use crate::words::word;
use crate::{
    command_line, delayed, format_words, manifests, matching, owners, parts, quantities, tables,
};
use plain_data::copies::OutOfMemory;
use sample_objects::lines::split;
use std::alloc::Global;

/// What is written for a line of values, or of a text that is read and printed.
fn text_of(
    alloc: Global,
    bench: &mut Bench,
    family: &str,
    rest: &str,
) -> Result<String, OutOfMemory> {
    match family {
        "match" => matching::answer(alloc, rest),
        "delayed" => delayed::answer(alloc, rest),
        "manifest" => manifests::answer(alloc, rest),
        "quantity" => quantities::answer(alloc, rest),
        "part" => parts::answer(alloc, rest),
        "shared" => owners::answer(alloc, rest),
        "table" => tables::answer(alloc, rest),
        "format" => format_words::answer(alloc, rest),
        "words" => command_line::answer(alloc, rest),
        "cache" => caches::answer(alloc, bench, rest),
        "script" => scripts::answer(alloc, rest),
        "history" => histories::answer(alloc, rest),
        "gen" => generated::answer(alloc, rest),
        _ => word(alloc, "no such family"),
    }
}

/// What is written for a line, if anything.
pub fn answer(
    alloc: Global,
    bench: &mut Bench,
    told: &mut Told,
    line: &str,
) -> Result<Option<String>, OutOfMemory> {
    let (family, rest) = split(line);
    if family == "audit" {
        audits::answer(alloc, told, rest)
    } else {
        Ok(Some(text_of(alloc, bench, family, rest)?))
    }
}

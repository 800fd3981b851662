//! Lines of texts with two owners.

use crate::words::flag;
use plain_data::copies::{OutOfMemory, Plain};
use plain_data::shared::Shared;
use plain_data::text::Text;
use std::alloc::Global;

/// Writes at the end of an owner's text.
fn write(alloc: Global, owner: &mut Shared<Text>, end: &str) -> Result<(), OutOfMemory> {
    owner.value_mut(alloc)?.push_str(end)
}

/// The step of one owner or of the other: `1` or `2`, and what that owner writes; or `0`, where the second lets go and owns
/// the text of the first.
fn step(
    alloc: Global,
    first: &mut Shared<Text>,
    second: &mut Shared<Text>,
    word: &str,
) -> Result<(), OutOfMemory> {
    if word == "0" {
        *second = first.copy(alloc)?;
        return Ok(());
    }
    if let Some(end) = word.strip_prefix('1') {
        return write(alloc, first, end);
    }
    match word.strip_prefix('2') {
        None => Ok(()),
        Some(end) => write(alloc, second, end),
    }
}

/// The two texts, and whether they are the same, after a text gets an owner, this one writes the words up to `=`, a
/// second owner is added, and each takes the steps that follow.
pub fn answer(alloc: Global, text: &str) -> Result<String, OutOfMemory> {
    let (alone, steps) = text.split_once('=').unwrap_or((text, ""));
    let mut first = Shared::new(alloc, Text::new(alloc, "")?)?;
    for word in alone.split(' ') {
        write(alloc, &mut first, word)?;
    }
    let mut second = first.copy(alloc)?;
    for word in steps.split(' ') {
        step(alloc, &mut first, &mut second, word)?;
    }
    let same = flag(first.same(&second));
    let (one, other) = (first.get().as_str(), second.as_str());
    Ok(format!(in alloc; "{one} {other} {same}")?)
}

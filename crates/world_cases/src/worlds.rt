//! Lines of worlds and licences: each is a call, and the line of the entry that it leaves is written.
//!
//! Two worlds stand. In the kept one a controller's call is made only where its seat was told enough, and else the
//! rule is written that refuses it; the free one answers each call that begins with `free`, and one with `quiet`
//! without a line. `may` asks whether the seat may make a call after its entries in the free world. `lost` makes a
//! call whose answer does not come back. `as` names the kind and the seat that call next; `new` begins anew, with
//! the pools, faults and imports that were named, and writes the setup; `objects` writes those of the kept world,
//! and a line of nothing behind them.

mod own;
mod standing;

use crate::words::word;
pub use crate::worlds::standing::Worlds;
use call_types::request::Request;
use call_types::setup::Pool;
use object_text::reading::read_object;
use plain_data::copies::OutOfMemory;
use sample_objects::lines::{request, split};
use sample_objects::nodes::pool;
use sample_objects::words::{number, seat, words_of};
use std::alloc::Global;

fn import(alloc: Global, worlds: &mut Worlds, manifest: &str) -> Result<bool, OutOfMemory> {
    match read_object(alloc, manifest.as_bytes()) {
        Err(_) => Ok(false),
        Ok(object) => {
            worlds.setup.imports.push(object)?;
            Ok(true)
        }
    }
}

fn add_pool(alloc: Global, worlds: &mut Worlds, words: &[&str]) -> Result<bool, OutOfMemory> {
    match pool(alloc, words)? {
        None => Ok(false),
        Some(pool) => {
            worlds.setup.pools.push(pool)?;
            Ok(true)
        }
    }
}

// Sets up what the words say. True where they set something up.
fn sets_up(
    alloc: Global,
    worlds: &mut Worlds,
    verb: &str,
    words: &[&str],
) -> Result<bool, OutOfMemory> {
    match (verb, words) {
        ("as", [kind, name]) => {
            worlds.kind = seat(kind);
            worlds.seat = number(name);
            Ok(true)
        }
        ("fault", [word]) => {
            worlds.setup.faults.push(number(word))?;
            Ok(true)
        }
        ("pool", _) => add_pool(alloc, worlds, words),
        _ => Ok(false),
    }
}

fn of_call(
    alloc: Global,
    worlds: &mut Worlds,
    how: &str,
    request: &Request,
) -> Result<Option<String>, OutOfMemory> {
    match how {
        "lost" => Ok(Some(worlds.call(request, false)?)),
        "free" => Ok(Some(worlds.call_free(request, true)?)),
        "quiet" => {
            let _line = worlds.call_free(request, true)?;
            Ok(None)
        }
        "may" => Ok(Some(worlds.may(request)?)),
        _ => Ok(Some(worlds.call(request, true)?)),
    }
}

fn called(
    alloc: Global,
    worlds: &mut Worlds,
    how: &str,
    line: &str,
) -> Result<Option<String>, OutOfMemory> {
    let (verb, rest) = split(line);
    match request(alloc, verb, rest)? {
        None => Ok(Some(word(alloc, "no such call")?)),
        Some(request) => of_call(alloc, worlds, how, &request),
    }
}

fn other(
    alloc: Global,
    worlds: &mut Worlds,
    verb: &str,
    rest: &str,
    line: &str,
) -> Result<Option<String>, OutOfMemory> {
    let words = words_of(alloc, rest)?;
    if sets_up(alloc, worlds, verb, &words)? {
        return Ok(None);
    }
    called(alloc, worlds, "kept", line)
}

/// What is written for a line, if anything.
pub fn answer(
    alloc: Global,
    worlds: &mut Worlds,
    line: &str,
) -> Result<Option<String>, OutOfMemory> {
    let (verb, rest) = split(line);
    match verb {
        "new" => Ok(Some(worlds.begin()?)),
        "objects" => Ok(Some(worlds.objects()?)),
        "import" => {
            if import(alloc, worlds, rest)? {
                Ok(None)
            } else {
                Ok(Some(word(alloc, "no such object")?))
            }
        }
        "lost" | "free" | "quiet" | "may" => called(alloc, worlds, verb, rest),
        "create" | "update" => called(alloc, worlds, "kept", line),
        _ => other(alloc, worlds, verb, rest, line),
    }
}

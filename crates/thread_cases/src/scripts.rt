//! Scripts of a few users' lines.

ghost use Rattle.binder_model.specs.Imports.{ImportsPass};

use call_types::reply::{Refusal, Reply};
use call_types::request::Request;
use call_types::setup::Setup;
use kube_types::copies::{OutOfMemory, Plain};
use kube_types::items::Items;
use kube_types::key::Key;
use kube_types::parts::Kind;
use kube_types::text::{Names, Text};
use script_text::script::{Line, Script};
use std::alloc::Global;
use world_core::kept::KeptWorld;

/// What a user asks: to read a volume that is not there, or all pods, or that the time be set.
#[derive(Clone, Copy, Debug, PartialEq, Eq)]
pub enum Word {
    Get,
    List,
    Time,
}

fn request(alloc: Global, word: Word) -> Result<Request, OutOfMemory> {
    match word {
        Word::Get => Ok(Request::Get {
            key: Key {
                kind: Kind::PersistentVolume,
                namespace: Text::new(alloc, "")?,
                name: Text::new(alloc, "a")?,
            },
        }),
        Word::List => Ok(Request::List {
            kind: Kind::Pod,
            namespace: None,
        }),
        Word::Time => Ok(Request::SetTime {
            at: Text::new(alloc, "2026-01-01T00:00:00Z")?,
        }),
    }
}

/// A setup with nothing in it.
pub fn setup(alloc: Global) -> Setup
    ensures { ImportsPass result.imports }
{
    Setup {
        pools: Items::new(alloc),
        faults: Items::new(alloc),
        imports: Items::new(alloc),
    }
}

/// The script in which these users ask so, in order, with a drain at its end.
pub fn script_of(alloc: Global, words: &[(u64, Word)]) -> Result<Script, OutOfMemory> {
    let mut lines = Items::new(alloc);
    for (user, word) in words {
        lines.push(Line::Call {
            user: *user,
            request: request(alloc, *word)?,
        })?;
    }
    lines.push(Line::Drain)?;
    Ok(Script {
        setup: setup(alloc),
        lines,
        node_names: Names::new(alloc),
        sizes: Names::new(alloc),
    })
}

fn is_answer(word: Word, reply: &Reply) -> bool {
    match (word, reply) {
        (Word::Get, Reply::Refused(Refusal::NotFound)) => true,
        (Word::List, Reply::Listed { items, version: _ }) => items.as_slice().is_empty(),
        (Word::Time, Reply::Timed) => true,
        _ => false,
    }
}

/// Whether the entry at this place of the seat's own is the call of this word, with its answer.
fn is_at(
    alloc: Global,
    world: &KeptWorld,
    seat: u64,
    place: usize,
    word: Word,
) -> Result<bool, OutOfMemory> {
    let wanted = request(alloc, word)?;
    let found = world
        .world()
        .history()
        .iter()
        .filter(|entry| entry.seat == seat)
        .nth(place);
    match found {
        Some(entry) => Ok(
            entry.told && entry.request.same(&wanted) && is_answer(word, &entry.reply),
        ),
        None => Ok(false),
    }
}

/// How many entries the seat has.
pub fn count_of(world: &KeptWorld, seat: u64) -> usize {
    world
        .world()
        .history()
        .iter()
        .filter(|entry| entry.seat == seat)
        .count()
}

/// Whether the seat's entries are the calls of the user's words, in order, and no others.
pub fn has_words(
    alloc: Global,
    world: &KeptWorld,
    user: u64,
    words: &[(u64, Word)],
) -> Result<bool, OutOfMemory> {
    let mut place = 0;
    for (of, word) in words {
        if *of == user {
            if !is_at(alloc, world, user, place, *word)? {
                return Ok(false);
            }
            place += 1;
        }
    }
    Ok(place == count_of(world, user))
}

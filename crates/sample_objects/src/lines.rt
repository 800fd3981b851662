//! The request of a line, and bytes as a line.

use crate::keyed::{create, create_in, keyed, list, update};
use crate::nodes::of_devices;
use crate::words::{Named, kind, number, text, words_of};
use call_types::request::Request;
use plain_data::copies::OutOfMemory;
use plain_data::text::Bytes;
use std::alloc::Global;

fn time(alloc: Global, words: &[&str]) -> Result<Option<Request>, OutOfMemory> {
    match words {
        [at] => Ok(Some(Request::SetTime {
            at: text(alloc, at)?,
        })),
        _ => Ok(None),
    }
}

fn watch(words: &[&str]) -> Option<Request> {
    match words {
        [one, from] => Some(Request::Watch {
            kind: kind(one),
            from: number(from),
        }),
        _ => None,
    }
}

fn of_words(alloc: Global, verb: &str, words: &[&str]) -> Result<Option<Request>, OutOfMemory> {
    match verb {
        "list" => list(alloc, words),
        "watch" => Ok(watch(words)),
        "time" => time(alloc, words),
        "get" | "delete" | "edit" | "status" | "bind" | "finish" => match words {
            [kind, namespace, name, rest @ ..] => keyed(
                alloc,
                verb,
                Named {
                    kind,
                    namespace,
                    name,
                },
                rest,
            ),
            _ => Ok(None),
        },
        _ => of_devices(alloc, verb, words),
    }
}

/// The request of a verb and what stands behind it, if it is one.
pub fn request(alloc: Global, verb: &str, rest: &str) -> Result<Option<Request>, OutOfMemory> {
    match verb {
        "create" => Ok(create(alloc, rest)),
        "update" => Ok(update(alloc, rest)),
        "create-in" => create_in(alloc, rest),
        _ => {
            let words = words_of(alloc, rest)?;
            of_words(alloc, verb, &words)
        }
    }
}

/// The first word of a line, and what stands behind it.
pub fn split(line: &str) -> (&str, &str) {
    match line.split_once(' ') {
        None => (line, ""),
        Some(parts) => parts,
    }
}

/// A text of its own.
pub fn word(alloc: Global, text: &str) -> Result<String, OutOfMemory> {
    Ok(String::from_str(alloc, text)?)
}

/// The bytes as a text.
pub fn text_of(alloc: Global, line: Bytes) -> Result<String, OutOfMemory> {
    match str::from_utf8(line.as_slice()) {
        Ok(line) => word(alloc, line),
        Err(_) => word(alloc, "no text"),
    }
}

//! Lines of the small parts of objects: ids, lists of names, pairs, keys and access modes.

use crate::words::{flag, word};
use kube_types::key::Key;
use kube_types::parts::Modes;
use kube_types::uid::Uid;
use plain_data::copies::{OutOfMemory, Plain};
use plain_data::pairs::Pairs;
use plain_data::text::{Names, Text};
use sample_objects::lines::split;
use sample_objects::words::{self, number};
use std::alloc::Global;
use std::cmp::Ordering;

fn uid_text(alloc: Global, uid: Uid) -> Result<String, OutOfMemory> {
    let text = uid.text(alloc)?;
    word(alloc, text.as_str())
}

/// The id of a serial number.
fn serial(alloc: Global, text: &str) -> Result<String, OutOfMemory> {
    let serial = number(text);
    if serial >= 4_611_686_018_427_387_904 {
        return word(alloc, "too large");
    }
    uid_text(alloc, Uid::from_serial(serial))
}

/// The id of a text, printed.
fn id(alloc: Global, text: &str) -> Result<String, OutOfMemory> {
    match Uid::parse(text) {
        None => word(alloc, "no id"),
        Some(uid) => uid_text(alloc, uid),
    }
}

fn names_of(alloc: Global, text: &str) -> Result<Names, OutOfMemory> {
    let mut names = Names::new(alloc);
    for name in text.split(' ') {
        let name = Text::new(alloc, name)?;
        names.push(&name)?;
    }
    Ok(names)
}

fn joined(alloc: Global, names: &[Text]) -> Result<String, OutOfMemory> {
    let mut line = Text::new(alloc, "of")?;
    for name in names {
        line.push_str(" ")?;
        line.push_str(name.as_str())?;
    }
    word(alloc, line.as_str())
}

/// The names but for the first, wherever it stands, as they are in a copy.
fn names(alloc: Global, text: &str) -> Result<String, OutOfMemory> {
    let (first, rest) = split(text);
    let names = names_of(alloc, rest)?;
    let others = names.without(alloc, first)?;
    let copy = others.copy(alloc)?;
    joined(alloc, copy.as_slice())
}

/// Whether the first name is among the others.
fn contains(alloc: Global, text: &str) -> Result<String, OutOfMemory> {
    let (first, rest) = split(text);
    let names = names_of(alloc, rest)?;
    word(alloc, flag(names.contains(first)))
}

fn change(alloc: Global, pairs: &mut Pairs, step: &str) -> Result<(), OutOfMemory> {
    match step.split_once('=') {
        None => pairs.drop_key(&Text::new(alloc, step)?),
        Some((key, value)) => {
            let key = Text::new(alloc, key)?;
            pairs.set(&key, &Text::new(alloc, value)?)?;
        }
    }
    Ok(())
}

fn pairs_of(alloc: Global, text: &str) -> Result<Pairs, OutOfMemory> {
    let mut pairs = Pairs::new(alloc);
    for step in text.split(' ') {
        change(alloc, &mut pairs, step)?;
    }
    pairs.copy(alloc)
}

fn pairs_line(alloc: Global, pairs: &Pairs) -> Result<String, OutOfMemory> {
    let mut line = Text::new(alloc, "of")?;
    for (key, value) in pairs.as_slice() {
        line.push_str(" ")?;
        line.push_str(key.as_str())?;
        line.push_str("=")?;
        line.push_str(value.as_str())?;
    }
    word(alloc, line.as_str())
}

/// A copy of the pairs after steps, `KEY=VALUE` to set and `KEY` to drop.
fn pairs(alloc: Global, text: &str) -> Result<String, OutOfMemory> {
    let pairs = pairs_of(alloc, text)?;
    pairs_line(alloc, &pairs)
}

/// The value of the first word after the steps that follow.
fn value(alloc: Global, text: &str) -> Result<String, OutOfMemory> {
    let (key, rest) = split(text);
    let pairs = pairs_of(alloc, rest)?;
    match pairs.get(key) {
        None => word(alloc, "none"),
        Some(value) => word(alloc, value.as_str()),
    }
}

fn key(alloc: Global, text: &str) -> Result<Key, OutOfMemory> {
    let (kind, rest) = text.split_once('/').unwrap_or((text, ""));
    let (namespace, name) = rest.split_once('/').unwrap_or(("", rest));
    Ok(Key {
        kind: words::kind(kind),
        namespace: Text::new(alloc, namespace)?,
        name: Text::new(alloc, name)?,
    })
}

/// How two keys `KIND/NAMESPACE/NAME` stand in the order.
fn keys(alloc: Global, text: &str) -> Result<String, OutOfMemory> {
    let (first, second) = split(text);
    let first = key(alloc, first)?;
    let second = key(alloc, second)?;
    let copy = first.copy(alloc)?;
    match copy.compare(&second) {
        Ordering::Less => word(alloc, "before"),
        Ordering::Equal => word(alloc, flag(copy.same(&second))),
        Ordering::Greater => word(alloc, "after"),
    }
}

/// The names of the access modes whose letters stand in the text: o, r, m and p.
fn modes(alloc: Global, text: &str) -> Result<String, OutOfMemory> {
    let modes = Modes {
        rwo: text.contains('o'),
        rox: text.contains('r'),
        rwx: text.contains('m'),
        rwop: text.contains('p'),
    };
    let names = modes.names(alloc)?;
    joined(alloc, names.as_slice())
}

/// What a call answers of the words behind it.
pub fn answer(alloc: Global, line: &str) -> Result<String, OutOfMemory> {
    let (call, text) = split(line);
    match call {
        "serial" => serial(alloc, text),
        "id" => id(alloc, text),
        "without" => names(alloc, text),
        "contains" => contains(alloc, text),
        "pairs" => pairs(alloc, text),
        "value" => value(alloc, text),
        "keys" => keys(alloc, text),
        "modes" => modes(alloc, text),
        _ => word(alloc, "no such call"),
    }
}

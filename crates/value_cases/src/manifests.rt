//! Lines of manifests that are read and printed: a call, a blank and the text.

use crate::words::{flag, object_line, word};
use kube_types::data::data_id;
use kube_types::key::key_of;
use kube_types::objects::Object;
use object_text::errors::ObjectError;
use object_text::listing::read_list;
use object_text::reading::read_object;
use plain_data::copies::{OutOfMemory, Plain};
use plain_data::text::{Bytes, Text};
use sample_objects::lines::split;
use std::alloc::Global;

fn refusal(alloc: Global, reason: ObjectError) -> Result<String, OutOfMemory> {
    match reason {
        ObjectError::OutOfMemory => Err(OutOfMemory),
        ObjectError::TooLong => word(alloc, "TooLong"),
        ObjectError::NotJson => word(alloc, "NotJson"),
        ObjectError::NotObject => word(alloc, "NotObject"),
        ObjectError::NotWhole => word(alloc, "NotWhole"),
        ObjectError::UnknownKind => word(alloc, "UnknownKind"),
        ObjectError::Missing(member) => {
            let name = member.name();
            Ok(format!(in alloc; "Missing {name}")?)
        }
        ObjectError::WrongType(member) => {
            let name = member.name();
            Ok(format!(in alloc; "WrongType {name}")?)
        }
        ObjectError::BadQuantity(member) => {
            let name = member.name();
            Ok(format!(in alloc; "BadQuantity {name}")?)
        }
    }
}

/// The canonical line of a manifest, or why it is refused.
fn object(alloc: Global, text: &[u8]) -> Result<String, OutOfMemory> {
    match read_object(alloc, text) {
        Err(reason) => refusal(alloc, reason),
        Ok(object) => object_line(alloc, &object),
    }
}

fn bytes_of(alloc: Global, text: &str) -> Result<Bytes, OutOfMemory> {
    let mut bytes = Vec::new(alloc);
    for word in text.split(' ') {
        bytes.push(word.parse::<u8>().unwrap_or(0))?;
    }
    let found = Bytes::new(alloc, &bytes)?;
    found.copy(alloc)
}

/// The manifest whose bytes are given as numbers.
fn raw(alloc: Global, text: &str) -> Result<String, OutOfMemory> {
    let bytes = bytes_of(alloc, text)?;
    object(alloc, bytes.as_slice())
}

fn lines(alloc: Global, objects: &[Object]) -> Result<Text, OutOfMemory> {
    let mut lines = Text::new(alloc, "of")?;
    for object in objects {
        let line = object_line(alloc, object)?;
        lines.push_str("\n")?;
        lines.push_str(line.as_str())?;
    }
    Ok(lines)
}

/// The objects of a List, a line each, or the item that is refused.
fn list(alloc: Global, text: &str) -> Result<String, OutOfMemory> {
    match read_list(alloc, text.as_bytes()) {
        Err(error) => {
            let item = error.item;
            let reason = refusal(alloc, error.reason)?;
            Ok(format!(in alloc; "item {item}: {reason}")?)
        }
        Ok(objects) => {
            let lines = lines(alloc, objects.as_slice())?;
            word(alloc, lines.as_str())
        }
    }
}

fn copied(alloc: Global, object: &Object) -> Result<String, OutOfMemory> {
    let copy = object.copy(alloc)?;
    if !copy.same(object) || !object.same(&copy) {
        return word(alloc, "not the same");
    }
    object_line(alloc, &copy)
}

/// A copy of the manifest's object, which is the same, printed.
fn copy(alloc: Global, text: &str) -> Result<String, OutOfMemory> {
    match read_object(alloc, text.as_bytes()) {
        Err(reason) => refusal(alloc, reason),
        Ok(object) => copied(alloc, &object),
    }
}

/// Whether the two objects of a List are the same.
fn same(alloc: Global, text: &str) -> Result<String, OutOfMemory> {
    match read_list(alloc, text.as_bytes()) {
        Err(_) => word(alloc, "no list"),
        Ok(objects) => match objects.as_slice() {
            [first, second] => word(alloc, flag(first.same(second))),
            _ => word(alloc, "not two"),
        },
    }
}

fn key_line(alloc: Global, object: &Object) -> Result<String, OutOfMemory> {
    let key = key_of(alloc, object)?;
    let kind = key.kind.name();
    let namespace = key.namespace.as_str();
    let name = key.name.as_str();
    Ok(format!(in alloc; "{kind} [{namespace}] {name}")?)
}

/// The key of the manifest's object.
fn key(alloc: Global, text: &str) -> Result<String, OutOfMemory> {
    match read_object(alloc, text.as_bytes()) {
        Err(reason) => refusal(alloc, reason),
        Ok(object) => key_line(alloc, &object),
    }
}

fn data_line(alloc: Global, object: &Object) -> Result<String, OutOfMemory> {
    match object {
        Object::Volume(volume) => {
            let data = data_id(alloc, &volume.source)?;
            let driver = data.driver.as_str();
            let id = data.id.as_str();
            Ok(format!(in alloc; "{driver} {id}")?)
        }
        _ => word(alloc, "no volume"),
    }
}

/// The id of the data of the manifest's volume.
fn data(alloc: Global, text: &str) -> Result<String, OutOfMemory> {
    match read_object(alloc, text.as_bytes()) {
        Err(reason) => refusal(alloc, reason),
        Ok(object) => data_line(alloc, &object),
    }
}

/// What a call answers of a text.
pub fn answer(alloc: Global, line: &str) -> Result<String, OutOfMemory> {
    let (call, text) = split(line);
    match call {
        "object" => object(alloc, text.as_bytes()),
        "raw" => raw(alloc, text),
        "list" => list(alloc, text),
        "copy" => copy(alloc, text),
        "same" => same(alloc, text),
        "key" => key(alloc, text),
        "data" => data(alloc, text),
        _ => word(alloc, "no such call"),
    }
}

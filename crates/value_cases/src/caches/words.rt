//! The key that a line names, and answers as text.

use crate::words::word;
use kube_types::key::{Key, meta_of};
use kube_types::objects::Object;
use plain_data::copies::OutOfMemory;
use plain_data::text::Text;
use sample_objects::lines::split;
use sample_objects::words::{self, Named};
use std::alloc::Global;

/// The key of three words.
pub fn key(alloc: Global, line: &str) -> Result<Key, OutOfMemory> {
    let (kind, rest) = split(line);
    let (namespace, name) = split(rest);
    words::key(
        alloc,
        Named {
            kind,
            namespace,
            name,
        },
    )
}

fn add_key(line: &mut Text, key: &Key) -> Result<(), OutOfMemory> {
    line.push_str(" ")?;
    if !key.namespace.is("") {
        line.push_str(key.namespace.as_str())?;
        line.push_str("/")?;
    }
    line.push_str(key.name.as_str())
}

/// The names of the keys, in their order.
pub fn keys_line(alloc: Global, keys: &[Key]) -> Result<String, OutOfMemory> {
    let mut line = Text::new(alloc, "keys")?;
    for key in keys {
        add_key(&mut line, key)?;
    }
    word(alloc, line.as_str())
}

fn add_object(alloc: Global, line: &mut Text, object: &Object) -> Result<(), OutOfMemory> {
    let meta = meta_of(object);
    let name = meta.name.as_str();
    let version = meta.version;
    let text = format!(in alloc; " {name}@{version}")?;
    line.push_str(&text)
}

/// The names and versions of the objects, in their order.
pub fn objects_line(alloc: Global, objects: &[Object]) -> Result<String, OutOfMemory> {
    let mut line = Text::new(alloc, "rows")?;
    for object in objects {
        add_object(alloc, &mut line, object)?;
    }
    word(alloc, line.as_str())
}

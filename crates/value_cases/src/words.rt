//! What the families share: a look-up with some objects, and answers as text.

use call_types::request::{NewStatus, Request};
use kube_types::key::Key;
use kube_types::objects::{Amount, Object, Version};
use kube_types::parts::Modes;
use kube_types::table::Table;
use object_print::print_object;
use plain_data::copies::{OutOfMemory, Plain};
use sample_objects::lines::text_of;
pub use sample_objects::lines::word;
use std::alloc::Global;

/// A look-up with these objects.
pub fn table_of(alloc: Global, objects: &[Object]) -> Result<Table, OutOfMemory> {
    let mut table = Table::new(alloc);
    for object in objects {
        let _ = table.put(alloc, object.copy(alloc)?)?;
    }
    Ok(table)
}

pub fn flag(holds: bool) -> &'static str {
    if holds { "yes" } else { "no" }
}

/// The canonical line of an object.
pub fn object_line(alloc: Global, object: &Object) -> Result<String, OutOfMemory> {
    text_of(alloc, print_object(alloc, object)?)
}

fn at_version(version: &Option<Version>) -> u64 {
    version.unwrap_or(0)
}

fn amount_word(amount: &Option<Amount>) -> &str {
    match amount {
        None => "-",
        Some(amount) => amount.text.as_str(),
    }
}

fn mode_letters(modes: &Modes) -> &'static str {
    match (modes.rwo, modes.rox, modes.rwx, modes.rwop) {
        (true, false, false, false) => "ReadWriteOnce",
        (true, true, false, false) => "ReadWriteOnce,ReadOnlyMany",
        _ => "other",
    }
}

fn status_line(alloc: Global, key: &Key, status: &NewStatus) -> Result<String, OutOfMemory> {
    let kind = key.kind.name();
    let name = key.name.as_str();
    match status {
        NewStatus::Volume(phase) => {
            let phase = phase.name();
            Ok(format!(in alloc; "{kind} {name} {phase}")?)
        }
        NewStatus::Claim {
            phase,
            modes,
            amount,
        } => {
            let phase = phase.name();
            let modes = mode_letters(modes);
            let amount = amount_word(amount);
            Ok(format!(in alloc; "{kind} {name} {phase} {modes} {amount}")?)
        }
    }
}

/// A write as its version, what it is and what it writes.
pub fn write_line(alloc: Global, request: &Request) -> Result<String, OutOfMemory> {
    match request {
        Request::Update { object, version } => {
            let version = at_version(version);
            let object = object_line(alloc, object)?;
            Ok(format!(in alloc; "update at {version} {object}")?)
        }
        Request::UpdateStatus {
            key,
            status,
            version,
        } => {
            let version = at_version(version);
            let status = status_line(alloc, key, status)?;
            Ok(format!(in alloc; "status at {version} {status}")?)
        }
        _ => word(alloc, "another request"),
    }
}

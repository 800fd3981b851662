//! Asks of the store of snapshots, by the words of a line.

use kube_types::objects::DataId;
use plain_data::copies::OutOfMemory;
use plain_data::text::Text;
use sample_objects::words::{number, policy};
use snapshot_bind::calls::SnapAsk;
use std::alloc::Global;

fn snapshot(
    alloc: Global,
    namespace: &str,
    name: &str,
    claim: &str,
    kept: &str,
) -> Result<Option<SnapAsk>, OutOfMemory> {
    Ok(Some(SnapAsk::Snapshot {
        namespace: Text::new(alloc, namespace)?,
        name: Text::new(alloc, name)?,
        claim: Text::new(alloc, claim)?,
        policy: policy(kept),
    }))
}

fn content(alloc: Global, words: &[&str]) -> Result<Option<SnapAsk>, OutOfMemory> {
    match words {
        [name, namespace, snapshot, kept, driver, id] => Ok(Some(SnapAsk::Content {
            name: Text::new(alloc, name)?,
            namespace: Text::new(alloc, namespace)?,
            snapshot: Text::new(alloc, snapshot)?,
            policy: policy(kept),
            source: DataId {
                driver: Text::new(alloc, driver)?,
                id: Text::new(alloc, id)?,
            },
        })),
        _ => Ok(None),
    }
}

/// The ask of a snapshot's key, and of no more.
fn of_key(
    alloc: Global,
    call: &str,
    namespace: &str,
    name: &str,
) -> Result<Option<SnapAsk>, OutOfMemory> {
    let namespace = Text::new(alloc, namespace)?;
    let name = Text::new(alloc, name)?;
    match call {
        "unsnap" => Ok(Some(SnapAsk::Unsnap { namespace, name })),
        "get" => Ok(Some(SnapAsk::SnapGet { namespace, name })),
        _ => Ok(None),
    }
}

/// The ask of a snapshot's key and a number.
fn of_snapshot(
    alloc: Global,
    call: &str,
    namespace: &str,
    name: &str,
    at: u64,
) -> Result<Option<SnapAsk>, OutOfMemory> {
    let namespace = Text::new(alloc, namespace)?;
    let name = Text::new(alloc, name)?;
    match call {
        "cut" => Ok(Some(SnapAsk::Cut {
            namespace,
            name,
            uid: at,
        })),
        "drop-snapshot" => Ok(Some(SnapAsk::DropSnapshot {
            namespace,
            name,
            version: at,
        })),
        _ => Ok(None),
    }
}

/// The ask of a content's name and a version.
fn of_content(
    alloc: Global,
    call: &str,
    name: &str,
    version: u64,
) -> Result<Option<SnapAsk>, OutOfMemory> {
    let name = Text::new(alloc, name)?;
    match call {
        "erase" => Ok(Some(SnapAsk::EraseSnap { name, version })),
        "drop-content" => Ok(Some(SnapAsk::DropContent { name, version })),
        _ => Ok(None),
    }
}

fn bind_content(
    alloc: Global,
    name: &str,
    version: &str,
    uid: &str,
) -> Result<Option<SnapAsk>, OutOfMemory> {
    Ok(Some(SnapAsk::BindContent {
        name: Text::new(alloc, name)?,
        version: number(version),
        uid: number(uid),
    }))
}

fn bind_snapshot(
    alloc: Global,
    namespace: &str,
    name: &str,
    version: &str,
    content: &str,
) -> Result<Option<SnapAsk>, OutOfMemory> {
    Ok(Some(SnapAsk::BindSnapshot {
        namespace: Text::new(alloc, namespace)?,
        name: Text::new(alloc, name)?,
        version: number(version),
        content: Text::new(alloc, content)?,
    }))
}

/// The ask of a call and its words, if it is one.
pub fn ask_of(alloc: Global, call: &str, words: &[&str]) -> Result<Option<SnapAsk>, OutOfMemory> {
    match (call, words) {
        ("list", _) => Ok(Some(SnapAsk::SnapList)),
        ("content", _) => content(alloc, words),
        ("uncontent", [name]) => Ok(Some(SnapAsk::Uncontent {
            name: Text::new(alloc, name)?,
        })),
        ("snapshot", [namespace, name, claim, kept]) => {
            snapshot(alloc, namespace, name, claim, kept)
        }
        ("bind-content", [name, version, uid]) => bind_content(alloc, name, version, uid),
        ("bind-snapshot", [namespace, name, version, content]) => {
            bind_snapshot(alloc, namespace, name, version, content)
        }
        ("erase" | "drop-content", [name, version]) => {
            of_content(alloc, call, name, number(version))
        }
        (_, [namespace, name]) => of_key(alloc, call, namespace, name),
        (_, [namespace, name, at]) => of_snapshot(alloc, call, namespace, name, number(at)),
        _ => Ok(None),
    }
}

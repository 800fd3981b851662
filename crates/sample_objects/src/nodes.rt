//! Requests of the devices.

use crate::words::{label, number, text, uid};
use call_types::request::Request;
use call_types::setup::Pool;
use kube_types::objects::DataId;
use kube_types::uid::Uid;
use plain_data::copies::OutOfMemory;
use plain_data::items::Items;
use plain_data::pairs::Pairs;
use std::alloc::Global;

/// The labels of two words, or none.
pub fn labels(alloc: Global, words: &[&str]) -> Result<Option<Pairs>, OutOfMemory> {
    match words {
        [name, value] => Ok(Some(label(alloc, name, value)?)),
        _ => Ok(None),
    }
}

fn provision(alloc: Global, words: &[&str]) -> Result<Option<Request>, OutOfMemory> {
    match words {
        [name, provisioner, bytes, rest @ ..] => Ok(Some(Request::Provision {
            name: text(alloc, name)?,
            provisioner: text(alloc, provisioner)?,
            bytes: number(bytes),
            labels: labels(alloc, rest)?,
        })),
        _ => Ok(None),
    }
}

fn erase(alloc: Global, driver: &str, id: &str) -> Result<Option<Request>, OutOfMemory> {
    let driver = text(alloc, driver)?;
    let id = text(alloc, id)?;
    Ok(Some(Request::Erase {
        id: DataId { driver, id },
    }))
}

fn uids(alloc: Global, words: &[&str]) -> Result<Items<Uid>, OutOfMemory> {
    let mut found = Items::new(alloc);
    for word in words {
        found.push(uid(word))?;
    }
    Ok(found)
}

fn mount(
    alloc: Global,
    node: &str,
    epoch: &str,
    words: &[&str],
) -> Result<Option<Request>, OutOfMemory> {
    match words {
        [pod, claims @ ..] => Ok(Some(Request::Mount {
            node: text(alloc, node)?,
            epoch: number(epoch),
            pod: uid(pod),
            claims: uids(alloc, claims)?,
        })),
        _ => Ok(None),
    }
}

fn unmount(
    alloc: Global,
    node: &str,
    epoch: &str,
    pod: &str,
) -> Result<Option<Request>, OutOfMemory> {
    Ok(Some(Request::Unmount {
        epoch: number(epoch),
        pod: uid(pod),
        node: text(alloc, node)?,
    }))
}

/// The request of a verb of the devices.
pub fn of_devices(
    alloc: Global,
    verb: &str,
    words: &[&str],
) -> Result<Option<Request>, OutOfMemory> {
    match (verb, words) {
        ("provision", _) => provision(alloc, words),
        ("erase", [driver, id]) => erase(alloc, driver, id),
        ("take", [node]) => Ok(Some(Request::TakeNode {
            node: text(alloc, node)?,
        })),
        ("mounts", [node, epoch]) => Ok(Some(Request::Mounts {
            node: text(alloc, node)?,
            epoch: number(epoch),
        })),
        ("mount", [node, epoch, rest @ ..]) => mount(alloc, node, epoch, rest),
        ("unmount", [node, epoch, pod]) => unmount(alloc, node, epoch, pod),
        _ => Ok(None),
    }
}

/// The pool of a name, a provisioner, its bytes and its label, if any.
pub fn pool(alloc: Global, words: &[&str]) -> Result<Option<Pool>, OutOfMemory> {
    let topology = match words {
        [_, _, _, name, value] => Some((text(alloc, name)?, text(alloc, value)?)),
        _ => None,
    };
    match words {
        [name, provisioner, bytes, ..] => Ok(Some(Pool {
            name: text(alloc, name)?,
            provisioner: text(alloc, provisioner)?,
            bytes: number(bytes),
            topology,
        })),
        _ => Ok(None),
    }
}

//! Requests of the store.

use crate::words::{
    Named, claim_phase, key, kind, mode, number, policy, text, uid, version, volume_phase,
};
use call_types::edit::Edit;
use call_types::request::{NewStatus, Request};
use kube_types::objects::{Amount, Object};
use object_text::reading::read_object;
use plain_data::copies::OutOfMemory;
use plain_data::text::Text;
use quantity_text::read_amount;
use std::alloc::Global;

fn pair_edit(
    alloc: Global,
    name: &str,
    first: &str,
    second: &str,
) -> Result<Option<Edit>, OutOfMemory> {
    let first = text(alloc, first)?;
    let second = text(alloc, second)?;
    match name {
        "setLabel" => Ok(Some(Edit::SetLabel {
            key: first,
            value: second,
        })),
        "setAnnotation" => Ok(Some(Edit::SetAnnotation {
            key: first,
            value: second,
        })),
        "setClaimRef" => Ok(Some(Edit::SetClaimRef {
            namespace: first,
            name: second,
        })),
        _ => Ok(None),
    }
}

fn word_edit(alloc: Global, name: &str, word: &str) -> Result<Option<Edit>, OutOfMemory> {
    let value = text(alloc, word)?;
    match name {
        "addFinalizer" => Ok(Some(Edit::AddFinalizer(value))),
        "dropFinalizer" => Ok(Some(Edit::DropFinalizer(value))),
        "dropLabel" => Ok(Some(Edit::DropLabel(value))),
        "dropAnnotation" => Ok(Some(Edit::DropAnnotation(value))),
        "setVolumeName" => Ok(Some(Edit::SetVolumeName(value))),
        "setPolicy" => Ok(Some(Edit::SetPolicy(policy(word)))),
        _ => Ok(None),
    }
}

fn edit_of(alloc: Global, words: &[&str]) -> Result<Option<Edit>, OutOfMemory> {
    match words {
        ["clearClaimRef"] => Ok(Some(Edit::ClearClaimRef)),
        [name, word] => word_edit(alloc, name, word),
        [name, first, second] => pair_edit(alloc, name, first, second),
        _ => Ok(None),
    }
}

fn edit(alloc: Global, named: Named, words: &[&str]) -> Result<Option<Request>, OutOfMemory> {
    match edit_of(alloc, words)? {
        None => Ok(None),
        Some(edit) => Ok(Some(Request::Edit {
            key: key(alloc, named)?,
            edit,
        })),
    }
}

fn amount(alloc: Global, word: &str) -> Option<Amount> {
    read_amount(alloc, word.as_bytes()).ok()
}

// The status of two words is a volume's, that of four a claim's.
fn status_of(alloc: Global, words: &[&str]) -> Option<NewStatus> {
    match words {
        [phase, _] => Some(NewStatus::Volume(volume_phase(phase))),
        [phase, _, given, bytes] => Some(NewStatus::Claim {
            phase: claim_phase(phase),
            modes: mode(given),
            amount: amount(alloc, bytes),
        }),
        _ => None,
    }
}

fn status(alloc: Global, named: Named, words: &[&str]) -> Result<Option<Request>, OutOfMemory> {
    let at = match words {
        [_, at, ..] => version(at),
        _ => None,
    };
    match status_of(alloc, words) {
        None => Ok(None),
        Some(status) => Ok(Some(Request::UpdateStatus {
            key: key(alloc, named)?,
            status,
            version: at,
        })),
    }
}

fn of_pod(
    alloc: Global,
    verb: &str,
    named: Named,
    words: &[&str],
) -> Result<Option<Request>, OutOfMemory> {
    match words {
        [id, node] => Ok(Some(Request::BindPod {
            node: text(alloc, node)?,
            uid: uid(id),
            key: key(alloc, named)?,
        })),
        [id, node, epoch] if verb == "finish" => Ok(Some(Request::FinishPod {
            node: text(alloc, node)?,
            uid: uid(id),
            epoch: number(epoch),
            key: key(alloc, named)?,
        })),
        _ => Ok(None),
    }
}

/// The request of a verb that names an object by its key.
pub fn keyed(
    alloc: Global,
    verb: &str,
    named: Named,
    words: &[&str],
) -> Result<Option<Request>, OutOfMemory> {
    match (verb, words) {
        ("get", _) => Ok(Some(Request::Get {
            key: key(alloc, named)?,
        })),
        ("delete", [id]) => Ok(Some(Request::Delete {
            uid: Some(uid(id)),
            key: key(alloc, named)?,
        })),
        ("delete", _) => Ok(Some(Request::Delete {
            uid: None,
            key: key(alloc, named)?,
        })),
        ("edit", _) => edit(alloc, named, words),
        ("status", _) => status(alloc, named, words),
        _ => of_pod(alloc, verb, named, words),
    }
}

/// The list of a kind, or of a kind and a namespace.
pub fn list(alloc: Global, words: &[&str]) -> Result<Option<Request>, OutOfMemory> {
    match words {
        [one] => Ok(Some(Request::List {
            kind: kind(one),
            namespace: None,
        })),
        [one, namespace] => Ok(Some(Request::List {
            kind: kind(one),
            namespace: Some(text(alloc, namespace)?),
        })),
        _ => Ok(None),
    }
}

pub fn create(alloc: Global, manifest: &str) -> Option<Request> {
    match read_object(alloc, manifest.as_bytes()) {
        Err(_) => None,
        Ok(object) => Some(Request::Create { object }),
    }
}

fn place(alloc: Global, object: &mut Object, namespace: Text) -> Result<(), OutOfMemory> {
    match object {
        Object::Class(class) => class.value_mut(alloc)?.meta.namespace = namespace,
        Object::Node(node) => node.value_mut(alloc)?.meta.namespace = namespace,
        Object::Volume(volume) => volume.value_mut(alloc)?.meta.namespace = namespace,
        Object::Claim(claim) => claim.value_mut(alloc)?.meta.namespace = namespace,
        Object::Pod(pod) => pod.value_mut(alloc)?.meta.namespace = namespace,
    }
    Ok(())
}

/// The creation of a manifest's object in a namespace, a word before it, which readers drop where the
/// kind has none.
pub fn create_in(alloc: Global, rest: &str) -> Result<Option<Request>, OutOfMemory> {
    let (namespace, manifest) = rest.split_once(' ').unwrap_or((rest, ""));
    match read_object(alloc, manifest.as_bytes()) {
        Err(_) => Ok(None),
        Ok(mut object) => {
            place(alloc, &mut object, text(alloc, namespace)?)?;
            Ok(Some(Request::Create { object }))
        }
    }
}

/// The update of a version, a blank and a manifest.
pub fn update(alloc: Global, rest: &str) -> Option<Request> {
    let (at, manifest) = rest.split_once(' ')?;
    match read_object(alloc, manifest.as_bytes()) {
        Err(_) => None,
        Ok(object) => Some(Request::Update {
            object,
            version: version(at),
        }),
    }
}

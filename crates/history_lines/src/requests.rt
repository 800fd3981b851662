//! The request that an entry has.

ghost use Rattle.serde_json.specs.View.{view};
ghost use Rattle.history_lines.specs.Answers.{PartGives};
ghost use Rattle.history_lines.specs.Members.{look_in};
ghost use Rattle.history_lines.specs.Requests.{volume_status_at, claim_status_at, status_at, update_at, update_status_at, edit_request_at, delete_at, list_request_at, watch_at, bind_at, finish_at, provision_at, mounts_at, mount_at, unmount_at, request_by, request_in};

use crate::edits::edit_at;
use crate::errors::Unread;
use crate::members::{
    data_id_at, found, key_at, kind_at, list_at, modes_at, number_at, object_at, some_amount_at,
    some_labels_at, some_number_at, some_text_at, some_uid_at, text_at, uid_at, word_at,
};
use crate::words::{AskWord, ask_named};
use call_types::request::{NewStatus, Request};
use kube_types::parts::{ClaimPhase, VolumePhase};
use serde_json::Value;
use std::alloc::Global;

// ---- new statuses

fn volume_status_at(value: &Value) -> Result<NewStatus, Unread>
    ensures { PartGives result (volume_status_at (look_in (view value.now))) }
{
    let word = word_at(value, "phase")?;
    let phase = found(VolumePhase::named(word))?;
    Ok(NewStatus::Volume(phase))
}

fn claim_status_at(alloc: Global, value: &Value) -> Result<NewStatus, Unread>
    ensures { PartGives result (claim_status_at (look_in (view value.now))) }
{
    let word = word_at(value, "phase")?;
    let phase = found(ClaimPhase::named(word))?;
    let modes = modes_at(value, "modes")?;
    let amount = some_amount_at(alloc, value, "amount")?;
    Ok(NewStatus::Claim {
        phase,
        modes,
        amount,
    })
}

/// A new status. That of a claim has its modes.
fn status_at(alloc: Global, value: &Value) -> Result<NewStatus, Unread>
    ensures { PartGives result (status_at (look_in (view value.now))) }
{
    match value.get("modes") {
        None => volume_status_at(value),
        Some(_) => claim_status_at(alloc, value),
    }
}

// ---- each request

fn update_at(alloc: Global, value: &Value) -> Result<Request, Unread>
    ensures { PartGives result (update_at (look_in (view value.now))) }
{
    let object = object_at(alloc, value, "object")?;
    let version = some_number_at(value, "version")?;
    Ok(Request::Update { object, version })
}

fn update_status_at(alloc: Global, value: &Value) -> Result<Request, Unread>
    ensures { PartGives result (update_status_at (look_in (view value.now))) }
{
    let key = key_at(alloc, value)?;
    let status = status_at(alloc, value)?;
    let version = some_number_at(value, "version")?;
    Ok(Request::UpdateStatus {
        key,
        status,
        version,
    })
}

fn edit_request_at(alloc: Global, value: &Value) -> Result<Request, Unread>
    ensures { PartGives result (edit_request_at (look_in (view value.now))) }
{
    let key = key_at(alloc, value)?;
    let edit = edit_at(alloc, value)?;
    Ok(Request::Edit { key, edit })
}

fn delete_at(alloc: Global, value: &Value) -> Result<Request, Unread>
    ensures { PartGives result (delete_at (look_in (view value.now))) }
{
    let key = key_at(alloc, value)?;
    let uid = some_uid_at(value, "uid")?;
    Ok(Request::Delete { key, uid })
}

fn list_request_at(alloc: Global, value: &Value) -> Result<Request, Unread>
    ensures { PartGives result (list_request_at (look_in (view value.now))) }
{
    let kind = kind_at(value)?;
    let namespace = some_text_at(alloc, value, "namespace")?;
    Ok(Request::List { kind, namespace })
}

fn watch_at(value: &Value) -> Result<Request, Unread>
    ensures { PartGives result (watch_at (look_in (view value.now))) }
{
    let kind = kind_at(value)?;
    let from = number_at(value, "from")?;
    Ok(Request::Watch { kind, from })
}

fn bind_at(alloc: Global, value: &Value) -> Result<Request, Unread>
    ensures { PartGives result (bind_at (look_in (view value.now))) }
{
    let key = key_at(alloc, value)?;
    let uid = uid_at(value, "uid")?;
    let node = text_at(alloc, value, "node")?;
    Ok(Request::BindPod { key, uid, node })
}

fn finish_at(alloc: Global, value: &Value) -> Result<Request, Unread>
    ensures { PartGives result (finish_at (look_in (view value.now))) }
{
    let key = key_at(alloc, value)?;
    let uid = uid_at(value, "uid")?;
    let node = text_at(alloc, value, "node")?;
    let epoch = number_at(value, "epoch")?;
    Ok(Request::FinishPod {
        key,
        uid,
        node,
        epoch,
    })
}

fn provision_at(alloc: Global, value: &Value) -> Result<Request, Unread>
    ensures { PartGives result (provision_at (look_in (view value.now))) }
{
    let name = text_at(alloc, value, "name")?;
    let provisioner = text_at(alloc, value, "provisioner")?;
    let bytes = number_at(value, "bytes")?;
    let labels = some_labels_at(alloc, value)?;
    Ok(Request::Provision {
        name,
        provisioner,
        bytes,
        labels,
    })
}

fn mounts_at(alloc: Global, value: &Value) -> Result<Request, Unread>
    ensures { PartGives result (mounts_at (look_in (view value.now))) }
{
    let node = text_at(alloc, value, "node")?;
    let epoch = number_at(value, "epoch")?;
    Ok(Request::Mounts { node, epoch })
}

fn mount_at(alloc: Global, value: &Value) -> Result<Request, Unread>
    ensures { PartGives result (mount_at (look_in (view value.now))) }
{
    let node = text_at(alloc, value, "node")?;
    let epoch = number_at(value, "epoch")?;
    let pod = uid_at(value, "pod")?;
    let claims = list_at(alloc, value, "claims")?;
    Ok(Request::Mount {
        node,
        epoch,
        pod,
        claims,
    })
}

fn unmount_at(alloc: Global, value: &Value) -> Result<Request, Unread>
    ensures { PartGives result (unmount_at (look_in (view value.now))) }
{
    let node = text_at(alloc, value, "node")?;
    let epoch = number_at(value, "epoch")?;
    let pod = uid_at(value, "pod")?;
    Ok(Request::Unmount { node, epoch, pod })
}

/// The request of this word.
fn request_by(alloc: Global, word: AskWord, value: &Value) -> Result<Request, Unread>
    ensures { PartGives result (request_by word (look_in (view value.now))) }
{
    match word {
        AskWord::Create => Ok(Request::Create {
            object: object_at(alloc, value, "object")?,
        }),
        AskWord::Update => update_at(alloc, value),
        AskWord::Status => update_status_at(alloc, value),
        AskWord::Edit => edit_request_at(alloc, value),
        AskWord::Delete => delete_at(alloc, value),
        AskWord::Get => Ok(Request::Get {
            key: key_at(alloc, value)?,
        }),
        AskWord::List => list_request_at(alloc, value),
        AskWord::Watch => watch_at(value),
        AskWord::Bind => bind_at(alloc, value),
        AskWord::Finish => finish_at(alloc, value),
        AskWord::Provision => provision_at(alloc, value),
        AskWord::Erase => Ok(Request::Erase {
            id: data_id_at(alloc, value)?,
        }),
        AskWord::Take => Ok(Request::TakeNode {
            node: text_at(alloc, value, "node")?,
        }),
        AskWord::Mounts => mounts_at(alloc, value),
        AskWord::Mount => mount_at(alloc, value),
        AskWord::Unmount => unmount_at(alloc, value),
        AskWord::Time => Ok(Request::SetTime {
            at: text_at(alloc, value, "at")?,
        }),
    }
}

/// The request that a value gives.
#[tactic(auto, unfolding(crate::specs::Requests::request_in))]
pub fn request_in(alloc: Global, value: &Value) -> Result<Request, Unread>
    ensures { PartGives result (request_in (view value.now)) }
{
    let name = word_at(value, "do")?;
    let word = found(ask_named(name))?;
    request_by(alloc, word, value)
}

//! Requests.

use crate::edit::Edit;
use kube_types::copies::{OutOfMemory, Plain, copy_option, same_option};
use kube_types::items::Items;
use kube_types::key::Key;
use kube_types::objects::{Amount, DataId, Object, Version};
use kube_types::pairs::Pairs;
use kube_types::parts::{ClaimPhase, Kind, Modes, VolumePhase};
use kube_types::text::Text;
use kube_types::uid::Uid;
use std::alloc::Global;

/// Who makes a call.
#[derive(Clone, Copy, Debug, PartialEq, Eq)]
pub enum SeatKind {
    User,
    Binder,
    Ops,
    Scheduler,
    ClaimProtect,
    VolumeProtect,
    Agent,
}

impl Plain for SeatKind {
    fn copy(&self, _alloc: Global) -> Result<SeatKind, OutOfMemory> {
        Ok(*self)
    }

    fn same(&self, other: &SeatKind) -> bool {
        *self == *other
    }
}

/// The status that is written in place of the old one.
#[derive(Debug)]
pub enum NewStatus {
    Volume(VolumePhase),
    Claim {
        phase: ClaimPhase,
        modes: Modes,
        amount: Option<Amount>,
    },
}

impl Drop for NewStatus {
    fn drop(self) {
        match self {
            NewStatus::Volume(_) => {}
            NewStatus::Claim {
                phase: _,
                modes: _,
                amount,
            } => drop(amount),
        }
    }
}

impl Plain for NewStatus {
    fn copy(&self, alloc: Global) -> Result<NewStatus, OutOfMemory> {
        match self {
            NewStatus::Volume(phase) => Ok(NewStatus::Volume(*phase)),
            NewStatus::Claim {
                phase,
                modes,
                amount,
            } => Ok(NewStatus::Claim {
                phase: *phase,
                modes: *modes,
                amount: copy_option(alloc, amount)?,
            }),
        }
    }

    fn same(&self, other: &NewStatus) -> bool {
        match (self, other) {
            (NewStatus::Volume(phase), NewStatus::Volume(other_phase)) => { *phase == *other_phase }
            (
                NewStatus::Claim {
                    phase,
                    modes,
                    amount,
                },
                NewStatus::Claim {
                    phase: other_phase,
                    modes: other_modes,
                    amount: other_amount,
                },
            ) => {
                *phase == *other_phase
                    && *modes == *other_modes
                    && same_option(amount, other_amount)
            }
            _ => false,
        }
    }
}

/// What is asked of the store, of its watch log or of the devices in one call.
/// A write with a version is made at that version alone.
#[derive(Debug)]
pub enum Request {
    Create {
        object: Object,
    },
    Update {
        object: Object,
        version: Option<Version>,
    },
    UpdateStatus {
        key: Key,
        status: NewStatus,
        version: Option<Version>,
    },
    Edit {
        key: Key,
        edit: Edit,
    },
    Delete {
        key: Key,
        uid: Option<Uid>,
    },
    Get {
        key: Key,
    },
    List {
        kind: Kind,
        namespace: Option<Text>,
    },
    Watch {
        kind: Kind,
        from: Version,
    },
    BindPod {
        key: Key,
        uid: Uid,
        node: Text,
    },
    FinishPod {
        key: Key,
        uid: Uid,
        node: Text,
        epoch: u64,
    },
    Provision {
        name: Text,
        provisioner: Text,
        bytes: u64,
        labels: Option<Pairs>,
    },
    Erase {
        id: DataId,
    },
    TakeNode {
        node: Text,
    },
    Mounts {
        node: Text,
        epoch: u64,
    },
    Mount {
        node: Text,
        epoch: u64,
        pod: Uid,
        claims: Items<Uid>,
    },
    Unmount {
        node: Text,
        epoch: u64,
        pod: Uid,
    },
    SetTime {
        at: Text,
    },
}

impl Drop for Request {
    fn drop(self) {
        match self {
            Request::Create { object } => drop(object),
            Request::Update { object, version: _ } => drop(object),
            Request::UpdateStatus {
                key,
                status,
                version: _,
            } => {
                drop(key);
                drop(status);
            }
            Request::Edit { key, edit } => {
                drop(key);
                drop(edit);
            }
            Request::Delete { key, uid: _ } => drop(key),
            Request::Get { key } => drop(key),
            Request::List { kind: _, namespace } => drop(namespace),
            Request::Watch { kind: _, from: _ } => {}
            Request::BindPod { key, uid: _, node } => {
                drop(key);
                drop(node);
            }
            Request::FinishPod {
                key,
                uid: _,
                node,
                epoch: _,
            } => {
                drop(key);
                drop(node);
            }
            Request::Provision {
                name,
                provisioner,
                bytes: _,
                labels,
            } => {
                drop(name);
                drop(provisioner);
                drop(labels);
            }
            Request::Erase { id } => drop(id),
            Request::TakeNode { node } => drop(node),
            Request::Mounts { node, epoch: _ } => drop(node),
            Request::Mount {
                node,
                epoch: _,
                pod: _,
                claims,
            } => {
                drop(node);
                drop(claims);
            }
            Request::Unmount {
                node,
                epoch: _,
                pod: _,
            } => drop(node),
            Request::SetTime { at } => drop(at),
        }
    }
}

impl Plain for Request {
    fn copy(&self, alloc: Global) -> Result<Request, OutOfMemory> {
        match self {
            Request::Create { object } => Ok(Request::Create {
                object: object.copy(alloc)?,
            }),
            Request::Update { object, version } => Ok(Request::Update {
                object: object.copy(alloc)?,
                version: *version,
            }),
            Request::UpdateStatus {
                key,
                status,
                version,
            } => Ok(Request::UpdateStatus {
                key: key.copy(alloc)?,
                status: status.copy(alloc)?,
                version: *version,
            }),
            Request::Edit { key, edit } => Ok(Request::Edit {
                key: key.copy(alloc)?,
                edit: edit.copy(alloc)?,
            }),
            Request::Delete { key, uid } => Ok(Request::Delete {
                key: key.copy(alloc)?,
                uid: *uid,
            }),
            Request::Get { key } => Ok(Request::Get {
                key: key.copy(alloc)?,
            }),
            Request::List { kind, namespace } => Ok(Request::List {
                kind: *kind,
                namespace: copy_option(alloc, namespace)?,
            }),
            Request::Watch { kind, from } => Ok(Request::Watch {
                kind: *kind,
                from: *from,
            }),
            Request::BindPod { key, uid, node } => Ok(Request::BindPod {
                key: key.copy(alloc)?,
                uid: *uid,
                node: node.copy(alloc)?,
            }),
            Request::FinishPod {
                key,
                uid,
                node,
                epoch,
            } => Ok(Request::FinishPod {
                key: key.copy(alloc)?,
                uid: *uid,
                node: node.copy(alloc)?,
                epoch: *epoch,
            }),
            Request::Provision {
                name,
                provisioner,
                bytes,
                labels,
            } => Ok(Request::Provision {
                name: name.copy(alloc)?,
                provisioner: provisioner.copy(alloc)?,
                bytes: *bytes,
                labels: copy_option(alloc, labels)?,
            }),
            Request::Erase { id } => Ok(Request::Erase {
                id: id.copy(alloc)?,
            }),
            Request::TakeNode { node } => Ok(Request::TakeNode {
                node: node.copy(alloc)?,
            }),
            Request::Mounts { node, epoch } => Ok(Request::Mounts {
                node: node.copy(alloc)?,
                epoch: *epoch,
            }),
            Request::Mount {
                node,
                epoch,
                pod,
                claims,
            } => Ok(Request::Mount {
                node: node.copy(alloc)?,
                epoch: *epoch,
                pod: *pod,
                claims: claims.copy(alloc)?,
            }),
            Request::Unmount { node, epoch, pod } => Ok(Request::Unmount {
                node: node.copy(alloc)?,
                epoch: *epoch,
                pod: *pod,
            }),
            Request::SetTime { at } => Ok(Request::SetTime {
                at: at.copy(alloc)?,
            }),
        }
    }

    fn same(&self, other: &Request) -> bool {
        match (self, other) {
            (
                Request::Create { object },
                Request::Create {
                    object: other_object,
                },
            ) => { object.same(other_object) }
            (
                Request::Update { object, version },
                Request::Update {
                    object: other_object,
                    version: other_version,
                },
            ) => { object.same(other_object) && *version == *other_version }
            (
                Request::UpdateStatus {
                    key,
                    status,
                    version,
                },
                Request::UpdateStatus {
                    key: other_key,
                    status: other_status,
                    version: other_version,
                },
            ) => { key.same(other_key) && status.same(other_status) && *version == *other_version }
            (
                Request::Edit { key, edit },
                Request::Edit {
                    key: other_key,
                    edit: other_edit,
                },
            ) => { key.same(other_key) && edit.same(other_edit) }
            (
                Request::Delete { key, uid },
                Request::Delete {
                    key: other_key,
                    uid: other_uid,
                },
            ) => { key.same(other_key) && *uid == *other_uid }
            (Request::Get { key }, Request::Get { key: other_key }) => { key.same(other_key) }
            (
                Request::List { kind, namespace },
                Request::List {
                    kind: other_kind,
                    namespace: other_namespace,
                },
            ) => { *kind == *other_kind && same_option(namespace, other_namespace) }
            (
                Request::Watch { kind, from },
                Request::Watch {
                    kind: other_kind,
                    from: other_from,
                },
            ) => { *kind == *other_kind && *from == *other_from }
            (
                Request::BindPod { key, uid, node },
                Request::BindPod {
                    key: other_key,
                    uid: other_uid,
                    node: other_node,
                },
            ) => { key.same(other_key) && *uid == *other_uid && node.same(other_node) }
            (
                Request::FinishPod {
                    key,
                    uid,
                    node,
                    epoch,
                },
                Request::FinishPod {
                    key: other_key,
                    uid: other_uid,
                    node: other_node,
                    epoch: other_epoch,
                },
            ) => {
                key.same(other_key)
                    && *uid == *other_uid
                    && node.same(other_node)
                    && *epoch == *other_epoch
            }
            (
                Request::Provision {
                    name,
                    provisioner,
                    bytes,
                    labels,
                },
                Request::Provision {
                    name: other_name,
                    provisioner: other_provisioner,
                    bytes: other_bytes,
                    labels: other_labels,
                },
            ) => {
                name.same(other_name)
                    && provisioner.same(other_provisioner)
                    && *bytes == *other_bytes
                    && same_option(labels, other_labels)
            }
            (Request::Erase { id }, Request::Erase { id: other_id }) => { id.same(other_id) }
            (Request::TakeNode { node }, Request::TakeNode { node: other_node }) => {
                node.same(other_node)
            }
            (
                Request::Mounts { node, epoch },
                Request::Mounts {
                    node: other_node,
                    epoch: other_epoch,
                },
            ) => { node.same(other_node) && *epoch == *other_epoch }
            (
                Request::Mount {
                    node,
                    epoch,
                    pod,
                    claims,
                },
                Request::Mount {
                    node: other_node,
                    epoch: other_epoch,
                    pod: other_pod,
                    claims: other_claims,
                },
            ) => {
                node.same(other_node)
                    && *epoch == *other_epoch
                    && *pod == *other_pod
                    && claims.same(other_claims)
            }
            (
                Request::Unmount { node, epoch, pod },
                Request::Unmount {
                    node: other_node,
                    epoch: other_epoch,
                    pod: other_pod,
                },
            ) => { node.same(other_node) && *epoch == *other_epoch && *pod == *other_pod }
            (Request::SetTime { at }, Request::SetTime { at: other_at }) => { at.same(other_at) }
            _ => false,
        }
    }
}

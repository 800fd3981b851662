//! What the side store is asked, and what it answers.

use crate::rows::{Content, SnapRow, Snapshot};
use kube_types::copies::{OutOfMemory, Plain};
use kube_types::items::Items;
use kube_types::objects::DataId;
use kube_types::parts::Policy;
use kube_types::text::Text;
use std::alloc::Global;

/// One call of the side store. Users make, delete and hand in rows by the first four; the others are a worker's. A worker's
/// write with a version is made at that version alone.
#[derive(Debug)]
pub enum SnapAsk {
    Snapshot {
        namespace: Text,
        name: Text,
        claim: Text,
        policy: Policy,
    },
    Content {
        name: Text,
        namespace: Text,
        snapshot: Text,
        policy: Policy,
        source: DataId,
    },
    Unsnap {
        namespace: Text,
        name: Text,
    },
    Uncontent {
        name: Text,
    },
    SnapList,
    SnapGet {
        namespace: Text,
        name: Text,
    },
    Cut {
        namespace: Text,
        name: Text,
        uid: u64,
    },
    BindContent {
        name: Text,
        version: u64,
        uid: u64,
    },
    BindSnapshot {
        namespace: Text,
        name: Text,
        version: u64,
        content: Text,
    },
    DropSnapshot {
        namespace: Text,
        name: Text,
        version: u64,
    },
    EraseSnap {
        name: Text,
        version: u64,
    },
    DropContent {
        name: Text,
        version: u64,
    },
}

fn drop_both(left: Text, right: Text) {
    drop(left);
    drop(right);
}

impl Drop for SnapAsk {
    fn drop(self) {
        match self {
            SnapAsk::Snapshot {
                namespace,
                name,
                claim,
                policy: _,
            } => {
                drop_both(namespace, name);
                drop(claim);
            }
            SnapAsk::Content {
                name,
                namespace,
                snapshot,
                policy: _,
                source,
            } => {
                drop_both(namespace, name);
                drop(snapshot);
                drop(source);
            }
            SnapAsk::Unsnap { namespace, name } => drop_both(namespace, name),
            SnapAsk::Uncontent { name } => drop(name),
            SnapAsk::SnapList => {}
            SnapAsk::SnapGet { namespace, name } => drop_both(namespace, name),
            SnapAsk::Cut {
                namespace,
                name,
                uid: _,
            } => drop_both(namespace, name),
            SnapAsk::BindContent {
                name,
                version: _,
                uid: _,
            } => drop(name),
            SnapAsk::BindSnapshot {
                namespace,
                name,
                version: _,
                content,
            } => {
                drop_both(namespace, name);
                drop(content);
            }
            SnapAsk::DropSnapshot {
                namespace,
                name,
                version: _,
            } => drop_both(namespace, name),
            SnapAsk::EraseSnap { name, version: _ } => drop(name),
            SnapAsk::DropContent { name, version: _ } => drop(name),
        }
    }
}

/// Why the side store refuses.
#[derive(Clone, Copy, Debug, PartialEq, Eq)]
pub enum SnapRefusal {
    /// No row of the key stands, or it has another UID.
    NotFound,
    /// A row of the key stands.
    AlreadyExists,
    /// The row stands at this other version.
    Conflict { current: u64 },
    /// A snapshot of this UID stands, to which the content is bound.
    SnapshotBound { uid: u64 },
    /// The claim is not completed, or its volume is absent.
    NoSource,
}

/// What the side store answers.
#[derive(Debug)]
pub enum SnapReply {
    Listed {
        snapshots: Items<Snapshot>,
        contents: Items<Content>,
        number: u64,
    },
    Found(Snapshot),
    Made(SnapRow),
    Left(SnapRow),
    Refused(SnapRefusal),
}

impl Drop for SnapReply {
    fn drop(self) {
        match self {
            SnapReply::Listed {
                snapshots,
                contents,
                number: _,
            } => {
                drop(snapshots);
                drop(contents);
            }
            SnapReply::Found(snapshot) => drop(snapshot),
            SnapReply::Made(row) => drop(row),
            SnapReply::Left(row) => drop(row),
            SnapReply::Refused(_) => {}
        }
    }
}

impl Plain for SnapReply {
    fn copy(&self, alloc: Global) -> Result<SnapReply, OutOfMemory> {
        match self {
            SnapReply::Listed {
                snapshots,
                contents,
                number,
            } => Ok(SnapReply::Listed {
                snapshots: snapshots.copy(alloc)?,
                contents: contents.copy(alloc)?,
                number: *number,
            }),
            SnapReply::Found(snapshot) => Ok(SnapReply::Found(snapshot.copy(alloc)?)),
            SnapReply::Made(row) => Ok(SnapReply::Made(row.copy(alloc)?)),
            SnapReply::Left(row) => Ok(SnapReply::Left(row.copy(alloc)?)),
            SnapReply::Refused(why) => Ok(SnapReply::Refused(*why)),
        }
    }

    fn same(&self, other: &SnapReply) -> bool {
        match (self, other) {
            (
                SnapReply::Listed {
                    snapshots,
                    contents,
                    number,
                },
                SnapReply::Listed {
                    snapshots: other_snapshots,
                    contents: other_contents,
                    number: other_number,
                },
            ) => {
                *number == *other_number
                    && snapshots.same(other_snapshots)
                    && contents.same(other_contents)
            }
            (SnapReply::Found(left), SnapReply::Found(right)) => left.same(right),
            (SnapReply::Made(left), SnapReply::Made(right)) => left.same(right),
            (SnapReply::Left(left), SnapReply::Left(right)) => left.same(right),
            (SnapReply::Refused(left), SnapReply::Refused(right)) => *left == *right,
            _ => false,
        }
    }
}

/// One call that a worker made: what it asked, and what it was told.
#[derive(Debug)]
pub struct SnapEntry {
    pub ask: SnapAsk,
    pub reply: SnapReply,
}

impl Drop for SnapEntry {
    fn drop(self) {
        let SnapEntry { ask, reply } = self;
        drop(ask);
        drop(reply);
    }
}

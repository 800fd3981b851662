//! The rows of the side: snapshots, and the contents that hold their data.

use kube_types::copies::{OutOfMemory, Plain, copy_option, same_option};
use kube_types::objects::DataId;
use kube_types::parts::Policy;
use kube_types::text::Text;
use std::alloc::Global;

/// A snapshot of a claim, as a user asked for it. `content` names the content that it is bound to; it is empty while there is none.
#[derive(Debug)]
pub struct Snapshot {
    pub namespace: Text,
    pub name: Text,
    pub uid: u64,
    pub version: u64,
    pub claim: Text,
    pub policy: Policy,
    pub content: Text,
    pub deleting: bool,
}

impl Drop for Snapshot {
    fn drop(self) {
        let Snapshot {
            namespace,
            name,
            uid: _,
            version: _,
            claim,
            policy: _,
            content,
            deleting: _,
        } = self;
        drop(namespace);
        drop(name);
        drop(claim);
        drop(content);
    }
}

impl Plain for Snapshot {
    fn copy(&self, alloc: Global) -> Result<Snapshot, OutOfMemory> {
        Ok(Snapshot {
            namespace: self.namespace.copy(alloc)?,
            name: self.name.copy(alloc)?,
            claim: self.claim.copy(alloc)?,
            content: self.content.copy(alloc)?,
            uid: self.uid,
            version: self.version,
            policy: self.policy,
            deleting: self.deleting,
        })
    }

    fn same(&self, other: &Snapshot) -> bool {
        self.uid == other.uid
            && self.version == other.version
            && self.policy == other.policy
            && self.deleting == other.deleting
            && self.namespace.same(&other.namespace)
            && self.name.same(&other.name)
            && self.claim.same(&other.claim)
            && self.content.same(&other.content)
    }
}

/// A content: the data that were cut, kept for the snapshot of a key. `uid` is the UID of the snapshot that it is bound to,
/// and `there` says whether its data are there.
#[derive(Debug)]
pub struct Content {
    pub name: Text,
    pub version: u64,
    pub namespace: Text,
    pub snapshot: Text,
    pub uid: Option<u64>,
    pub policy: Policy,
    pub source: DataId,
    pub there: bool,
}

impl Drop for Content {
    fn drop(self) {
        let Content {
            name,
            version: _,
            namespace,
            snapshot,
            uid: _,
            policy: _,
            source,
            there: _,
        } = self;
        drop(name);
        drop(namespace);
        drop(snapshot);
        drop(source);
    }
}

impl Plain for Content {
    fn copy(&self, alloc: Global) -> Result<Content, OutOfMemory> {
        Ok(Content {
            name: self.name.copy(alloc)?,
            namespace: self.namespace.copy(alloc)?,
            snapshot: self.snapshot.copy(alloc)?,
            source: self.source.copy(alloc)?,
            uid: copy_option(alloc, &self.uid)?,
            version: self.version,
            policy: self.policy,
            there: self.there,
        })
    }

    fn same(&self, other: &Content) -> bool {
        self.version == other.version
            && self.policy == other.policy
            && self.there == other.there
            && same_option(&self.uid, &other.uid)
            && self.name.same(&other.name)
            && self.namespace.same(&other.namespace)
            && self.snapshot.same(&other.snapshot)
            && self.source.same(&other.source)
    }
}

/// A row of either kind.
#[derive(Debug)]
pub enum SnapRow {
    Snapshot(Snapshot),
    Content(Content),
}

impl Drop for SnapRow {
    fn drop(self) {
        match self {
            SnapRow::Snapshot(snapshot) => drop(snapshot),
            SnapRow::Content(content) => drop(content),
        }
    }
}

impl Plain for SnapRow {
    fn copy(&self, alloc: Global) -> Result<SnapRow, OutOfMemory> {
        match self {
            SnapRow::Snapshot(snapshot) => Ok(SnapRow::Snapshot(snapshot.copy(alloc)?)),
            SnapRow::Content(content) => Ok(SnapRow::Content(content.copy(alloc)?)),
        }
    }

    fn same(&self, other: &SnapRow) -> bool {
        match (self, other) {
            (SnapRow::Snapshot(left), SnapRow::Snapshot(right)) => left.same(right),
            (SnapRow::Content(left), SnapRow::Content(right)) => left.same(right),
            _ => false,
        }
    }
}

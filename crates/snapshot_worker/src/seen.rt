//! Rows as a worker keeps them.

use kube_types::copies::{OutOfMemory, Plain};
use snapshot_bind::rows::{Content, Snapshot};
use std::alloc::Global;

/// A snapshot that was told. Where it is `dropped`, it asks for nothing until the next list.
#[derive(Debug)]
pub struct SeenSnapshot {
    pub row: Snapshot,
    pub dropped: bool,
}

impl Drop for SeenSnapshot {
    fn drop(self) {
        let SeenSnapshot { row, dropped: _ } = self;
        drop(row);
    }
}

impl Plain for SeenSnapshot {
    fn copy(&self, alloc: Global) -> Result<SeenSnapshot, OutOfMemory> {
        Ok(SeenSnapshot {
            row: self.row.copy(alloc)?,
            dropped: self.dropped,
        })
    }

    fn same(&self, other: &SeenSnapshot) -> bool {
        self.dropped == other.dropped && self.row.same(&other.row)
    }
}

/// A content that was told. It is `gone` once a look told that its snapshot is; where it is `dropped`, it asks for nothing
/// until the next list.
#[derive(Debug)]
pub struct SeenContent {
    pub row: Content,
    pub dropped: bool,
    pub gone: bool,
}

impl Drop for SeenContent {
    fn drop(self) {
        let SeenContent {
            row,
            dropped: _,
            gone: _,
        } = self;
        drop(row);
    }
}

impl Plain for SeenContent {
    fn copy(&self, alloc: Global) -> Result<SeenContent, OutOfMemory> {
        Ok(SeenContent {
            row: self.row.copy(alloc)?,
            dropped: self.dropped,
            gone: self.gone,
        })
    }

    fn same(&self, other: &SeenContent) -> bool {
        self.dropped == other.dropped && self.gone == other.gone && self.row.same(&other.row)
    }
}

//! Entries of a history.

use crate::reply::Reply;
use crate::request::{Request, SeatKind};
use kube_types::copies::{OutOfMemory, Plain};
use std::alloc::Global;

/// One whole call: who asked what, what was answered, and whether the caller was told.
#[derive(Debug)]
pub struct Entry {
    pub seat: u64,
    pub kind: SeatKind,
    pub request: Request,
    pub reply: Reply,
    pub told: bool,
}

impl Drop for Entry {
    fn drop(self) {
        let Entry {
            seat: _,
            kind,
            request,
            reply,
            told: _,
        } = self;
        drop(kind);
        drop(request);
        drop(reply);
    }
}

impl Plain for Entry {
    fn copy(&self, alloc: Global) -> Result<Entry, OutOfMemory> {
        Ok(Entry {
            seat: self.seat,
            kind: self.kind,
            request: self.request.copy(alloc)?,
            reply: self.reply.copy(alloc)?,
            told: self.told,
        })
    }

    fn same(&self, other: &Entry) -> bool {
        self.seat == other.seat
            && self.kind == other.kind
            && self.request.same(&other.request)
            && self.reply.same(&other.reply)
            && self.told == other.told
    }
}

//! What the side is asked, and what it answers.

use crate::quotas::OverQuota;
use crate::sizes::{GrowError, StepKind};
use kube_objects::key::Key;
use kube_objects::objects::Object;
use plain_data::copies::{OutOfMemory, Plain};
use std::alloc::Global;

/// An ask of the side: a user's create that a quota holds back, a user's wish that a claim grow, or a step of growth, which
/// the side asks of itself.
#[derive(Debug)]
pub enum SideAsk {
    Create { user: u64, object: Object },
    Grow { user: u64, key: Key, bytes: u64 },
    Step { kind: StepKind, key: Key },
}

impl Drop for SideAsk {
    fn drop(self) {
        match self {
            SideAsk::Create { user: _, object } => drop(object),
            SideAsk::Grow {
                user: _,
                key,
                bytes: _,
            } => drop(key),
            SideAsk::Step { kind: _, key } => drop(key),
        }
    }
}

impl Plain for SideAsk {
    fn copy(&self, alloc: Global) -> Result<SideAsk, OutOfMemory> {
        match self {
            SideAsk::Create { user, object } => Ok(SideAsk::Create {
                user: *user,
                object: object.copy(alloc)?,
            }),
            SideAsk::Grow { user, key, bytes } => Ok(SideAsk::Grow {
                user: *user,
                key: key.copy(alloc)?,
                bytes: *bytes,
            }),
            SideAsk::Step { kind, key } => Ok(SideAsk::Step {
                kind: *kind,
                key: key.copy(alloc)?,
            }),
        }
    }

    fn same(&self, other: &SideAsk) -> bool {
        match (self, other) {
            (
                SideAsk::Create { user, object },
                SideAsk::Create {
                    user: other_user,
                    object: other_object,
                },
            ) => *user == *other_user && object.same(other_object),
            (
                SideAsk::Grow { user, key, bytes },
                SideAsk::Grow {
                    user: other_user,
                    key: other_key,
                    bytes: other_bytes,
                },
            ) => *user == *other_user && *bytes == *other_bytes && key.same(other_key),
            (
                SideAsk::Step { kind, key },
                SideAsk::Step {
                    kind: other_kind,
                    key: other_key,
                },
            ) => *kind == *other_kind && key.same(other_key),
            _ => false,
        }
    }
}

/// An answer of the side: done, what the number of a step has become, or why not.
#[derive(Debug)]
pub enum SideReply {
    Done,
    Bytes(u64),
    OverQuota(OverQuota),
    NotGrown(GrowError),
}

// No answer of today owns memory. Those of later parts of the side will name nodes.
impl Drop for SideReply {
    fn drop(self) {
        match self {
            SideReply::Done => {}
            SideReply::Bytes(_) => {}
            SideReply::OverQuota(_) => {}
            SideReply::NotGrown(_) => {}
        }
    }
}

impl Plain for SideReply {
    fn copy(&self, _alloc: Global) -> Result<SideReply, OutOfMemory> {
        match self {
            SideReply::Done => Ok(SideReply::Done),
            SideReply::Bytes(bytes) => Ok(SideReply::Bytes(*bytes)),
            SideReply::OverQuota(over) => Ok(SideReply::OverQuota(*over)),
            SideReply::NotGrown(error) => Ok(SideReply::NotGrown(*error)),
        }
    }

    fn same(&self, other: &SideReply) -> bool {
        match (self, other) {
            (SideReply::Done, SideReply::Done) => true,
            (SideReply::Bytes(left), SideReply::Bytes(right)) => *left == *right,
            (SideReply::OverQuota(left), SideReply::OverQuota(right)) => *left == *right,
            (SideReply::NotGrown(left), SideReply::NotGrown(right)) => *left == *right,
            _ => false,
        }
    }
}

/// One call of the side: what it was asked, and what it answered.
#[derive(Debug)]
pub struct SideEntry {
    pub ask: SideAsk,
    pub reply: SideReply,
}

impl Drop for SideEntry {
    fn drop(self) {
        let SideEntry { ask, reply } = self;
        drop(ask);
        drop(reply);
    }
}

impl Plain for SideEntry {
    fn copy(&self, alloc: Global) -> Result<SideEntry, OutOfMemory> {
        Ok(SideEntry {
            ask: self.ask.copy(alloc)?,
            reply: self.reply.copy(alloc)?,
        })
    }

    fn same(&self, other: &SideEntry) -> bool {
        self.ask.same(&other.ask) && self.reply.same(&other.reply)
    }
}

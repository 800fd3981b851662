//! Quotas of namespaces, and what is used of them.

use plain_data::copies::{OutOfMemory, Plain};
use plain_data::text::Text;
use std::alloc::Global;

/// The limits of a namespace: the bytes that its claims may request together, and how many claims may stand in it.
#[derive(Debug)]
pub struct Quota {
    pub namespace: Text,
    pub bytes: u64,
    pub claims: u64,
}

impl Drop for Quota {
    fn drop(self) {
        let Quota {
            namespace,
            bytes: _,
            claims: _,
        } = self;
        drop(namespace);
    }
}

impl Plain for Quota {
    fn copy(&self, alloc: Global) -> Result<Quota, OutOfMemory> {
        Ok(Quota {
            namespace: self.namespace.copy(alloc)?,
            bytes: self.bytes,
            claims: self.claims,
        })
    }

    fn same(&self, other: &Quota) -> bool {
        self.namespace.same(&other.namespace)
            && self.bytes == other.bytes
            && self.claims == other.claims
    }
}

/// A use of a quota. The bytes are a sum over claims, so they may pass 2^64.
#[derive(Clone, Copy, Debug, PartialEq, Eq)]
pub struct Used {
    pub bytes: u128,
    pub claims: u64,
}

/// The limit of a quota that more use would pass, and what was used before.
#[derive(Clone, Copy, Debug, PartialEq, Eq)]
pub enum OverQuota {
    OverBytes { used: u128, limit: u64 },
    OverClaims { used: u64, limit: u64 },
}

impl Plain for OverQuota {
    fn copy(&self, _alloc: Global) -> Result<OverQuota, OutOfMemory> {
        Ok(*self)
    }

    fn same(&self, other: &OverQuota) -> bool {
        *self == *other
    }
}

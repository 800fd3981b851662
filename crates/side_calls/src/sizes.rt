//! The sizes of claims that grew, and the steps by which a growth goes through.

ghost use Rattle.std.specs.Prelude.{◌≡◌};
ghost use Rattle.kube_objects.specs.Keys.{key_cmp, key_of};
ghost use Rattle.kube_objects.specs.declared.objects.Object.TheVariants.{Claim};

use kube_objects::key::{Key, kind_index};
use kube_objects::objects::Claim as ClaimData;
use kube_parts::parts::Kind;
use kube_parts::uid::Uid;
use plain_data::copies::{OutOfMemory, Plain};
use plain_data::rows::Ranked;
use std::alloc::Global;
use std::cmp::Ordering;

/// The sizes of a claim that grew, in bytes: what it asks for, the capacity in its status, the capacity of its volume, and
/// what the back end stores for it.
#[derive(Debug)]
pub struct SizeRow {
    pub key: Key,
    pub claim: Uid,
    pub asked: u64,
    pub given: u64,
    pub volume: u64,
    pub stored: u64,
    /// What was stored when the row was made, from where its growth is counted.
    pub first: u64,
}

impl Drop for SizeRow {
    fn drop(self) {
        let SizeRow {
            key,
            claim: _,
            asked: _,
            given: _,
            volume: _,
            stored: _,
            first: _,
        } = self;
        drop(key);
    }
}

impl Plain for SizeRow {
    fn copy(&self, alloc: Global) -> Result<SizeRow, OutOfMemory> {
        Ok(SizeRow {
            key: self.key.copy(alloc)?,
            claim: self.claim,
            asked: self.asked,
            given: self.given,
            volume: self.volume,
            stored: self.stored,
            first: self.first,
        })
    }

    fn same(&self, other: &SizeRow) -> bool {
        self.key.same(&other.key)
            && self.claim == other.claim
            && self.asked == other.asked
            && self.given == other.given
            && self.volume == other.volume
            && self.stored == other.stored
            && self.first == other.first
    }
}

/// How a key stands to the key of a claim. It takes no memory.
pub fn compare_with_claim(key: &Key, claim: &ClaimData) -> Ordering
    ensures { result ≡ key_cmp key.now (key_of (Claim claim.now)) }
{
    kind_index(key.kind)
        .cmp(&kind_index(Kind::PersistentVolumeClaim))
        .then(key.namespace.as_str().cmp(claim.meta.namespace.as_str()))
        .then(key.name.as_str().cmp(claim.meta.name.as_str()))
}

impl Ranked<ClaimData> for SizeRow {
    ghost use Rattle.kube_objects.specs.Keys.{key_cmp, key_of};
    ghost use Rattle.kube_objects.specs.declared.objects.Object.TheVariants.{Claim};

    ghost rank = { λ x c. key_cmp x.key (key_of (Claim c)) };

    fn rank(&self, claim: &ClaimData) -> Ordering {
        compare_with_claim(&self.key, claim)
    }
}

impl Ranked<Key> for SizeRow {
    ghost use Rattle.kube_objects.specs.Keys.{key_cmp};

    ghost rank = { λ x k. key_cmp x.key k };

    fn rank(&self, key: &Key) -> Ordering {
        self.key.compare(key)
    }
}

/// The number of a row that a step raises: what is stored, the volume's capacity, or the capacity in the claim's status.
#[derive(Clone, Copy, Debug, PartialEq, Eq)]
pub enum StepKind {
    Data,
    Volume,
    Given,
}

/// A step of growth: the place of its row, and what the number becomes.
#[derive(Clone, Copy, Debug, PartialEq, Eq)]
pub struct SizeStep {
    pub kind: StepKind,
    pub place: usize,
    pub bytes: u64,
}

/// Why a claim may not grow.
#[derive(Clone, Copy, Debug, PartialEq, Eq)]
pub enum Why {
    /// No claim of the key stands.
    Absent,
    Deleting,
    /// The claim is not bound, or its status does not show what its volume has.
    NotBound,
    /// Nobody provisioned the volume.
    Static,
    /// The class is absent, or does not let its claims grow.
    Class,
    /// The claim asks for more already.
    Smaller,
}

/// Why a claim did not grow: it may not, or the quota of its namespace has not so many bytes left.
#[derive(Clone, Copy, Debug, PartialEq, Eq)]
pub enum GrowError {
    NotGrowable(Why),
    OverBytes { used: u128, limit: u64 },
}

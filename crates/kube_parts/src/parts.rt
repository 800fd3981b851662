//! Plain parts of objects.

ghost use Rattle.std.specs.Prelude.{◌≡◌, ◌++◌, IfOk, OnOk};
ghost use Rattle.kube_parts.specs.Words.{kind_word, policy_word, volume_phase_word, claim_phase_word, source_word, op_word, mode_words, words_if};

use plain_data::copies::{OutOfMemory, Plain};
use plain_data::text::{Names, Text};
use std::alloc::Global;

/// Access modes: ReadWriteOnce, ReadOnlyMany, ReadWriteMany and ReadWriteOncePod.
#[derive(Clone, Copy, Debug, PartialEq, Eq)]
pub struct Modes {
    pub rwo: bool,
    pub rox: bool,
    pub rwx: bool,
    pub rwop: bool,
}

impl Modes {
    /// The printed words of the modes that are set.
    pub fn names(&self, alloc: Global) -> Result<Names, OutOfMemory>
        ensures { IfOk result (λ names. names ≡ mode_words self.now) }
    {
        let mut names = Names::new(alloc);
        name_if(alloc, self.rwo, "ReadWriteOnce", &mut names)?;
        name_if(alloc, self.rox, "ReadOnlyMany", &mut names)?;
        name_if(alloc, self.rwx, "ReadWriteMany", &mut names)?;
        name_if(alloc, self.rwop, "ReadWriteOncePod", &mut names)?;
        Ok(names)
    }
}

fn name_if(alloc: Global, is_set: bool, name: &str, names: &mut Names) -> Result<(), OutOfMemory>
    ensures { OnOk result (names.new ≡ names.old ++ words_if is_set name.now) }
{
    if is_set {
        let name = Text::new(alloc, name)?;
        names.push(&name)?;
    }
    Ok(())
}

impl Plain for Modes {
    fn copy(&self, _alloc: Global) -> Result<Modes, OutOfMemory> {
        Ok(*self)
    }

    fn same(&self, other: &Modes) -> bool {
        *self == *other
    }
}

/// What becomes of a volume once its claim is gone. `Recycle` acts as `Retain`.
#[derive(Clone, Copy, Debug, PartialEq, Eq)]
pub enum Policy {
    Retain,
    Delete,
    Recycle,
}

impl Policy {
    /// The printed word.
    pub fn name(&self) -> &str
        ensures { result.now ≡ policy_word self.now }
    {
        match self {
            Policy::Retain => "Retain",
            Policy::Delete => "Delete",
            Policy::Recycle => "Recycle",
        }
    }
}

impl Plain for Policy {
    fn copy(&self, _alloc: Global) -> Result<Policy, OutOfMemory> {
        Ok(*self)
    }

    fn same(&self, other: &Policy) -> bool {
        *self == *other
    }
}

/// The phase of a volume.
#[derive(Clone, Copy, Debug, PartialEq, Eq)]
pub enum VolumePhase {
    Pending,
    Available,
    Bound,
    Released,
    Failed,
}

impl VolumePhase {
    /// The printed word.
    pub fn name(&self) -> &str
        ensures { result.now ≡ volume_phase_word self.now }
    {
        match self {
            VolumePhase::Pending => "Pending",
            VolumePhase::Available => "Available",
            VolumePhase::Bound => "Bound",
            VolumePhase::Released => "Released",
            VolumePhase::Failed => "Failed",
        }
    }
}

impl Plain for VolumePhase {
    fn copy(&self, _alloc: Global) -> Result<VolumePhase, OutOfMemory> {
        Ok(*self)
    }

    fn same(&self, other: &VolumePhase) -> bool {
        *self == *other
    }
}

/// The phase of a claim.
#[derive(Clone, Copy, Debug, PartialEq, Eq)]
pub enum ClaimPhase {
    Pending,
    Bound,
    Lost,
}

impl ClaimPhase {
    /// The printed word.
    pub fn name(&self) -> &str
        ensures { result.now ≡ claim_phase_word self.now }
    {
        match self {
            ClaimPhase::Pending => "Pending",
            ClaimPhase::Bound => "Bound",
            ClaimPhase::Lost => "Lost",
        }
    }
}

impl Plain for ClaimPhase {
    fn copy(&self, _alloc: Global) -> Result<ClaimPhase, OutOfMemory> {
        Ok(*self)
    }

    fn same(&self, other: &ClaimPhase) -> bool {
        *self == *other
    }
}

/// The kind of the source of a volume.
#[derive(Clone, Copy, Debug, PartialEq, Eq)]
pub enum SourceKind {
    Csi,
    Nfs,
    Local,
    HostPath,
}

impl SourceKind {
    /// The printed word.
    pub fn name(&self) -> &str
        ensures { result.now ≡ source_word self.now }
    {
        match self {
            SourceKind::Csi => "csi",
            SourceKind::Nfs => "nfs",
            SourceKind::Local => "local",
            SourceKind::HostPath => "hostPath",
        }
    }
}

impl Plain for SourceKind {
    fn copy(&self, _alloc: Global) -> Result<SourceKind, OutOfMemory> {
        Ok(*self)
    }

    fn same(&self, other: &SourceKind) -> bool {
        *self == *other
    }
}

/// How an expression tests a label.
#[derive(Clone, Copy, Debug, PartialEq, Eq)]
pub enum Op {
    In,
    NotIn,
    Exists,
    DoesNotExist,
}

impl Op {
    /// The printed word.
    pub fn name(&self) -> &str
        ensures { result.now ≡ op_word self.now }
    {
        match self {
            Op::In => "In",
            Op::NotIn => "NotIn",
            Op::Exists => "Exists",
            Op::DoesNotExist => "DoesNotExist",
        }
    }
}

impl Plain for Op {
    fn copy(&self, _alloc: Global) -> Result<Op, OutOfMemory> {
        Ok(*self)
    }

    fn same(&self, other: &Op) -> bool {
        *self == *other
    }
}

/// A kind of object, in the order in which kinds are printed.
#[derive(Clone, Copy, Debug, PartialEq, Eq)]
pub enum Kind {
    StorageClass,
    Node,
    PersistentVolume,
    PersistentVolumeClaim,
    Pod,
}

impl Kind {
    /// The printed word.
    pub fn name(&self) -> &str
        ensures { result.now ≡ kind_word self.now }
    {
        match self {
            Kind::StorageClass => "StorageClass",
            Kind::Node => "Node",
            Kind::PersistentVolume => "PersistentVolume",
            Kind::PersistentVolumeClaim => "PersistentVolumeClaim",
            Kind::Pod => "Pod",
        }
    }
}

impl Plain for Kind {
    fn copy(&self, _alloc: Global) -> Result<Kind, OutOfMemory> {
        Ok(*self)
    }

    fn same(&self, other: &Kind) -> bool {
        *self == *other
    }
}

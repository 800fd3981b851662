//! The names of fields, rules and due actions.

ghost use Rattle.std.specs.Prelude.{◌≡◌};
ghost use Rattle.kube_parts.specs.Words.{field_word, rule_word, licence_word, due_word};

use plain_data::copies::{OutOfMemory, Plain};
use std::alloc::Global;

/// A field that a request is refused for.
#[derive(Clone, Copy, Debug, PartialEq, Eq)]
pub enum Field {
    Name,
    Namespace,
    Capacity,
    Request,
    AccessModes,
    ClaimRef,
    Provisioner,
    NodeName,
    Claims,
    Finalizers,
    Time,
    Kind,
    From,
    Spec,
    VolumeName,
    Source,
    VolumeMode,
    NodeAffinity,
    Parameters,
    Policy,
    BindingMode,
    Deletion,
}

impl Field {
    /// The printed word.
    pub fn name(&self) -> &str
        ensures { result.now ≡ field_word self.now }
    {
        match self {
            Field::Name => "Name",
            Field::Namespace => "Namespace",
            Field::Capacity => "Capacity",
            Field::Request => "Request",
            Field::AccessModes => "AccessModes",
            Field::ClaimRef => "ClaimRef",
            Field::Provisioner => "Provisioner",
            Field::NodeName => "NodeName",
            Field::Claims => "Claims",
            Field::Finalizers => "Finalizers",
            Field::Time => "Time",
            Field::Kind => "Kind",
            Field::From => "From",
            Field::Spec => "Spec",
            Field::VolumeName => "VolumeName",
            Field::Source => "Source",
            Field::VolumeMode => "VolumeMode",
            Field::NodeAffinity => "NodeAffinity",
            Field::Parameters => "Parameters",
            Field::Policy => "Policy",
            Field::BindingMode => "BindingMode",
            Field::Deletion => "Deletion",
        }
    }
}

impl Plain for Field {
    fn copy(&self, _alloc: Global) -> Result<Field, OutOfMemory> {
        Ok(*self)
    }

    fn same(&self, other: &Field) -> bool {
        *self == *other
    }
}

/// Why an object of an older store is not imported. `Value` is the first invalid field of the
/// object; `ClaimRef` and `Phase` speak of it together with the objects that were imported before it.
#[derive(Clone, Copy, Debug, PartialEq, Eq)]
pub enum ImportFault {
    MissingUid,
    Version,
    Serial,
    Value(Field),
    NameAgain,
    UidAgain,
    ClaimRef,
    Phase,
}

/// A rule of the guard on what a user may write.
#[derive(Clone, Copy, Debug, PartialEq, Eq)]
pub enum Rule {
    Verb,
    Annotation,
    Finalizer,
    ClaimRef,
    Policy,
}

impl Rule {
    /// The printed word.
    pub fn name(&self) -> &str
        ensures { result.now ≡ rule_word self.now }
    {
        match self {
            Rule::Verb => "Verb",
            Rule::Annotation => "Annotation",
            Rule::Finalizer => "Finalizer",
            Rule::ClaimRef => "ClaimRef",
            Rule::Policy => "Policy",
        }
    }
}

impl Plain for Rule {
    fn copy(&self, _alloc: Global) -> Result<Rule, OutOfMemory> {
        Ok(*self)
    }

    fn same(&self, other: &Rule) -> bool {
        *self == *other
    }
}

/// The row of the licence that a controller's request would break. `Kind` is a request that a seat
/// of this kind never makes.
#[derive(Clone, Copy, Debug, PartialEq, Eq)]
pub enum LicenceRule {
    ClaimRef,
    PhaseBound,
    Completion,
    DefaultClass,
    Available,
    Released,
    Failed,
    Unbind,
    DropVolumeGuard,
    DropClaimGuard,
    AddGuard,
    Provision,
    CreateVolume,
    Erase,
    DeleteVolume,
    Lost,
    ClaimStatus,
    SelectedNode,
    BindPod,
    Mount,
    FinishPod,
    Reading,
    Kind,
}

impl LicenceRule {
    /// The printed word.
    pub fn name(&self) -> &str
        ensures { result.now ≡ licence_word self.now }
    {
        match self {
            LicenceRule::ClaimRef => "ClaimRef",
            LicenceRule::PhaseBound => "PhaseBound",
            LicenceRule::Completion => "Completion",
            LicenceRule::DefaultClass => "DefaultClass",
            LicenceRule::Available => "Available",
            LicenceRule::Released => "Released",
            LicenceRule::Failed => "Failed",
            LicenceRule::Unbind => "Unbind",
            LicenceRule::DropVolumeGuard => "DropVolumeGuard",
            LicenceRule::DropClaimGuard => "DropClaimGuard",
            LicenceRule::AddGuard => "AddGuard",
            LicenceRule::Provision => "Provision",
            LicenceRule::CreateVolume => "CreateVolume",
            LicenceRule::Erase => "Erase",
            LicenceRule::DeleteVolume => "DeleteVolume",
            LicenceRule::Lost => "Lost",
            LicenceRule::ClaimStatus => "ClaimStatus",
            LicenceRule::SelectedNode => "SelectedNode",
            LicenceRule::BindPod => "BindPod",
            LicenceRule::Mount => "Mount",
            LicenceRule::FinishPod => "FinishPod",
            LicenceRule::Reading => "Reading",
            LicenceRule::Kind => "Kind",
        }
    }
}

impl Plain for LicenceRule {
    fn copy(&self, _alloc: Global) -> Result<LicenceRule, OutOfMemory> {
        Ok(*self)
    }

    fn same(&self, other: &LicenceRule) -> bool {
        *self == *other
    }
}

/// What a controller has still to do for an object.
#[derive(Clone, Copy, Debug, PartialEq, Eq)]
pub enum Due {
    Available,
    Bound,
    Release,
    Unbind,
    Reclaim,
    Guard,
    Unguard,
    Bind,
    AssignClass,
    Lost,
    Provision,
    ClearNode,
    Prepare,
    Assign,
    Mount,
    Finish,
}

impl Due {
    /// The printed word.
    pub fn name(&self) -> &str
        ensures { result.now ≡ due_word self.now }
    {
        match self {
            Due::Available => "Available",
            Due::Bound => "Bound",
            Due::Release => "Release",
            Due::Unbind => "Unbind",
            Due::Reclaim => "Reclaim",
            Due::Guard => "Guard",
            Due::Unguard => "Unguard",
            Due::Bind => "Bind",
            Due::AssignClass => "AssignClass",
            Due::Lost => "Lost",
            Due::Provision => "Provision",
            Due::ClearNode => "ClearNode",
            Due::Prepare => "Prepare",
            Due::Assign => "Assign",
            Due::Mount => "Mount",
            Due::Finish => "Finish",
        }
    }
}

impl Plain for Due {
    fn copy(&self, _alloc: Global) -> Result<Due, OutOfMemory> {
        Ok(*self)
    }

    fn same(&self, other: &Due) -> bool {
        *self == *other
    }
}

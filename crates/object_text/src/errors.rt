//! Why an object could not be read, and the members that refusals name.

ghost use Rattle.std.specs.Prelude.{◌≡◌};
ghost use Rattle.object_text.specs.MemberWords.{member_word};

use kube_types::copies::OutOfMemory;
use std::alloc::AllocError;

/// A member that readers look at. `Source` stands for the sources of a volume together.
#[derive(Clone, Copy, PartialEq, Eq)]
pub enum Member {
    Kind,
    ApiVersion,
    Metadata,
    Name,
    Namespace,
    Uid,
    ResourceVersion,
    CreationTimestamp,
    DeletionTimestamp,
    Labels,
    Annotations,
    Finalizers,
    Spec,
    Capacity,
    Storage,
    AccessModes,
    VolumeMode,
    StorageClassName,
    PersistentVolumeReclaimPolicy,
    ClaimRef,
    Csi,
    Driver,
    VolumeHandle,
    Nfs,
    Server,
    Path,
    Local,
    HostPath,
    Source,
    NodeAffinity,
    Required,
    NodeSelectorTerms,
    MatchExpressions,
    Key,
    Operator,
    Values,
    Resources,
    Requests,
    Selector,
    MatchLabels,
    VolumeName,
    Provisioner,
    ReclaimPolicy,
    VolumeBindingMode,
    Parameters,
    NodeName,
    Volumes,
    PersistentVolumeClaim,
    ClaimName,
    Status,
    Phase,
    Items,
}

impl Member {
    /// The name in JSON, which refusals print.
    pub fn name(&self) -> &str
        ensures { result.now ≡ member_word self.now }
    {
        match self {
            Member::Kind => "kind",
            Member::ApiVersion => "apiVersion",
            Member::Metadata => "metadata",
            Member::Name => "name",
            Member::Namespace => "namespace",
            Member::Uid => "uid",
            Member::ResourceVersion => "resourceVersion",
            Member::CreationTimestamp => "creationTimestamp",
            Member::DeletionTimestamp => "deletionTimestamp",
            Member::Labels => "labels",
            Member::Annotations => "annotations",
            Member::Finalizers => "finalizers",
            Member::Spec => "spec",
            Member::Capacity => "capacity",
            Member::Storage => "storage",
            Member::AccessModes => "accessModes",
            Member::VolumeMode => "volumeMode",
            Member::StorageClassName => "storageClassName",
            Member::PersistentVolumeReclaimPolicy => "persistentVolumeReclaimPolicy",
            Member::ClaimRef => "claimRef",
            Member::Csi => "csi",
            Member::Driver => "driver",
            Member::VolumeHandle => "volumeHandle",
            Member::Nfs => "nfs",
            Member::Server => "server",
            Member::Path => "path",
            Member::Local => "local",
            Member::HostPath => "hostPath",
            Member::Source => "source",
            Member::NodeAffinity => "nodeAffinity",
            Member::Required => "required",
            Member::NodeSelectorTerms => "nodeSelectorTerms",
            Member::MatchExpressions => "matchExpressions",
            Member::Key => "key",
            Member::Operator => "operator",
            Member::Values => "values",
            Member::Resources => "resources",
            Member::Requests => "requests",
            Member::Selector => "selector",
            Member::MatchLabels => "matchLabels",
            Member::VolumeName => "volumeName",
            Member::Provisioner => "provisioner",
            Member::ReclaimPolicy => "reclaimPolicy",
            Member::VolumeBindingMode => "volumeBindingMode",
            Member::Parameters => "parameters",
            Member::NodeName => "nodeName",
            Member::Volumes => "volumes",
            Member::PersistentVolumeClaim => "persistentVolumeClaim",
            Member::ClaimName => "claimName",
            Member::Status => "status",
            Member::Phase => "phase",
            Member::Items => "items",
        }
    }
}

/// Why an object could not be read, the first that applies.
#[derive(Clone, Copy, PartialEq, Eq)]
pub enum ObjectError {
    /// Memory ran out.
    OutOfMemory,
    /// The text has more than 8,192 bytes.
    TooLong,
    /// It is no JSON text of at most 127 levels, or not in UTF-8.
    NotJson,
    /// The value is no object.
    NotObject,
    /// A number at some depth is no whole number of 64 bits.
    NotWhole,
    /// The kind is none of the five.
    UnknownKind,
    /// A required member is absent or null.
    Missing(Member),
    /// A member is of another type, or a text outside the listed values.
    WrongType(Member),
    /// A text is no quantity.
    BadQuantity(Member),
}

impl From<OutOfMemory> for ObjectError {
    ghost use Rattle.std.specs.Prelude.{◌≡◌};
    ghost use Rattle.object_text.specs.declared.errors.ObjectError.TheVariants.{OutOfMemory};

    ghost from_gives = { λ _ e. e ≡ OutOfMemory };

    fn from(_e: OutOfMemory) -> ObjectError {
        ObjectError::OutOfMemory
    }
}

impl From<AllocError> for ObjectError {
    ghost use Rattle.std.specs.Prelude.{◌≡◌};
    ghost use Rattle.object_text.specs.declared.errors.ObjectError.TheVariants.{OutOfMemory};

    ghost from_gives = { λ _ e. e ≡ OutOfMemory };

    fn from(_e: AllocError) -> ObjectError {
        ObjectError::OutOfMemory
    }
}

/// The item of a list that could not be read, counted from 1, and why. After want of memory the
/// number says nothing.
#[derive(Clone, Copy)]
pub struct ListError {
    pub item: usize,
    pub reason: ObjectError,
}

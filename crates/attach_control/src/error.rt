//! Why a volume was not attached, or not detached.

use kube_types::copies::OutOfMemory;
use kube_types::text::Text;
use kube_types::uid::Uid;

/// Why a volume was not attached, or not detached. `MultiAttach` names the least node that forbids it, and `InUse` the pod of
/// the first mount.
#[derive(Debug)]
pub enum AttachError {
    OutOfMemory,
    NoVolume,
    MultiAttach { node: Text },
    InUse { pod: Uid },
    NotAttached,
}

impl Drop for AttachError {
    fn drop(self) {
        match self {
            AttachError::MultiAttach { node } => drop(node),
            AttachError::InUse { pod: _ } => (),
            AttachError::OutOfMemory | AttachError::NoVolume | AttachError::NotAttached => (),
        }
    }
}

impl From<OutOfMemory> for AttachError {
    ghost use Rattle.std.specs.Prelude.{◌≡◌};
    ghost use Rattle.attach_control.specs.declared.error.AttachError.TheVariants.{OutOfMemory};

    ghost from_gives = { λ _ e. e ≡ OutOfMemory };

    fn from(_e: OutOfMemory) -> AttachError {
        AttachError::OutOfMemory
    }
}

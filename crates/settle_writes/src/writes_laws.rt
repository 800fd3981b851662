//! What a controller writes on objects as they stand is done, and lasts.
//!
//! A call lasts where a write was done that changed more than the version, or where data or mounts changed, or a
//! planned fault came (`specs/Lasting`). Promises: what stands in a store passes the tests of a create
//! (`rows_are_valid`). So each write of a controller at the version that stands is done and lasts where it says
//! something new: a volume's phase, its unbinding, the first write of a binding (`phase_lasts`, `unbind_lasts`,
//! `reference_lasts`); a claim's completion, status, phase Lost, class and node (`completion_lasts`, `status_lasts`,
//! `lost_lasts`, `class_lasts`, `node_lasts`, `clear_lasts`); finalizers that protection adds and drops; and the
//! deletion of a volume (`delete_lasts`). Not said: that a controller decides such a write, nor anything of device
//! calls.

ghost use Rattle.settle_writes.specs.Writes.Valid.{RowsAreValid};
ghost use Rattle.settle_writes.specs.Writes.Writes.{ClaimGuardLasts, ClaimUnguardLasts, ClassLasts, ClearLasts, CompletionLasts, DeleteLasts, LostLasts, NodeLasts, PhaseLasts, ReferenceLasts, StatusLasts, UnbindLasts, VolumeGuardLasts, VolumeUnguardLasts};

/// What stands in a store passes the tests of a create.
#[tactic(auto, using(crate::proofs::Writes::Valid::rows_are_valid))]
pub fn rows_are_valid()
    ensures { RowsAreValid }
{}

/// A volume's phase, over another one.
pub fn phase_lasts()
    ensures { PhaseLasts }
{}

/// Unbinding.
pub fn unbind_lasts()
    ensures { UnbindLasts }
{}

/// The first write of a binding.
pub fn reference_lasts()
    ensures { ReferenceLasts }
{}

/// The third write of a binding.
pub fn completion_lasts()
    ensures { CompletionLasts }
{}

/// The fourth write of a binding.
pub fn status_lasts()
    ensures { StatusLasts }
{}

/// Phase Lost, over another one.
pub fn lost_lasts()
    ensures { LostLasts }
{}

/// The class of a claim that lacks one.
pub fn class_lasts()
    ensures { ClassLasts }
{}

/// A node that is selected for a claim, another than before.
pub fn node_lasts()
    ensures { NodeLasts }
{}

/// A selected node that is cleared.
pub fn clear_lasts()
    ensures { ClearLasts }
{}

/// A volume's finalizer, added.
pub fn volume_guard_lasts()
    ensures { VolumeGuardLasts }
{}

/// A volume's finalizer, dropped.
pub fn volume_unguard_lasts()
    ensures { VolumeUnguardLasts }
{}

/// A claim's finalizer, added.
pub fn claim_guard_lasts()
    ensures { ClaimGuardLasts }
{}

/// A claim's finalizer, dropped.
pub fn claim_unguard_lasts()
    ensures { ClaimUnguardLasts }
{}

/// The deletion of a volume that stays.
pub fn delete_lasts()
    ensures { DeleteLasts }
{}

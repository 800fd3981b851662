//! Each call of the other controllers lowers what a world has still to do.
//!
//! Promises, of calls on a world that is as their controller sees it: a finalizer that protection adds or drops
//! (`volume_guard_pays`, `volume_unguard_pays`, `claim_guard_pays`, `claim_unguard_pays`); phase Failed and the
//! deletion of an ended volume (`failed_pays`, `delete_pays`); a provisioned volume and its data (`create_pays`,
//! `provision_pays`); an erasure that removes data (`erase_pays`); a pod's node, its mount, its unmount and its end
//! (`assign_pays`, `mount_pays`, `unmount_pays`, `finish_pays`). A Provision that gives nothing new and an Erase that
//! removes nothing do not raise it (`provision_stays`, `erase_stays`). Not said: that such a call is made, or is done.

ghost use Rattle.settle_measure.specs.Upkeep.Pays.{AssignPays, ClaimGuardPays, ClaimUnguardPays, CreatePays, DeletePays, ErasePays, EraseStays, FailedPays, FinishPays, MountPays, ProvisionPays, ProvisionStays, UnmountPays, VolumeGuardPays, VolumeUnguardPays};

/// A volume's finalizer, added.
#[tactic(auto, using(crate::proofs::Upkeep::Guards::volume_guard_pays))]
pub fn volume_guard_pays()
    ensures { VolumeGuardPays }
{}

/// A volume's finalizer, dropped: the volume stays or leaves.
#[tactic(auto, using(crate::proofs::Upkeep::Guards::volume_unguard_pays))]
pub fn volume_unguard_pays()
    ensures { VolumeUnguardPays }
{}

/// A claim's finalizer, added.
#[tactic(auto, using(crate::proofs::Upkeep::Guards::claim_guard_pays))]
pub fn claim_guard_pays()
    ensures { ClaimGuardPays }
{}

/// A claim's finalizer, dropped: the claim stays or leaves.
#[tactic(auto, using(crate::proofs::Upkeep::Guards::claim_unguard_pays))]
pub fn claim_unguard_pays()
    ensures { ClaimUnguardPays }
{}

/// Phase Failed over Released.
#[tactic(auto, using(crate::proofs::Upkeep::Guards::failed_pays))]
pub fn failed_pays()
    ensures { FailedPays }
{}

/// The deletion of an ended volume.
#[tactic(auto, using(crate::proofs::Upkeep::Guards::delete_pays))]
pub fn delete_pays()
    ensures { DeletePays }
{}

/// A provisioned volume.
#[tactic(auto, using(crate::proofs::Upkeep::Provisions::create_pays))]
pub fn create_pays()
    ensures { CreatePays }
{}

/// New data for a claim.
#[tactic(auto, using(crate::proofs::Upkeep::Provisions::provision_pays))]
pub fn provision_pays()
    ensures { ProvisionPays }
{}

/// No Provision raises what is left to do.
#[tactic(auto, using(crate::proofs::Upkeep::Provisions::provision_stays))]
pub fn provision_stays()
    ensures { ProvisionStays }
{}

/// An erasure that removes data.
#[tactic(auto, using(crate::proofs::Upkeep::Erasing::erase_pays))]
pub fn erase_pays()
    ensures { ErasePays }
{}

/// An erasure that finds nothing leaves what is left to do alone.
#[tactic(auto, using(crate::proofs::Upkeep::Erasing::erase_stays))]
pub fn erase_stays()
    ensures { EraseStays }
{}

/// A pod's node.
#[tactic(auto, using(crate::proofs::Upkeep::Pods::assign_pays))]
pub fn assign_pays()
    ensures { AssignPays }
{}

/// A pod that leaves.
#[tactic(auto, using(crate::proofs::Upkeep::Pods::finish_pays))]
pub fn finish_pays()
    ensures { FinishPays }
{}

/// A mount.
#[tactic(auto, using(crate::proofs::Upkeep::Pods::mount_pays))]
pub fn mount_pays()
    ensures { MountPays }
{}

/// An unmount.
#[tactic(auto, using(crate::proofs::Upkeep::Pods::unmount_pays))]
pub fn unmount_pays()
    ensures { UnmountPays }
{}

//! Mounts and pods: no mounted claim leaves.
//!
//! Promises: a mount is that of a scheduled pod which stands on the node, for claims that it names (`mounts_are_pods`). A claim
//! without its guard is not mounted, and no holder of a node has the evidence to mount it; so no mounted claim leaves
//! (`mounted_claims_stay`). Not said: that at first nothing is mounted and each claim guarded, which is
//! `crate::law_laws::imports_start_well`; and that a mount ever ends.

ghost use Rattle.safety_law.specs.Mounts.Mounts.{MountsArePods, MountedClaimsStay};

/// Each mount is that of a scheduled pod which stands, for claims that it names.
#[tactic(auto, using(crate::proofs::Mounts::Mounts::mounted))]
pub fn mounts_are_pods()
    ensures { MountsArePods }
{}

/// No mounted claim leaves.
#[tactic(auto, using(crate::proofs::Mounts::Mounted::mounts_kept))]
pub fn mounted_claims_stay()
    ensures { MountedClaimsStay }
{}

//! A gate that lets a Mount pass only where the volumes of its claims are attached, as the laws of settling ask of gates.
//!
//! Promises: it holds back Mounts alone (`mounts_alone_are_held`). What passes depends on claims, on their volumes and on the
//! references between these, so worlds that differ in versions and epochs let the same pass (`worlds_alike_pass_alike`). Where
//! nothing is next, each Mount that is due and not held passes, at any epoch and as long as the world stays alike
//! (`free_mounts_pass`); and a Mount that is held never passes (`held_mounts_do_not_pass`). So after a turn what is held is
//! what does not pass. Not said: that anything is due, or that a drain behind this gate ends.
#![tactic(auto)]

ghost use Rattle.attach_front.specs.Front.{FreeMountsPass, HeldMountsDoNotPass, MountsAloneAreHeld, WorldsAlikePassAlike};

/// All requests pass but Mounts.
#[tactic(auto, using(crate::proofs::Alike::mounts_alone_are_held))]
pub fn mounts_alone_are_held()
    ensures { MountsAloneAreHeld }
{}

/// Worlds that are alike let the same pass.
#[tactic(auto, using(crate::proofs::Alike::worlds_alike_pass_alike))]
pub fn worlds_alike_pass_alike()
    ensures { WorldsAlikePassAlike }
{}

/// After a turn each Mount that is due and not held passes.
#[tactic(auto, using(crate::proofs::Front::free_mounts_pass))]
pub fn free_mounts_pass()
    ensures { FreeMountsPass }
{}

/// A Mount that is held does not pass.
#[tactic(auto, using(crate::proofs::Front::held_mounts_do_not_pass))]
pub fn held_mounts_do_not_pass()
    ensures { HeldMountsDoNotPass }
{}

//! Drains behind a front: one that holds some actions back, and takes a turn before each round and behind the last.
//!
//! Promises: `front::Front` says what a front is. Behind `AlwaysPass`, which lets all pass, holds nothing back and stays as
//! it is, a drain is what a drain was before, and each such drain is one (`always_passing_drains`, `drains_pass_always`).
//! Behind the gate by what is attached, which takes turns, each whole round that begins with something due that is not held
//! back, for an actor that is no stale agent, has an entry that lasts (`attached_drains_last`). Not said: that a drain
//! behind a front is short, and that it ends; no code drains behind one yet.
#![tactic(auto)]

ghost use Rattle.front_rounds.specs.Attached.{AttachedDrainsLast};
ghost use Rattle.front_rounds.specs.Passing.{AlwaysPassingDrains, DrainsPassAlways};

pub mod front;

/// A drain behind a front that lets all pass is a drain.
#[tactic(auto, using(crate::proofs::Passing::always_passing_drains))]
pub fn always_passing_drains()
    ensures { AlwaysPassingDrains }
{}

/// Each drain is one behind such a front.
#[tactic(auto, using(crate::proofs::Passing::drains_pass_always))]
pub fn drains_pass_always()
    ensures { DrainsPassAlways }
{}

/// Each whole round behind the gate has an entry that lasts, where something is due that is not held back.
#[tactic(auto, using(crate::proofs::Attached::attached_drains_last))]
pub fn attached_drains_last()
    ensures { AttachedDrainsLast }
{}

//! What a seat knows of pods by what it was told.
//!
//! Promises: a deletion stays (`deletions_stay`); so a pod that the newest telling of its key shows staying was never told
//! deleting (`staying_was_never_deleting`), where lists of all pods and watches alone told of pods. Both are of every history,
//! whatever was asked in it. An agent that asks what it may is so told (`agents_are_told_by_reads`). Not said: that a seat
//! is told of each deletion, or that a told pod still stands.

ghost use Rattle.safety_law.specs.Pods.Deletion.{DeletionsStay, StayingWasNeverDeleting};
ghost use Rattle.safety_law.specs.Pods.Tellings.{AgentsAreToldByReads};

/// Of two versions of an object that stood in the store, the later one is deleting where the earlier one is.
#[tactic(auto, using(crate::proofs::Pods::Deletion::deletions_stay))]
pub fn deletions_stay()
    ensures { DeletionsStay }
{}

/// A pod that the newest telling of its key shows staying was never told deleting.
#[tactic(auto, using(crate::proofs::Pods::Newest::staying_was_never_deleting))]
pub fn staying_was_never_deleting()
    ensures { StayingWasNeverDeleting }
{}

/// What an agent may ask tells pods by lists of all of them and by watches alone.
#[tactic(auto, using(crate::proofs::Pods::Asked::agents_are_told_by_reads))]
pub fn agents_are_told_by_reads()
    ensures { AgentsAreToldByReads }
{}

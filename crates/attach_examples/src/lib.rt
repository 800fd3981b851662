//! Computed examples of attachments: what passes, what is done and refused, what is next and held, and turns.
//!
//! Promises: the cases of each function here, from `uid_examples` on: it has nothing to do, and its contract has them. Not
//! said: anything of other cases.
#![tactic(auto)]

ghost use Rattle.attach_examples.specs.Asked.{AgainExamples, AttachExamples, DetachExamples, OrderExamples};
ghost use Rattle.attach_examples.specs.Listed.{ApartExamples, CarriedExamples, PassingExamples, UidExamples};
ghost use Rattle.attach_examples.specs.Turning.{DoneExamples, HeldExamples, MergedExamples, NextExamples, TurnExamples};

/// Objects by UID, and a claim's own volume.
#[tactic(auto, using(crate::proofs::Listed::uid_examples))]
pub fn uid_examples()
    ensures { UidExamples }
{}

/// Requests that pass, and Mounts that do not.
#[tactic(auto, using(crate::proofs::Listed::passing_examples))]
pub fn passing_examples()
    ensures { PassingExamples }
{}

/// One volume on two nodes, as it may be and as it may not.
#[tactic(auto, using(crate::proofs::Listed::apart_examples))]
pub fn apart_examples()
    ensures { ApartExamples }
{}

/// A mount with its volume attached, and without.
#[tactic(auto, using(crate::proofs::Listed::carried_examples))]
pub fn carried_examples()
    ensures { CarriedExamples }
{}

/// Attach: done, and refused.
#[tactic(auto, using(crate::proofs::Asked::attach_examples))]
pub fn attach_examples()
    ensures { AttachExamples }
{}

/// Attach of what is attached already.
#[tactic(auto, using(crate::proofs::Asked::again_examples))]
pub fn again_examples()
    ensures { AgainExamples }
{}

/// Detach: done, and refused.
#[tactic(auto, using(crate::proofs::Asked::detach_examples))]
pub fn detach_examples()
    ensures { DetachExamples }
{}

/// Where a new attachment stands.
#[tactic(auto, using(crate::proofs::Asked::order_examples))]
pub fn order_examples()
    ensures { OrderExamples }
{}

/// What is next, and where nothing is.
#[tactic(auto, using(crate::proofs::Turning::next_examples))]
pub fn next_examples()
    ensures { NextExamples }
{}

/// Mounts that are held, and actions that are not.
#[tactic(auto, using(crate::proofs::Turning::held_examples))]
pub fn held_examples()
    ensures { HeldExamples }
{}

/// Calls that are done when they are asked, and some that are not.
#[tactic(auto, using(crate::proofs::Turning::done_examples))]
pub fn done_examples()
    ensures { DoneExamples }
{}

/// A turn that moves a volume, and what is none.
#[tactic(auto, using(crate::proofs::Turning::turn_examples))]
pub fn turn_examples()
    ensures { TurnExamples }
{}

/// Calls beside a world.
#[tactic(auto, using(crate::proofs::Turning::merged_examples))]
pub fn merged_examples()
    ensures { MergedExamples }
{}

//! What all faults of a history say of its audit. The law is a function with nothing to do, whose contract is the law.

ghost use Rattle.store_judge.specs.Laws.{FirstIsAudits};

/// The first fault is the one that the audit names; where there is none it says yes.
#[tactic(auto, using(crate::proofs::First::first_is_audits))]
pub fn first_is_audits()
    ensures { FirstIsAudits }
{}

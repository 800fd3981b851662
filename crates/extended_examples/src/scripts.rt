//! Computed examples of extended scripts: what the side's lines mean, why they are refused, and what texts are.

ghost use Rattle.extended_examples.specs.Scripts.{FaultExamples, GrowExamples, LimitExamples, QuotaExamples, ReserveExamples, TextExamples};

/// Lines of quotas.
#[tactic(auto, using(crate::proofs::Computed::quota_examples))]
pub fn quota_examples()
    ensures { QuotaExamples }
{}

/// Lines of reserves.
#[tactic(auto, using(crate::proofs::Computed::reserve_examples))]
pub fn reserve_examples()
    ensures { ReserveExamples }
{}

/// Lines of growth.
#[tactic(auto, using(crate::proofs::Computed::grow_examples))]
pub fn grow_examples()
    ensures { GrowExamples }
{}

/// Limits of the side's lines.
#[tactic(auto, using(crate::proofs::Computed::limit_examples))]
pub fn limit_examples()
    ensures { LimitExamples }
{}

/// The first line at fault.
#[tactic(auto, using(crate::proofs::Computed::fault_examples))]
pub fn fault_examples()
    ensures { FaultExamples }
{}

/// Whole texts.
#[tactic(auto, using(crate::proofs::Computed::text_examples))]
pub fn text_examples()
    ensures { TextExamples }
{}

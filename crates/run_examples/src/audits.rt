//! Computed examples of verdicts: cases that hold, and cases that must not.

ghost use Rattle.run_examples.specs.Audit.Verdicts.{VerdictExamples};

/// Verdicts on lists that a binder makes.
#[tactic(auto, using(crate::proofs::Audit::Verdicts::verdict_examples))]
pub fn verdict_examples()
    ensures { VerdictExamples }
{}

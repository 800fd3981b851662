//! Computed examples of how the program ends: cases that hold, and cases that must not.

ghost use Rattle.run_examples.specs.End.{EndExamples};

/// Ends on no words.
#[tactic(auto, using(crate::proofs::End::end_examples))]
pub fn end_examples()
    ensures { EndExamples }
{}

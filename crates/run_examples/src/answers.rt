//! Computed examples of calls of seats: cases that hold, and cases that must not.

ghost use Rattle.run_examples.specs.Answer.{AnswerExamples};

/// Calls that are let through or held back, and which seat may call next.
#[tactic(auto, using(crate::proofs::Answer::answer_examples))]
pub fn answer_examples()
    ensures { AnswerExamples }
{}

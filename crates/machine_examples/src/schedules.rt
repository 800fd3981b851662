//! Computed examples of the scheduler's machine: what it writes, what it makes of answers, what begins on a pod, what a seat must
//! have been told, and which nodes count as refused.

ghost use Rattle.machine_examples.specs.Schedule.Beginnings.{BindExamples, SelectExamples};
ghost use Rattle.machine_examples.specs.Schedule.Evidences.{DueExamples, EvidenceExamples};
ghost use Rattle.machine_examples.specs.Schedule.Moves.{CallExamples, MoveExamples};
ghost use Rattle.machine_examples.specs.Schedule.Refusals.{RefusalExamples, SeenExamples};

/// What is written.
#[tactic(auto, using(crate::proofs::Schedule::Moving::call_examples))]
pub fn call_examples()
    ensures { CallExamples }
{}

/// What is made of answers.
#[tactic(auto, using(crate::proofs::Schedule::Moving::move_examples))]
pub fn move_examples()
    ensures { MoveExamples }
{}

/// What begins on a pod whose claims are completed, or wait.
#[tactic(auto, using(crate::proofs::Schedule::Beginning::bind_examples))]
pub fn bind_examples()
    ensures { BindExamples }
{}

/// What begins on a pod for which a node is sought.
#[tactic(auto, using(crate::proofs::Schedule::Beginning::select_examples))]
pub fn select_examples()
    ensures { SelectExamples }
{}

/// What a seat must have been told.
#[tactic(auto, using(crate::proofs::Schedule::Standing::evidence_examples))]
pub fn evidence_examples()
    ensures { EvidenceExamples }
{}

/// What is due where a call is the first.
#[tactic(auto, using(crate::proofs::Schedule::Standing::due_examples))]
pub fn due_examples()
    ensures { DueExamples }
{}

/// Which nodes stand selected and which were refused, by what a seat was told.
#[tactic(auto, using(crate::proofs::Schedule::Refusing::refusal_examples))]
pub fn refusal_examples()
    ensures { RefusalExamples }
{}

/// What it says that a claim is seen.
#[tactic(auto, using(crate::proofs::Schedule::Refusing::seen_examples))]
pub fn seen_examples()
    ensures { SeenExamples }
{}

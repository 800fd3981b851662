//! Computed examples of the definitions of scripts: what lines mean, why they are refused, and what texts are.

ghost use Rattle.text_examples.specs.Script.Limits.{LimitExamples};
ghost use Rattle.text_examples.specs.Script.Lines.{ActorExamples, CallExamples, EditExamples, SetupExamples};
ghost use Rattle.text_examples.specs.Script.Refusals.{AgainExamples, ImportExamples, OrderExamples, PlaceExamples, PrintedExamples, ReasonExamples};
ghost use Rattle.text_examples.specs.Script.Texts.{TextExamples};

/// Lines of users' calls.
#[tactic(auto, using(crate::proofs::Script::Reading::call_examples))]
pub fn call_examples()
    ensures { CallExamples }
{}

/// Lines of edits.
#[tactic(auto, using(crate::proofs::Script::Reading::edit_examples))]
pub fn edit_examples()
    ensures { EditExamples }
{}

/// Lines of pools and faults.
#[tactic(auto, using(crate::proofs::Script::Reading::setup_examples))]
pub fn setup_examples()
    ensures { SetupExamples }
{}

/// Lines that name actors, and a drain.
#[tactic(auto, using(crate::proofs::Script::Reading::actor_examples))]
pub fn actor_examples()
    ensures { ActorExamples }
{}

/// The reasons of one line.
#[tactic(auto, using(crate::proofs::Script::Refusing::reason_examples))]
pub fn reason_examples()
    ensures { ReasonExamples }
{}

/// Which reason comes first.
#[tactic(auto, using(crate::proofs::Script::Refusing::order_examples))]
pub fn order_examples()
    ensures { OrderExamples }
{}

/// Numbers that were given before.
#[tactic(auto, using(crate::proofs::Script::Refusing::again_examples))]
pub fn again_examples()
    ensures { AgainExamples }
{}

/// Why an object of an older store is refused.
#[tactic(auto, using(crate::proofs::Script::Refusing::import_examples))]
pub fn import_examples()
    ensures { ImportExamples }
{}

/// The line that is at fault.
#[tactic(auto, using(crate::proofs::Script::Refusing::place_examples))]
pub fn place_examples()
    ensures { PlaceExamples }
{}

/// What is printed for a line at fault.
#[tactic(auto, using(crate::proofs::Script::Refusing::printed_examples))]
pub fn printed_examples()
    ensures { PrintedExamples }
{}

/// Whole texts.
#[tactic(auto, using(crate::proofs::Script::Whole::text_examples))]
pub fn text_examples()
    ensures { TextExamples }
{}

/// What passes a limit, and what just does not.
#[tactic(auto, using(crate::proofs::Script::Limiting::limit_examples))]
pub fn limit_examples()
    ensures { LimitExamples }
{}

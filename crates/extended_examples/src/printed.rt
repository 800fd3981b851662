//! Computed examples of lines of the side as they are printed.

ghost use Rattle.extended_examples.specs.Lines.{PrintedExamples};

/// Lines of entries and of sizes.
#[tactic(auto, using(crate::proofs::Printing::printed_examples))]
pub fn printed_examples()
    ensures { PrintedExamples }
{}

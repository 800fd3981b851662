//! Computed examples of the definitions of generated scripts: cases that hold, and cases that must not.

ghost use Rattle.text_examples.specs.Gen.Draws.{DrawExamples};
ghost use Rattle.text_examples.specs.Gen.Lines.{LineExamples};

/// The first draws of seeds.
#[tactic(auto, using(crate::proofs::Gen::Draws::draw_examples))]
pub fn draw_examples()
    ensures { DrawExamples }
{}

/// Lines of generated scripts.
#[tactic(auto, using(crate::proofs::Gen::Lines::line_examples))]
pub fn line_examples()
    ensures { LineExamples }
{}

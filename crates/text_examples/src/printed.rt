//! Computed examples of histories that a text can give: cases that hold, and cases that must not.

ghost use Rattle.text_examples.specs.Printable.Given.{GivenExamples};

/// Setups, entries and texts of short histories.
pub fn given_examples()
    ensures { GivenExamples }
{}

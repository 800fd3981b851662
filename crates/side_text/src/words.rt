//! Printed words of the side.

ghost use Rattle.std.specs.Prelude.{◌≡◌};
ghost use Rattle.side_text.specs.Words.{step_word, why_word};

use side_calls::sizes::{StepKind, Why};

/// The word for a step of growth.
pub fn step_word(kind: StepKind) -> &'static str
    ensures { result.now ≡ step_word kind }
{
    match kind {
        StepKind::Data => "data",
        StepKind::Volume => "volume",
        StepKind::Given => "given",
    }
}

/// The word for why a claim may not grow.
pub fn why_word(why: Why) -> &'static str
    ensures { result.now ≡ why_word why }
{
    match why {
        Why::Absent => "Absent",
        Why::Deleting => "Deleting",
        Why::NotBound => "NotBound",
        Why::Static => "Static",
        Why::Class => "Class",
        Why::Smaller => "Smaller",
    }
}

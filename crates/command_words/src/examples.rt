//! Computed examples of the grammar. Each is a function with nothing to do, whose contract has the examples.

ghost use Rattle.command_words.specs.Examples.{RefusedExamples, TakenExamples};

/// Words of the grammar, with what they say.
pub fn taken_examples()
    ensures { TakenExamples }
{}

/// Words outside the grammar.
pub fn refused_examples()
    ensures { RefusedExamples }
{}

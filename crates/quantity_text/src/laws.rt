//! Laws: what is read is what the grammar says.

ghost use Rattle.quantity_text.specs.Grammar.{AmountsAreOfTheGrammar, NumbersAreTheLongest, SuffixesAreOfTheGrammar};

/// A text is read as an amount exactly where the grammar makes a number and a suffix of it that are within the
/// limits, and its bytes are the least whole number not below number times scale.
pub fn amounts_are_of_the_grammar()
    ensures { AmountsAreOfTheGrammar }
{}

/// A text is taken as a suffix exactly where the grammar has it.
pub fn suffixes_are_of_the_grammar()
    ensures { SuffixesAreOfTheGrammar }
{}

/// The number that is found at the front of a text is the longest one there, and the suffix is what follows it. Where
/// none is found, no front of the text is a number.
#[tactic(auto, using(crate::proofs::Longest::numbers_are_the_longest))]
pub fn numbers_are_the_longest()
    ensures { NumbersAreTheLongest }
{}

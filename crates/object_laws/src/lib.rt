//! Laws of the texts of objects: what is printed is read again, and what was read can be printed.
//!
//! Promises: `line_is_read` and `text_is_read_again`, where the line is no longer than a manifest may be; two objects have
//! two lines (`lines_are_apart`); a value is refused with the first fault in the order of the table
//! (`reading_follows_the_table`). Each is a function with nothing to do, whose contract is the law. Not said: that a line is
//! short enough to be read, and that an object is valid for the store.
#![tactic(auto)]

ghost use Rattle.object_laws.specs.Again.{ListIsReadAgain, TextIsReadAgain};
ghost use Rattle.object_laws.specs.Laws.{LineIsListed, LineIsRead, LinesAreApart, ListGives, PrintedGivesBack, PrintedIsCanonical, PrintedIsLine, TextGives, ValueGives};
ghost use Rattle.object_laws.specs.Manifests.{FollowsTable, TableExamples};

/// The JSON of an object that a manifest can give gives the object back.
#[tactic(auto, using(crate::proofs::Back::object_back))]
pub fn printed_gives_back()
    ensures { PrintedGivesBack }
{}

/// So does its line, where it is no longer than a manifest may be.
#[tactic(auto, using(crate::proofs::Lines::line_is_read))]
pub fn line_is_read()
    ensures { LineIsRead }
{}

/// And so does a reader of lists read its line, as the one object.
#[tactic(auto, using(crate::proofs::Lines::line_is_listed))]
pub fn line_is_listed()
    ensures { LineIsListed }
{}

/// Its JSON is canonical, and nests no deeper than is read.
#[tactic(auto, using(crate::proofs::Canonical::object_good))]
pub fn printed_is_canonical()
    ensures { PrintedIsCanonical }
{}

/// Its line has no line feed.
#[tactic(auto, using(crate::proofs::Lines::printed_is_line))]
pub fn printed_is_line()
    ensures { PrintedIsLine }
{}

/// Two objects have two lines.
#[tactic(auto, using(crate::proofs::Lines::lines_are_apart))]
pub fn lines_are_apart()
    ensures { LinesAreApart }
{}

/// What a canonical value gives is an object that a manifest can give.
#[tactic(auto, using(crate::proofs::Gives::object_given))]
pub fn value_gives()
    ensures { ValueGives }
{}

/// So is what the text of a manifest gives.
#[tactic(auto, using(crate::proofs::Texts::text_gives))]
pub fn text_gives()
    ensures { TextGives }
{}

/// So is each object that the text of a list gives.
#[tactic(auto, using(crate::proofs::Texts::list_gives))]
pub fn list_gives()
    ensures { ListGives }
{}

/// What the text of a manifest gives is printed as it is read again, where its line is no longer than a manifest may be.
pub fn text_is_read_again()
    ensures { TextIsReadAgain }
{}

/// So is each object that the text of a list gives.
pub fn list_is_read_again()
    ensures { ListIsReadAgain }
{}

/// A value is refused exactly with the first fault of the rows of its kind, in the order of the table of manifests.
#[tactic(auto, using(crate::proofs::TableKinds::follows_table, crate::proofs::TableKinds::table_examples))]
pub fn reading_follows_the_table()
    ensures law { FollowsTable }
    ensures examples { TableExamples }
{}

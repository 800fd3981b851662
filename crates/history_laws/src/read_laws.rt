//! Laws of histories that are printed and read.

ghost use Rattle.history_laws.specs.Read.Laws.{OneHistory, PrintedIsRead, ReadGives, ReadIsOnly, ReadIsPrinted, TextIsRead};

/// What is read of a text is what the text has: its lines up to `end` are the printed lines.
#[tactic(auto, using(crate::proofs::Read::Printed::read_is_printed))]
pub fn read_is_printed()
    ensures { ReadIsPrinted }
{}

/// What a text has is read, where each of its lines is UTF-8, has at most 4 MiB and nests at most 127 levels.
pub fn text_is_read()
    ensures { TextIsRead }
{}

/// So is what is printed of a setup and entries, within the same limits, whatever follows it.
#[tactic(auto, using(crate::proofs::Read::TextsRead::printed_is_read))]
pub fn printed_is_read()
    ensures { PrintedIsRead }
{}

/// A text has at most one setup and list of entries, however deep its lines nest.
pub fn one_history()
    ensures { OneHistory }
{}

/// What is read is such that a text can give it, and its lines nest at most 127 levels.
pub fn read_gives()
    ensures { ReadGives }
{}

/// What is read of a text is the only setup and list of entries that it has.
pub fn read_is_only()
    ensures { ReadIsOnly }
{}

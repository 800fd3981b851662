//! Computed examples of the definitions of histories: which lines are setups and entries, and what texts are.

ghost use Rattle.text_examples.specs.History.Lines.{EntryExamples, SetupExamples};
ghost use Rattle.text_examples.specs.History.Replies.{ReplyExamples};
ghost use Rattle.text_examples.specs.History.Requests.{RequestExamples};
ghost use Rattle.text_examples.specs.History.Texts.{PrintedExamples, TextExamples};

/// Lines that are setups, and lines that are none.
#[tactic(auto, using(crate::proofs::History::Reading::setup_examples))]
pub fn setup_examples()
    ensures { SetupExamples }
{}

/// Lines that are entries, and lines that are none.
#[tactic(auto, using(crate::proofs::History::Reading::entry_examples))]
pub fn entry_examples()
    ensures { EntryExamples }
{}

/// Requests as JSON shows them, and JSON that shows none.
#[tactic(auto, using(crate::proofs::History::Asking::request_examples))]
pub fn request_examples()
    ensures { RequestExamples }
{}

/// Replies as JSON shows them, and JSON that shows none.
#[tactic(auto, using(crate::proofs::History::Asking::reply_examples))]
pub fn reply_examples()
    ensures { ReplyExamples }
{}

/// Texts that are histories, and texts that are none.
#[tactic(auto, using(crate::proofs::History::Reading::text_examples))]
pub fn text_examples()
    ensures { TextExamples }
{}

/// What is printed for a line at fault.
#[tactic(auto, using(crate::proofs::History::Reading::printed_examples))]
pub fn printed_examples()
    ensures { PrintedExamples }
{}

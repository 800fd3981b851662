//! A history that a replay or a run on threads brings about has only values that a text can give, so its printed text
//! has no other.
//!
//! Promises: `replays_give` and `replay_texts_have_one`, and for threads `threads_give` and `thread_texts_have_one`,
//! each a function with nothing to do, whose contract is the law. The law of runs (`history_laws::runs_laws::runs_give`) does the
//! work; here stands what a script's lines give it: the setup (`script_setups_give`), the seats, and the users'
//! requests. Not said: that a printed line is short enough or nests little enough to be read.

ghost use Rattle.replay_laws.specs.Printable.Laws.{ReplayTextsHaveOne, ReplaysGive, ScriptSetupsGive, ThreadTextsHaveOne, ThreadsGive};

/// A text can give the setup of a script that a text can give.
pub fn script_setups_give()
    ensures { ScriptSetupsGive }
{}

/// A replayed script's history has only values that a text can give.
pub fn replays_give()
    ensures { ReplaysGive }
{}

/// What is printed of it has it, and no other history that a text can give, whatever lines follow.
pub fn replay_texts_have_one()
    ensures { ReplayTextsHaveOne }
{}

/// The history of a script that was run on threads has only values that a text can give.
pub fn threads_give()
    ensures { ThreadsGive }
{}

/// What is printed of it has it, and no other history that a text can give, whatever lines follow.
pub fn thread_texts_have_one()
    ensures { ThreadTextsHaveOne }
{}

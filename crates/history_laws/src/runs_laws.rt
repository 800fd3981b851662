//! A history that comes about has only values that a text can give.

ghost use Rattle.history_laws.specs.Runs.Keeping.{CallsKeepGiven};
ghost use Rattle.history_laws.specs.Runs.Laws.{LicensedAskGiven, RunTextsHaveOne, RunsGive};

/// A call that a text can give is answered so, and leaves a world of such values.
pub fn calls_keep_given()
    ensures { CallsKeepGiven }
{}

/// What the licence allows a controller is a request that a text can give.
#[tactic(auto, using(crate::proofs::Runs::Asking::licensed_ask_given))]
pub fn licensed_ask_given()
    ensures { LicensedAskGiven }
{}

/// A run has only values that a text can give, where its setup has and its users ask so.
#[tactic(auto, using(crate::proofs::Runs::Runs::runs_give))]
pub fn runs_give()
    ensures { RunsGive }
{}

/// What is printed of such a run has it, and no other history that a text can give, whatever lines follow.
pub fn run_texts_have_one()
    ensures { RunTextsHaveOne }
{}

//! What binders, schedulers and ops ask keeps the premise.

ghost use Rattle.size_law.specs.Calls.Calls.{ActorsAreFitting, ActorsGiveEnough, AskedGiveFitting, CallsGiveFitting};
ghost use Rattle.size_law.specs.Calls.Examples.{AskedExamples, DecisionExamples};
ghost use Rattle.size_law.specs.Calls.Makes.{CallsMakeFitting, HistoriesMakeFitting, LicensedMakeFitting, MadeFits};
ghost use Rattle.size_law.specs.Calls.OpsExamples.{MadeExamples, MakingExamples};

/// Each call that a turn of an actor gives: the binder's and the scheduler's are those that could give a volume that stands.
#[tactic(auto, using(crate::proofs::Calls::Turns::calls_give_fitting))]
pub fn calls_give_fitting()
    ensures { CallsGiveFitting }
{}

/// Each call that an actor has given and that is not answered yet.
#[tactic(auto, using(crate::proofs::Calls::Turns::asked_give_fitting))]
pub fn asked_give_fitting()
    ensures { AskedGiveFitting }
{}

/// A history whose binders and schedulers are such actors gives fittingly throughout.
#[tactic(auto, using(crate::proofs::Calls::Turns::actors_are_fitting))]
pub fn actors_are_fitting()
    ensures { ActorsAreFitting }
{}

/// In each run whose binders and schedulers are such actors, each claim that counts gets enough, at every point of it.
#[tactic(auto, using(crate::proofs::Calls::Turns::actors_give_enough))]
pub fn actors_give_enough()
    ensures { ActorsGiveEnough }
{}

/// A volume that is made for a claim fits it, also by the binder's own test.
#[tactic(auto, using(crate::proofs::Calls::Making::made_fits))]
pub fn made_fits()
    ensures { MadeFits }
{}

/// Each request for which ops is licensed gives a volume only where it creates one that is made for a claim.
#[tactic(auto, using(crate::proofs::Calls::Making::licensed_make))]
pub fn licensed_make_fitting()
    ensures { LicensedMakeFitting }
{}

/// So does each call that a turn of ops gives.
#[tactic(auto, using(crate::proofs::Calls::Making::calls_make))]
pub fn calls_make_fitting()
    ensures { CallsMakeFitting }
{}

/// And each call of ops in a history in which each controller was allowed what it asked.
#[tactic(auto, using(crate::proofs::Calls::Making::histories_make))]
pub fn histories_make_fitting()
    ensures { HistoriesMakeFitting }
{}

/// What a new binder or scheduler asks, and what none asks, computed.
#[tactic(auto, using(crate::proofs::Calls::Examples::asked_examples))]
pub fn asked_examples()
    ensures { AskedExamples }
{}

/// Where the decision on a claim asks for the size, and where it does not, computed.
#[tactic(auto, using(crate::proofs::Calls::Examples::decision_examples))]
pub fn decision_examples()
    ensures { DecisionExamples }
{}

/// Which volumes are made for a claim, computed.
#[tactic(auto, using(crate::proofs::Calls::OpsExamples::made_examples))]
pub fn made_examples()
    ensures { MadeExamples }
{}

/// What of the requests of ops gives a volume, computed.
#[tactic(auto, using(crate::proofs::Calls::OpsExamples::making_examples))]
pub fn making_examples()
    ensures { MakingExamples }
{}

//! Each completed claim gets at least what it asked for.

ghost use Rattle.size_law.specs.Law.Enough.{RunsGetEnough, RunsReferFitting};
ghost use Rattle.size_law.specs.Law.Examples.{ByHandExamples, EarlyMarkExamples, FitsExamples, FittingRunExamples, GivingExamples, ImportedPairExamples, KeptMarkExamples, LostClaimExamples, PairRunExamples, ShortRunExamples};

/// In each run in which references are so given, each claim that counts gets enough, at every point of it.
#[tactic(auto, using(crate::proofs::Law::Law::runs_get_enough))]
pub fn runs_get_enough()
    ensures { RunsGetEnough }
{}

/// And each volume fits the claim that it refers to, completed or not, or both were bound by hand.
#[tactic(auto, using(crate::proofs::Law::Law::runs_refer_fitting))]
pub fn runs_refer_fitting()
    ensures { RunsReferFitting }
{}

/// Which volumes fit a claim, computed.
#[tactic(auto, using(crate::proofs::Law::Examples::fits_examples))]
pub fn fits_examples()
    ensures { FitsExamples }
{}

/// Volumes and claims that were bound by hand, computed.
#[tactic(auto, using(crate::proofs::Law::Examples::by_hand_examples))]
pub fn by_hand_examples()
    ensures { ByHandExamples }
{}

/// What may be given, computed.
#[tactic(auto, using(crate::proofs::Law::Examples::giving_examples))]
pub fn giving_examples()
    ensures { GivingExamples }
{}

/// A run in which a claim gets what it asked for, computed.
#[tactic(auto, using(crate::proofs::Law::Runs::fitting_run_examples))]
pub fn fitting_run_examples()
    ensures { FittingRunExamples }
{}

/// A run in which it gets less, since the volume was not given fittingly, computed.
#[tactic(auto, using(crate::proofs::Law::Runs::short_run_examples))]
pub fn short_run_examples()
    ensures { ShortRunExamples }
{}

/// A run in which a volume and a larger claim were bound by hand, computed.
#[tactic(auto, using(crate::proofs::Law::MoreRuns::pair_run_examples))]
pub fn pair_run_examples()
    ensures { PairRunExamples }
{}

/// Imports in which a volume refers to a larger claim, computed.
#[tactic(auto, using(crate::proofs::Law::MoreRuns::imported_pair_examples))]
pub fn imported_pair_examples()
    ensures { ImportedPairExamples }
{}

/// A run in which the volume of a claim that was imported as Lost comes back smaller, computed.
#[tactic(auto, using(crate::proofs::Law::MoreRuns::lost_claim_examples))]
pub fn lost_claim_examples()
    ensures { LostClaimExamples }
{}

/// A run in which a user leaves the controller's mark on a volume and binds it by hand, computed.
#[tactic(auto, using(crate::proofs::Law::MoreRuns::kept_mark_examples))]
pub fn kept_mark_examples()
    ensures { KeptMarkExamples }
{}

/// A run in which a claim was imported with the mark and not completed, and bound by hand, computed.
#[tactic(auto, using(crate::proofs::Law::MoreRuns::early_mark_examples))]
pub fn early_mark_examples()
    ensures { EarlyMarkExamples }
{}

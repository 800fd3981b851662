//! The safety law, handed on: a world's history is one of fewer than 2^60 entries, so each history that is a run is safe.

ghost use Rattle.binder_model.specs.Promises.{BindsHaveEvidence, LostIsNeverDone, RunImpliesSafe};
ghost use Rattle.safety_law.specs.Law.Law.{EachRunIsSafe};

/// Each run is safe, at every point of it. The oldest entry stands first.
#[tactic(auto, using(safety_law::proofs::Law::Law::each_run_is_safe))]
pub fn run_is_safe()
    ensures { EachRunIsSafe }
{}

/// The same, where the newest entry stands first.
#[tactic(auto, using(safety_law::proofs::Law::Law::run_implies_safe))]
pub fn run_implies_safe()
    ensures { RunImpliesSafe }
{}

/// No entry that writes phase Lost on a claim which was not imported as Lost is answered Done.
#[tactic(auto, using(safety_law::proofs::Law::Lost::lost_is_never_done))]
pub fn lost_is_never_done()
    ensures { LostIsNeverDone }
{}

/// A BindPod that was answered Done has the evidence of its row.
#[tactic(auto, using(safety_law::proofs::Law::Lost::binds_have_evidence))]
pub fn binds_have_evidence()
    ensures { BindsHaveEvidence }
{}

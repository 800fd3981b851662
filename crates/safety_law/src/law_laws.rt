//! The safety law: in each run completed claims have Bound volumes of their own, no Bound volume and no mounted claim
//! leaves, and data are erased only for ended volumes with policy Delete.
//!
//! Promises: `run_is_safe`, for every setup whose imports pass their tests and every history of fewer than 2^60
//! entries; `run_implies_safe` says the same of a list whose newest entry stands first. It rests on two: imports that
//! pass make a first world that meets the invariant (`imports_start_well`), and each run keeps it (`runs_are_good`).
//! For that one lemma for each row of the licence, and those of the guard of users, say what a write makes of an
//! object. Beside it: no claim is found lost that was not imported so (`lost_is_never_done`), a pod is bound to its
//! node with the evidence of its row (`binds_have_evidence`), and without imports Safe is five plain sentences
//! (`safe_without_imports`). docs/LAW.md tells the argument. Not said: that a history is a run, which `audit_check`
//! judges; and that anything is ever done.

ghost use Rattle.safety_law.specs.Law.Runs.{RunsAreGood};
ghost use Rattle.binder_model.specs.Promises.{BindsHaveEvidence, LostIsNeverDone, RunImpliesSafe};
ghost use Rattle.safety_law.specs.Law.Law.{EachRunIsSafe, ImportsStartWell};
ghost use Rattle.safety_law.specs.Law.WithoutImports.{SafeWithoutImports};

/// A run whose first world meets the invariant meets it throughout.
#[tactic(auto, using(crate::proofs::Law::Runs::run_good))]
pub fn runs_are_good()
    ensures { RunsAreGood }
{}

/// Each run is safe, at every point of it. The oldest entry stands first.
#[tactic(auto, using(crate::proofs::Law::Law::each_run_is_safe))]
pub fn run_is_safe()
    ensures { EachRunIsSafe }
{}

/// The same, where the newest entry stands first.
#[tactic(auto, using(crate::proofs::Law::Law::run_implies_safe))]
pub fn run_implies_safe()
    ensures { RunImpliesSafe }
{}

/// No entry that writes phase Lost on a claim which was not imported as Lost is answered Done.
#[tactic(auto, using(crate::proofs::Law::Lost::lost_is_never_done))]
pub fn lost_is_never_done()
    ensures { LostIsNeverDone }
{}

/// A BindPod that was answered Done has the evidence of its row.
#[tactic(auto, using(crate::proofs::Law::Lost::binds_have_evidence))]
pub fn binds_have_evidence()
    ensures { BindsHaveEvidence }
{}

/// Imports that pass make a first world that keeps the invariant, with nothing mounted and each claim guarded.
pub fn imports_start_well()
    ensures { ImportsStartWell }
{}

/// Without imports a history is safe just where five plain sentences hold of it. At each point each completed claim names
/// a Bound volume that carries it, and no two name one volume; no entry removed a volume that was Bound just before, or a
/// claim that was mounted just before; and data were erased only for ended volumes with policy Delete.
#[tactic(auto, using(crate::proofs::Law::Plainly::safe_without_imports))]
pub fn safe_without_imports()
    ensures { SafeWithoutImports }
{}

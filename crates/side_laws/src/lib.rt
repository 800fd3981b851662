//! The laws of the side of an extended run.
//!
//! Promises: growth goes in turn, never back and within the reserve, whatever the side is asked (`growth_goes_in_turn`). In
//! each run over imports that pass, in which no create reaches the world that is to be held back, the claims of a namespace
//! use no more than its quota or than they used at first, at each point (`quotas_are_kept`). What `Quotas` counts is what
//! stands: at first (`first_is_counted`), after each call of the world (`calls_are_counted`) and each growth
//! (`growth_is_counted`), while other asks change nothing of it (`asks_count_alike`). Each law is a function with nothing to
//! do, whose contract is the law. Not said: that a runner holds back what it should, or that code meets the
//! definitions of `side_model`.
#![tactic(auto)]

ghost use Rattle.side_laws.specs.Laws.{GrowthGoesInTurn, QuotasAreKept};
ghost use Rattle.side_laws.specs.Fair.{CreatesPass, FairRunsKeepQuotas};
ghost use Rattle.side_laws.specs.Mirrors.{AsksCountAlike, CallsAreCounted, FirstIsCounted, GrowthIsCounted, NotesMirror, SizesAlwaysStand};

/// No claim is given more than its volume has, no volume has more than is stored, and no number of a claim ever falls.
pub fn growth_goes_in_turn()
    ensures { GrowthGoesInTurn }
{}

/// The claims of a namespace use no more than its quota, or than they used at first.
#[tactic(auto, using(crate::proofs::Whole::quotas_are_kept))]
pub fn quotas_are_kept()
    ensures { QuotasAreKept }
{}

/// What is counted after a call on any world is what stands then.
#[tactic(auto, using(crate::proofs::Mirrors::notes_mirror))]
pub fn notes_mirror()
    ensures { NotesMirror }
{}

/// What is counted at first is what stands then.
pub fn first_is_counted()
    ensures { FirstIsCounted }
{}

/// What is counted after an entry of the world is what stands then.
pub fn calls_are_counted()
    ensures { CallsAreCounted }
{}

/// An ask that is no growth changes nothing of what is counted.
pub fn asks_count_alike()
    ensures { AsksCountAlike }
{}

/// What is counted after a claim has grown is what stands then.
pub fn growth_is_counted()
    ensures { GrowthIsCounted }
{}

/// Each row of sizes is that of a claim that stands.
#[tactic(auto, using(crate::proofs::Standing::sizes_always_stand))]
pub fn sizes_always_stand()
    ensures { SizesAlwaysStand }
{}

/// A claim that a call has made is a user's, and passed the quota of its namespace where nothing held it back.
#[tactic(auto, using(crate::proofs::Creates::creates_pass))]
pub fn creates_pass()
    ensures { CreatesPass }
{}

/// Where each claim that a call has made passed its quota, quotas are kept.
#[tactic(auto, using(crate::proofs::Kept::fair_runs_keep_quotas))]
pub fn fair_runs_keep_quotas()
    ensures { FairRunsKeepQuotas }
{}

//! The rules of snapshots hold, whoever asks; and computed examples of the calls, the licence and the rules.
//!
//! Promises: whatever the worlds are, and whoever asks what and when, if each worker's ask was licensed by the earlier calls
//! of its own seat, the rules of `specs/Rules` of `snapshot_bind` hold after each call: a snapshot that names a content finds
//! it there with its UID, no two name one, and data are erased only of a content whose snapshot is gone (`rules_hold`). Each
//! other function has nothing to do, and its contract has the cases: what holds, and what must not.
#![tactic(auto)]

ghost use Rattle.snapshot_bind.specs.Rules.{RulesHold};
ghost use Rattle.snapshot_law.specs.CallExamples.{BindExamples, CutExamples, LeaveExamples, LookExamples, MakeExamples, UncontentExamples, UnsnapExamples};
ghost use Rattle.snapshot_law.specs.LicenceExamples.{BindContentLicences, BindSnapshotLicences, CutLicences, EraseLicences, LeaveLicences, LookLicences};
ghost use Rattle.snapshot_law.specs.RuleExamples.{ApartExamples, BoundExamples, ErasedExamples, RunExamples};

/// The rules hold at each point of each list of calls of the side in which workers' asks are licensed.
#[tactic(auto, using(crate::proofs::Law::rules_hold))]
pub fn rules_hold()
    ensures { RulesHold }
{}

/// Users make snapshots and hand in contents.
#[tactic(auto, using(crate::proofs::CallExamples::make_examples))]
pub fn make_examples()
    ensures { MakeExamples }
{}

/// A snapshot is marked as deleting.
#[tactic(auto, using(crate::proofs::CallExamples::unsnap_examples))]
pub fn unsnap_examples()
    ensures { UnsnapExamples }
{}

/// A content leaves on the word of a user.
#[tactic(auto, using(crate::proofs::CallExamples::uncontent_examples))]
pub fn uncontent_examples()
    ensures { UncontentExamples }
{}

/// What is read is told as it stands.
#[tactic(auto, using(crate::proofs::CallExamples::look_examples))]
pub fn look_examples()
    ensures { LookExamples }
{}

/// A content is cut for a snapshot.
#[tactic(auto, using(crate::proofs::CallExamples::cut_examples))]
pub fn cut_examples()
    ensures { CutExamples }
{}

/// A content gets a UID, a snapshot names a content.
#[tactic(auto, using(crate::proofs::CallExamples::bind_examples))]
pub fn bind_examples()
    ensures { BindExamples }
{}

/// A row leaves, or its data do.
#[tactic(auto, using(crate::proofs::CallExamples::leave_examples))]
pub fn leave_examples()
    ensures { LeaveExamples }
{}

/// Which looks a worker may ask for.
#[tactic(auto, using(crate::proofs::LicenceExamples::look_licences))]
pub fn look_licences()
    ensures { LookLicences }
{}

/// For which snapshot it may cut.
#[tactic(auto, using(crate::proofs::LicenceExamples::cut_licences))]
pub fn cut_licences()
    ensures { CutLicences }
{}

/// Which content may get a UID.
#[tactic(auto, using(crate::proofs::LicenceExamples::bind_content_licences))]
pub fn bind_content_licences()
    ensures { BindContentLicences }
{}

/// Which content a snapshot may name.
#[tactic(auto, using(crate::proofs::LicenceExamples::bind_snapshot_licences))]
pub fn bind_snapshot_licences()
    ensures { BindSnapshotLicences }
{}

/// Which rows may leave.
#[tactic(auto, using(crate::proofs::LicenceExamples::leave_licences))]
pub fn leave_licences()
    ensures { LeaveLicences }
{}

/// Whose data may be erased.
#[tactic(auto, using(crate::proofs::LicenceExamples::erase_licences))]
pub fn erase_licences()
    ensures { EraseLicences }
{}

/// What a snapshot names.
#[tactic(auto, using(crate::proofs::RuleExamples::bound_examples))]
pub fn bound_examples()
    ensures { BoundExamples }
{}

/// Snapshots that name one content.
#[tactic(auto, using(crate::proofs::RuleExamples::apart_examples))]
pub fn apart_examples()
    ensures { ApartExamples }
{}

/// Calls that erase data.
#[tactic(auto, using(crate::proofs::RuleExamples::erased_examples))]
pub fn erased_examples()
    ensures { ErasedExamples }
{}

/// Calls that are a run.
#[tactic(auto, using(crate::proofs::RuleExamples::run_examples))]
pub fn run_examples()
    ensures { RunExamples }
{}

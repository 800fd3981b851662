//! Laws over the definitions of the store, of worlds and of histories, and computed examples of them.
//!
//! Promises: among others, refusals change nothing (`refusals_change_nothing`), no UID is given twice
//! (`uids_are_given_once`), reads tell what stands (`gets_tell_what_stands`, `lists_tell_what_stands`), and what a seat was
//! told stood (`told_is_true`). Each is a function with nothing to do, whose contract is the law. Not said: that code meets
//! the definitions, and that a run is safe, which is `safety_law`'s to say.
#![tactic(auto)]

ghost use Rattle.model_laws.specs.Calls.{DoneStands, DoneWritesOrDeletesAgain, LeftIsGone, OnlyTheBackEndCounts, WritesLeaveOthers};
ghost use Rattle.model_laws.specs.Defaults.{DefaultIsFound, DefaultIsOne};
ghost use Rattle.model_laws.specs.Histories.{CallsKeepIdentity, RowsStandInOrder, UidsAreGivenOnce};
ghost use Rattle.model_laws.specs.NoImports.{NoImportsSayAsBefore};
ghost use Rattle.model_laws.specs.Reads.{DataIdsAreGivenOnce, EpochsRise, GetsTellWhatStands, ListsAreInOrder, ListsTellWhatStands, WatchesGoOn, WatchesTellWhatCameAfter};
ghost use Rattle.model_laws.specs.ReleaseOrder.{IsReleaseOrder};
ghost use Rattle.model_laws.specs.Steps.{RefusalsChangeNothing, VersionsCountWrites};
ghost use Rattle.model_laws.specs.Stood.{OneUidOneKey, OneVersionOneObject, ToldIsTrue, ToldLiveIsTrueNow};
ghost use Rattle.model_laws.specs.Tellings.{AfterStays, NewestWasTold, OlderPartsAreRuns, RunsAreHistories, ToldStays};
ghost use Rattle.model_laws.specs.Worked.{ClaimGoneBetweenWrites, DeletedVolumeRefuses, FirstRun, GuardOnAnnotations, IsModesBeforeSize, IsTieByName, StaleEpochs, TwoClaimsOneVolume, Watches};

/// A refusal changes nothing but the number of device calls.
#[tactic(auto, using(crate::proofs::Steps::refusals_change_nothing))]
pub fn refusals_change_nothing()
    ensures { RefusalsChangeNothing }
{}

/// The version rises by one at each write that succeeds, and at nothing else.
#[tactic(auto, using(crate::proofs::Versions::versions_count_writes))]
pub fn versions_count_writes()
    ensures { VersionsCountWrites }
{}

/// No key stands twice, and objects stand in the order of their keys.
#[tactic(auto, using(crate::proofs::Histories::rows_stand_in_order))]
pub fn rows_stand_in_order()
    ensures { RowsStandInOrder }
{}

/// What stands under a key before a call and after it has one UID and one creation; a deletion timestamp stays, and
/// the name of a claim's volume goes once from empty to a name.
pub fn calls_keep_identity()
    ensures { CallsKeepIdentity }
{}

/// No UID is given twice.
#[tactic(auto, using(crate::proofs::Uids::uids_are_given_once))]
pub fn uids_are_given_once()
    ensures { UidsAreGivenOnce }
{}

/// A Get tells what stands in the store at that moment.
pub fn gets_tell_what_stands()
    ensures { GetsTellWhatStands }
{}

/// A list has the objects of its kind and namespace that stand in the store at that moment, and tells its version.
pub fn lists_tell_what_stands()
    ensures { ListsTellWhatStands }
{}

/// Each epoch of a node is told once, and later ones are greater: so it is told to at most one seat.
pub fn epochs_rise()
    ensures { EpochsRise }
{}

/// A data id is given once.
pub fn data_ids_are_given_once()
    ensures { DataIdsAreGivenOnce }
{}

/// A watch from the version of an earlier world gives just the events of its kind after it, in order.
pub fn watches_tell_what_came_after()
    ensures { WatchesTellWhatCameAfter }
{}

/// The first run: seven writes bind a volume and a claim, and the binder has nothing more to do.
pub fn first_run()
    ensures { FirstRun }
{}

/// A claim that left between the second and the third write: its completion is answered NotFound.
pub fn claim_gone_between_writes()
    ensures { ClaimGoneBetweenWrites }
{}

/// A second claim is refused the volume at the version before it was taken.
pub fn two_claims_one_volume()
    ensures { TwoClaimsOneVolume }
{}

/// A volume that is deleted stays until its finalizer is dropped, and refuses what the guard and the fields forbid.
pub fn deleted_volume_refuses()
    ensures { DeletedVolumeRefuses }
{}

/// A user may not set a guarded annotation.
pub fn guard_on_annotations()
    ensures { GuardOnAnnotations }
{}

/// Watches of a store at version 600: below the window, at its edge, and above the version.
pub fn watches()
    ensures { Watches }
{}

/// Of two volumes of one size the first by name is preferred.
pub fn tie_by_name()
    ensures { IsTieByName }
{}

/// Fewer modes come before fewer bytes.
pub fn modes_before_size()
    ensures { IsModesBeforeSize }
{}

/// A node that was taken twice refuses its first epoch.
pub fn stale_epochs()
    ensures { StaleEpochs }
{}

/// A binder may write Released only where it read the claim gone after it was told the volume.
pub fn release_order()
    ensures { IsReleaseOrder }
{}

/// A write leaves every other key alone.

pub fn writes_leave_others()
    ensures { WritesLeaveOthers }
{}

/// What Done tells stands after it.
#[tactic(auto, using(crate::proofs::Replies::done_stands))]
pub fn done_stands()
    ensures { DoneStands }
{}

/// What Left tells is gone after it.
#[tactic(auto, using(crate::proofs::Replies::left_is_gone))]
pub fn left_is_gone()
    ensures { LeftIsGone }
{}

/// A Done that writes nothing answers the delete of an object that is deleting already.
#[tactic(auto, using(crate::proofs::Replies::done_writes_or_deletes_again))]
pub fn done_writes_or_deletes_again()
    ensures { DoneWritesOrDeletesAgain }
{}

/// A refusal raises the device calls only as BackFault or Exhausted, and by one.
#[tactic(auto, using(crate::proofs::Refused::only_the_back_end_counts))]
pub fn only_the_back_end_counts()
    ensures { OnlyTheBackEndCounts }
{}

/// An older part of a run is a run.
#[tactic(auto, using(crate::proofs::Growing::older_parts_are_runs))]
pub fn older_parts_are_runs()
    ensures { OlderPartsAreRuns }
{}

/// A run is a history.
#[tactic(auto, using(crate::proofs::Growing::runs_are_histories))]
pub fn runs_are_histories()
    ensures { RunsAreHistories }
{}

/// What was told stays told as the list grows.
#[tactic(auto, using(crate::proofs::Growing::told_stays))]
pub fn told_stays()
    ensures { ToldStays }
{}

/// What came after something else stays so as the list grows.
#[tactic(auto, using(crate::proofs::Growing::after_stays))]
pub fn after_stays()
    ensures { AfterStays }
{}

/// The newest told object of a key was told.
#[tactic(auto, using(crate::proofs::Newest::newest_told))]
pub fn newest_was_told()
    ensures { NewestWasTold }
{}

/// A list is in the order of keys, so it tells each object once.
#[tactic(auto, using(crate::proofs::Goings::lists_are_in_order))]
pub fn lists_are_in_order()
    ensures { ListsAreInOrder }
{}

/// A watch from the end of another one gives the rest.
#[tactic(auto, using(crate::proofs::Goings::watches_go_on))]
pub fn watches_go_on()
    ensures { WatchesGoOn }
{}

/// The scan that answers a create finds the default class.
#[tactic(auto, using(crate::proofs::Defaults::default_is_found))]
pub fn default_is_found()
    ensures { DefaultIsFound }
{}

/// Two default classes of the same rows are one class.
#[tactic(auto, using(crate::proofs::Defaults::default_is_one))]
pub fn default_is_one()
    ensures { DefaultIsOne }
{}

/// Where a setup has no imports, the definitions say what they say without them.
#[tactic(auto, using(crate::proofs::Without::no_imports_say_as_before))]
pub fn no_imports_say_as_before()
    ensures { NoImportsSayAsBefore }
{}

/// One version, one object.
#[tactic(auto, using(crate::proofs::Stood::one_version_one_object))]
pub fn one_version_one_object()
    ensures { OneVersionOneObject }
{}

/// One UID, one key.
#[tactic(auto, using(crate::proofs::Stood::one_uid_one_key))]
pub fn one_uid_one_key()
    ensures { OneUidOneKey }
{}

/// What a seat was told stood in the store.
#[tactic(auto, using(crate::proofs::Truths::told_is_true))]
pub fn told_is_true()
    ensures { ToldIsTrue }
{}

/// What a Get told stood there at that moment.
#[tactic(auto, using(crate::proofs::Truths::told_live_is_true_now))]
pub fn told_live_is_true_now()
    ensures { ToldLiveIsTrueNow }
{}

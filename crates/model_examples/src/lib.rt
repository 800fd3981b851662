//! Computed examples of the definitions of the model: what is allowed, and what each single condition refuses.
//!
//! Promises: the cases of each function here, from `claim_ref_examples` on: it has nothing to do, and its contract has them.
//! Not said: anything of other cases.
#![tactic(auto)]

ghost use Rattle.model_examples.specs.AgentRows.{FinishPodExamples, MountsExamples, UnmountExamples};
ghost use Rattle.model_examples.specs.BinderReleases.{LostExamples, ReleasedExamples, UnbindExamples};
ghost use Rattle.model_examples.specs.BinderRows.{AvailableExamples, ClaimRefExamples, ClaimStatusExamples, CompletionExamples, PhaseBoundExamples};
ghost use Rattle.model_examples.specs.DefaultClass.{ClassFieldExamples, DefaultClassExamples};
ghost use Rattle.model_examples.specs.DueActions.{ClaimDueExamples, ClassDueExamples, PodDueExamples, PrepareDueExamples, ProvisionDueExamples, ReclaimDueExamples, SettledExamples, VolumeDueExamples};
ghost use Rattle.model_examples.specs.Eligible.{BestExamples, EligibleExamples, PreferenceExamples};
ghost use Rattle.model_examples.specs.EmptyNode.{MountsOnNoNode};
ghost use Rattle.model_examples.specs.GuardRuns.{GuardOfReleased};
ghost use Rattle.model_examples.specs.Imported.{FirstWorldExamples, ImportFaultExamples};
ghost use Rattle.model_examples.specs.NamespacedVolume.{NamespacedVolumeIsRefused};
ghost use Rattle.model_examples.specs.Mounting.{MountExamples, MountOrderExamples};
ghost use Rattle.model_examples.specs.NewestTold.{NewestExamples, ToldExamples};
ghost use Rattle.model_examples.specs.NextWrites.{NextWriteExamples};
ghost use Rattle.model_examples.specs.OpsRows.{CreateVolumeExamples, ProvisionExamples};
ghost use Rattle.model_examples.specs.ProtectionRows.{AddClaimGuardExamples, AddVolumeGuardExamples, DropClaimGuardExamples, DropVolumeGuardExamples};
ghost use Rattle.model_examples.specs.ReadingRows.{AgentGetExamples, BinderGetExamples, FollowsExamples, ListExamples, OpsGetExamples, OtherGetExamples, WatchExamples};
ghost use Rattle.model_examples.specs.Reclaiming.{ClearNodeExamples, DeleteVolumeExamples, EraseExamples, FailedExamples};
ghost use Rattle.model_examples.specs.Refusals.{NoRowExamples, RefusingRuleExamples, RulesOfRows, TwoKindsExamples};
ghost use Rattle.model_examples.specs.SafePoints.{BindingExamples, ErasedExamples, LeavingExamples, SafeExamples, WholeExamples};
ghost use Rattle.model_examples.specs.SchedulerRows.{BindPodExamples, SchedulerClaimRefExamples, SelectNodeExamples};

/// The first write of a binding.
#[tactic(auto, using(crate::proofs::BinderRows::claim_ref_examples))]
pub fn claim_ref_examples()
    ensures { ClaimRefExamples }
{}

/// The second write of a binding.
#[tactic(auto, using(crate::proofs::BinderRows::phase_bound_examples))]
pub fn phase_bound_examples()
    ensures { PhaseBoundExamples }
{}

/// The third write of a binding.
#[tactic(auto, using(crate::proofs::BinderRows::completion_examples))]
pub fn completion_examples()
    ensures { CompletionExamples }
{}

/// The fourth write of a binding.
#[tactic(auto, using(crate::proofs::BinderRows::claim_status_examples))]
pub fn claim_status_examples()
    ensures { ClaimStatusExamples }
{}

/// A volume is made Available.
#[tactic(auto, using(crate::proofs::BinderRows::available_examples))]
pub fn available_examples()
    ensures { AvailableExamples }
{}

/// A volume is made Released.
#[tactic(auto, using(crate::proofs::BinderReleases::released_examples))]
pub fn released_examples()
    ensures { ReleasedExamples }
{}

/// A volume is unbound.
#[tactic(auto, using(crate::proofs::BinderReleases::unbind_examples))]
pub fn unbind_examples()
    ensures { UnbindExamples }
{}

/// A claim is made Lost.
#[tactic(auto, using(crate::proofs::BinderReleases::lost_examples))]
pub fn lost_examples()
    ensures { LostExamples }
{}

/// Data are asked for a claim.
#[tactic(auto, using(crate::proofs::OpsRows::provision_examples))]
pub fn provision_examples()
    ensures { ProvisionExamples }
{}

/// A volume is made over data that were given.
#[tactic(auto, using(crate::proofs::OpsRows::create_volume_examples))]
pub fn create_volume_examples()
    ensures { CreateVolumeExamples }
{}

/// Data are erased.
#[tactic(auto, using(crate::proofs::Reclaiming::erase_examples))]
pub fn erase_examples()
    ensures { EraseExamples }
{}

/// A volume is made Failed.
#[tactic(auto, using(crate::proofs::Reclaiming::failed_examples))]
pub fn failed_examples()
    ensures { FailedExamples }
{}

/// A volume is deleted after its data.
#[tactic(auto, using(crate::proofs::Reclaiming::delete_volume_examples))]
pub fn delete_volume_examples()
    ensures { DeleteVolumeExamples }
{}

/// The node that was chosen for a claim is cleared.
#[tactic(auto, using(crate::proofs::Reclaiming::clear_node_examples))]
pub fn clear_node_examples()
    ensures { ClearNodeExamples }
{}

/// The scheduler takes a volume for a claim.
#[tactic(auto, using(crate::proofs::SchedulerRows::scheduler_claim_ref_examples))]
pub fn scheduler_claim_ref_examples()
    ensures { SchedulerClaimRefExamples }
{}

/// The scheduler chooses a node for a claim.
#[tactic(auto, using(crate::proofs::SchedulerRows::select_node_examples))]
pub fn select_node_examples()
    ensures { SelectNodeExamples }
{}

/// A volume gets its protection finalizer.
#[tactic(auto, using(crate::proofs::ProtectionRows::add_volume_guard_examples))]
pub fn add_volume_guard_examples()
    ensures { AddVolumeGuardExamples }
{}

/// A claim gets its protection finalizer.
#[tactic(auto, using(crate::proofs::ProtectionRows::add_claim_guard_examples))]
pub fn add_claim_guard_examples()
    ensures { AddClaimGuardExamples }
{}

/// A volume's protection finalizer is dropped.
#[tactic(auto, using(crate::proofs::ProtectionRows::drop_volume_guard_examples))]
pub fn drop_volume_guard_examples()
    ensures { DropVolumeGuardExamples }
{}

/// A claim's protection finalizer is dropped.
#[tactic(auto, using(crate::proofs::ProtectionRows::drop_claim_guard_examples))]
pub fn drop_claim_guard_examples()
    ensures { DropClaimGuardExamples }
{}

/// The mounts of a node are read.
#[tactic(auto, using(crate::proofs::AgentRows::mounts_examples))]
pub fn mounts_examples()
    ensures { MountsExamples }
{}

/// A pod is unmounted.
#[tactic(auto, using(crate::proofs::AgentRows::unmount_examples))]
pub fn unmount_examples()
    ensures { UnmountExamples }
{}

/// A pod is finished.
#[tactic(auto, using(crate::proofs::AgentRows::finish_pod_examples))]
pub fn finish_pod_examples()
    ensures { FinishPodExamples }
{}

/// What an agent is told before it mounts, and in which order.
#[tactic(auto, using(crate::proofs::Mounting::mount_order_examples))]
pub fn mount_order_examples()
    ensures { MountOrderExamples }
{}

/// What an agent reads before it mounts.
#[tactic(auto, using(crate::proofs::Mounting::mount_examples))]
pub fn mount_examples()
    ensures { MountExamples }
{}

/// A pod is bound to a node.
#[tactic(auto, using(crate::proofs::SchedulerRows::bind_pod_examples))]
pub fn bind_pod_examples()
    ensures { BindPodExamples }
{}

/// The kinds that each controller lists.
#[tactic(auto, using(crate::proofs::ReadingRows::follows_examples))]
pub fn follows_examples()
    ensures { FollowsExamples }
{}

/// When a kind is listed again, and the pods of a namespace.
#[tactic(auto, using(crate::proofs::ReadingRows::list_examples))]
pub fn list_examples()
    ensures { ListExamples }
{}

/// The versions from which a controller watches.
#[tactic(auto, using(crate::proofs::ReadingRows::watch_examples))]
pub fn watch_examples()
    ensures { WatchExamples }
{}

/// The binder's reads of single objects.
#[tactic(auto, using(crate::proofs::ReadingRows::binder_get_examples))]
pub fn binder_get_examples()
    ensures { BinderGetExamples }
{}

/// The reads of ops.
#[tactic(auto, using(crate::proofs::ReadingRows::ops_get_examples))]
pub fn ops_get_examples()
    ensures { OpsGetExamples }
{}

/// The agent's reads.
#[tactic(auto, using(crate::proofs::ReadingRows::agent_get_examples))]
pub fn agent_get_examples()
    ensures { AgentGetExamples }
{}

/// The other controllers read nothing by itself.
#[tactic(auto, using(crate::proofs::ReadingRows::other_get_examples))]
pub fn other_get_examples()
    ensures { OtherGetExamples }
{}

/// A seat keeps its kind.
#[tactic(auto, using(crate::proofs::Refusals::two_kinds_examples))]
pub fn two_kinds_examples()
    ensures { TwoKindsExamples }
{}

/// Requests that no row allows.
#[tactic(auto, using(crate::proofs::Refusals::no_row_examples))]
pub fn no_row_examples()
    ensures { NoRowExamples }
{}

/// The rule of each row.
#[tactic(auto, using(crate::proofs::Refusals::rules_of_rows))]
pub fn rules_of_rows()
    ensures { RulesOfRows }
{}

/// The rule by which a request is refused: Kind comes first.
#[tactic(auto, using(crate::proofs::Refusals::refusing_rule_examples))]
pub fn refusing_rule_examples()
    ensures { RefusingRuleExamples }
{}

/// An agent of the node without a name reads no claim of a pod that is not scheduled, and mounts none.
#[tactic(auto, using(crate::proofs::EmptyNode::mounts_on_no_node))]
pub fn mounts_on_no_node()
    ensures { MountsOnNoNode }
{}

/// A volume in a namespace is refused at its creation.
#[tactic(auto, using(crate::proofs::NamespacedVolume::namespaced_volume_is_refused))]
pub fn namespaced_volume_is_refused()
    ensures { NamespacedVolumeIsRefused }
{}

/// What a user may change of a released volume.
#[tactic(auto, using(crate::proofs::GuardRuns::guard_of_released))]
pub fn guard_of_released()
    ensures { GuardOfReleased }
{}

/// What the binder has to do for a volume.
#[tactic(auto, using(crate::proofs::DueActions::volume_due_examples))]
pub fn volume_due_examples()
    ensures { VolumeDueExamples }
{}

/// What is to be done for the data and the protection of a volume.
#[tactic(auto, using(crate::proofs::DueActions::reclaim_due_examples))]
pub fn reclaim_due_examples()
    ensures { ReclaimDueExamples }
{}

/// What is to be done for a claim.
#[tactic(auto, using(crate::proofs::DueActions::claim_due_examples))]
pub fn claim_due_examples()
    ensures { ClaimDueExamples }
{}

/// When a claim without a class is to get the default one.
#[tactic(auto, using(crate::proofs::DueActions::class_due_examples))]
pub fn class_due_examples()
    ensures { ClassDueExamples }
{}

/// When data are due for a claim.
#[tactic(auto, using(crate::proofs::DueActions::provision_due_examples))]
pub fn provision_due_examples()
    ensures { ProvisionDueExamples }
{}

/// What is to be done for a pod.
#[tactic(auto, using(crate::proofs::DueActions::pod_due_examples))]
pub fn pod_due_examples()
    ensures { PodDueExamples }
{}

/// When the scheduler has to prepare claims.
#[tactic(auto, using(crate::proofs::DueActions::prepare_due_examples))]
pub fn prepare_due_examples()
    ensures { PrepareDueExamples }
{}

/// Settled worlds, and the first action that is due.
#[tactic(auto, using(crate::proofs::DueActions::settled_examples))]
pub fn settled_examples()
    ensures { SettledExamples }
{}

/// Imports that pass, and one that fails for each reason.
#[tactic(auto, using(crate::proofs::Imported::import_fault_examples))]
pub fn import_fault_examples()
    ensures { ImportFaultExamples }
{}

/// The world that imports make.
#[tactic(auto, using(crate::proofs::Imported::first_world_examples))]
pub fn first_world_examples()
    ensures { FirstWorldExamples }
{}

/// Claims that count, and Bound volumes of their own.
#[tactic(auto, using(crate::proofs::SafePoints::binding_examples))]
pub fn binding_examples()
    ensures { BindingExamples }
{}

/// Volumes and claims that may leave, and that may not.
#[tactic(auto, using(crate::proofs::SafePoints::leaving_examples))]
pub fn leaving_examples()
    ensures { LeavingExamples }
{}

/// Data that may be erased, and that may not.
#[tactic(auto, using(crate::proofs::SafePoints::erased_examples))]
pub fn erased_examples()
    ensures { ErasedExamples }
{}

/// Each point of a history.
#[tactic(auto, using(crate::proofs::SafePoints::safe_examples))]
pub fn safe_examples()
    ensures { SafeExamples }
{}

/// Which answers tell an object.
#[tactic(auto, using(crate::proofs::NewestTold::told_examples))]
pub fn told_examples()
    ensures { ToldExamples }
{}

/// Which telling of a key is the newest.
#[tactic(auto, using(crate::proofs::NewestTold::newest_examples))]
pub fn newest_examples()
    ensures { NewestExamples }
{}

/// The whole promise, by histories in which all but one of its parts hold.
#[tactic(auto, using(crate::proofs::SafePoints::whole_examples))]
pub fn whole_examples()
    ensures { WholeExamples }
{}

/// Which volumes may be bound to a claim.
#[tactic(auto, using(crate::proofs::Eligible::eligible_examples))]
pub fn eligible_examples()
    ensures { EligibleExamples }
{}

/// Which of two volumes a claim prefers.
#[tactic(auto, using(crate::proofs::Eligible::preference_examples))]
pub fn preference_examples()
    ensures { PreferenceExamples }
{}

/// Which volume is the best.
#[tactic(auto, using(crate::proofs::Eligible::best_examples))]
pub fn best_examples()
    ensures { BestExamples }
{}

/// The binder gives a claim without a class the default one.
#[tactic(auto, using(crate::proofs::DefaultClass::default_class_examples))]
pub fn default_class_examples()
    ensures { DefaultClassExamples }
{}

/// What the store admits of a claim's class.
#[tactic(auto, using(crate::proofs::DefaultClass::class_field_examples))]
pub fn class_field_examples()
    ensures { ClassFieldExamples }
{}

/// The next of the four writes of a binding.
#[tactic(auto, using(crate::proofs::NextWrites::next_write_examples))]
pub fn next_write_examples()
    ensures { NextWriteExamples }
{}

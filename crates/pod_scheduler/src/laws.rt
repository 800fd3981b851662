//! Laws over the machine, the decision and the nodes that were tried.

ghost use Rattle.std.specs.Prelude.{◌≡◌, true, List, ◌∷◌, Some};
ghost use Rattle.call_types.specs.declared.entry.Entry.{Entry};
ghost use Rattle.call_types.specs.declared.request.Request.{Request};
ghost use Rattle.call_types.specs.declared.request.SeatKind.TheVariants.{Scheduler};
ghost use Rattle.binder_model.specs.Licence.{AreOfKind, Licensed};
ghost use Rattle.pod_scheduler.specs.declared.schedule.ScheduleOp.{ScheduleOp};
ghost use Rattle.pod_scheduler.specs.BeginLaw.{BegunSchedulesHaveCalls, CallsAreWrites, DecisionsAreUnique, DecisionsKeep, ParkedSchedulesHaveEnded};
ghost use Rattle.pod_scheduler.specs.DueLaw.{BeginsWhatIsDue};
ghost use Rattle.pod_scheduler.specs.Evidence.{ScheduleKeeps};
ghost use Rattle.pod_scheduler.specs.Schedules.{schedule_call, schedule_moved};
ghost use Rattle.pod_scheduler.specs.TryLaw.{RefusedWereRefused, SelectedWereSelected};

/// The next call of a machine is allowed by its evidence.
#[tactic(auto, using(crate::proofs::Allowed::calls_are_allowed))]
pub fn calls_are_allowed()
    ensures { (op : ScheduleOp) (mine : List Entry) (request : Request) → AreOfKind Scheduler mine → ScheduleKeeps op mine → schedule_call op ≡ Some request → Licensed Scheduler mine request }
{}

/// The evidence of a machine goes on with the answer to its call.
#[tactic(auto, using(crate::proofs::Moves::evidence_goes_on))]
pub fn evidence_goes_on()
    ensures { (op : ScheduleOp) (mine : List Entry) (e : Entry) → ScheduleKeeps op mine → schedule_call op ≡ Some e.request → e.told ≡ true → ScheduleKeeps (schedule_moved op e.reply) (e ∷ mine) }
{}

/// On rows in order there is one decision.
#[tactic(auto, using(crate::proofs::Begun::decisions_are_unique))]
pub fn decisions_are_unique()
    ensures { DecisionsAreUnique }
{}

/// Where the caches stand for what was told, a machine that begins has its evidence.
#[tactic(auto, using(crate::proofs::Begun::decisions_keep))]
pub fn decisions_keep()
    ensures { DecisionsKeep }
{}

/// Each machine that begins has a next call.
#[tactic(auto, using(crate::proofs::Begun::begun_have_calls))]
pub fn begun_have_calls()
    ensures { BegunSchedulesHaveCalls }
{}

/// Each call is a write.
#[tactic(auto, using(crate::proofs::Allowed::calls_are_writes))]
pub fn calls_are_writes()
    ensures { CallsAreWrites }
{}

/// A machine whose key is parked has ended.
#[tactic(auto, using(crate::proofs::Allowed::parked_have_ended))]
pub fn parked_have_ended()
    ensures { ParkedSchedulesHaveEnded }
{}

/// Where the look-up is the store itself, what begins on a pod is what is due for it.
#[tactic(auto, using(crate::proofs::Dues::begins_what_is_due))]
pub fn begins_what_is_due()
    ensures { BeginsWhatIsDue }
{}

/// What stands selected was selected by the seat.
#[tactic(auto, using(crate::proofs::Tried::selected_were_selected))]
pub fn selected_were_selected()
    ensures { SelectedWereSelected }
{}

/// What counts as refused was selected by the seat, which was told later that the claim has it no more.
#[tactic(auto, using(crate::proofs::Tried::refused_were_refused))]
pub fn refused_were_refused()
    ensures { RefusedWereRefused }
{}

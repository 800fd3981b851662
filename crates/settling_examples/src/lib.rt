//! Computed examples of what lasts, of worlds that are alike or near, of what a drain that ends is asked for, and of
//! how many calls and writes objects cost.
//!
//! Promises: the cases of each function here, from `lasting_examples` on: it has nothing to do, and its contract has
//! them. Not said: anything of other cases.
#![tactic(auto)]

ghost use Rattle.settling_examples.specs.Costs.{CostExamples, SlotExamples, SweepExamples};
ghost use Rattle.settling_examples.specs.Ending.{AgentExamples, AllowanceExamples, BudgetExamples, CallExamples, ClassExamples, LineExamples, NamingExamples, NumberExamples, SharingExamples, SizeExamples};
ghost use Rattle.settling_examples.specs.Held.{HeldExamples};
ghost use Rattle.settling_examples.specs.Lasting.{AlikeExamples, LastingExamples};
ghost use Rattle.settling_examples.specs.Near.{NearExamples};
ghost use Rattle.settling_examples.specs.Objects.{ObjectExamples};
ghost use Rattle.settling_examples.specs.Ops.{LeftExamples, NoneDueExamples, OpsExamples};
ghost use Rattle.settling_examples.specs.Rounds.{DueExamples, RoundExamples, StepExamples};

/// Writes and calls that last, and some that do not.
pub fn lasting_examples()
    ensures { LastingExamples }
{}

/// Worlds that are alike, and some that are not.
pub fn alike_examples()
    ensures { AlikeExamples }
{}

/// Worlds that are near, and some that are not.
pub fn near_examples()
    ensures { NearExamples }
{}

/// A gate that holds back the Mounts of one pod, and lets those of another pass.
pub fn held_examples()
    ensures { HeldExamples }
{}

/// Stated budgets, and worlds that are small, and one that is not.
pub fn budget_examples()
    ensures { BudgetExamples }
{}

/// How many calls a round may make, by what stands.
pub fn call_examples()
    ensures { CallExamples }
{}

/// Worlds whose rounds are short, and one that is too large for it.
pub fn size_examples()
    ensures { SizeExamples }
{}

/// A run with one object more than was asked for: the volume that was made.
pub fn object_examples()
    ensures { ObjectExamples }
{}

/// Rounds that make no more calls, and one that makes one too many.
pub fn round_examples()
    ensures { RoundExamples }
{}

/// What is due for an actor of a drain, and what is not.
pub fn due_examples()
    ensures { DueExamples }
{}

/// Rounds in which an entry lasts, and one that begins with something due in which none does.
pub fn step_examples()
    ensures { StepExamples }
{}

/// Classes of which none binds late and provisions, and one that does.
pub fn class_examples()
    ensures { ClassExamples }
{}

/// Pods that share a claim well, and two that do not.
pub fn sharing_examples()
    ensures { SharingExamples }
{}

/// Pods on nodes that a script names, and one that is not.
pub fn naming_examples()
    ensures { NamingExamples }
{}

/// Agents of drains of which none is stale, and one that is.
pub fn agent_examples()
    ensures { AgentExamples }
{}

/// Lines behind whose first drain no agent has a turn, and some behind which one has.
pub fn line_examples()
    ensures { LineExamples }
{}

/// Worlds and budgets with which a drain may end settled, and two with which it need not.
pub fn allowance_examples()
    ensures { AllowanceExamples }
{}

/// Volumes by their number, and some that have another.
pub fn number_examples()
    ensures { NumberExamples }
{}

/// What the provisioner and reclaimer may still write.
pub fn ops_examples()
    ensures { OpsExamples }
{}

/// What they may still write for a claim and for an object.
pub fn left_examples()
    ensures { LeftExamples }
{}

/// Claims of which nothing is due of provisioning, and two keys that are of none such.
pub fn none_due_examples()
    ensures { NoneDueExamples }
{}

/// What an object costs an actor of each role.
pub fn cost_examples()
    ensures { CostExamples }
{}

/// What objects cost a slot, and what they cost again.
pub fn slot_examples()
    ensures { SlotExamples }
{}

/// What a sweep costs beyond what the writes before it have left.
pub fn sweep_examples()
    ensures { SweepExamples }
{}

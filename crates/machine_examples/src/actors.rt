//! Computed examples of what an actor stands for: kinds without news, passes, and what agents and schedulers remember; and
//! of what the protection controllers, the node agents, the provisioner and reclaimer and the scheduler decide and go on
//! with, how an agent starts, and when it is silent.

ghost use Rattle.machine_examples.specs.Actor.Memories.{AgentExamples, SchedulerExamples};
ghost use Rattle.machine_examples.specs.Actor.News.{NewsExamples, PassExamples};
ghost use Rattle.machine_examples.specs.Actor.NodeAgents.{AgentDecisionExamples, AgentMoveExamples, AgentSilenceExamples, AgentStartExamples};
ghost use Rattle.machine_examples.specs.Actor.OpsActors.{OpsDecisionExamples, OpsListExamples, OpsMoveExamples};
ghost use Rattle.machine_examples.specs.Actor.Protection.{BuiltKindExamples, ProtectionDecisionExamples, ProtectionMoveExamples};
ghost use Rattle.machine_examples.specs.Actor.Schedulers.{SchedulerDecisionExamples, SchedulerMoveExamples};

/// What the entries tell of a kind's news.
pub fn news_examples()
    ensures { NewsExamples }
{}

/// What an answer makes of a pass.
pub fn pass_examples()
    ensures { PassExamples }
{}

/// What an agent remembers of its node.
pub fn agent_examples()
    ensures { AgentExamples }
{}

/// With which calls an agent starts.
pub fn agent_start_examples()
    ensures { AgentStartExamples }
{}

/// What an agent decides on a key, by what it remembers.
pub fn agent_decision_examples()
    ensures { AgentDecisionExamples }
{}

/// What an answer makes of what an agent has under way.
pub fn agent_move_examples()
    ensures { AgentMoveExamples }
{}

/// An agent that was told that its epoch is stale asks nothing.
pub fn agent_silence_examples()
    ensures { AgentSilenceExamples }
{}

/// Which nodes a scheduler remembers as refused.
pub fn scheduler_examples()
    ensures { SchedulerExamples }
{}

/// What a scheduler decides on a key, by what it remembers.
pub fn scheduler_decision_examples()
    ensures { SchedulerDecisionExamples }
{}

/// What an answer makes of what a scheduler has under way.
pub fn scheduler_move_examples()
    ensures { SchedulerMoveExamples }
{}

/// What the provisioner and reclaimer decides on a key.
pub fn ops_decision_examples()
    ensures { OpsDecisionExamples }
{}

/// What an answer makes of what the provisioner and reclaimer has under way.
pub fn ops_move_examples()
    ensures { OpsMoveExamples }
{}

/// What the provisioner and reclaimer lists before it decides a key.
pub fn ops_list_examples()
    ensures { OpsListExamples }
{}

/// What the protection controllers decide on a key.
pub fn protection_decision_examples()
    ensures { ProtectionDecisionExamples }
{}

/// What an answer makes of what they have under way.
pub fn protection_move_examples()
    ensures { ProtectionMoveExamples }
{}

/// Which kinds of actors are built.
pub fn built_kind_examples()
    ensures { BuiltKindExamples }
{}

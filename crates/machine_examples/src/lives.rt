//! Computed examples of diligent lives and of played ones.

ghost use Rattle.machine_examples.specs.Life.Agents.{AgentDueExamples, AgentLifeExamples, AgentPlayedExamples};
ghost use Rattle.machine_examples.specs.Life.Lives.{DueExamples, LifeExamples, PlayedExamples, WatchExamples};
ghost use Rattle.machine_examples.specs.Life.Protection.{ProtectionDueExamples, ProtectionLifeExamples};
ghost use Rattle.machine_examples.specs.Life.Reclaims.{OpsDueExamples, OpsLifeExamples, OpsPlayedExamples};
ghost use Rattle.machine_examples.specs.Life.Schedules.{ScheduleDueExamples, ScheduleLifeExamples, SchedulePlayedExamples};

/// Which calls are four watches without news between.
pub fn watch_examples()
    ensures { WatchExamples }
{}

/// For which keys the rules give a call.
pub fn due_examples()
    ensures { DueExamples }
{}

/// Which lives are diligent.
pub fn life_examples()
    ensures { LifeExamples }
{}

/// Which calls an actor can have made.
pub fn played_examples()
    ensures { PlayedExamples }
{}

/// Which keys are due for claim protection and for volume protection.
pub fn protection_due_examples()
    ensures { ProtectionDueExamples }
{}

/// Which lives of volume protection are diligent, and which an actor can have made.
pub fn protection_life_examples()
    ensures { ProtectionLifeExamples }
{}

/// Which pods are due for a node agent.
pub fn agent_due_examples()
    ensures { AgentDueExamples }
{}

/// Which lives of a node agent are diligent.
pub fn agent_life_examples()
    ensures { AgentLifeExamples }
{}

/// Which calls a node agent can have made.
pub fn agent_played_examples()
    ensures { AgentPlayedExamples }
{}

/// Which claims and volumes are due for ops.
pub fn ops_due_examples()
    ensures { OpsDueExamples }
{}

/// Which lives of ops are diligent.
pub fn ops_life_examples()
    ensures { OpsLifeExamples }
{}

/// Which calls ops can have made.
pub fn ops_played_examples()
    ensures { OpsPlayedExamples }
{}

/// Which pods are due for a scheduler.
pub fn schedule_due_examples()
    ensures { ScheduleDueExamples }
{}

/// Which lives of a scheduler are diligent.
pub fn schedule_life_examples()
    ensures { ScheduleLifeExamples }
{}

/// Which calls a scheduler can have made.
pub fn schedule_played_examples()
    ensures { SchedulePlayedExamples }
{}

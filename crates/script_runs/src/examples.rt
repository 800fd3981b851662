//! Computed examples of the definitions. Each is a function with nothing to do, whose contract has the examples.

ghost use Rattle.script_runs.specs.Examples.{BudgetExamples, FateExamples, LimitExamples, PartExamples, SeatExamples};

/// Which calls are lost.
pub fn fate_examples()
    ensures { FateExamples }
{}

/// The lives, the lost calls and the seats of actors.
pub fn part_examples()
    ensures { PartExamples }
{}

/// The seats of the drains' actors.
pub fn seat_examples()
    ensures { SeatExamples }
{}

/// How many calls drains may make.
pub fn budget_examples()
    ensures { BudgetExamples }
{}

/// Which scripts a reader gives.
pub fn limit_examples()
    ensures { LimitExamples }
{}

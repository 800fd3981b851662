//! How many rounds a drain makes, and the budget that settles it.
//!
//! Promises: a drain of 13 actors at most, which begin it with nothing under way and with an agent for each node,
//! ends settled with the stated budget, `enough_calls`, where no class that ever stood both binds late and provisions
//! (`static_drains_settle`, and `new_drains_settle` of new drainers): then it selects no node, and each of its rounds
//! lowers what may still be written. For worlds with such classes it is said what is missing: that whole rounds after
//! one another that leave as much to do are few, ten where a drain begins and nine behind a whole round (`AreTries`,
//! which `settle_tries` shows). With that the rounds are at most one and ten for each thing left to do
//! (`rounds_are_measured`), and a drain ends settled (`measured_drains_settle`). The budget is enough since what is
//! listed again after each 513 writes of a round is rare: work left pays for it (`CostsLittle`).
//!
//! Premises: UIDs of imports have 128 bits; no list or watch of a whole kind and no call of an agent's start is held
//! back; twice the size and the planned faults are together no more than 512, and the annotations of claims are in
//! order in each world of the history. An agent that was told that its epoch is stale makes no call, and may have
//! anything under way. Not said: the number for rounds that begin with something under way; nor for larger worlds.

ghost use Rattle.settle_budget.specs.Drains.Measured.{MeasuredDrainsSettle, RoundsAreMeasured};
ghost use Rattle.settle_budget.specs.Drains.Selections.{NewDrainsSettle, StaticDrainsSettle};

/// A drain ends settled with the stated budget where no class binds late and provisions.
pub fn static_drains_settle()
    ensures { StaticDrainsSettle }
{}

/// So does one of new drainers.
pub fn new_drains_settle()
    ensures { NewDrainsSettle }
{}

/// Where quiet rounds are few, a drain makes no more rounds than one and ten for each thing left to do.
pub fn rounds_are_measured()
    ensures { RoundsAreMeasured }
{}

/// So it ends settled with the stated budget.
pub fn measured_drains_settle()
    ensures { MeasuredDrainsSettle }
{}

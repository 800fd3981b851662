//! A worker that is alone with the side comes to an end.
//!
//! Promises: where the rows that a worker keeps are those that stand, each ask that it gives leaves it so and lowers a measure
//! (`each_step_lowers`), so a run that begins with a list (`lists_make_alone`) ends; and each of its writes lowers the weight of
//! the rows, which is at most 5 for a snapshot and 3 for a content (`each_write_lowers`), so it has a run without a write after
//! at most so many. Both ask that no content has the empty name, which stands for none, and that none gets it
//! (`names_are_kept`). So a drain, which is runs of one worker until one made no write, is at its end after at most one run
//! more than the rows weigh, whatever was done before it (`each_drain_ends`). What the side answers is a list in order, or none,
//! as `absorb` asks (`each_list_is_in_order`). Not said: that nobody else asks meanwhile.
#![tactic(auto)]

ghost use Rattle.snapshot_drain.specs.Alone.{EachStepLowers, ListsMakeAlone};
ghost use Rattle.snapshot_drain.specs.Drains.{EachWriteLowers, NamesAreKept};
ghost use Rattle.snapshot_drain.specs.Orders.{EachListIsInOrder};
ghost use Rattle.snapshot_drain.specs.Runs.{EachDrainEnds};

/// An ask by a worker's rules, where its rows are those that stand, lowers their weight if it writes.
#[tactic(auto, using(crate::proofs::Weights::each_write_lowers))]
pub fn each_write_lowers()
    ensures { EachWriteLowers }
{}

/// After its list a worker is alone, if nobody else asks.
#[tactic(auto, using(crate::proofs::Alone::lists_make_alone))]
pub fn lists_make_alone()
    ensures { ListsMakeAlone }
{}

/// A worker that is alone stays so, and each of its asks lowers the measure.
#[tactic(auto, using(crate::proofs::Alone::each_step_lowers))]
pub fn each_step_lowers()
    ensures { EachStepLowers }
{}

/// No content has the empty name, if no user hands one in.
#[tactic(auto, using(crate::proofs::Names::names_are_kept))]
pub fn names_are_kept()
    ensures { NamesAreKept }
{}

/// A drain is at its end after at most one run more than the rows weigh.
#[tactic(auto, using(crate::proofs::Runs::each_drain_ends))]
pub fn each_drain_ends()
    ensures { EachDrainEnds }
{}

/// The rows of each list stand in order, no key twice.
#[tactic(auto, using(crate::proofs::Ordered::each_list_is_in_order))]
pub fn each_list_is_in_order()
    ensures { EachListIsInOrder }
{}

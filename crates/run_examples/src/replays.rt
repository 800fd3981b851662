//! Computed examples of what the history of a replayed script has.

ghost use Rattle.run_examples.specs.Replay.Calls.{CallExamples, EndExamples, SeatExamples};
ghost use Rattle.run_examples.specs.Replay.Drains.{ActorExamples, AssignExamples, DrainExamples, KeptExamples, ReclaimExamples, RoundExamples, SpentExamples};
ghost use Rattle.run_examples.specs.Replay.Lives.{AgainExamples, EarlierExamples, LifeExamples, PlayedExamples};
ghost use Rattle.run_examples.specs.Replay.Losses.{OneLossExamples};
ghost use Rattle.run_examples.specs.Replay.Replays.{EmptyExamples, FewerExamples, TurnExamples, UserExamples};
ghost use Rattle.run_examples.specs.Replay.Runs.{HeldExamples, QueueExamples};
ghost use Rattle.run_examples.specs.Replay.Turns.{DoneExamples, LeftExamples, NeededExamples, NextLifeExamples, StaleExamples};

/// Which life of an actor makes a call.
pub fn seat_examples()
    ensures { SeatExamples }
{}

/// Calls that are told, and calls that are lost.
pub fn call_examples()
    ensures { CallExamples }
{}

/// The calls of one life.
pub fn life_examples()
    ensures { LifeExamples }
{}

/// A life whose calls its actor gave.
pub fn played_examples()
    ensures { PlayedExamples }
{}

/// A life whose first call was lost: it is asked again.
pub fn again_examples()
    ensures { AgainExamples }
{}

/// Two lives of an actor, of which the earlier one is held to what its actor gave.
pub fn earlier_examples()
    ensures { EarlierExamples }
{}

/// How a turn may give fewer calls than its line says.
pub fn end_examples()
    ensures { EndExamples }
{}

/// The empty script.
pub fn empty_examples()
    ensures { EmptyExamples }
{}

/// A user's line.
pub fn user_examples()
    ensures { UserExamples }
{}

/// A turn line.
pub fn turn_examples()
    ensures { TurnExamples }
{}

/// A turn of fewer calls than its line says, and the one after it.
pub fn fewer_examples()
    ensures { FewerExamples }
{}

/// A turn with exactly as many calls as it needs, and one that goes on past where it is idle.
pub fn needed_examples()
    ensures { NeededExamples }
{}

/// A turn that ends with nothing left to be called for, and one that leaves a key that it was told.
pub fn left_examples()
    ensures { LeftExamples }
{}

/// Calls after which a life has nothing left to call for, and some after which it has.
pub fn done_examples()
    ensures { DoneExamples }
{}

/// A life that lost one call: of one key it may have been that call, of two keys one is left.
pub fn one_loss_examples()
    ensures { OneLossExamples }
{}

/// Lives one after the other: calls of an earlier one that were needed, and a turn that would end by it.
pub fn next_life_examples()
    ensures { NextLifeExamples }
{}

/// An agent that was told StaleEpoch.
pub fn stale_examples()
    ensures { StaleExamples }
{}

/// The calls of a drain.
pub fn drain_examples()
    ensures { DrainExamples }
{}

/// Drains that go on from where the last one left their actors.
pub fn kept_examples()
    ensures { KeptExamples }
{}

/// The actors of a drain.
pub fn actor_examples()
    ensures { ActorExamples }
{}

/// Drains that are rounds of all controllers in their order, and others.
pub fn round_examples()
    ensures { RoundExamples }
{}

/// How a replay ends where its budget is spent.
pub fn spent_examples()
    ensures { SpentExamples }
{}

/// A drain in which ops reclaims a volume.
pub fn reclaim_examples()
    ensures { ReclaimExamples }
{}

/// A drain in which the scheduler gives a pod its node.
pub fn assign_examples()
    ensures { AssignExamples }
{}

/// The queue of an actor.
pub fn queue_examples()
    ensures { QueueExamples }
{}

/// A call that is held back from the world.
pub fn held_examples()
    ensures { HeldExamples }
{}

//! Every round is short: how many calls a round of a drain makes at most, whatever its actors have under way.
//!
//! Promises: a round in which no call but a Mount is held back, and which begins with at most 8,192 objects, makes at
//! most 256 calls for each object, for each claim that a pod names, for each planned fault that is ahead, and for 16
//! more (`every_round_is_short`). Its actors may have tasks under way that were decided on an older world, as behind a
//! drain that spent its budget. So each round of a drain is short, the first too (`every_drained_round_is_short`).
//!
//! Premises: a Mount that is held back counts as a call; UIDs of imports have 128 bits, the actors are at most 13, and
//! the annotations of claims are always in order. Not said: the number for larger worlds.

ghost use Rattle.settle_round_calls.specs.Rounds.EveryRound.{EveryDrainedRoundIsShort, EveryRoundIsShort};

/// A round makes no more than the stated number of calls.
pub fn every_round_is_short()
    ensures { EveryRoundIsShort }
{}

/// So does each round of a drain.
pub fn every_drained_round_is_short()
    ensures { EveryDrainedRoundIsShort }
{}

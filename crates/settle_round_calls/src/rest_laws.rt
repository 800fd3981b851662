//! The number of calls that is stated for a round.
//!
//! Promises: the stated number (`stated_calls`) is 256 for each object, for each claim that a pod names, for each
//! planned fault that is ahead, and for 16 more. It is said of worlds of at most 8,192 objects (`HasShortRounds`), as
//! each is with at most 512 objects and claims that pods name (`small_worlds_have_short_rounds`). Not said here: that
//! rounds make no more calls than that, which is for `rounds_laws` to say.

ghost use Rattle.settle_round_calls.specs.Rest.ShortRounds.{SmallWorldsHaveShortRounds};

/// Small worlds have short rounds.
pub fn small_worlds_have_short_rounds()
    ensures { SmallWorldsHaveShortRounds }
{}

//! A life of an actor is diligent, of each kind that is built: no key starves.
//!
//! `specs/Diligence` says it on the calls of a life alone. It looks at four told watches of one kind, between which the
//! life was told nothing new, lost nothing and only read. Between them each key for which the rules give a call at every
//! point was called for. `specs/Showing` says where one list of rows is enough, `specs/Played` how a life is played by an
//! actor, and `specs/Begun` with which actor it may begin. Promises: `played_is_diligent` and
//! `played_is_diligent_in_order` give the one of the other; each function of `steps` makes a call of an actor, which is a
//! step of a life. `specs/Resting` says what a life has done since it was last idle: it watched no kind in vain, an agent
//! that was told StaleEpoch asked nothing more, and where it is idle again each key that it was told of, and that was due
//! since, was called for. `specs/Queues` says how the queue of an actor stands with what it has under way: each key once,
//! and only that one taken. `queues_stand` has that every step of an actor leaves it so. Not said: that a life goes on,
//! or watches at all.
#![tactic(auto)]

pub mod steps;

ghost use Rattle.attention_law.specs.Begun.{BegunIsNew};
ghost use Rattle.attention_law.specs.Played.{PlayedIsDiligent};
ghost use Rattle.attention_law.specs.Queues.{AnswersKeepQueues, NewQueuesStand, TurnsKeepQueues, WakesKeepQueues};
ghost use Rattle.attention_law.specs.Resting.{IdleIsDone, PlayedIsNeeded, PlayedIsSilent, PlayedSinceIsPlayed};
ghost use Rattle.attention_law.specs.Showing.{OneShowingIsEnough, PlayedIsDiligentInOrder, RowsInOrderAreEnough};

/// There is a new actor of each role, with which a life may begin.
pub fn begun_is_new()
    ensures { BegunIsNew }
{}

/// A life that is played by the turns, answers, losses and wakes of an actor is diligent.
pub fn played_is_diligent()
    ensures { PlayedIsDiligent }
{}

/// The same where what is due is read on one list of rows in order; a binder's have no volume in a namespace.
pub fn played_is_diligent_in_order()
    ensures { PlayedIsDiligentInOrder }
{}

/// Where the decision is the same on all rows in order that show the same, one list of rows tells that the key is due.
pub fn one_showing_is_enough()
    ensures { OneShowingIsEnough }
{}

/// A key is due where the rules give a call for it on one list of rows in order; a binder's have no volume in a namespace.
pub fn rows_in_order_are_enough()
    ensures { RowsInOrderAreEnough }
{}

/// The queue of a new actor stands, and a turn, an answer or a loss, and a wake leave it so.
pub fn queues_stand()
    ensures new { NewQueuesStand }
    ensures turns { TurnsKeepQueues }
    ensures answers { AnswersKeepQueues }
    ensures wakes { WakesKeepQueues }
{}

/// A life that is played with the calls since it was last woken is a life that is played.
pub fn played_since_is_played()
    ensures { PlayedSinceIsPlayed }
{}

/// Since it was last woken it watched no kind again after a whole pass without events.
pub fn played_is_needed()
    ensures { PlayedIsNeeded }
{}

/// An agent that was told StaleEpoch asks nothing more.
pub fn played_is_silent()
    ensures { PlayedIsSilent }
{}

/// Where a turn gives no call, each key that was told, and was due since, was called for.
pub fn idle_is_done()
    ensures { IdleIsDone }
{}

//! Rounds and drains of actors on one world, one actor after the other. No threads stand here: those are in
//! `script_threads`.
//!
//! Promises: `round::round` wakes each drainer in its turn and runs it until it is idle, exactly as `Rounds` of
//! `actor_rounds` says: the scheduler, ops, the binder, claim protection, volume protection, then an agent of each
//! node. `drain::drain` makes such rounds while something is due and calls are left; a settled world gets no call.
//! The history is the earlier one and then as many entries as were made, all of the drainers' seats and told, none of
//! them a user's, so it stays a run. No other seat's entries change, seats and roles stay, and each drainer stands
//! again. A drain ends Settled exactly where nothing is due, else Spent exactly where the budget is. Which requests
//! reach the world is left open for a round; in a drain all do (`all_pass`).
//!
//! What this does about what is due (`specs/Settling`): a whole round that begins with something due, for an actor
//! that is no stale agent and of whom no Mount is held back for it, has an entry that lasts (`lasting`). A round
//! makes at most 256 calls for each object, for each claim that a pod names, for each planned fault that is ahead,
//! and for 16 more, whatever its actors have under way, where Mounts alone are held back and at most 8,192 objects
//! stand (`short`); so does each round of a drain. A drain with the stated budget ends settled (`settles`), where no
//! agent of it is stale, claims are shared well and the world is small. Not said: that what only a stale agent could
//! do is done: an agent whose node was taken by another answers Idle from then on.
#![tactic(auto)]

pub mod drain;
pub mod round;

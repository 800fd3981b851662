//! Actors as workers of a shared world.
//!
//! Promises: an actor before its first call may be hired with a seat for each of its lives (`actor::ActorCalls`). Its seats then
//! have its calls, in order, less those that were lost before their effect: as many as it is asked for, or fewer where the
//! life that would make the next one was told StaleEpoch. Each life is one that its actor played.
//! So it is in the whole history too, since all this is said of each seat's own entries (`laws::actors_in_histories`). Not
//! said: that a thread gets on, and what a listener was told.

pub mod actor;
pub mod laws;

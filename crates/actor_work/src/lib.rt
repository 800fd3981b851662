//! The work of one actor on a shared world, and actors as workers of a crew.
//!
//! Promises: the passes of an actor's lives answer its calls, and have the entries of their own seats alone (`passes`). The
//! actor makes as many calls as it is asked for, by its lives in order, or fewer exactly where the life that would make the
//! next one was told StaleEpoch (`working`). As workers such actors leave their calls at their seats, and so it is of the
//! whole history, since all of it is said of each seat's own entries (`members`). Not said: that a call returns, that a
//! thread gets on, and that memory is there for it.
#![tactic(auto)]

pub mod members;
pub mod passes;
pub mod working;

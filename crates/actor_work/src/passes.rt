//! The passes of one actor's lives on a shared world, as what answers its calls.
//!
//! Promises: `lives::Lives` answers at the seats of its passes, and has the entries of these alone: the history of the
//! world has others between them. It holds nothing back. That each binder's and each scheduler's request was given by an
//! actor holds of a history just where it holds of each seat's own entries (`laws::actors_by_seats`). Not said: that a
//! call returns, and that memory is there for it.

pub mod laws;
pub mod lives;

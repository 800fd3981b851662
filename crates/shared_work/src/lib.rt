//! Work on a shared world, by threads.
//!
//! Promises: `crew::run_crew` puts a world behind the lock, gives each worker passes for its seats, and lets all work, each
//! on a thread of its own where one can be made. In the world that comes back each worker's seats have what the worker
//! says that it leaves there, and no other seat has a new entry. A user of a script is such a worker
//! (`lines::UserLines`): its seat's entries are the calls of its lines, in order, each once. Not said: that a thread gets on,
//! who comes first, that two workers run side by side, and what a listener was told.
#![tactic(auto)]

pub mod crew;
pub mod examples;
pub mod lines;
pub mod users;
pub mod worker;

//! A script run on threads, on one shared world: whose calls its history has.
//!
//! Promises: `threads::run_all` lets the users of a script, so many workers of each of five kinds, and an agent of each
//! node work on one world at the same time. Each user's entries are the calls of its lines, in order, each once. Each
//! actor makes so many calls over its lives, or fewer where it was told StaleEpoch: lost calls and restarts are those of
//! its lines. Each life is one that its actor played, and each request of a binder or a scheduler was given by an actor.
//! No other seat has an entry (`specs/Started`, `specs/Threads`). `run::run` then drains on one thread, by new actors
//! (`specs/Runs`). The history is a run, and safe at every point. Turns, drains, and lines of actors that are not started
//! are passed over. Not said: that a thread gets on, who comes first, that two workers run side by side, what the gate
//! was told; that a drain's budget is enough.
#![tactic(auto)]

mod crew;
pub mod examples;
pub mod run;
pub mod threads;

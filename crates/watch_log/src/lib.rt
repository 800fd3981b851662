//! The events of the newest writes, and what a watch is told of them.
//!
//! Promises: from the versions that the window of 512 serves, `since` tells exactly what the definition tells of all
//! events that were ever put in. A start below is Gone and one above the last version is Ahead, and neither comes
//! otherwise. A log may begin above version 0 and serves no start below that. `push` takes no memory. Not said: that
//! the events are those of a store.
#![tactic(auto)]

pub mod log;

//! Lines of histories: the entry or the setup that one is.
//!
//! Promises: each reader gives what `specs/` says of the value's members; `entry_of` and `setup_of` give the entry or
//! the setup whose printed line the line is. A setup that is read has faults that rise and imports with which a world
//! may begin. Not said: which lines make a history, which is `history_read`'s to say, and that each printed line is
//! read back, which is `history_laws`'s.
#![tactic(auto)]

pub mod edits;
pub mod entries;
pub mod errors;
pub mod members;
pub mod replies;
pub mod requests;
pub mod setups;
pub mod words;

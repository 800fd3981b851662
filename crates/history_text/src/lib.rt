//! The text of a history and of a run's final state.
//!
//! Promises: `histories::print_all` and `print_history`, and `lines::print_objects_and_summary`, write setup, entries,
//! final objects and summary exactly as their canonical lines; `histories::print_before` a history and another text
//! behind it. Not said: that the entries are a history, and that the text of an object which many entries tell stands
//! once in memory (`piece_print`).
#![tactic(auto)]

pub mod asks;
pub mod counts;
pub mod entries;
pub mod histories;
pub mod laws;
pub mod lines;
pub mod replies;
pub mod setups;
pub mod summaries;
pub mod summary;

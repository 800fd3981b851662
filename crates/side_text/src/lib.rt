//! The text of an extended run: its history, its side, and its final state.
//!
//! Promises: `output::print_all` writes the history as it is written of a replay, then the entries of the side, each with the
//! number of entries of the history before it, the sizes of claims that grew, the final objects and the summary, exactly as
//! `specs/Output` says. Not said: that the entries are those of a run; nor that any text is read back.
#![tactic(auto)]

pub mod entries;
pub mod output;
pub mod words;

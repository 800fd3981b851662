//! Lines that a program which is attached to the store sends, each by itself.
//!
//! Promises: `reading::read_line` gives what `specs/Lines` says of a line: a setup, or an ask, which a user's line of a
//! script is too; else why it is neither. `faults::fault_text` is what is printed for it. Not said: what comes of a line,
//! which depends on those before it.
#![tactic(auto)]

pub mod faults;
pub mod reading;

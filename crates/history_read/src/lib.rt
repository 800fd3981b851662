//! Histories read back from their text.
//!
//! Promises: `read_history` gives the setup and the entries whose printed lines the lines of the text are, up to the line
//! `end`; else the first line at fault and the first of its reasons. A line that nests more than 127 levels is no JSON text
//! that is read, so it is refused as NotCanonical, whatever it says. Not said: that the entries are answered or allowed so,
//! which is the audit's to judge.
#![tactic(auto)]

pub mod errors;
pub mod lines;
pub mod reading;
pub mod refusals;

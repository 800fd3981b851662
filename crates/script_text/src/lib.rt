//! Scripts, read from texts.
//!
//! Promises: `reading::read_script` answers the script that `specs/Grammar` gives for a text, and else the first line
//! at fault with the first of its reasons. `reading::read_numbered` answers beside it the number of each line in the
//! text, and the nodes of its create and import lines; `reading::read_lines` the same of lines that are split already. Not said: that a call of the script succeeds.
#![tactic(auto)]

mod index;
mod line_readers;
mod numbers;
mod progress;
pub mod reading;
pub mod script;

pub use script_lines::{actors, errors, keys, line_member, refusals};

//! Scripts, printed.
//!
//! Promises: `print_script` gives the canonical lines of `specs/Printing`. Not said: that the script is one
//! that a text can give.
#![tactic(auto)]

pub mod lines;
pub mod printing;

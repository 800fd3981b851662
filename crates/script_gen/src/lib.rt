//! Scripts that a seed gives, to be tried and timed.
//!
//! Promises: `generate` gives the script of the definitions, line by line, or is out of memory. Not said: what a
//! replay of it comes to.
#![tactic(auto)]

mod draws;
pub mod generating;
mod lines;
mod objects;

pub use generating::generate;

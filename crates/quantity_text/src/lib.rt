//! Quantities: amounts of bytes, written as Kubernetes writes them.
//!
//! Promises: `amount_bytes` and `read_amount` give the least whole number not below the written one,
//! exactly where the grammar has the text, and else the first refusal with its place; `laws` says what
//! places rest on. Not said: anything of a number above 2^63 - 1, which is refused.
#![tactic(auto)]

mod amounts;
mod digits;
mod errors;
mod laws;
mod scales;

pub use crate::amounts::{amount_bytes, read_amount};
pub use crate::errors::AmountError;
pub use crate::laws::{
    amounts_are_of_the_grammar, numbers_are_the_longest, suffixes_are_of_the_grammar,
};

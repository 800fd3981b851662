//! Which volume serves a claim: the eligible ones, and the best of them.
//!
//! Promises: `satisfies` is eligible by the definition; `best` is a candidate before which no candidate
//! stands, or none where there is none, by the index of the look-up where it shows one; so is what `best_passing` finds by an
//! index, where it passes over places that are marked there; `referring_to` gives the volumes of an index that refer to a
//! claim. They take no memory. Not said: that nobody else takes the volume; that is for the writes to find out.
#![tactic(auto)]

mod choice;
mod eligible;
mod indexed;
mod named;
mod near;
mod referring;

pub use choice::{Places, best, best_outside};
pub use eligible::{covers, fits, satisfies};
pub use indexed::{Found, best_passing};
pub use named::{place_named, row_named, waits_for_pod};
pub use near::{place_near, row_near};
pub use referring::referring_to;

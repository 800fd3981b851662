//! Runs of extended scripts: what such a run does, and the side that stands beside its world.
//!
//! Promises: `specs/Walks` says what a run does, in one list of steps of its world and of its side, and `specs/Works` which
//! lines of an extended script it does in which order. `sides::KeptSide` is the side in code: it takes note of each entry of
//! the world, says which creates quotas hold back, answers users' wishes for growth, and has growth go on until it rests;
//! after each call it is the side of the steps so far. `specs/Kept` says what a script is without the creates that were
//! held back. Not said: that code does the lines in their order, which `extended_play` does; and what follows of a run,
//! which `extended_laws` says.
#![tactic(auto)]

pub mod sides;

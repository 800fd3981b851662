//! Extended scripts are played: the lines of the script on one kept world, and what users ask of its side between them.
//!
//! Promises: `play::play` does the works of an extended script in their order (`works_of` of `extended_runs`): a user's
//! create of a claim that the quota of its namespace refuses reaches no world and is entered beside it, each other line does
//! what it does in a replay, a user's wish for growth is answered by the side, and after each drain growth goes on until no
//! row can; the last drain comes behind all works (`specs/Played`). Of the side it answers each entry with its place in the
//! history, and the rows of the claims that grew. Not said: what follows of such runs, which `extended_laws` says; how long
//! one takes.
#![tactic(auto)]

pub mod play;
pub mod walk;

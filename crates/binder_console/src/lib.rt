//! The program: it reads its words and its input, replays, alone or with a side, runs on threads or checks, and prints.
//!
//! `console::pvbind` is the one call that `main` makes, and its clauses are the product's promises: which
//! bytes are written with each status (`specs/Ends`), and what holds of the history that they tell
//! (`specs/Replays`), and of the side of an extended script (`specs/Extends`). So statuses 1 and 2 come exactly where the words and the input ask for them
//! (`ends_are_exact`). Not said: that memory is there, that a budget is enough, and what standard input and
//! output really do.
#![tactic(auto)]

pub mod answers;
mod auditing;
pub mod checking;
pub mod commands;
pub mod console;
pub mod errors;
mod extending;
mod generating;
mod inputs;
mod printing;
mod replaying;
mod running;
pub mod status;

//! Computed examples of runs: of what a call of a seat comes to, of what the history of a replayed script has, of
//! verdicts on histories, and of how the program ends.
//!
//! Promises: the cases of each function of the modules here: it has nothing to do, and its contract has them. Not said:
//! anything of other cases.
#![tactic(auto)]

pub mod answers;
pub mod audits;
pub mod ends;
pub mod on_threads;
pub mod replays;

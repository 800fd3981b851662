//! Computed examples of runs on threads: of which actors a run starts at which seats, of what users and actors have done
//! when the threads are done, and of the drain that follows.
//!
//! Promises: the cases of each function of the modules here: it has nothing to do, and its contract has them. Not said:
//! anything of other cases.

pub mod runs;
pub mod works;

//! Computed examples of extended runs: of their scripts, and of what is printed of their side.
//!
//! Promises: the cases of each function of the modules here: it has nothing to do, and its contract has them. Not said:
//! anything of other cases.
#![tactic(auto)]

pub mod printed;
pub mod scripts;

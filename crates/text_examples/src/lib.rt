//! Computed examples of texts: of the lines of scripts and of histories, of generated scripts, and of histories that a text
//! can give.
//!
//! Promises: the cases of each function of the modules here: it has nothing to do, and its contract has them. Not said:
//! anything of other cases.
#![tactic(auto)]

pub mod generated;
pub mod histories;
pub mod printed;
pub mod scripts;

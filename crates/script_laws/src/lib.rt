//! Laws of the texts of scripts: what is printed is read again; and of the scripts that a seed gives.
//!
//! Promises: a script that a text can give is read from its printed text, within the limits of what is read
//! (`script_is_read`, `script_is_read_again`); what a text gives is such a script (`script_gives`), whose imported objects
//! pass one after another (`imports_given`). The script of each seed is one that a text can give
//! (`generated_is_script`), and has 712 lines (`counts_lines`). Each is a function with nothing to do, whose contract is
//! the law. Not said: that a printed script is short enough to be read, which `specs/Read/Limits` asks.
#![tactic(auto)]

pub mod generated_laws;
pub mod read_laws;

//! Lines of scripts, generated scripts and histories that are read and printed, and of audits.

pub mod audits;
pub mod generated;
pub mod histories;
pub mod scripts;
mod words;

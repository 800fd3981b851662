//! Whether a history is a run: each answer is the world's, and each controller was allowed what it asked by what its
//! seat was told before.
//!
//! Promises: `audit` answers Yes exactly where it is, and then it is safe at every point; else the first entry that
//! breaks it, and its rule. A history has one verdict, Yes where it is a run and nowhere else, and what gets Yes is
//! safe (`laws`). docs/RULES.md tells the rules. Not said: how long an audit takes.
#![tactic(auto)]

pub mod auditing;
mod auditor;
pub mod laws;
pub mod seats;
pub mod verdict;

pub use auditing::{audit, audit_entries};

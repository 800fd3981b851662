//! All that a history breaks, entry by entry.
//!
//! Promises: `judging::judge_entries` gives every fault of every entry, in order: a wrong answer, and the rule of the licence
//! that refuses the request after its own seat's entries before it, those at fault included (`FaultsIn`). The first is the
//! one that an audit names, and there is none exactly where the audit says yes (`laws`). `answering::judged` gives of an input
//! the lines of its faults, but for the rules that are left out, or why it is no history. Not said: how long it takes, and
//! what a seat would have had to be told.
#![tactic(auto)]

pub mod answering;
pub mod faults;
pub mod judging;
pub mod laws;
pub mod printing;

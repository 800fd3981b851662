//! What an agent was told so far, with an index: its rows of the licence, shown without reading its entries again.
//!
//! Promises: where a function here answers true, the definition allows the request after the entries (`may_mount`,
//! `may_unmount`, `may_finish`, `may_get`); the pods that were told are kept by their ids, each with its place (`pods`).
//! Not said: that each allowed request is shown; who needs to be sure of a refusal reads the entries.
#![tactic(auto)]

pub mod agent;
pub mod by_place;
pub mod finish;
pub mod index;
pub mod pods;
pub mod reads;

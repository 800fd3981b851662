//! Where controllers may write, by what their seat was told, however that is kept.
//!
//! Promises: where a function here answers true, the row of the licence that its contract names allows the request; where
//! the seat's record is whole, it answers true exactly then. Nothing takes memory. Not said: what controllers may read,
//! and what node agents may do.
#![tactic(auto)]

pub mod assign;
pub mod binder;
pub mod create;
pub mod guards;
pub mod ops;
mod pages;
pub mod provision;
pub mod reclaim;
pub mod roles;
pub mod scheduler;
mod status;
pub mod unserved;

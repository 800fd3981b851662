//! The work queue of a controller: each key once, oldest first.
//!
//! Promises: each call leaves exactly the waiting, taken and parked keys that its definition says; only
//! `add` and `add_object` can fail for memory, and then change nothing. `take_shared` also takes where it fails, as
//! it could if a key had 2^63 owners. Not said: that a key is ever taken.
#![tactic(auto)]

mod lanes;
pub mod queue;
mod slot;

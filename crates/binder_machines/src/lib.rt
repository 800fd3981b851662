//! What the binder has under way for one key, and its decision on a key.
//!
//! Promises: `decide::first_for` is exactly the tables' decision on the look-up: nothing, another key is queued, or a
//! machine begins. `Machine::next` is the call that `specs/Machines` names, `Machine::absorb` what the answer makes
//! of it. Laws (`laws`): each call is allowed by what its seat was told; after a live read the machine goes on as the
//! tables say of what was read. Each machine that begins on what a store can hold has a call; one whose key is parked
//! has ended. Not said: when a key is decided, and what becomes of it; that is the actor's.
#![tactic(auto)]

pub mod decide;
pub mod laws;
pub mod machine;
mod reads;
mod requests;

//! What the protection controllers have under way for one key, and their decisions on a key.
//!
//! Promises: `decide::decide_claim` and `decide::decide_volume` begin a machine exactly where protection is due on
//! the look-up: the finalizer is added, or dropped, for a claim after a list of its namespace's pods. `next` is the
//! call that `specs/ClaimGuards` and `specs/VolumeGuards` name, `absorb` what the answer makes of the machine,
//! `parks` whether its key is to wait. Laws (`laws`): each call is allowed by what its seat was told; where objects
//! have UIDs each machine that begins has a call; one whose key is parked has ended. `due` answers what of protection
//! is due, and takes no memory. Not said: when a key is decided, and what becomes of it; that is the actor's.
#![tactic(auto)]

pub mod claims;
pub mod decide;
pub mod due;
pub mod laws;
mod names;
mod uses;
pub mod volumes;

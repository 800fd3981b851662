//! What a controller writes at the version that stands is done, and lasts.
//!
//! A call *lasts* where a write was done that changed more than the version or removed the object, where data or mounts
//! changed, or where a planned fault came (`specs/Writes/Lasting`). Promises: stored objects pass the tests of a create
//! (`rows_are_valid`). Each kind of write of a controller, made on the object that stands, is done, and lasts where it says
//! something new (`writes_laws`). And whatever a controller has seen, what it writes lasts if it is done, but for the node of
//! a claim and phase Failed (`other_writes_last`). Not said: that a controller decides such a write.
#![tactic(auto)]

pub mod done_laws;
pub mod writes_laws;

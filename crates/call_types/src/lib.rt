//! Calls on the world: requests, replies, refusals, edits, and the entries of a history; and the setup
//! with which a world begins.
//!
//! Promises: a copy equals its source and `same` is equality, of each (`Plain`). Seats and changes have their printed
//! words (`words`). Not said: which reply a request gets. That is `binder_model`'s to define and the store's and the
//! devices' to give.
#![tactic(auto)]

pub mod ask;
pub mod edit;
pub mod entry;
pub mod histories;
pub mod reply;
pub mod request;
pub mod setup;
pub mod words;

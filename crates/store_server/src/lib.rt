//! A store that answers a program line by line, with or without the fence of the licence.
//!
//! Promises: `server::Server::step` takes one line and gives its one answer (`IsStep`). With the fence a request that the
//! licence does not allow after what its own seat was told is refused by its rule, and never reaches the store. So whatever
//! is sent, the history is a run, and safe at every point (`laws`, `Server::is_safe`). Without the fence it is a history
//! that an audit may judge. `Server::finish` gives the text that ends it. Not said: that memory is there for a step.
#![tactic(auto)]

pub mod laws;
mod open_store;
mod printing;
pub mod server;

//! The parts of objects that are words and numbers: kinds, phases, modes, fields and rules, names and UIDs.
//!
//! Promises: each type is copied and compared as a value. A printed word names the value that has it, and nothing else
//! (`words`). `Uid::from_serial` gives two numbers two ids, and the text of an id gives it back (`uid`). Not said: that a
//! name is one that Kubernetes takes, or that anybody has the id.
#![tactic(auto)]

pub mod names;
pub mod parts;
pub mod uid;
pub mod words;

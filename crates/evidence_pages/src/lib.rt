//! What one seat was told so far, by key, for judgements that read no entry again.
//!
//! Promises: `PageIndex::learn` keeps this: what an index holds after entries is a part of these entries, in their order
//! (`pages`). Its caches, where it knows them, have the newest told of each key (`newest_of`); its kind, where it has
//! one, is that of all entries. Not said: that it holds all that speaks of a key; who needs to be sure of an absence
//! reads the entries.
#![tactic(auto)]

pub mod index;
mod marks;
pub mod newest;
pub mod pages;
pub mod parts;
pub mod runs;
pub mod sought;
mod tellings;
mod uses;

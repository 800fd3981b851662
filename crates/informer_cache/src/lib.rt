//! What a controller was told of the objects of each kind.
//!
//! Promises: `Caches::absorb`, `note` and `forget` keep this: the rows of each cache are the newest told objects, in
//! whatever order answers come in, and `Caches::ask` is the read that the seat may make next.
//! `Caches::stand_together` says that the joined look-up has the rows of all kinds in order, those of each kind as
//! its cache has them. Where there is an index of the volumes, the look-up shows it. Not said: that the store still has
//! what was told, what a cache knows once it was out of memory, and that `Caches::with_index` has an index.
#![tactic(auto)]

pub mod cache;
pub mod caches;
mod learn;
pub mod lists;
pub mod marks;
mod merge;
pub mod rows;
mod tell;
pub mod told;

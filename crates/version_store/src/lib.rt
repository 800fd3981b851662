//! A store of objects, in an ordered map by key, with a number for each write.
//!
//! Promises: `Store::call` answers each verb by the definition `outcome`, refusals in their order, and leaves exactly
//! the store that it says; `answer` gives the same reply and changes nothing; out of memory, nothing has changed. An
//! index that the store shows to look-ups stands for its volumes. Not said: that it shows one, as memory may have run
//! out; that a controller may make the call, which is the licence's.
#![tactic(auto)]

mod classes;
mod edits;
mod imports;
mod metadata;
mod object_map;
pub mod outcome;
mod starts;
pub mod store;
mod verbs;
mod writes;

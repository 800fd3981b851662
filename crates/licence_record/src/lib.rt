//! What one seat was told, however it is kept: as the list of its entries, or as the list with an index.
//!
//! Promises: a `record::Record` answers look-ups of the entries that were told; what it answers is so, and where it is
//! whole, what it does not find is not there. `whole::Whole`, the plain list, is whole. The tests of `sure` and
//! `newest::some_newest` go by such look-ups, and say no as surely as these do. Nothing takes memory. Not said: which
//! row of the licence asks what.
#![tactic(auto)]

mod classes;
pub mod newest;
pub mod record;
pub mod sure;
pub mod whole;

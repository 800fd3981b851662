//! What one seat was told so far, with an index, so that a request is judged without reading its entries again.
//!
//! Promises: `Evidence` is a `Record` of the entries that were noted; what it answers by the index is so, and what it does
//! not find may be there. `Evidence::judge` answers as `licence_rules::licensed` does for these entries, whatever they are,
//! and takes no memory; `note` puts one entry more behind them, and out of memory leaves them as before. Not said: how long
//! a judgement takes, and that the entries are those of one seat.
#![tactic(auto)]

mod agents;
pub mod evidence;
mod lists;
mod lookups;
mod references;

pub use evidence::Evidence;

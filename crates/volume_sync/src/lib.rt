//! What the binder does about a volume.
//!
//! Promises: `decide_volume` is the decision of `specs/VolumeDecision` on what the look-up and a read show;
//! the table that is shipped is exact and picks just this; where each read sees the rows, the decision is
//! what is due (`laws`). Not said: that the look-up is up to date.
#![tactic(auto)]

mod action;
mod decision;
pub mod laws;
mod seen;
mod table;

pub use action::VolumeAction;
pub use decision::{conditions_on, decide_volume};
pub use seen::claim_with;
pub use table::{volume_rows, volume_table};

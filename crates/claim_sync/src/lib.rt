//! What the binder does about a claim.
//!
//! Promises: `decide_claim` is the decision of `specs/ClaimDecision` on what the look-up and a read show;
//! the table that is shipped is exact and picks just this; where each read sees the rows, the decision is
//! what is due (`laws`). Not said: that the look-up is up to date.
#![tactic(auto)]

mod action;
mod conditions;
mod decision;
pub mod laws;
mod place;
mod seen;
mod table;

pub use action::{ClaimAction, ClaimStep};
pub use conditions::conditions_on;
pub use decision::decide_claim;
pub use place::{class_place, has_best};
pub use seen::as_volume;
pub use table::{claim_rows, claim_table};

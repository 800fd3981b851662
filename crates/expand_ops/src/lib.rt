//! Growth of claims: who may grow, the sizes of those that grew, and the steps by which a growth goes through.
//!
//! Promises: `sizes::Sizes::grow` says why a claim does not grow, the first reason that applies, or puts what it asks for
//! into its row. In each row the claim was given no more than its volume has, the volume has no more than is stored, and all
//! growth of what is stored takes no more than the reserve. `step` makes the first step that a row can make, None exactly
//! where none can. A claim that leaves gives its growth back (`note`). Not said: what the objects of a world say of sizes,
//! which stay as they are; nor how long a call takes: a step and a `grow` go through all rows.
#![tactic(auto)]

pub mod growing;
pub mod rows;
pub mod sizes;

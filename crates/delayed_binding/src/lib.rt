//! Which node a pod gets whose claims wait for it, and what is prepared there.
//!
//! Promises: `choose` is the choice by the definition on what the look-up shows (`specs/Choices`): the pod's node,
//! what is prepared on a node, to wait, or no node. The search goes by name from the node after the one refused last,
//! once round. `prepare_on` is what would be prepared on one node, `prepare_write` the nth write of a choice. Laws
//! (`laws`): there is one choice; on the store itself it is what is due for the pod, but for what the devices cannot
//! give. Each write, and the pod's binding, is allowed after what the seat was told, on the rows of the choice. What
//! is prepared has a write, no object is written twice, and a volume is given only to a claim that it fits. Not said:
//! that the look-up is up to date, and that the devices can give what is to be provisioned.
#![tactic(auto)]

mod choice;
mod claims;
mod counts;
pub mod laws;
mod marks;
mod nodes;
mod shares;
mod volumes;
mod writes;

pub use choice::{Choice, choose, prepare_on};
pub use claims::claim_named;
pub use writes::prepare_write;

//! Where a node agent may mount, unmount and finish pods, and what it may read for it, after its seat's own earlier
//! entries.
//!
//! Promises: `mounting::may_mount`, `agent::may_unmount`, `agent::may_finish` and `reads::asks_for_mount` are exactly the
//! rows; nothing takes memory. Not said: which lists and watches an agent may make, which is `licence_rules`'s to say; and
//! that the told epoch is still the node's.
#![tactic(auto)]

pub mod agent;
pub mod mounting;
pub mod reads;

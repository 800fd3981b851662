//! What is due in a world: the first object for which an actor has still to do something.
//!
//! Promises: `due` answers the first action that is due, in the order of kinds, namespaces and names, and none
//! exactly where the world is settled, by the whole definition of what is due. To provision is due only where the
//! devices can give the data and the store would take the volume. To prepare is due only where some node serves all
//! claims of the pod and the devices can give what is to be provisioned there. `first_due` answers the same with the
//! object itself. What is due for a volume, and for a claim but for provisioning, is picked from two tables, which are
//! made from those of the binder's decisions and are exact. Not said: that an actor does what is due.
#![tactic(auto)]

mod agent;
mod claim_table;
mod claims;
mod first;
mod numbers;
mod objects;
mod provision;
mod scheduling;
mod volume_table;
mod volumes;

pub use claim_table::{claim_due_rows, claim_due_table};
pub use first::{FirstDue, due, first_due};
pub use volume_table::{volume_due_rows, volume_due_table};

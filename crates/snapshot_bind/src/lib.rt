//! Snapshots beside the world: the side store, and what its workers may ask.
//!
//! Promises: `store::SnapStore::call` does what the definitions say of each call (`specs/SideStore`), and a refusal or want
//! of memory changes nothing. `licence::snap_licensed` is exactly the evidence that a worker needs (`specs/Licences`). Not
//! said: that the rules of `specs/Rules` hold, which `snapshot_law` proves; nor what a worker does (`snapshot_worker`).
#![tactic(auto)]

pub mod calls;
pub mod conditions;
pub mod effect;
pub mod licence;
pub mod rows;
pub mod store;
pub mod table;

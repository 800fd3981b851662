//! How many writes a slot and a round do, by the variant and the sizes of the world.
//!
//! Promises: a scheduler writes once for each pod that no node runs, with the claims that it names
//! (`specs/Scheduler`; `proofs/Passed` where no call of it is held back, in worlds of any size); the provisioner and
//! reclaimer at most once for each claim, each volume, each node that is selected for a claim and each planned fault
//! that is ahead (`specs/Ops`); the agents of a node once for each pod (`specs/Agents`). A round of actors that pay
//! does few writes: each is paid by what it leaves less to do, by a node that is taken back, or by what the scheduler
//! may write (`specs/Rounds`). Not said: how many calls a round makes, which is for `settle_round_calls` to say; nor
//! how many rounds there are.
#![tactic(auto)]

pub mod agents_laws;
pub mod ops_laws;
pub mod rounds_laws;

//! Computed examples of what actors do: of the choices and machines of the binder, of the protection controllers, of node
//! agents, of the provisioner and reclaimer and of the scheduler, of what an actor stands for, and of whole lives.
//!
//! Promises: the cases of each function of the modules here: it has nothing to do, and its contract has them. Not said:
//! anything of other cases.
#![tactic(auto)]

pub mod actors;
pub mod binders;
pub mod delays;
pub mod guards;
pub mod lives;
pub mod reclaims;
pub mod schedules;

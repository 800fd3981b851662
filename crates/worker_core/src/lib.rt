//! The actors: what a controller asks next, and what an answer makes of it.
//!
//! `actor::Actor` gives one call at a time and takes what came of it. The kinds are the binder, the provisioner and
//! reclaimer, the scheduler, claim protection, volume protection and the node agent: a user is no actor. Promises:
//! each call is licensed by the entries of the actor's seat. An actor is idle only where no kind that it follows has
//! news, or where an agent was told StaleEpoch. The next call, an answer, a loss and a wake are exactly those of
//! `specs/Turns` and `specs/Absorbs`; no key stops waiting undecided. An actor stands for the entries of its seat in
//! a history from imports that pass (`StandsFor`): for none when it is new or restarted, and for each as its answer
//! is taken.
//!
//! An agent takes its node, reads its mounts, and only then lists its pods; after StaleEpoch it asks nothing until it
//! is restarted. The provisioner decides a key only once the kinds that it follows are listed. Those are clauses of
//! its methods. `laws` has what follows: which nodes a scheduler remembers as selected and refused. A key is parked
//! only where its call was refused or lost, or its task parks it. A pass begins only at first, by a wake, or after
//! one that was told an event or Gone. Not said: that a call is ever answered, or that any key is ever decided.
#![tactic(auto)]

pub mod actor;
mod keys;
pub mod laws;
mod memory;
mod near;
mod pass;
mod rests;
pub mod role;
pub mod task;
pub mod turn;

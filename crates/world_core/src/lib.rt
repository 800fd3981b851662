//! One world: a store, its watch log and the devices, moved by one whole call at a time, and the history of the
//! calls.
//!
//! Promises: `world::World::call` answers each request as the definitions do, and appends one entry; out of memory,
//! nothing has changed, but room that was taken stays. The history begins with the setup's imports. `kept::KeptWorld`
//! takes licensed calls alone, so that its history is a run and safe (`KeptWorld::world`); `laws` hands the safety
//! law on; `drained::Drained` is how a drain of it ended. Not said: that memory is there for a call, and that the
//! calls on a `World` are licensed.
#![tactic(auto)]

pub mod drained;
pub mod kept;
pub mod laws;
mod moments;
mod parts;
pub mod world;

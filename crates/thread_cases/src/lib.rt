//! Cases of work on a shared world: users of a script, one by one and at the same time, whole runs of scripts, gates that are
//! told of their calls, and one actor of each kind on one thread, with lost calls, new lives and nodes that another takes.
//!
//! It has tests alone, so no call and no promise. Only here is it seen that workers run side by side, and that a gate was
//! told of each call: no promise says it. Not said: anything of other scripts and other interleavings.
#![tactic(auto)]

#[cfg(test)]
mod gates;
#[cfg(test)]
mod lives;
pub mod locking;
#[cfg(test)]
mod runs;
#[cfg(test)]
mod scripts;
#[cfg(test)]
mod tables;
#[cfg(test)]
mod users;
#[cfg(test)]
mod works;

//! What the scheduler has under way for one pod, its decision on a pod, and the nodes that it tried.
//!
//! Promises: `decide::decide_pod` begins a machine exactly as the choice for the pod says, where the search for a
//! node begins after the one that was refused last. `next` is the call that `specs/Schedules` names, `absorb` what
//! the answer makes of the machine, `parks` whether its key is to wait. `tries` keeps which nodes were selected and
//! which were refused, as the entries of a seat tell. Laws (`laws`): each call is a write, and allowed by what its
//! seat was told; each machine that begins has a call, and one whose key is parked has ended. On the store itself
//! what begins is what is due, as far as the devices can give it. A node counts as refused only where this seat
//! selected it and was then told the claim, as it was written later, not completed and without it. Not said: when a
//! key is decided, what becomes of it, and that a lost call ends a machine; these are the actor's.
#![tactic(auto)]

pub mod decide;
pub mod laws;
pub mod schedule;
pub mod tries;

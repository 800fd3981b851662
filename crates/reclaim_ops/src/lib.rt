//! What the provisioner and reclaimer has under way for one key, and its decisions on a key.
//!
//! Promises: `decide::decide_claim` begins a machine exactly where the look-up shows a claim that is to be
//! provisioned, `decide::decide_volume` exactly where a volume is to be reclaimed, which it reads first. `next` is
//! the call that `specs/Provisions` and `specs/Erasures` name, `absorb` what the answer makes of the machine, `parks`
//! whether its key is to wait; out of memory, a machine stays as it was. Laws (`laws`): each call is allowed by what
//! its seat was told; each machine that begins has a call, and one whose key is parked has ended. On the store itself
//! what begins on a claim is what is due, but for what the devices cannot give and for a volume's name that is taken.
//! `due` answers whether reclaiming is due, and takes no memory. Not said: when a key is decided, what becomes of it,
//! and that a lost call ends a machine; these are the actor's.
#![tactic(auto)]

pub mod decide;
pub mod due;
pub mod erase;
pub mod laws;
pub mod provision;
mod volume;

pub use volume::data_name;

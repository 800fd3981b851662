//! The devices: data that pools give, the epochs of nodes, and what is mounted there.
//!
//! Promises: `Devices::call` answers by the definition `device_answer` and leaves exactly the devices that
//! it says; `answer` gives the same reply and changes nothing. Not said: that a real back end or mount
//! behaves so.
#![tactic(auto)]

pub mod devices;
mod epochs;
pub mod kept;
pub mod mounts;
mod pools;

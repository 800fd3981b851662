//! Which requests a controller may make after its own earlier entries, decided without memory.
//!
//! Promises: `is_licensed` answers true only where the definition of the licence allows the request, and for a record that
//! is whole exactly there. `licensed` answers Ok exactly where it does after the entries of a list, else the rule that
//! refuses it. Not said: that the entries are those of one seat, how long it takes, and what users may write, whom the
//! store's guard alone binds.
#![tactic(auto)]

mod allowed;
mod asking;
mod licence;
mod reading;

pub use licence::{is_licensed, licensed};

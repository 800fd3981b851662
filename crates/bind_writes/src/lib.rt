//! The four writes of a binding, and unbinding.
//!
//! Promises: `next_write` is the first of the four writes that would change anything and may be made, at
//! the version of the object on which it was decided; `unbind` takes back what the controller had set. Not
//! said: that the write is answered Done.
#![tactic(auto)]

mod request;
mod step;
mod unbinding;

pub use request::{
    completed_with, next_write, taken_for, write_bound, write_claim_status, write_completion,
    write_reference,
};
pub use step::{Write, next_step};
pub use unbinding::{unbind, unbound, write_available};

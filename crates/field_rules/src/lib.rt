//! Which fields of objects are invalid, what users may write, which objects of an older store are refused, and
//! what admission adds.
//!
//! Promises: `check_create`, `check_update`, `guard` and `check_import` answer the first fault of the
//! definition's order, and Ok exactly where there is none; `check_new` and `check_changed` do so with memory, in
//! less time where an object has many finalizers, or say that there was none left; `admit` gives what admission makes of
//! an object.
//! Not said: whether a pod's node is there, which only the store can know.
#![tactic(auto)]

mod admission;
mod faults;
mod imports;
pub mod older;
mod same;
mod twice;
mod user_writes;

pub use crate::admission::{add_finalizer, admit};
pub use crate::faults::{check_changed, check_create, check_new, check_update};
pub use crate::imports::{
    check_import, has_same_key, is_ended_for, reference_uid, refers_to_another,
};
pub use crate::user_writes::guard;

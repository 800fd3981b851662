//! Whether the objects of an older store pass together, in time that grows with how many they are.
//!
//! Promises: `imports_pass` answers true exactly where each object passes after those before it, as
//! `check_import` would find one by one. Not said: which object does not pass, and why.

mod imports;
mod named;

pub use crate::older::imports::imports_pass;

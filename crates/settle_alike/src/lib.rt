//! Worlds that differ in what does not matter.
//!
//! Worlds are *alike* where they differ in versions, epochs and the count of device calls alone; they are *near* where they
//! differ in the nodes of claims too. Promises: the same is due in worlds that are alike (`alike_is_due`, `alike_is_settled`). A
//! call lasts, or leaves the world alike (`calls_last_or_leave_alike`). In near worlds the same nodes serve a pod, so the same
//! pods can be prepared and as many nodes are left to be tried (`near_laws`). Not said: which calls leave a world near.
#![tactic(auto)]

pub mod alike_laws;
pub mod near_laws;

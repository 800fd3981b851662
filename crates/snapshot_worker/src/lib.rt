//! A worker of the side: it binds snapshots to contents, and erases what is left of those that a user deleted.
//!
//! Promises: `actor::SnapActor::next` gives what the first of its rows that asks asks for, by the rules of `specs/Workers`, and
//! `absorb` keeps of an answer what they say; out of memory nothing has changed. Each ask that it gives is licensed by its own
//! earlier calls, whatever they were told and whenever it was woken (`each_ask_is_licensed`). Not said: that its asks are made,
//! which is for whoever runs it; and how many rows it looks at.
#![tactic(auto)]

pub mod actor;
pub mod asking;
pub mod laws;
pub mod rules;
pub mod seen;
pub mod table;

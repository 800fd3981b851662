//! How many calls a controller makes beside its writes.
//!
//! Promises: for one key each answer leaves fewer calls, unless a write was done (`tasks_end`). A watch leaves fewer events to be
//! told (`watches_tell_less`). In its first pass and past it each call lowers one number, which counts the writes that are
//! ahead, the calls of what is under way, the keys that wait and the events that are to be told (`first_calls_pay`,
//! `calls_pay`). So a slot makes few calls beside its writes (`slots_are_short`). Not said: how many writes there are.
#![tactic(auto)]

pub mod events_laws;
pub mod passes_laws;
pub mod slots_laws;
pub mod tasks_laws;

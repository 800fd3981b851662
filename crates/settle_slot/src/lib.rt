//! A slot: one controller is woken and run until it is idle, and nobody else calls.
//!
//! Promises: what a client was told last of a key is what stands there, unless the key was changed since (`newest_is_true`). Past
//! its pass the controller sees the store as it is, of each kind that it follows (`passed_see_the_store`). In a slot that ends
//! idle each key that waits is decided, and where what the decision begins would last, an entry of the slot does
//! (`slots_last`), but for an agent whose node was taken by another (`others_stay_awake`). All this is said over any choice of
//! which calls reach the world. Not said: which decisions last.
#![tactic(auto)]

pub mod slot_laws;
pub mod told_laws;

//! The definitions of the store, of the devices, of worlds and histories, of what a seat was told and
//! may write, of safety, and of what is due. `docs/MODEL.md` leads through them.
//!
//! No code stands here, so no call. What is proved of the definitions stands in `model_laws`, `model_examples` and
//! `safety_law`. Not said: that code meets them; that is for the contracts of the crates that decide.
#![tactic(auto)]

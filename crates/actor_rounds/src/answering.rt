//! What answers the calls of an actor's seats: a kept world, or passes of a shared one.
//!
//! Promises: `answers::Answers` is what the turns of an actor need of it: a licensed call leaves one entry more, or is
//! held back and leaves none. A kept world is one, and holds nothing back. `asking::ask_of` is what an actor asks, as a
//! request of its seat. Not said: that memory is there for a call.

pub mod answers;
pub mod asking;
mod world;

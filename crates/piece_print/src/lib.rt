//! Text in which the text of each object stands once in memory, however often it stands in the text; and the way of such
//! a text to a sink.
//!
//! Promises: `JsonPieces` grows as `JsonText` does; `write_text` writes all of the text that it makes or a prefix, as
//! `write_all`, through a buffer of fixed size. It takes no memory. Not said: that an object is found again.
#![tactic(auto)]

pub mod memo;
pub mod pieces;
pub mod recent;
pub mod sinks;
pub mod writing;

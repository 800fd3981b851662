//! Extended scripts: a script, and lines of its side between the lines of the script.
//!
//! Promises: `reading::read_extended` answers what `specs/Extended` gives for a text: the script of the text without the
//! lines of the side, the quotas and the reserve that these set, and each of them with its place; or else the first line at
//! fault, of the script or of the side, with the first of its reasons. Not said: that what a line of the side asks is done.
#![tactic(auto)]

mod line_readers;
mod places;
mod progress;
pub mod reading;
pub mod sides;

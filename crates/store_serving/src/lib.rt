//! Lines that are read from a source, each answered before the next is read.
//!
//! Promises: `serving::serve_line` takes one line, makes no read where a whole line is held, and has written the answer
//! when it returns. `serving::serve` goes on so up to a line `end` or the end of the input, and then writes the text that ends
//! the history: what was written is the fold of what was read (`ServesAll`); where it stops before, a front of such a fold
//! (`ServesFront`). Without the lines at fault and those that the fence refused it is one history (`laws`).
//! `stops::ServeStop` says why it stopped. Not said: how long the one who is attached waits, and that a fault of a read
//! or of a write is the reason where `ServeStop` names one.
#![tactic(auto)]

pub mod laws;
pub mod reader;
pub mod serving;
pub mod stops;

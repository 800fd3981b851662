//! Answers as text.

use plain_data::copies::OutOfMemory;
pub use sample_objects::lines::word;
use std::alloc::Global;

/// A line of an answer, if there is one, with its line feed.
pub fn line(alloc: Global, answer: Option<String>) -> Result<String, OutOfMemory> {
    match answer {
        None => Ok(String::new(alloc)),
        Some(mut text) => {
            text.push_str("\n")?;
            Ok(text)
        }
    }
}

//! What the families share: texts with `;;` for a line feed, and bytes that are given as numbers.

use plain_data::copies::OutOfMemory;
pub use sample_objects::lines::word;
use std::alloc::Global;

/// The text with the second word for each of the first.
pub fn replaced(alloc: Global, text: &str, from: &str, to: &str) -> Result<String, OutOfMemory> {
    let mut all = String::new(alloc);
    let mut first = true;
    for part in text.split(from) {
        if !first {
            all.push_str(to)?;
        }
        first = false;
        all.push_str(part)?;
    }
    Ok(all)
}

/// The text with a line feed for each `;;`.
pub fn with_feeds(alloc: Global, text: &str) -> Result<String, OutOfMemory> {
    replaced(alloc, text, ";;", "\n")
}

/// The text with `;;` for each line feed.
pub fn with_marks(alloc: Global, text: &[u8]) -> Result<String, OutOfMemory> {
    match str::from_utf8(text) {
        Ok(text) => replaced(alloc, text, "\n", ";;"),
        Err(_) => word(alloc, "no text"),
    }
}

/// The bytes whose numbers stand in the text.
pub fn bytes_of(alloc: Global, text: &str) -> Result<Vec<u8>, OutOfMemory> {
    let mut bytes = Vec::new(alloc);
    for byte in text.split(' ') {
        bytes.push(byte.parse::<u8>().unwrap_or(0))?;
    }
    Ok(bytes)
}

/// So many times the letter.
pub fn letters(alloc: Global, count: u64, letter: &str) -> Result<String, OutOfMemory> {
    let mut all = String::new(alloc);
    for _i in 0..count {
        all.push_str(letter)?;
    }
    Ok(all)
}

//! A store that answers a program: `fenced` or `free` begins one, `line` is a line of the program, `finish` ends it.

use plain_data::copies::OutOfMemory;
use plain_data::text::Bytes;
use sample_objects::lines::{split, text_of, word};
use std::alloc::Global;
use store_server::server::Server;

/// The bytes as a text, without their last line feed, which the line that is written has.
fn shown(alloc: Global, bytes: Bytes) -> Result<String, OutOfMemory> {
    let text = text_of(alloc, bytes)?;
    match text.as_str().strip_suffix('\n') {
        None => word(alloc, "no line"),
        Some(line) => word(alloc, line),
    }
}

/// What is written for a line.
pub fn answer(alloc: Global, server: &mut Server, line: &str) -> Result<String, OutOfMemory> {
    let (call, rest) = split(line);
    match call {
        "fenced" | "free" => {
            *server = Server::new(alloc, call == "fenced");
            word(alloc, "begun")
        }
        "line" => shown(alloc, server.step(rest.as_bytes())?),
        "finish" => shown(alloc, server.finish()?),
        _ => word(alloc, "no such call"),
    }
}

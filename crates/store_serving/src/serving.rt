//! The lines of a source, answered on a sink.

ghost use Rattle.std.specs.Prelude.{◌≡◌, IfOk, OnErr, Ok, Err};
ghost use Rattle.store_serving.specs.Lines.{HoldsLine, pending};
ghost use Rattle.store_serving.specs.Serving.{ServesAll, ServesFront, ServesNext, StopsIn, is_end};
ghost use Rattle.store_serving.specs.Steps.Going.{Closes, CutsClosing};

use crate::reader::LineReader;
use crate::stops::ServeStop;
use fault_io::ends::{Sink, Source, write_all};
use std::alloc::Global;
use store_server::server::Server;

fn is_end(line: &[u8]) -> bool
    ensures { result ≡ is_end line.now }
{
    let end: &[u8] = b"end";
    line == end
}

/// Reads one line, and writes its answer before it returns. False where no line is left before the line end. No read is
/// made where a whole line is held.
pub fn serve_line<S: Source, K: Sink>(
    server: &mut Server,
    reader: &mut LineReader,
    source: &mut S,
    sink: &mut K,
) -> Result<bool, ServeStop>
    ensures next { IfOk result (λ more. ServesNext more server.old server.new (pending reader.old (S.left source.old)) (pending reader.new (S.left source.new)) (K.written sink.old) (K.written sink.new)) }
    ensures stop { OnErr result (StopsIn server.old (pending reader.old (S.left source.old)) (K.written sink.old) (K.written sink.new)) }
    ensures held { HoldsLine reader.old → source.new ≡ source.old }
{
    let line = match reader.next_line(source)? {
        Some(line) => line,
        None => return Ok(false),
    };
    if is_end(line.as_slice()) {
        return Ok(false);
    }
    let answer = server.step(line.as_slice())?;
    write_all(sink, answer.as_slice())?;
    Ok(true)
}

/// Writes the text that ends the history. Whether a setup was read.
fn close<K: Sink>(server: &Server, sink: &mut K) -> Result<bool, ServeStop>
    ensures ok { IfOk result (Closes server.now (K.written sink.old) (K.written sink.new)) }
    ensures stop { OnErr result (CutsClosing server.now (K.written sink.old) (K.written sink.new)) }
{
    let text = server.finish()?;
    write_all(sink, text.as_slice())?;
    Ok(server.has_begun())
}

/// Answers each line of the source on the sink before it reads the next, up to a line end or the end of the input, and then
/// writes the text that ends the history. Whether a setup was read. Where it stops before, a front of this is written.
pub fn serve<S: Source, K: Sink>(
    alloc: Global,
    fenced: bool,
    source: &mut S,
    sink: &mut K,
) -> Result<bool, ServeStop>
    ensures all { IfOk result (λ begun. ServesAll fenced begun (S.left source.old) (K.written sink.old) (K.written sink.new)) }
    ensures front { OnErr result (ServesFront fenced (S.left source.old) (K.written sink.old) (K.written sink.new)) }
{
    let mut server = Server::new(alloc, fenced);
    let mut reader = LineReader::new(alloc);
    'lines: for _ in 0..u64::MAX {
        if !serve_line(&mut server, &mut reader, source, sink)? {
            return close(&server, sink);
        }
    }
    Err(ServeStop::TooLong)
}

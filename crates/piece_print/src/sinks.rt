//! Text in pieces on its way to a sink, through a buffer of fixed size.

ghost use Rattle.std.specs.Prelude.{◌≡◌, ◌≤◌, ◌+◌, ◌++◌, [], length, take, IfOk, OnOk, OnErr};
ghost use Rattle.fault_io.specs.Faults.{Rose};
ghost use Rattle.fault_io.specs.Writing.{Appends, WritesFront};
ghost use Rattle.piece_print.specs.Pieces.{joined, owned};
ghost use Rattle.piece_print.specs.Writing.{Passes};

use crate::pieces::{Piece, PieceText};
use fault_io::ends::{Sink, WriteFault, write_all};

/// How many bytes the buffer holds: 8 KiB.
const ROOM: usize = 8192;

/// Puts the bytes into the buffer, behind those that it holds. The result is how many it holds then.
fn keep(buffer: &mut [u8], held: usize, bytes: &[u8]) -> usize
    requires { held + length bytes.now ≤ length buffer.old }
    ensures size { length buffer.new ≡ length buffer.old }
    ensures bound { result ≤ length buffer.new }
    ensures kept { take result buffer.new ≡ take held buffer.old ++ bytes.now }
{
    let end = held + bytes.len();
    buffer[held..end].copy_from_slice(bytes);
    end
}

/// Puts the bytes to the sink, by the buffer where they fit. The result is how many it holds then.
#[tactic(auto, using(fault_io::proofs::Fronts::front_after, fault_io::proofs::Fronts::front_longer, crate::proofs::Passing::kept_only, crate::proofs::Passing::kept_after, crate::proofs::Passing::passed_all))]
fn put<K: Sink>(
    sink: &mut K,
    buffer: &mut [u8],
    held: usize,
    bytes: &[u8],
) -> Result<usize, WriteFault>
    requires { held ≤ length buffer.old }
    ensures size { length buffer.new ≡ length buffer.old }
    ensures bound { IfOk result (λ n. n ≤ length buffer.new) }
    ensures ok { IfOk result (λ n. Passes (K.written sink.old) (K.written sink.new) (take held buffer.old) (take n buffer.new) bytes.now) }
    ensures fault { OnErr result (Rose (K.faults sink.old) (K.faults sink.new)) }
    ensures front { OnErr result (WritesFront (K.written sink.old) (K.written sink.new) (take held buffer.old ++ bytes.now)) }
    ensures later { K.faults sink.old ≤ K.faults sink.new }
{
    if bytes.len() <= buffer.len() - held {
        return Ok(keep(buffer, held, bytes));
    }
    write_all(sink, &buffer[..held])?;
    if bytes.len() <= buffer.len() {
        return Ok(keep(buffer, 0, bytes));
    }
    write_all(sink, bytes)?;
    Ok(0)
}

/// Puts the own bytes of a piece and then its shared text.
#[tactic(auto, using(crate::proofs::Passing::passes_more, crate::proofs::Passing::front_more, crate::proofs::Passing::front_longer_held))]
fn put_both<K: Sink>(
    sink: &mut K,
    buffer: &mut [u8],
    held: usize,
    own: &[u8],
    shared: &[u8],
) -> Result<usize, WriteFault>
    requires { held ≤ length buffer.old }
    ensures size { length buffer.new ≡ length buffer.old }
    ensures bound { IfOk result (λ n. n ≤ length buffer.new) }
    ensures ok { IfOk result (λ n. Passes (K.written sink.old) (K.written sink.new) (take held buffer.old) (take n buffer.new) (own.now ++ shared.now)) }
    ensures fault { OnErr result (Rose (K.faults sink.old) (K.faults sink.new)) }
    ensures front { OnErr result (WritesFront (K.written sink.old) (K.written sink.new) (take held buffer.old ++ (own.now ++ shared.now))) }
    ensures later { K.faults sink.old ≤ K.faults sink.new }
{
    let held = put(sink, buffer, held, own)?;
    put(sink, buffer, held, shared)
}

#[tactic(auto, using(crate::proofs::Passing::put_none))]
fn put_pieces<K: Sink>(
    sink: &mut K,
    buffer: &mut [u8],
    pieces: &[Piece],
    own: &[u8],
) -> Result<usize, WriteFault>
    requires { owned pieces.now ≤ length own.now }
    ensures size { length buffer.new ≡ length buffer.old }
    ensures bound { IfOk result (λ n. n ≤ length buffer.new) }
    ensures ok { IfOk result (λ n. Passes (K.written sink.old) (K.written sink.new) [] (take n buffer.new) (joined pieces.now own.now)) }
    ensures fault { OnErr result (Rose (K.faults sink.old) (K.faults sink.new)) }
    ensures front { OnErr result (WritesFront (K.written sink.old) (K.written sink.new) (joined pieces.now own.now)) }
    ensures later { K.faults sink.old ≤ K.faults sink.new }
{
    let mut at = 0;
    let mut held = 0;
    for piece in pieces {
        let end = at + piece.own;
        held = put_both(sink, buffer, held, &own[at..end], piece.shared.as_slice())?;
        at = end;
    }
    put(sink, buffer, held, &own[at..])
}

#[tactic(auto, using(fault_io::proofs::Fronts::front_longer, crate::proofs::Passing::passes_more, crate::proofs::Passing::front_more_first))]
fn put_text<K: Sink>(sink: &mut K, buffer: &mut [u8], text: &PieceText) -> Result<usize, WriteFault>
    ensures size { length buffer.new ≡ length buffer.old }
    ensures bound { IfOk result (λ n. n ≤ length buffer.new) }
    ensures ok { IfOk result (λ n. Passes (K.written sink.old) (K.written sink.new) [] (take n buffer.new) text.now) }
    ensures fault { OnErr result (Rose (K.faults sink.old) (K.faults sink.new)) }
    ensures front { OnErr result (WritesFront (K.written sink.old) (K.written sink.new) text.now) }
    ensures later { K.faults sink.old ≤ K.faults sink.new }
{
    let held = put_pieces(sink, buffer, &text.front.pieces, &text.front.own)?;
    put(sink, buffer, held, text.rest.as_slice())
}

/// Writes all of the text, as `write_all` does. It takes no memory.
#[tactic(auto, using(crate::proofs::Passing::passed_on, crate::proofs::Passing::front_passed))]
pub fn write_text<K: Sink>(sink: &mut K, text: &PieceText) -> Result<(), WriteFault>
    ensures ok { OnOk result (Appends (K.written sink.old) (K.written sink.new) text.now) }
    ensures fault { OnErr result (Rose (K.faults sink.old) (K.faults sink.new)) }
    ensures front { OnErr result (WritesFront (K.written sink.old) (K.written sink.new) text.now) }
    ensures later { K.faults sink.old ≤ K.faults sink.new }
{
    let mut buffer = [0u8; ROOM];
    let last = put_text(sink, &mut buffer, text)?;
    write_all(sink, &buffer[..last])
}

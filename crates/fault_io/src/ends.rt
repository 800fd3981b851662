//! The traits of the outside, and the calls that read all of a source and write all of some bytes.

ghost use Rattle.std.specs.Prelude.{◌≡◌, ◌≢◌, ◌<◌, ◌≤◌, ℕ, List, [], length, IfOk, OnOk, OnErr, IsErr, Ok, Err, Some};
ghost use Rattle.std.specs.declared.option.Option.{Option};
ghost use Rattle.std.specs.Io.{ReadsAtMost, WritesAtMost};
ghost use Rattle.fault_io.specs.Faults.{Rose, HasCause};
ghost use Rattle.fault_io.specs.Reading.{Reads, IsLeft, IsLongerThan, TakesFront, TakesPast};
ghost use Rattle.fault_io.specs.Writing.{Writes, Appends, WritesFront};

use plain_data::text::Bytes;
use std::alloc::{AllocError, Global};

/// A read or a write failed.
#[derive(Clone, Copy, Debug, PartialEq, Eq)]
pub struct Failed;

/// Why not all was read.
#[derive(Clone, Copy, Debug, PartialEq, Eq)]
pub enum ReadError {
    /// A read failed.
    ReadFault,
    /// There is more than was allowed.
    TooLong,
    OutOfMemory,
}

impl From<AllocError> for ReadError {
    ghost use Rattle.std.specs.Prelude.{◌≡◌};
    ghost use Rattle.fault_io.specs.declared.ends.ReadError.TheVariants.{OutOfMemory};

    ghost from_gives = { λ _ e. e ≡ OutOfMemory };

    fn from(_e: AllocError) -> ReadError {
        ReadError::OutOfMemory
    }
}

/// A write failed, so not all was written.
#[derive(Clone, Copy, Debug, PartialEq, Eq)]
pub struct WriteFault;

/// What bytes are read from.
///
/// `left` is what reads will give from here on, where the source tells it. `faults` counts the reads that
/// failed, and stands still at 2^64 - 1.
pub trait Source {
    ghost left: { Self → Option (List ℕ) };

    ghost faults: { Self → ℕ };

    /// Reads some bytes into the front of `buf`. 0 for a buffer that is not empty is the end.
    fn read(&mut self, buf: &mut [u8]) -> Result<usize, Failed>
        ensures bound { ReadsAtMost result buf.new }
        ensures bytes { Reads (left self.old) (left self.new) result buf.new }
        ensures cause { HasCause (faults self.old) (faults self.new) result }
        ensures unfailed { OnOk result (faults self.new ≡ faults self.old) };
}

/// What bytes are written to.
///
/// `written` is what was written so far, where the sink tells it. `faults` counts the writes that failed, and
/// stands still at 2^64 - 1.
pub trait Sink {
    ghost written: { Self → Option (List ℕ) };

    ghost faults: { Self → ℕ };

    /// Writes a front of the bytes. 0 for bytes that are not empty is a fault.
    fn write(&mut self, bytes: &[u8]) -> Result<usize, Failed>
        ensures bound { WritesAtMost result bytes.now }
        ensures bytes { Writes (written self.old) (written self.new) result bytes.now }
        ensures cause { HasCause (faults self.old) (faults self.new) result }
        ensures stuck { result ≡ Ok 0 → 0 < length bytes.now → Rose (faults self.old) (faults self.new) };
}

/// All bytes to the end, where there are at most `most`.
#[tactic(auto, using(crate::proofs::Fronts::takes_front, crate::proofs::Fronts::takes_past))]
pub fn read_all<S: Source>(alloc: Global, source: &mut S, most: usize) -> Result<Bytes, ReadError>
    ensures whole { IfOk result (λ bytes. IsLeft (S.left source.old) bytes) }
    ensures end { OnOk result (IsLeft (S.left source.new) []) }
    ensures short { IfOk result (λ bytes. length bytes ≤ most) }

    // Too long exactly where more bytes stand before the end, but for a fault and want of memory.
    ensures too_long { result ≡ Err ReadError.TooLong → IsLongerThan most (S.left source.old) }
    ensures past_limit { result ≡ Err ReadError.TooLong → TakesPast most (S.left source.old) (S.left source.new) }
    ensures too_much { (bytes : List ℕ) → S.left source.old ≡ Some bytes → most < length bytes → IsErr result }

    ensures fault { result ≡ Err ReadError.ReadFault → Rose (S.faults source.old) (S.faults source.new) }
    ensures unfailed { result ≢ Err ReadError.ReadFault → S.faults source.new ≡ S.faults source.old }
    ensures later { S.faults source.old ≤ S.faults source.new }
    ensures front { OnErr result (TakesFront (S.left source.old) (S.left source.new)) }
{
    let mut taken = Vec::new(alloc);
    let mut piece = [0u8; 4096];
    'pieces: while taken.len() <= most {
        match source.read(&mut piece) {
            Ok(0) => return Ok(Bytes::from_vec(taken)),
            Ok(count) => taken.extend_from_slice(&piece[..count])?,
            Err(Failed) => return Err(ReadError::ReadFault),
        }
    }
    Err(ReadError::TooLong)
}

/// Writes all the bytes. It takes no memory.
pub fn write_all<K: Sink>(sink: &mut K, bytes: &[u8]) -> Result<(), WriteFault>
    ensures ok { OnOk result (Appends (K.written sink.old) (K.written sink.new) bytes.now) }
    ensures fault { OnErr result (Rose (K.faults sink.old) (K.faults sink.new)) }
    ensures front { OnErr result (WritesFront (K.written sink.old) (K.written sink.new) bytes.now) }
    ensures later { K.faults sink.old ≤ K.faults sink.new }
{
    let mut at = 0;
    while at < bytes.len() {
        match sink.write(&bytes[at..]) {
            Ok(0) => return Err(WriteFault),
            Ok(count) => at += count,
            Err(Failed) => return Err(WriteFault),
        }
    }
    Ok(())
}

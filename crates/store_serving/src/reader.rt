//! Lines of a source, one at a time.

ghost use Rattle.std.specs.Prelude.{◌≡◌, ◌+◌, ◌++◌, [], IfOk, IfSome, IfNone, Some, take, drop};
ghost use Rattle.json_text.specs.Canonical.{IsLine};
ghost use Rattle.store_serving.specs.Lines.{HoldsLine, IsFeedAt, ReadsLine, pending};

use fault_io::ends::{Failed, ReadError, Source};
use kube_types::text::Bytes;
use memchr::memchr;
use std::alloc::{AllocError, Global};
use std::marker::Model;
use std::mem::replace;

/// How many bytes are read at most in search of a line feed: 4 MiB.
const MOST_BYTES: usize = 4_194_304;

/// What was read of a source and is no line that was given yet.
pub struct LineReader {
    alloc: Global,
    held: Vec<u8>,
}

impl Drop for LineReader {
    fn drop(self) {
        let LineReader { alloc: _, held } = self;
        drop(held);
    }
}

impl Model for LineReader {
    ghost use Rattle.std.specs.Prelude.{List, ℕ};

    ghost Value = { List ℕ };

    ghost view = { λ r. r.held.items };
}

/// The place of the first line feed.
#[tactic(auto, using(crate::proofs::Feeds::first_feed, crate::proofs::Feeds::first_none))]
fn feed_in(bytes: &[u8]) -> Option<usize>
    ensures some { IfSome result (IsFeedAt bytes.now) }
    ensures none { IfNone result (IsLine bytes.now) }
{
    memchr(10, bytes)
}

/// Takes the bytes before the place of the first line feed, and the line feed.
fn take_front(alloc: Global, held: &mut Vec<u8>, place: usize) -> Result<Bytes, AllocError>
    requires { IsFeedAt held.old.items place }
    ensures { IfOk result (λ line. (line ≡ take place held.old.items) × (held.new.items ≡ drop (place + 1) held.old.items)) }
{
    let line = Bytes::from_vec(Vec::from_slice(alloc, &held[..place])?);
    let rest = Vec::from_slice(alloc, &held[place + 1..])?;
    *held = rest;
    Ok(line)
}

/// Takes what is held and the bytes of the piece before the place of its first line feed. Those behind it are held.
fn take_piece(
    alloc: Global,
    held: &mut Vec<u8>,
    piece: &[u8],
    place: usize,
) -> Result<Bytes, AllocError>
    requires { IsFeedAt piece.now place }
    ensures { IfOk result (λ line. (line ≡ held.old.items ++ take place piece.now) × (held.new.items ≡ drop (place + 1) piece.now)) }
{
    held.extend_from_slice(&piece[..place])?;
    let rest = Vec::from_slice(alloc, &piece[place + 1..])?;
    Ok(Bytes::from_vec(replace(held, rest)))
}

/// The last line, which lacks its line feed; none where nothing was read of one.
fn last_line(alloc: Global, held: &mut Vec<u8>) -> Option<Bytes>
    requires { IsLine held.old.items }
    ensures { ReadsLine (Some held.old.items) (Some held.new.items) result }
{
    if held.as_slice().is_empty() {
        return None;
    }
    Some(Bytes::from_vec(replace(held, Vec::new(alloc))))
}

/// Goes on reading to the end of a line of which this was read.
fn read_on<S: Source>(
    alloc: Global,
    held: &mut Vec<u8>,
    source: &mut S,
) -> Result<Option<Bytes>, ReadError>
    requires { IsLine held.old.items }
    ensures { IfOk result (ReadsLine (pending held.old.items (S.left source.old)) (pending held.new.items (S.left source.new))) }
{
    let mut piece = [0u8; 4096];
    'pieces: while held.len() <= MOST_BYTES {
        match source.read(&mut piece) {
            Ok(0) => return Ok(last_line(alloc, held)),
            Ok(count) => {
                let read = &piece[..count];
                match feed_in(read) {
                    Some(place) => return Ok(Some(take_piece(alloc, held, read, place)?)),
                    None => held.extend_from_slice(read)?,
                }
            }
            Err(Failed) => return Err(ReadError::ReadFault),
        }
    }
    Err(ReadError::TooLong)
}

impl LineReader {
    /// Nothing was read yet.
    pub fn new(alloc: Global) -> LineReader
        ensures { result ≡ [] }
    {
        LineReader {
            alloc,
            held: Vec::new(alloc),
        }
    }

    /// The next line without its line feed; none at the end. No read is made where a whole line is held.
    pub fn next_line<S: Source>(&mut self, source: &mut S) -> Result<Option<Bytes>, ReadError>
        ensures line { IfOk result (ReadsLine (pending self.old (S.left source.old)) (pending self.new (S.left source.new))) }
        ensures held { HoldsLine self.old → source.new ≡ source.old }
    {
        match feed_in(&self.held) {
            Some(place) => Ok(Some(take_front(self.alloc, &mut self.held, place)?)),
            None => read_on(self.alloc, &mut self.held, source),
        }
    }
}

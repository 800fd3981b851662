//! Text in pieces.

ghost use Rattle.std.specs.Prelude.{◌≡◌, ◌≤◌, [], ◌++◌, length, true, IfOk, OnOk};
ghost use Rattle.piece_print.specs.Pieces.{joined, owned};

use plain_data::copies::OutOfMemory;
use plain_data::shared::Shared;
use plain_data::text::Bytes;
use std::alloc::Global;
use std::marker::Model;

/// So many of the own bytes, and a shared text behind them.
pub(crate) struct Piece {
    pub(crate) own: usize,
    pub(crate) shared: Shared<Bytes>,
}

impl Drop for Piece {
    fn drop(self) {
        let Piece { own: _, shared } = self;
        drop(shared);
    }
}

/// Text in pieces that grows.
pub struct Pieces {
    pub(crate) own: Vec<u8>,
    pub(crate) pieces: Vec<Piece>,
    cut: usize,
}

impl Drop for Pieces {
    fn drop(self) {
        let Pieces {
            own,
            pieces,
            cut: _,
        } = self;
        drop(own);
        drop(pieces);
    }
}

impl Model for Pieces {
    ghost use Rattle.std.specs.Prelude.{List, ℕ, ◌≡◌, ◌≤◌, length};
    ghost use Rattle.piece_print.specs.Pieces.{joined, owned};

    ghost Value = { List ℕ };

    ghost view = { λ p. joined p.pieces.items p.own.items };

    // The own bytes that the pieces have end at the cut.
    ghost invariant = { λ p. (owned p.pieces.items ≡ p.cut) × (p.cut ≤ length p.own.items) };
}

impl Pieces {
    /// No text. It takes no memory.
    pub fn new(alloc: Global) -> Pieces
        ensures { result ≡ [] }
    {
        Pieces {
            own: Vec::new(alloc),
            pieces: Vec::new(alloc),
            cut: 0,
        }
    }

    /// Puts bytes at the end.
    #[tactic(auto, using(crate::proofs::Joining::joined_more))]
    pub fn push(&mut self, bytes: &[u8]) -> Result<(), OutOfMemory>
        ensures ok { OnOk result (self.new ≡ self.old ++ bytes.now) }
    {
        self.own.extend_from_slice(bytes)?;
        Ok(())
    }

    /// Puts bytes at the end, and then the shared text.
    #[tactic(auto, using(crate::proofs::Joining::joined_shared, crate::proofs::Joining::owned_more))]
    pub fn push_shared(&mut self, bytes: &[u8], shared: Shared<Bytes>) -> Result<(), OutOfMemory>
        ensures ok { OnOk result (self.new ≡ self.old ++ (bytes.now ++ shared)) }
    {
        self.own.extend_from_slice(bytes)?;
        let own = self.own.len() - self.cut;
        self.pieces.push(Piece { own, shared })?;
        self.cut = self.own.len();
        Ok(())
    }

    /// Whether nothing was put. Where no more than empty texts were put it may say either.
    pub(crate) fn has_nothing(&self) -> bool
        ensures { result ≡ true → self.now ≡ [] }
    {
        self.pieces.is_empty() && self.own.is_empty()
    }

    /// The text in one piece.
    pub fn flat(&self) -> Result<Bytes, OutOfMemory>
        ensures { IfOk result (λ bytes. bytes ≡ self.now) }
    {
        let mut out = Vec::new(*self.own.allocator());
        push_joined(&mut out, &self.pieces, &self.own)?;
        Ok(Bytes::from_vec(out))
    }
}

fn push_joined(out: &mut Vec<u8>, pieces: &[Piece], own: &[u8]) -> Result<(), OutOfMemory>
    requires { owned pieces.now ≤ length own.now }
    ensures ok { OnOk result (out.new.items ≡ out.old.items ++ joined pieces.now own.now) }
{
    let mut at = 0;
    for piece in pieces {
        let end = at + piece.own;
        out.extend_from_slice(&own[at..end])?;
        out.extend_from_slice(piece.shared.as_slice())?;
        at = end;
    }
    out.extend_from_slice(&own[at..])?;
    Ok(())
}

/// A text in pieces, that grows no more.
pub struct PieceText {
    pub(crate) front: Pieces,
    pub(crate) rest: Bytes,
}

impl Drop for PieceText {
    fn drop(self) {
        let PieceText { front, rest } = self;
        drop(front);
        drop(rest);
    }
}

impl Model for PieceText {
    ghost use Rattle.std.specs.Prelude.{List, ℕ, ◌++◌};

    ghost Value = { List ℕ };

    ghost view = { λ t. t.front ++ t.rest };
}

impl PieceText {
    /// The pieces, and bytes behind them. It takes no memory.
    pub fn new(front: Pieces, rest: Bytes) -> PieceText
        ensures { result ≡ front ++ rest }
    {
        PieceText { front, rest }
    }

    /// The bytes alone. It takes no memory.
    pub fn of(alloc: Global, bytes: Bytes) -> PieceText
        ensures { result ≡ bytes }
    {
        PieceText::new(Pieces::new(alloc), bytes)
    }
}

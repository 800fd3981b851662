//! Compact JSON text in pieces.

ghost use Rattle.std.specs.Prelude.{◌≡◌, ◌++◌, [], true, false, IfOk, OnOk};
ghost use Rattle.json_text.specs.Writing.{written, after_comma, line_ended, with_text, with_key, with_value, opened, closed};
ghost use Rattle.object_print.specs.Objects.{object_data, object_line};
ghost use Rattle.piece_print.specs.Writing.{text_in, whole};

use crate::memo::Memo;
use crate::pieces::{PieceText, Pieces};
use crate::recent::Recent;
use json_text::writing::JsonText;
use kube_types::copies::OutOfMemory;
use kube_types::objects::Object;
use object_print::members::{AsJson, MemberSink};
use plain_data::shared::Shared;
use plain_data::text::Bytes;
use std::alloc::Global;

/// For how many bytes there is room at once between two objects: there are seldom more.
const ROOM: usize = 64;

/// JSON text that grows, in which the text of each object is kept once. After want of memory a part of what was put may
/// stand there.
pub struct JsonPieces<'a> {
    /// What was put since the last object. Who writes here writes at the end.
    pub tail: JsonText,
    front: Pieces,
    memo: Memo<'a>,
    recent: Recent,
    keeps: bool,
}

impl<'a> Drop for JsonPieces<'a> {
    fn drop(self) {
        let JsonPieces {
            tail,
            front,
            memo,
            recent,
            keeps: _,
        } = self;
        drop(tail);
        drop(front);
        drop(memo);
        drop(recent);
    }
}

/// No text, after which a comma is due.
#[tactic(auto, unfolding(json_text::specs::Writing::with_text, json_text::specs::Writing::after_comma))]
fn after_value(alloc: Global) -> Result<JsonText, OutOfMemory>
    ensures { IfOk result (λ out. written out ≡ ([], true)) }
{
    let mut out = JsonText::with_room(alloc, ROOM)?;
    out.raw(b"")?;
    Ok(out)
}

impl<'a> JsonPieces<'a> {
    #[tactic(auto, using(crate::proofs::Behind::behind_none))]
    fn begin(alloc: Global, recent: Recent, keeps: bool) -> JsonPieces<'a>
        ensures { whole result ≡ ([], false) }
    {
        JsonPieces {
            tail: JsonText::new(alloc),
            front: Pieces::new(alloc),
            memo: Memo::new(alloc),
            recent,
            keeps,
        }
    }

    /// No text. It takes no memory.
    pub fn new(alloc: Global) -> JsonPieces<'a>
        ensures { whole result ≡ ([], false) }
    {
        JsonPieces::begin(alloc, Recent::none(alloc), true)
    }

    /// No text, in which the text of each object will stand where it is put. It takes no memory.
    pub fn plain(alloc: Global) -> JsonPieces<'a>
        ensures { whole result ≡ ([], false) }
    {
        JsonPieces::beside(alloc, Recent::none(alloc))
    }

    /// The same, where what was printed lately is not printed again. It takes no memory.
    pub fn beside(alloc: Global, recent: Recent) -> JsonPieces<'a>
        ensures { whole result ≡ ([], false) }
    {
        JsonPieces::begin(alloc, recent, false)
    }

    #[tactic(auto, using(crate::proofs::Behind::shared_behind))]
    fn put_shared(&mut self, text: Shared<Bytes>) -> Result<(), OutOfMemory>
        ensures ok { OnOk result (whole self.new ≡ with_text text (whole self.old)) }
    {
        let next = after_value(self.tail.allocator())?;
        self.tail.raw(b"")?;
        self.front.push_shared(self.tail.as_slice(), text)?;
        self.tail = next;
        Ok(())
    }

    /// Puts an object at the end.
    #[tactic(auto, using(crate::proofs::Behind::value_behind), unfolding(object_print::specs::Objects::object_line))]
    pub fn object(&mut self, object: &'a Object) -> Result<(), OutOfMemory>
        ensures ok { OnOk result (whole self.new ≡ with_value (object_data object.now) (whole self.old)) }
    {
        if !self.keeps {
            return self.recent.write(&mut self.tail, object);
        }
        let text = self.memo.line_of(object)?;
        self.put_shared(text)
    }

    /// Puts the name of a member at the end.
    #[tactic(auto, using(crate::proofs::Behind::key_behind))]
    pub fn key(&mut self, name: &str) -> Result<(), OutOfMemory>
        ensures ok { OnOk result (whole self.new ≡ with_key name.now (whole self.old)) }
    {
        self.tail.key(name)
    }

    /// Begins an object.
    #[tactic(auto, using(crate::proofs::Behind::opened_behind))]
    pub fn begin_object(&mut self) -> Result<(), OutOfMemory>
        ensures ok { OnOk result (whole self.new ≡ opened 123 (whole self.old)) }
    {
        self.tail.begin_object()
    }

    /// Ends an object.
    #[tactic(auto, using(crate::proofs::Behind::closed_behind))]
    pub fn end_object(&mut self) -> Result<(), OutOfMemory>
        ensures ok { OnOk result (whole self.new ≡ closed 125 (whole self.old)) }
    {
        self.tail.end_object()
    }

    /// Begins an array.
    #[tactic(auto, using(crate::proofs::Behind::opened_behind))]
    pub fn begin_array(&mut self) -> Result<(), OutOfMemory>
        ensures ok { OnOk result (whole self.new ≡ opened 91 (whole self.old)) }
    {
        self.tail.begin_array()
    }

    /// Ends an array.
    #[tactic(auto, using(crate::proofs::Behind::closed_behind))]
    pub fn end_array(&mut self) -> Result<(), OutOfMemory>
        ensures ok { OnOk result (whole self.new ≡ closed 93 (whole self.old)) }
    {
        self.tail.end_array()
    }

    /// Begins a line: no comma is due.
    #[tactic(auto, using(crate::proofs::Behind::begun_behind))]
    pub fn begin_line(&mut self)
        ensures { whole self.new ≡ (text_in self.old, false) }
    {
        self.tail.begin_line()
    }

    /// Ends a line.
    #[tactic(auto, using(crate::proofs::Behind::line_behind))]
    pub fn end_line(&mut self) -> Result<(), OutOfMemory>
        ensures ok { OnOk result (whole self.new ≡ line_ended (whole self.old)) }
    {
        self.tail.end_line()
    }

    /// The text, and bytes behind it.
    #[tactic(auto, using(crate::proofs::Behind::text_of_behind))]
    pub fn into_text(self, rest: Bytes) -> Result<PieceText, OutOfMemory>
        ensures { IfOk result (λ text. text ≡ text_in self.entry ++ rest) }
    {
        let JsonPieces {
            tail,
            mut front,
            memo,
            recent,
            keeps: _,
        } = self;
        drop(memo);
        drop(recent);
        front.push(tail.as_slice())?;
        Ok(PieceText::new(front, rest))
    }

    /// The text in one piece. Where it has one already, this takes no memory.
    pub fn into_bytes(self) -> Result<Bytes, OutOfMemory>
        ensures { IfOk result (λ bytes. bytes ≡ text_in self.entry) }
    {
        let (bytes, recent) = self.into_both()?;
        drop(recent);
        Ok(bytes)
    }

    /// The text in one piece, and what was printed lately.
    #[tactic(auto, using(crate::proofs::Behind::text_of_behind, crate::proofs::Behind::text_of_tail))]
    pub fn into_both(self) -> Result<(Bytes, Recent), OutOfMemory>
        ensures { IfOk result (λ both. both.0 ≡ text_in self.entry) }
    {
        let JsonPieces {
            tail,
            mut front,
            memo,
            recent,
            keeps: _,
        } = self;
        drop(memo);
        if front.has_nothing() {
            return Ok((tail.into_bytes(), recent));
        }
        front.push(tail.as_slice())?;
        Ok((front.flat()?, recent))
    }
}

impl<'a> MemberSink for JsonPieces<'a> {
    ghost use Rattle.json_text.specs.Writing.{Writing, with_member};
    ghost use Rattle.piece_print.specs.Writing.{whole};

    ghost State = { Writing };

    ghost state = { whole };

    ghost with_member = { with_member };

    #[tactic(auto, using(crate::proofs::Behind::member_behind))]
    fn put<T: AsJson>(&mut self, key: &str, value: &T) -> Result<(), OutOfMemory> {
        self.tail.put(key, value)
    }

    #[tactic(auto, using(crate::proofs::Behind::member_behind))]
    fn put_text(&mut self, key: &str, text: &str) -> Result<(), OutOfMemory> {
        self.tail.put_text(key, text)
    }

    #[tactic(auto, using(crate::proofs::Behind::member_behind))]
    fn put_list<T: AsJson>(&mut self, key: &str, items: &[T]) -> Result<(), OutOfMemory> {
        self.tail.put_list(key, items)
    }
}

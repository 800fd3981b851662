//! Compact JSON text that grows by values, with no tree.

ghost use Rattle.std.specs.Prelude.{◌≡◌, [], false, IfOk, OnOk};
ghost use Rattle.std.specs.Fmt.{signed_decimal};
ghost use Rattle.json.specs.Print.{quoted};
ghost use Rattle.serde_json.specs.Data.{boolean, number, unsigned, string};
ghost use Rattle.json_text.specs.Writing.{written, after_comma, text_of, line_ended, with_text, with_key, with_value, opened, closed};

use crate::quote::{push_name, push_quoted};
use itoa::Buffer;
use plain_data::copies::OutOfMemory;
use plain_data::text::Bytes;
use std::alloc::Global;

/// Compact JSON text that grows, and whether a value stands before what comes next. After want of memory
/// a part of what was put may stand there.
#[derive(Drop)]
pub struct JsonText {
    bytes: Vec<u8>,
    later: bool,
}

impl JsonText {
    /// No text. It takes no memory.
    pub fn new(alloc: Global) -> JsonText
        ensures { written result ≡ ([], false) }
    {
        JsonText {
            bytes: Vec::new(alloc),
            later: false,
        }
    }

    /// No text, with room for so many bytes.
    pub fn with_room(alloc: Global, room: usize) -> Result<JsonText, OutOfMemory>
        ensures { IfOk result (λ out. written out ≡ ([], false)) }
    {
        Ok(JsonText {
            bytes: Vec::with_capacity(alloc, room)?,
            later: false,
        })
    }

    #[tactic(auto, unfolding(crate::specs::Writing::after_comma))]
    #[inline(always)]
    fn comma(&mut self) -> Result<(), OutOfMemory>
        ensures { OnOk result (self.new.bytes.items ≡ after_comma (written self.old)) }
    {
        if self.later {
            self.bytes.push(b',')?;
        }
        Ok(())
    }

    /// Puts the text of a value at the end.
    #[tactic(auto, unfolding(crate::specs::Writing::with_text))]
    #[inline]
    pub fn raw(&mut self, text: &[u8]) -> Result<(), OutOfMemory>
        ensures ok { OnOk result (written self.new ≡ with_text text.now (written self.old)) }
    {
        self.comma()?;
        self.bytes.extend_from_slice(text)?;
        self.later = true;
        Ok(())
    }

    /// Puts a text at the end.
    #[tactic(auto, unfolding(crate::specs::Writing::with_text))]
    pub fn text(&mut self, text: &str) -> Result<(), OutOfMemory>
        ensures ok { OnOk result (written self.new ≡ with_value (string text.now) (written self.old)) }
    {
        self.comma()?;
        push_quoted(&mut self.bytes, text)?;
        self.later = true;
        Ok(())
    }

    /// Puts a number at the end.
    pub fn number(&mut self, n: u64) -> Result<(), OutOfMemory>
        ensures ok { OnOk result (written self.new ≡ with_value (number (unsigned n)) (written self.old)) }
    {
        let mut buffer = Buffer::new();
        self.raw(buffer.format(n).as_bytes())
    }

    /// Puts a number that may be below 0 at the end.
    pub(crate) fn signed(&mut self, n: i64) -> Result<(), OutOfMemory>
        ensures ok { OnOk result (written self.new ≡ with_text (signed_decimal n) (written self.old)) }
    {
        let mut buffer = Buffer::new();
        self.raw(buffer.format(n).as_bytes())
    }

    /// Puts a boolean at the end.
    pub fn boolean(&mut self, b: bool) -> Result<(), OutOfMemory>
        ensures ok { OnOk result (written self.new ≡ with_value (boolean b) (written self.old)) }
    {
        if b {
            self.raw(b"true")
        } else {
            self.raw(b"false")
        }
    }

    /// Puts the name of a member at the end.
    #[tactic(auto, unfolding(crate::specs::Writing::with_key))]
    #[inline(always)]
    pub fn key(&mut self, name: &str) -> Result<(), OutOfMemory>
        ensures ok { OnOk result (written self.new ≡ with_key name.now (written self.old)) }
    {
        self.comma()?;
        push_name(&mut self.bytes, name)?;
        self.bytes.push(b':')?;
        self.later = false;
        Ok(())
    }

    #[tactic(auto, unfolding(crate::specs::Writing::opened))]
    fn open(&mut self, bracket: u8) -> Result<(), OutOfMemory>
        ensures ok { OnOk result (written self.new ≡ opened bracket (written self.old)) }
    {
        self.comma()?;
        self.bytes.push(bracket)?;
        self.later = false;
        Ok(())
    }

    #[tactic(auto, unfolding(crate::specs::Writing::closed))]
    fn close(&mut self, bracket: u8) -> Result<(), OutOfMemory>
        ensures ok { OnOk result (written self.new ≡ closed bracket (written self.old)) }
    {
        self.bytes.push(bracket)?;
        self.later = true;
        Ok(())
    }

    /// Begins an object.
    pub fn begin_object(&mut self) -> Result<(), OutOfMemory>
        ensures ok { OnOk result (written self.new ≡ opened 123 (written self.old)) }
    {
        self.open(b'{')
    }

    /// Ends an object.
    pub fn end_object(&mut self) -> Result<(), OutOfMemory>
        ensures ok { OnOk result (written self.new ≡ closed 125 (written self.old)) }
    {
        self.close(b'}')
    }

    /// Begins an array.
    pub fn begin_array(&mut self) -> Result<(), OutOfMemory>
        ensures ok { OnOk result (written self.new ≡ opened 91 (written self.old)) }
    {
        self.open(b'[')
    }

    /// Ends an array.
    pub fn end_array(&mut self) -> Result<(), OutOfMemory>
        ensures ok { OnOk result (written self.new ≡ closed 93 (written self.old)) }
    {
        self.close(b']')
    }

    /// Begins a line: no comma is due.
    pub fn begin_line(&mut self)
        ensures { written self.new ≡ (text_of self.old, false) }
    {
        self.later = false;
    }

    /// Ends a line.
    #[tactic(auto, unfolding(crate::specs::Writing::line_ended))]
    pub fn end_line(&mut self) -> Result<(), OutOfMemory>
        ensures ok { OnOk result (written self.new ≡ line_ended (written self.old)) }
    {
        self.bytes.push(b'\n')?;
        self.later = false;
        Ok(())
    }

    /// Where its memory comes from.
    pub fn allocator(&self) -> Global {
        *self.bytes.allocator()
    }

    /// The text so far.
    pub fn as_slice(&self) -> &[u8]
        ensures { result.now ≡ text_of self.now }
    {
        &self.bytes
    }

    /// The text. It takes no memory.
    pub fn into_bytes(self) -> Bytes
        ensures { result ≡ text_of self }
    {
        let JsonText { bytes, .. } = self;
        Bytes::from_vec(bytes)
    }
}

//! Members of objects and items of arrays, written with no tree.

ghost use Rattle.std.specs.Prelude.{◌≡◌, OnOk, IfOk, option_map};
ghost use Rattle.serde_json.specs.Data.{string};
ghost use Rattle.serde_json.specs.Written.{compact_text};
ghost use Rattle.json_text.specs.Members.{filled, counted, items_data, array_data, filled_array, filled_pairs, with_option, pair_members};
ghost use Rattle.json_text.specs.Writing.{written, with_value, items_after, with_all};

use itoa::Buffer;
use json_text::member_texts::MemberTexts;
use json_text::writing::JsonText;
use plain_data::copies::OutOfMemory;
use plain_data::pairs::Pairs;
use plain_data::text::{Bytes, Text};
use std::alloc::Global;

/// A value that is written as JSON.
pub trait AsJson {
    ghost use Rattle.std.specs.Prelude.{◌≡◌, OnOk};
    ghost use Rattle.serde_json.specs.Data.{Data};
    ghost use Rattle.json_text.specs.Writing.{written, with_value};

    ghost json: { Self → Data };

    /// Puts the value at the end.
    fn write(&self, out: &mut JsonText) -> Result<(), OutOfMemory>
        ensures ok { OnOk result (written out.new ≡ with_value (json self.now) (written out.old)) };
}

/// Where members of one object go, one after another.
pub trait MemberSink {
    ghost use Rattle.std.specs.Prelude.{◌≡◌, OnOk, Some, List, ℕ};
    ghost use Rattle.serde_json.specs.Data.{Data, string};
    ghost use Rattle.json_text.specs.Members.{array_data, with_option};

    ghost State: { Type 0 };

    ghost state: { Self → State };

    ghost with_member: { List ℕ → Data → State → State };

    /// Puts the member.
    fn put<T: AsJson>(&mut self, key: &str, value: &T) -> Result<(), OutOfMemory>
        ensures ok { OnOk result (state self.new ≡ with_option with_member key.now (Some (T.json value.now)) (state self.old)) };

    /// Puts the member, a text.
    fn put_text(&mut self, key: &str, text: &str) -> Result<(), OutOfMemory>
        ensures ok { OnOk result (state self.new ≡ with_option with_member key.now (Some (string text.now)) (state self.old)) };

    /// Puts the member, the array of a list.
    fn put_list<T: AsJson>(&mut self, key: &str, items: &[T]) -> Result<(), OutOfMemory>
        ensures ok { OnOk result (state self.new ≡ with_option with_member key.now (Some (array_data T.json items.now)) (state self.old)) };
}

impl AsJson for Text {
    ghost use Rattle.serde_json.specs.Data.{string};

    ghost json = { string };

    fn write(&self, out: &mut JsonText) -> Result<(), OutOfMemory> {
        out.text(self.as_str())
    }
}

impl AsJson for u64 {
    ghost use Rattle.json_text.specs.Build.{number_data};

    ghost json = { number_data };

    fn write(&self, out: &mut JsonText) -> Result<(), OutOfMemory> {
        out.number(*self)
    }
}

impl AsJson for bool {
    ghost use Rattle.serde_json.specs.Data.{boolean};

    ghost json = { boolean };

    fn write(&self, out: &mut JsonText) -> Result<(), OutOfMemory> {
        out.boolean(*self)
    }
}

fn write_pair_members(out: &mut JsonText, pairs: &[(Text, Text)]) -> Result<(), OutOfMemory>
    ensures ok { OnOk result (written out.new ≡ with_all (pair_members pairs.now) (written out.old)) }
{
    for pair in pairs {
        out.put_text(pair.0.as_str(), pair.1.as_str())?;
    }
    Ok(())
}

impl AsJson for Pairs {
    ghost use Rattle.json_text.specs.Members.{pairs_data};

    ghost json = { pairs_data };

    #[tactic(auto, using(json_text::proofs::Closing::closes_pairs))]
    fn write(&self, out: &mut JsonText) -> Result<(), OutOfMemory> {
        let pairs = self.as_slice();
        out.begin_object()?;
        write_pair_members(out, pairs)?;
        out.end_object()
    }
}

fn write_items<T: AsJson>(out: &mut JsonText, items: &[T]) -> Result<(), OutOfMemory>
    ensures ok { OnOk result (written out.new ≡ items_after (items_data T.json items.now) (written out.old)) }
{
    for item in items {
        item.write(out)?;
    }
    Ok(())
}

/// Puts the array of a list at the end.
#[tactic(auto, using(json_text::proofs::Closing::closes_array))]
pub fn write_list<T: AsJson>(out: &mut JsonText, items: &[T]) -> Result<(), OutOfMemory>
    ensures ok { OnOk result (written out.new ≡ with_value (array_data T.json items.now) (written out.old)) }
{
    out.begin_array()?;
    write_items(out, items)?;
    out.end_array()
}

/// The first room for the text of a member, which most fit.
const ROOM: usize = 128;

/// The text of a value alone.
#[tactic(auto, using(json_text::proofs::Closing::alone))]
pub fn print<T: AsJson>(alloc: Global, value: &T) -> Result<Bytes, OutOfMemory>
    ensures { IfOk result (λ b. b ≡ compact_text (T.json value.now)) }
{
    let mut out = JsonText::with_room(alloc, ROOM)?;
    value.write(&mut out)?;
    Ok(out.into_bytes())
}

#[tactic(auto, using(json_text::proofs::Closing::alone))]
fn print_text(alloc: Global, text: &str) -> Result<Bytes, OutOfMemory>
    ensures { IfOk result (λ b. b ≡ compact_text (string text.now)) }
{
    let mut out = JsonText::with_room(alloc, text.len() + 2)?;
    out.text(text)?;
    Ok(out.into_bytes())
}

#[tactic(auto, using(json_text::proofs::Closing::alone))]
fn print_list<T: AsJson>(alloc: Global, items: &[T]) -> Result<Bytes, OutOfMemory>
    ensures { IfOk result (λ b. b ≡ compact_text (array_data T.json items.now)) }
{
    let mut out = JsonText::with_room(alloc, ROOM)?;
    write_list(&mut out, items)?;
    Ok(out.into_bytes())
}

impl MemberSink for JsonText {
    ghost use Rattle.json_text.specs.Writing.{Writing, written, with_member};

    ghost State = { Writing };

    ghost state = { written };

    ghost with_member = { with_member };

    #[tactic(auto, unfolding(json_text::specs::Members::with_option))]
    #[inline(always)]
    fn put<T: AsJson>(&mut self, key: &str, value: &T) -> Result<(), OutOfMemory> {
        self.key(key)?;
        value.write(self)
    }

    #[tactic(auto, unfolding(json_text::specs::Members::with_option))]
    #[inline(always)]
    fn put_text(&mut self, key: &str, text: &str) -> Result<(), OutOfMemory> {
        self.key(key)?;
        self.text(text)
    }

    #[tactic(auto, unfolding(json_text::specs::Members::with_option))]
    #[inline(always)]
    fn put_list<T: AsJson>(&mut self, key: &str, items: &[T]) -> Result<(), OutOfMemory> {
        self.key(key)?;
        write_list(self, items)
    }
}

impl MemberSink for MemberTexts {
    ghost use Rattle.std.specs.Prelude.{List};
    ghost use Rattle.plain_data.specs.Pairs.{Pair};
    ghost use Rattle.json_text.specs.Members.{with_member_text};

    ghost State = { List Pair };

    ghost state = { λ m. m };

    ghost with_member = { with_member_text };

    #[tactic(auto, unfolding(json_text::specs::Members::with_option))]
    fn put<T: AsJson>(&mut self, key: &str, value: &T) -> Result<(), OutOfMemory> {
        let text = print(self.allocator(), value)?;
        self.set(key, text)
    }

    #[tactic(auto, unfolding(json_text::specs::Members::with_option))]
    fn put_text(&mut self, key: &str, text: &str) -> Result<(), OutOfMemory> {
        let text = print_text(self.allocator(), text)?;
        self.set(key, text)
    }

    #[tactic(auto, unfolding(json_text::specs::Members::with_option))]
    fn put_list<T: AsJson>(&mut self, key: &str, items: &[T]) -> Result<(), OutOfMemory> {
        let text = print_list(self.allocator(), items)?;
        self.set(key, text)
    }
}

/// Puts the member, if there is one.
#[tactic(auto, unfolding(json_text::specs::Members::with_option))]
#[inline(always)]
pub fn put_optional<T: AsJson, S: MemberSink>(
    out: &mut S,
    key: &str,
    value: &Option<T>,
) -> Result<(), OutOfMemory>
    ensures ok { OnOk result (S.state out.new
        ≡ with_option S.with_member key.now (option_map T.json value.now) (S.state out.old)) }
{
    match value {
        Some(value) => out.put(key, value),
        None => Ok(()),
    }
}

/// Puts the member, left out where the text is empty.
#[tactic(auto, unfolding(json_text::specs::Members::with_option))]
#[inline(always)]
pub fn put_filled<S: MemberSink>(out: &mut S, key: &str, text: &str) -> Result<(), OutOfMemory>
    ensures ok { OnOk result (S.state out.new
        ≡ with_option S.with_member key.now (filled text.now) (S.state out.old)) }
{
    if text.is_empty() {
        Ok(())
    } else {
        out.put_text(key, text)
    }
}

/// Puts the number in a text, left out where it is 0.
#[tactic(auto, unfolding(json_text::specs::Members::with_option))]
#[inline(always)]
pub fn put_counted<S: MemberSink>(out: &mut S, key: &str, n: u64) -> Result<(), OutOfMemory>
    ensures ok { OnOk result (S.state out.new
        ≡ with_option S.with_member key.now (counted n) (S.state out.old)) }
{
    if n == 0 {
        Ok(())
    } else {
        let mut buffer = Buffer::new();
        out.put_text(key, buffer.format(n))
    }
}

/// Puts the array of a list, left out where it is empty.
#[tactic(auto, unfolding(json_text::specs::Members::with_option))]
#[inline(always)]
pub fn put_filled_list<T: AsJson, S: MemberSink>(
    out: &mut S,
    key: &str,
    items: &[T],
) -> Result<(), OutOfMemory>
    ensures ok { OnOk result (S.state out.new
        ≡ with_option S.with_member key.now (filled_array T.json items.now) (S.state out.old)) }
{
    if items.is_empty() {
        Ok(())
    } else {
        out.put_list(key, items)
    }
}

/// Puts the object of the pairs, left out where there are none.
#[tactic(auto, unfolding(json_text::specs::Members::with_option))]
#[inline(always)]
pub fn put_filled_pairs<S: MemberSink>(
    out: &mut S,
    key: &str,
    pairs: &Pairs,
) -> Result<(), OutOfMemory>
    ensures ok { OnOk result (S.state out.new
        ≡ with_option S.with_member key.now (filled_pairs pairs.now) (S.state out.old)) }
{
    if pairs.as_slice().is_empty() {
        Ok(())
    } else {
        out.put(key, pairs)
    }
}

//! Members that come in any order, each as its name and the text of its value.

ghost use Rattle.std.specs.Prelude.{◌≡◌, [], OnOk, IfOk, IfErr, IfSome, length, false};
ghost use Rattle.std.specs.List.Sorted.{IsSearchInRange};
ghost use Rattle.serde_json.specs.View.{view, members_view};
ghost use Rattle.serde_json.specs.Written.{members_have_float, has_float, compact_text};
ghost use Rattle.plain_data.specs.Pairs.{ArePairs, IsPairAt, IsPairGap, put_pair};
ghost use Rattle.json_text.specs.Members.{extra_members, member_texts, then_texts};
ghost use Rattle.json_text.specs.Writing.{written, with_texts, with_filled_texts, opened, closed};
ghost use Rattle.json_text.specs.Trees.{members_in};
ghost use Rattle.json_text.specs.Canonical.{IsCanonical};
ghost use Rattle.json_text.specs.Splitting.{RowsThen};

use crate::floats::holds_float;
use crate::splitting::{LEVELS, after_byte, split_member};
use crate::tree::{NoTree, Tree, value_text};
use crate::writing::JsonText;
use plain_data::copies::OutOfMemory;
use plain_data::rows::{Ranked, place_of};
use plain_data::text::{Bytes, Text};
use serde_json::{Map, Value};
use std::alloc::Global;
use std::cmp::Ordering;
use std::marker::Model;

/// A member's name and the text of its value.
struct Row {
    name: Text,
    text: Bytes,
}

impl Drop for Row {
    fn drop(self) {
        let Row { name, text } = self;
        drop(name);
        drop(text);
    }
}

impl Model for Row {
    ghost use Rattle.plain_data.specs.Pairs.{Pair};

    ghost Value = { Pair };

    ghost view = { λ r. (r.name, r.text) };
}

/// Members in the order of their names, no name twice. Contracts see the names and the texts.
pub struct MemberTexts {
    rows: Vec<Row>,
}

impl Drop for MemberTexts {
    fn drop(self) {
        let MemberTexts { rows } = self;
        drop(rows);
    }
}

impl Model for MemberTexts {
    ghost use Rattle.std.specs.Prelude.{List};
    ghost use Rattle.plain_data.specs.Pairs.{Pair, ArePairs};

    ghost Value = { List Pair };

    ghost view = { λ m. m.rows.items };

    ghost invariant = { λ m. ArePairs m.rows.items };
}

impl Row {
    fn name(&self) -> &str
        ensures { result.now ≡ self.now.0 }
    {
        self.name.as_str()
    }

    fn text(&self) -> &[u8]
        ensures { result.now ≡ self.now.1 }
    {
        self.text.as_slice()
    }
}

impl<'a> Ranked<&'a str> for Row {
    ghost use Rattle.plain_data.specs.Pairs.{text_cmp};

    ghost rank = { λ p k. text_cmp p.0 k.now };

    fn rank(&self, key: &&'a str) -> Ordering {
        let key: &str = key;
        self.name().cmp(key)
    }
}

fn text_place(rows: &[Row], key: &str) -> Result<usize, usize>
    requires { ArePairs rows.now }
    ensures bound { IsSearchInRange result (length rows.now) }
    ensures at { IfOk result (IsPairAt rows.now key.now) }
    ensures gap { IfErr result (IsPairGap rows.now key.now) }
{
    place_of(rows, &key)
}

fn put_in(rows: &mut Vec<Row>, row: Row) -> Result<(), OutOfMemory>
    requires { ArePairs rows.old.items }
    ensures ok { OnOk result (rows.new.items ≡ put_pair row.0 row.1 rows.old.items) }
    ensures rising { ArePairs rows.new.items }
{
    match text_place(rows, row.name()) {
        Ok(at) => rows[at] = row,
        Err(at) => rows.insert(at, row)?,
    }
    Ok(())
}

fn texts_of(alloc: Global, map: &Map<String, Value>) -> Result<Vec<Row>, OutOfMemory>
    requires { members_have_float (members_view map.now.entries) ≡ false }
    ensures { IfOk result (λ rows. rows.items ≡ then_texts (members_view map.now.entries) []) }
{
    let mut rows = Vec::new(alloc);
    for (name, value) in map.iter() {
        let name = Text::new(alloc, name.as_str())?;
        let text = value_text(alloc, value)?;
        rows.push(Row { name, text })?;
    }
    Ok(rows)
}

fn row_of(alloc: Global, name: &[u8], text: &[u8]) -> Result<Option<Row>, OutOfMemory>
    ensures { IfOk result (λ o. IfSome o (λ row. row ≡ (name.now, text.now))) }
{
    match str::from_utf8(name) {
        Ok(name) => {
            let name = Text::new(alloc, name)?;
            let text = Bytes::new(alloc, text)?;
            Ok(Some(Row { name, text }))
        }
        Err(_) => Ok(None),
    }
}

/// The members behind the opening bracket of a text, where it is canonical and taken apart as it stands.
#[tactic(auto, using(crate::proofs::CanonicalParts::rows_end, crate::proofs::CanonicalParts::rows_more))]
fn split_rows(alloc: Global, text: &[u8]) -> Result<Option<Vec<Row>>, OutOfMemory>
    ensures { IfOk result (λ o. IfSome o (λ rows. RowsThen LEVELS false [] rows.items [] text.now)) }
{
    let mut rows = Vec::new(alloc);
    let mut left = text;
    let mut later = false;
    let mut last = &text[..0];
    for _ in 0..text.len() {
        if let Some(rest) = after_byte(left, b'}') {
            if rest.is_empty() {
                return Ok(Some(rows));
            }
            return Ok(None);
        }
        let Some((name, value, rest)) = split_member(left, later, last, LEVELS) else {
            return Ok(None);
        };
        let Some(row) = row_of(alloc, name, value)? else {
            return Ok(None);
        };
        rows.push(row)?;
        left = rest;
        later = true;
        last = name;
    }
    Ok(None)
}

impl MemberTexts {
    /// No members. It takes no memory.
    pub fn new(alloc: Global) -> MemberTexts
        ensures { result ≡ [] }
    {
        MemberTexts {
            rows: Vec::new(alloc),
        }
    }

    #[tactic(auto, using(crate::proofs::MemberTexts::all_texts, crate::proofs::MemberTexts::object_texts_rise))]
    fn of(alloc: Global, value: &Value) -> Result<MemberTexts, OutOfMemory>
        requires canonical { IsCanonical (view value.now) }
        requires whole { has_float (view value.now) ≡ false }
        ensures { IfOk result (λ m. m ≡ member_texts (members_in (view value.now))) }
    {
        match value.as_object() {
            Some(map) => Ok(MemberTexts {
                rows: texts_of(alloc, map)?,
            }),
            None => Ok(MemberTexts::new(alloc)),
        }
    }

    /// The members of the object that a kept text is, by its tree.
    #[tactic(auto, using(crate::proofs::MemberTexts::read_canonical), unfolding(crate::specs::Members::extra_members))]
    fn of_tree(alloc: Global, text: &str) -> Result<MemberTexts, OutOfMemory>
        ensures { IfOk result (λ m. m ≡ member_texts (extra_members text.now)) }
    {
        match Tree::read(alloc, text) {
            Ok(tree) => {
                if holds_float(tree.value()) {
                    Ok(MemberTexts::new(alloc))
                } else {
                    MemberTexts::of(alloc, tree.value())
                }
            }
            Err(NoTree::NotJson) => Ok(MemberTexts::new(alloc)),
            Err(NoTree::OutOfMemory) => Err(OutOfMemory),
        }
    }

    /// The members of the object that a kept text is, if it is taken apart as it stands.
    #[tactic(auto, using(crate::proofs::CanonicalParts::rows_kept, crate::proofs::CanonicalParts::rows_rise))]
    fn split(alloc: Global, text: &str) -> Result<Option<MemberTexts>, OutOfMemory>
        ensures { IfOk result (λ o. IfSome o (λ m. m ≡ member_texts (extra_members text.now))) }
    {
        let Some(behind) = after_byte(text.as_bytes(), b'{') else {
            return Ok(None);
        };
        match split_rows(alloc, behind)? {
            Some(rows) => Ok(Some(MemberTexts { rows })),
            None => Ok(None),
        }
    }

    /// The members of the object that a kept text is.
    #[tactic(auto, using(crate::proofs::CanonicalParts::no_rows))]
    pub fn kept(alloc: Global, text: &str) -> Result<MemberTexts, OutOfMemory>
        ensures { IfOk result (λ m. m ≡ member_texts (extra_members text.now)) }
    {
        if text.is_empty() {
            return Ok(MemberTexts::new(alloc));
        }
        match MemberTexts::split(alloc, text)? {
            Some(members) => Ok(members),
            None => MemberTexts::of_tree(alloc, text),
        }
    }

    /// Where its memory comes from.
    pub fn allocator(&self) -> Global {
        *self.rows.allocator()
    }

    /// Puts the member of this name, the text of whose value is `text`.
    pub fn set(&mut self, key: &str, text: Bytes) -> Result<(), OutOfMemory>
        ensures ok { OnOk result (self.new ≡ put_pair key.now text self.old) }
    {
        let alloc = *self.rows.allocator();
        let name = Text::new(alloc, key)?;
        put_in(&mut self.rows, Row { name, text })
    }

    fn write_rows(&self, out: &mut JsonText) -> Result<(), OutOfMemory>
        ensures ok { OnOk result (written out.new ≡ with_texts self.now (written out.old)) }
    {
        for row in &self.rows {
            out.key(row.name())?;
            out.raw(row.text())?;
        }
        Ok(())
    }

    /// Puts the object of the members at the end.
    pub fn write(&self, out: &mut JsonText) -> Result<(), OutOfMemory>
        ensures ok { OnOk result (written out.new ≡ closed 125 (with_texts self.now (opened 123 (written out.old)))) }
    {
        out.begin_object()?;
        self.write_rows(out)?;
        out.end_object()
    }

    /// Puts the object of the members as a member, left out where there are none.
    pub fn write_filled(&self, out: &mut JsonText, key: &str) -> Result<(), OutOfMemory>
        ensures ok { OnOk result (written out.new ≡ with_filled_texts key.now self.now (written out.old)) }
    {
        if self.rows.is_empty() {
            return Ok(());
        }
        out.key(key)?;
        self.write(out)
    }
}

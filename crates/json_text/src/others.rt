//! Members of an object that a reader keeps as they are.

ghost use Rattle.std.specs.Prelude.{◌≡◌, [], false, OnOk, IfOk, length, ◌==◌, if◌then◌else◌};
ghost use Rattle.serde_json.specs.View.{view, members_view};
ghost use Rattle.serde_json.specs.Written.{has_float, members_have_float};
ghost use Rattle.json_text.specs.Members.{extra_text, member_texts};
ghost use Rattle.json_text.specs.Trees.{members_in, others};
ghost use Rattle.json_text.specs.Writing.{written, with_texts};

use crate::values::write_value;
use crate::writing::JsonText;
use plain_data::copies::OutOfMemory;
use plain_data::text::Text;
use serde_json::{Map, Value};
use std::alloc::Global;

/// Which names of members are known to a reader, which keeps the others as they are.
pub trait KnownNames {
    ghost use Rattle.std.specs.Prelude.{ℕ, List, Bool};

    ghost known: { Self → List ℕ → Bool };

    /// Whether the name is known.
    fn is_known(&self, name: &str) -> bool
        ensures { result ≡ known self.now name.now };
}

#[tactic(auto, using(crate::proofs::OtherTexts::others_rising))]
fn write_unknown<N: KnownNames>(
    out: &mut JsonText,
    names: &N,
    map: &Map<String, Value>,
) -> Result<(), OutOfMemory>
    requires { members_have_float (members_view map.now.entries) ≡ false }
    ensures { OnOk result (written out.new
        ≡ with_texts (member_texts (others (N.known names.now) (members_view map.now.entries))) (written out.old)) }
{
    for (name, value) in map.iter() {
        if !names.is_known(name.as_str()) {
            out.key(name.as_str())?;
            write_value(out, value)?;
        }
    }
    Ok(())
}

/// The text of an object, empty where it has no member. That it is UTF-8 is tested, since no proof says it.
fn filled_text(alloc: Global, object: &[u8]) -> Result<Text, OutOfMemory>
    ensures { IfOk result (λ t. t ≡ (if length object.now == 2 then [] else object.now)) }
{
    if object.len() == 2 {
        return Text::new(alloc, "");
    }
    match str::from_utf8(object) {
        Ok(text) => Text::new(alloc, text),
        Err(_) => Err(OutOfMemory),
    }
}

/// The first room for a text, which most fit.
const ROOM: usize = 512;

#[tactic(auto, using(crate::proofs::OtherTexts::others_closed))]
fn others_of<N: KnownNames>(
    alloc: Global,
    names: &N,
    map: &Map<String, Value>,
) -> Result<Text, OutOfMemory>
    requires { members_have_float (members_view map.now.entries) ≡ false }
    ensures { IfOk result (λ t. t ≡ extra_text (others (N.known names.now) (members_view map.now.entries))) }
{
    let mut out = JsonText::with_room(alloc, ROOM)?;
    out.begin_object()?;
    write_unknown(&mut out, names, map)?;
    out.end_object()?;
    filled_text(alloc, out.as_slice())
}

/// The text that is kept for the members whose names are not known: that of their object, empty where there are none.
pub fn others_text<N: KnownNames>(
    alloc: Global,
    names: &N,
    value: &Value,
) -> Result<Text, OutOfMemory>
    requires { has_float (view value.now) ≡ false }
    ensures { IfOk result (λ t. t ≡ extra_text (others (N.known names.now) (members_in (view value.now)))) }
{
    match value.as_object() {
        Some(map) => others_of(alloc, names, map),
        None => Text::new(alloc, ""),
    }
}

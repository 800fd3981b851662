//! The text of a value that holds no float, put at the end of a text.

ghost use Rattle.std.specs.Prelude.{◌≡◌, false, OnOk};
ghost use Rattle.serde_json.specs.Data.{number, array, object};
ghost use Rattle.serde_json.specs.Find.{is_float};
ghost use Rattle.serde_json.specs.View.{view, number_view, items_view, members_view};
ghost use Rattle.serde_json.specs.Written.{has_float, items_have_float, members_have_float};
ghost use Rattle.json_text.specs.Writing.{written, with_value};

use crate::writing::JsonText;
use plain_data::copies::OutOfMemory;
use serde_json::{Map, Number, Value};

fn write_number(out: &mut JsonText, value: &Number) -> Result<(), OutOfMemory>
    requires { is_float (number_view value.now) ≡ false }
    ensures { OnOk result (written out.new ≡ with_value (number (number_view value.now)) (written out.old)) }
{
    match value.as_u64() {
        Some(n) => out.number(n),
        None => match value.as_i64() {
            Some(n) => out.signed(n),
            None => unreachable!(),
        },
    }
}

/// Puts the value at the end.
#[cycle(values)]
pub(crate) fn write_value(out: &mut JsonText, value: &Value) -> Result<(), OutOfMemory>
    requires { has_float (view value.now) ≡ false }
    ensures { OnOk result (written out.new ≡ with_value (view value.now) (written out.old)) }
{
    match value {
        Value::Null => out.raw(b"null"),
        Value::Bool(word) => out.boolean(*word),
        Value::Number(number) => write_number(out, number),
        Value::String(text) => out.text(text.as_str()),
        Value::Array(items) => write_items(out, items),
        Value::Object(members) => write_members(out, members),
    }
}

#[cycle(values)]
#[tactic(auto, using(crate::proofs::OtherTexts::items_closed))]
fn write_items(out: &mut JsonText, items: &Vec<Value>) -> Result<(), OutOfMemory>
    requires { items_have_float (items_view items.now.items) ≡ false }
    ensures { OnOk result (written out.new ≡ with_value (array (items_view items.now.items)) (written out.old)) }
{
    out.begin_array()?;
    for item in items {
        write_value(out, item)?;
    }
    out.end_array()
}

#[cycle(values)]
#[tactic(auto, using(crate::proofs::Closing::closes_texts))]
fn write_members(out: &mut JsonText, members: &Map<String, Value>) -> Result<(), OutOfMemory>
    requires { members_have_float (members_view members.now.entries) ≡ false }
    ensures { OnOk result (written out.new
        ≡ with_value (object (members_view members.now.entries)) (written out.old)) }
{
    out.begin_object()?;
    for (name, member) in members.iter() {
        out.key(name.as_str())?;
        write_value(out, member)?;
    }
    out.end_object()
}

//! How many bytes the compact text of a value has, counted without the text.

ghost use Rattle.std.specs.Prelude.{◌≡◌, ◌+◌, false, nat_lt, length};
ghost use Rattle.json.specs.Print.{escape_letter, escape_byte, quoted};
ghost use Rattle.serde_json.specs.View.{view, number_view, items_view, members_view};
ghost use Rattle.serde_json.specs.Data.{number};
ghost use Rattle.serde_json.specs.Written.{comma_if};
ghost use Rattle.json_text.specs.Sizes.{least_bytes, least_items, least_members, Leaves};

use crate::quote::needs_no_escape;
use itoa::Buffer;
use serde_json::{Map, Number, Value};

fn without(room: usize, bytes: usize) -> Option<usize>
    ensures { Leaves bytes room result }
{
    if room < bytes {
        None
    } else {
        Some(room - bytes)
    }
}

/// The letter behind the backslash of an escape of two bytes; 0 where there is none.
fn letter(byte: u8) -> u8
    ensures { result ≡ escape_letter byte }
{
    if byte == b'"' || byte == b'\\' {
        byte
    } else if byte == 8 {
        b'b'
    } else if byte == 12 {
        b'f'
    } else if byte == 10 {
        b'n'
    } else if byte == 13 {
        b'r'
    } else if byte == 9 {
        b't'
    } else {
        0
    }
}

#[tactic(auto, unfolding(json::specs::Print::escape_byte))]
fn width(byte: u8) -> usize
    ensures { result ≡ length (escape_byte byte) }
{
    if letter(byte) > 0 {
        2
    } else if byte < 32 {
        6
    } else {
        1
    }
}

fn after_escaped(text: &str, room: usize) -> Option<usize>
    ensures { Leaves (length (quoted text.now)) room result }
{
    let mut left = without(room, 2)?;
    for byte in text.as_bytes() {
        left = without(left, width(*byte))?;
    }
    Some(left)
}

#[tactic(auto, using(crate::proofs::WholeSizes::plain_bytes))]
fn after_text(text: &str, room: usize) -> Option<usize>
    ensures { Leaves (length (quoted text.now)) room result }
{
    if needs_no_escape(text.as_bytes()) {
        without(without(room, 2)?, text.len())
    } else {
        after_escaped(text, room)
    }
}

fn after_number(value: &Number, room: usize) -> Option<usize>
    ensures { Leaves (least_bytes (number (number_view value.now))) room result }
{
    let mut buffer = Buffer::new();
    match value.as_u64() {
        Some(n) => without(room, buffer.format(n).len()),
        None => match value.as_i64() {
            Some(n) => without(room, buffer.format(n).len()),
            None => without(room, 3),
        },
    }
}

fn after_comma(later: bool, room: usize) -> Option<usize>
    ensures { Leaves (length (comma_if later)) room result }
{
    if later { without(room, 1) } else { Some(room) }
}

#[cycle(sizes)]
fn after_value(value: &Value, room: usize) -> Option<usize>
    ensures { Leaves (least_bytes (view value.now)) room result }
{
    match value {
        Value::Null => without(room, 4),
        Value::Bool(word) => without(room, if *word { 4 } else { 5 }),
        Value::Number(number) => after_number(number, room),
        Value::String(text) => after_text(text.as_str(), room),
        Value::Array(items) => after_items(items, without(room, 1)?),
        Value::Object(members) => after_members(members, without(room, 1)?),
    }
}

#[cycle(sizes)]
fn after_items(items: &Vec<Value>, room: usize) -> Option<usize>
    ensures { Leaves (least_items false (items_view items.now.items)) room result }
{
    let mut left = room;
    let mut later = false;
    for item in items {
        left = after_value(item, after_comma(later, left)?)?;
        later = true;
    }
    without(left, 1)
}

#[cycle(sizes)]
fn after_members(members: &Map<String, Value>, room: usize) -> Option<usize>
    ensures { Leaves (least_members false (members_view members.now.entries)) room result }
{
    let mut left = room;
    let mut later = false;
    for (name, member) in members.iter() {
        left = after_text(name.as_str(), after_comma(later, left)?)?;
        left = after_value(member, without(left, 1)?)?;
        later = true;
    }
    without(left, 1)
}

/// Whether the compact text has more bytes than this, by what it has at least. It takes no memory.
pub fn is_longer(value: &Value, most: usize) -> bool
    ensures { result ≡ nat_lt most (least_bytes (view value.now)) }
{
    after_value(value, most).is_none()
}

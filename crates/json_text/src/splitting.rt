//! Canonical texts taken apart as they stand, with no tree. A text that is refused may be canonical all the same: no escapes
//! and no more than `LEVELS` levels are taken.

ghost use Rattle.std.specs.Prelude.{◌≡◌, ◌∷◌, ◌++◌, ◌≤◌, false, length, IfSome, []};
ghost use Rattle.json.specs.Print.{quoted};
ghost use Rattle.serde_json.specs.Written.{comma_if};
ghost use Rattle.json_text.specs.Splitting.{ValueThen, ItemsThen, MemberThen, MembersThen, Rises};

use crate::quote::needs_no_escape;
use itoa::Buffer;
use std::cmp::Ordering;

/// So many levels of arrays and objects are taken within a member.
pub(crate) const LEVELS: u8 = 32;

/// What follows this byte.
#[inline(always)]
pub(crate) fn after_byte(text: &[u8], byte: u8) -> Option<&[u8]>
    ensures { IfSome result (λ rest. text.now ≡ byte ∷ rest.now) }
{
    match text {
        [first, rest @ ..] if *first == byte => Some(rest),
        _ => None,
    }
}

fn quote_place(text: &[u8]) -> usize
    ensures { result ≤ length text.now }
{
    for (at, &byte) in text.iter().enumerate() {
        if byte == b'"' {
            return at;
        }
    }
    text.len()
}

/// What stands between the quotes, and what follows them.
fn split_string(text: &[u8]) -> Option<(&[u8], &[u8])>
    ensures { IfSome result (λ p. text.now ≡ quoted p.0.now ++ p.1.now) }
{
    let behind = after_byte(text, b'"')?;
    let (inside, behind) = behind.split_at(quote_place(behind));
    let rest = after_byte(behind, b'"')?;
    if !needs_no_escape(inside) {
        return None;
    }
    Some((inside, rest))
}

fn digits_value(text: &[u8]) -> u64 {
    let mut value: u64 = 0;
    for &byte in text {
        if !byte.is_ascii_digit() {
            return value;
        }
        value = value.wrapping_mul(10).wrapping_add(u64::from(byte & 15));
    }
    value
}

fn after_prefix<'t>(text: &'t [u8], prefix: &[u8]) -> Option<&'t [u8]>
    ensures { IfSome result (λ rest. text.now ≡ prefix.now ++ rest.now) }
{
    text.strip_prefix(prefix)
}

#[tactic(auto, using(crate::proofs::CanonicalParts::string_then))]
fn after_string(text: &[u8]) -> Option<&[u8]>
    ensures { IfSome result (λ rest. ValueThen 0 rest.now text.now) }
{
    let (_inside, rest) = split_string(text)?;
    Some(rest)
}

#[tactic(auto, using(crate::proofs::CanonicalParts::number_then))]
fn after_number(text: &[u8]) -> Option<&[u8]>
    ensures { IfSome result (λ rest. ValueThen 0 rest.now text.now) }
{
    let value = digits_value(text);
    let mut buffer = Buffer::new();
    let rest = after_prefix(text, buffer.format(value).as_bytes())?;
    Some(rest)
}

#[tactic(auto, using(crate::proofs::CanonicalParts::signed_then))]
fn after_signed(text: &[u8], value: i64) -> Option<&[u8]>
    ensures { IfSome result (λ rest. ValueThen 0 rest.now text.now) }
{
    let mut buffer = Buffer::new();
    let rest = after_prefix(text, buffer.format(value).as_bytes())?;
    Some(rest)
}

/// Behind a number below 0, but for the least of 64 bits.
fn after_negative(text: &[u8]) -> Option<&[u8]>
    ensures { IfSome result (λ rest. ValueThen 0 rest.now text.now) }
{
    let digits = after_byte(text, b'-')?;
    let value = i64::try_from(digits_value(digits)).ok()?;
    after_signed(text, -value)
}

#[tactic(auto, using(crate::proofs::CanonicalParts::true_then, crate::proofs::CanonicalParts::false_then, crate::proofs::CanonicalParts::null_then))]
fn after_leaf(text: &[u8]) -> Option<&[u8]>
    ensures { IfSome result (λ rest. ValueThen 0 rest.now text.now) }
{
    match text {
        [b'"', ..] => after_string(text),
        [b't', ..] => after_prefix(text, b"true"),
        [b'f', ..] => after_prefix(text, b"false"),
        [b'n', ..] => after_prefix(text, b"null"),
        [b'-', ..] => after_negative(text),
        _ => after_number(text),
    }
}

fn after_comma(text: &[u8], later: bool) -> Option<&[u8]>
    ensures { IfSome result (λ rest. text.now ≡ comma_if later ++ rest.now) }
{
    if !later {
        return Some(text);
    }
    after_byte(text, b',')
}

fn rises(later: bool, last: &[u8], name: &[u8]) -> bool
    ensures { Rises result later last.now name.now }
{
    !later || last.cmp(name) == Ordering::Less
}

#[cycle(values)]
#[tactic(auto, using(crate::proofs::CanonicalParts::leaf_then, crate::proofs::CanonicalParts::array_then, crate::proofs::CanonicalParts::object_then))]
fn after_value(text: &[u8], levels: u8) -> Option<&[u8]>
    ensures { IfSome result (λ rest. ValueThen levels rest.now text.now) }
{
    if levels > 0 {
        if let Some(behind) = after_byte(text, b'[') {
            return after_items(behind, levels - 1);
        }
        if let Some(behind) = after_byte(text, b'{') {
            return after_members(behind, levels - 1);
        }
    }
    after_leaf(text)
}

#[cycle(values)]
#[tactic(auto, using(crate::proofs::CanonicalParts::items_end, crate::proofs::CanonicalParts::items_more))]
fn after_items(text: &[u8], levels: u8) -> Option<&[u8]>
    ensures { IfSome result (λ rest. ItemsThen levels false rest.now text.now) }
{
    let mut left = text;
    let mut later = false;
    for _ in 0..text.len() {
        if let Some(rest) = after_byte(left, b']') {
            return Some(rest);
        }
        left = after_value(after_comma(left, later)?, levels)?;
        later = true;
    }
    None
}

/// A member's name, the text of its value, and what follows them.
#[cycle(values)]
#[tactic(auto, using(crate::proofs::CanonicalParts::member_then))]
pub(crate) fn split_member<'t>(
    text: &'t [u8],
    later: bool,
    last: &[u8],
    levels: u8,
) -> Option<(&'t [u8], &'t [u8], &'t [u8])>
    ensures { IfSome result (λ p. MemberThen levels later last.now p.0.now p.1.now p.2.now text.now) }
{
    let (name, behind) = split_string(after_comma(text, later)?)?;
    let behind = after_byte(behind, b':')?;
    let rest = after_value(behind, levels)?;
    if !rises(later, last, name) {
        return None;
    }
    let (value, rest) = behind.split_at(behind.len() - rest.len());
    Some((name, value, rest))
}

#[cycle(values)]
#[tactic(auto, using(crate::proofs::CanonicalParts::members_end, crate::proofs::CanonicalParts::members_more))]
fn after_members(text: &[u8], levels: u8) -> Option<&[u8]>
    ensures { IfSome result (λ rest. MembersThen levels false [] rest.now text.now) }
{
    let mut left = text;
    let mut later = false;
    let mut last = &text[..0];
    for _ in 0..text.len() {
        if let Some(rest) = after_byte(left, b'}') {
            return Some(rest);
        }
        let (name, _value, rest) = split_member(left, later, last, levels)?;
        left = rest;
        later = true;
        last = name;
    }
    None
}

//! What a member of an object gives, which may be absent. The object is a place, which may be absent too.

ghost use Rattle.std.specs.Prelude.{◌≡◌, ◌<◌, [], length, true, if◌then◌else◌, Some, None, option_map, IfOk};
ghost use Rattle.std.specs.List.{list_all};
ghost use Rattle.std.specs.Char.{is_ascii_digit};
ghost use Rattle.std.specs.Str.Parse.{digits_value};
ghost use Rattle.serde_json.specs.View.{view, items_view, members_view};
ghost use Rattle.object_text.specs.Answers.{Gives, GivesBy};
ghost use Rattle.object_text.specs.MemberReaders.{at, as_text, as_items, as_object, needed, needed_text, needed_items, needed_object, needed_way, some_object_at, text_or, optional_text, optional_items, texts_from, texts_at, pairs_from, pairs_in, pairs_at, uid_named, uid_at, stamp_named, stamp_at, stamp_or_empty, is_version, version_named, version_at};
ghost use Rattle.object_text.specs.Steps.Whole.{IsWholePlace};

use crate::errors::{Member, ObjectError};
use json_text::look::unless_null;
use kube_types::pairs::Pairs;
use kube_types::text::{Names, Text};
use kube_types::uid::Uid;
use serde_json::{Map, Value};
use std::alloc::Global;

/// The member of the place.
pub fn at<'v>(place: Option<&'v Value>, member: Member) -> Option<&'v Value>
    ensures value { option_map (λ v. view v.now) result ≡ at member (option_map (λ v. view v.now) place.entry) }
    ensures whole { IsWholePlace (option_map (λ v. view v.now) place.entry) → IsWholePlace (option_map (λ v. view v.now) result) }
{
    match place {
        Some(value) => value.get(member.name()),
        None => None,
    }
}

/// The text that the value is.
pub fn word_of<'v>(value: &'v Value, member: Member) -> Result<&'v str, ObjectError>
    ensures { GivesBy (λ s. s.now) result (as_text member (view value.now)) }
{
    match value.as_str() {
        Some(word) => Ok(word),
        None => Err(ObjectError::WrongType(member)),
    }
}

/// The items of the array that the value is.
pub fn items_of<'v>(value: &'v Value, member: Member) -> Result<&'v Vec<Value>, ObjectError>
    ensures { GivesBy (λ v. items_view v.now.items) result (as_items member (view value.now)) }
{
    match value.as_array() {
        Some(items) => Ok(items),
        None => Err(ObjectError::WrongType(member)),
    }
}

/// The value, where it is an object.
pub fn object_of<'v>(value: &'v Value, member: Member) -> Result<&'v Value, ObjectError>
    ensures value { GivesBy (λ v. view v.now) result (as_object member (view value.now)) }
    ensures same { IfOk result (λ v. view v.now ≡ view value.now) }
{
    match value.as_object() {
        Some(_) => Ok(value),
        None => Err(ObjectError::WrongType(member)),
    }
}

/// A member that has to be there.
pub fn needed<'v>(place: Option<&'v Value>, member: Member) -> Result<&'v Value, ObjectError>
    ensures { GivesBy (λ v. view v.now) result (needed member (option_map (λ v. view v.now) place.entry)) }
{
    match unless_null(at(place, member)) {
        Some(value) => Ok(value),
        None => Err(ObjectError::Missing(member)),
    }
}

/// A text that has to be there.
pub fn needed_word<'v>(place: Option<&'v Value>, member: Member) -> Result<&'v str, ObjectError>
    ensures { GivesBy (λ s. s.now) result (needed_text member (option_map (λ v. view v.now) place.entry)) }
{
    word_of(needed(place, member)?, member)
}

/// A copy of a text that has to be there.
pub fn needed_text(
    alloc: Global,
    place: Option<&Value>,
    member: Member,
) -> Result<Text, ObjectError>
    ensures { Gives result (needed_text member (option_map (λ v. view v.now) place.entry)) }
{
    let word = needed_word(place, member)?;
    Ok(Text::new(alloc, word)?)
}

/// The items of an array that has to be there.
pub fn needed_items<'v>(
    place: Option<&'v Value>,
    member: Member,
) -> Result<&'v Vec<Value>, ObjectError>
    ensures { GivesBy (λ v. items_view v.now.items) result (needed_items member (option_map (λ v. view v.now) place.entry)) }
{
    items_of(needed(place, member)?, member)
}

/// An object that has to be there.
pub fn needed_object<'v>(place: Option<&'v Value>, member: Member) -> Result<&'v Value, ObjectError>
    ensures { GivesBy (λ v. view v.now) result (needed_object member (option_map (λ v. view v.now) place.entry)) }
{
    object_of(needed(place, member)?, member)
}

/// An object on the way to a required member. Null is as absent.
pub fn needed_way<'v>(
    place: Option<&'v Value>,
    member: Member,
) -> Result<Option<&'v Value>, ObjectError>
    ensures value { GivesBy (option_map (λ v. view v.now)) result (needed_way member (option_map (λ v. view v.now) place.entry)) }
    ensures whole { IsWholePlace (option_map (λ v. view v.now) place.entry) → IfOk result (λ o. IsWholePlace (option_map (λ v. view v.now) o)) }
{
    match at(place, member) {
        None => Ok(None),
        Some(value) => {
            if value.is_null() {
                Ok(None)
            } else {
                Ok(Some(object_of(value, member)?))
            }
        }
    }
}

/// An object that may be absent, or that is on the way to a member that may be.
pub fn object_at<'v>(
    place: Option<&'v Value>,
    member: Member,
) -> Result<Option<&'v Value>, ObjectError>
    ensures value { GivesBy (option_map (λ v. view v.now)) result (some_object_at member (option_map (λ v. view v.now) place.entry)) }
    ensures whole { IsWholePlace (option_map (λ v. view v.now) place.entry) → IfOk result (λ o. IsWholePlace (option_map (λ v. view v.now) o)) }
{
    match at(place, member) {
        None => Ok(None),
        Some(value) => Ok(Some(object_of(value, member)?)),
    }
}

/// A text, or the other one where it is absent.
pub fn word_or<'v>(
    place: Option<&'v Value>,
    member: Member,
    other: &'v str,
) -> Result<&'v str, ObjectError>
    ensures { GivesBy (λ s. s.now) result (text_or member other.now (option_map (λ v. view v.now) place.entry)) }
{
    match at(place, member) {
        None => Ok(other),
        Some(value) => word_of(value, member),
    }
}

/// A copy of a text, or of the other one where it is absent.
pub fn text_or(
    alloc: Global,
    place: Option<&Value>,
    member: Member,
    other: &str,
) -> Result<Text, ObjectError>
    ensures { Gives result (text_or member other.now (option_map (λ v. view v.now) place.entry)) }
{
    match at(place, member) {
        None => Ok(Text::new(alloc, other)?),
        Some(value) => Ok(Text::new(alloc, word_of(value, member)?)?),
    }
}

/// A copy of a text that may be absent.
pub fn optional_text(
    alloc: Global,
    place: Option<&Value>,
    member: Member,
) -> Result<Option<Text>, ObjectError>
    ensures { Gives result (optional_text member (option_map (λ v. view v.now) place.entry)) }
{
    match at(place, member) {
        None => Ok(None),
        Some(value) => Ok(Some(Text::new(alloc, word_of(value, member)?)?)),
    }
}

/// The items of an array that may be absent.
pub fn optional_items<'v>(
    place: Option<&'v Value>,
    member: Member,
) -> Result<Option<&'v Vec<Value>>, ObjectError>
    ensures { GivesBy (option_map (λ v. items_view v.now.items)) result (optional_items member (option_map (λ v. view v.now) place.entry)) }
{
    match at(place, member) {
        None => Ok(None),
        Some(value) => Ok(Some(items_of(value, member)?)),
    }
}

fn texts_of(alloc: Global, values: &[Value], member: Member) -> Result<Names, ObjectError>
    ensures { Gives result (texts_from member (items_view values.now) []) }
{
    let mut found = Names::new(alloc);
    for value in values {
        let text = Text::new(alloc, word_of(value, member)?)?;
        found.push(&text)?;
    }
    Ok(found)
}

/// The texts of an array, none where it is absent.
pub fn texts_at(alloc: Global, place: Option<&Value>, member: Member) -> Result<Names, ObjectError>
    ensures { Gives result (texts_at member (option_map (λ v. view v.now) place.entry)) }
{
    match optional_items(place, member)? {
        None => Ok(Names::new(alloc)),
        Some(values) => texts_of(alloc, values, member),
    }
}

fn pairs_of(alloc: Global, map: &Map<String, Value>, member: Member) -> Result<Pairs, ObjectError>
    ensures { Gives result (pairs_from member (members_view map.now.entries) []) }
{
    let mut found = Pairs::new(alloc);
    for (key, value) in map.iter() {
        let text = Text::new(alloc, word_of(value, member)?)?;
        let key = Text::new(alloc, key.as_str())?;
        found.set(&key, &text)?;
    }
    Ok(found)
}

fn pairs_in(alloc: Global, value: &Value, member: Member) -> Result<Pairs, ObjectError>
    ensures { Gives result (pairs_in member (view value.now)) }
{
    match value.as_object() {
        Some(map) => pairs_of(alloc, map, member),
        None => Err(ObjectError::WrongType(member)),
    }
}

/// The pairs of an object of texts, none where it is absent.
pub fn pairs_at(alloc: Global, place: Option<&Value>, member: Member) -> Result<Pairs, ObjectError>
    ensures { Gives result (pairs_at member (option_map (λ v. view v.now) place.entry)) }
{
    match at(place, member) {
        None => Ok(Pairs::new(alloc)),
        Some(value) => pairs_in(alloc, value, member),
    }
}

fn uid_named(word: &str, member: Member) -> Result<Uid, ObjectError>
    ensures { Gives result (uid_named member word.now) }
{
    match Uid::parse(word) {
        Some(uid) => Ok(uid),
        None => Err(ObjectError::WrongType(member)),
    }
}

/// A UUID that may be absent.
pub fn uid_at(place: Option<&Value>, member: Member) -> Result<Option<Uid>, ObjectError>
    ensures { Gives result (uid_at member (option_map (λ v. view v.now) place.entry)) }
{
    match at(place, member) {
        None => Ok(None),
        Some(value) => Ok(Some(uid_named(word_of(value, member)?, member)?)),
    }
}

fn stamp_named(alloc: Global, word: &str, member: Member) -> Result<Text, ObjectError>
    ensures { Gives result (stamp_named member word.now) }
{
    if word.len() == 20 {
        Ok(Text::new(alloc, word)?)
    } else {
        Err(ObjectError::WrongType(member))
    }
}

/// A moment in 20 bytes that may be absent. Null is as absent.
pub fn stamp_at(
    alloc: Global,
    place: Option<&Value>,
    member: Member,
) -> Result<Option<Text>, ObjectError>
    ensures { Gives result (stamp_at member (option_map (λ v. view v.now) place.entry)) }
{
    match unless_null(at(place, member)) {
        None => Ok(None),
        Some(value) => Ok(Some(stamp_named(alloc, word_of(value, member)?, member)?)),
    }
}

/// The same, and the empty text where it is absent.
pub fn stamp_or_empty(
    alloc: Global,
    place: Option<&Value>,
    member: Member,
) -> Result<Text, ObjectError>
    ensures { Gives result (stamp_or_empty member (option_map (λ v. view v.now) place.entry)) }
{
    match stamp_at(alloc, place, member)? {
        None => Ok(Text::new(alloc, "")?),
        Some(stamp) => Ok(stamp),
    }
}

/// The greatest version, 2^62.
const MOST_VERSION: u64 = 0x4000_0000_0000_0000;

fn are_digits(bytes: &[u8]) -> bool
    ensures { result ≡ list_all is_ascii_digit bytes.now }
{
    for byte in bytes {
        if !byte.is_ascii_digit() {
            return false;
        }
    }
    true
}

#[tactic(auto, using(crate::proofs::Versions::version_accepted, crate::proofs::Versions::version_large))]
fn number_of(word: &str) -> Option<u64>
    requires some { 0 < length word.now }
    requires digits { list_all is_ascii_digit word.now ≡ true }
    ensures { result ≡ (if is_version word.now then Some (digits_value 10 word.now) else None) }
{
    match word.parse::<u64>() {
        Ok(version) => {
            if version <= MOST_VERSION {
                Some(version)
            } else {
                None
            }
        }
        Err(_) => None,
    }
}

fn version_in(word: &str) -> Option<u64>
    ensures { result ≡ (if is_version word.now then Some (digits_value 10 word.now) else None) }
{
    if word.is_empty() || !are_digits(word.as_bytes()) {
        return None;
    }
    number_of(word)
}

fn version_named(word: &str, member: Member) -> Result<u64, ObjectError>
    ensures { Gives result (version_named member word.now) }
{
    match version_in(word) {
        Some(version) => Ok(version),
        None => Err(ObjectError::WrongType(member)),
    }
}

/// The number of a text of digits up to 2^62, 0 where it is absent.
pub fn version_at(place: Option<&Value>, member: Member) -> Result<u64, ObjectError>
    ensures { Gives result (version_at member (option_map (λ v. view v.now) place.entry)) }
{
    version_named(word_or(place, member, "0")?, member)
}

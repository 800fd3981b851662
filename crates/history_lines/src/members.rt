//! What the members of a value in a line give.

ghost use Rattle.std.specs.Prelude.{[], Some, option_map};
ghost use Rattle.serde_json.specs.View.{view, items_view};
ghost use Rattle.json_text.specs.Look.{text_in};
ghost use Rattle.object_text.specs.declared.errors.Member.TheVariants as members;
ghost use Rattle.object_text.specs.MemberReaders.{pairs_at};
ghost use Rattle.object_text.specs.PartReaders.{modes_from, no_modes};
ghost use Rattle.history_lines.specs.Answers.{PartGives, PartGivesBy, taken};
ghost use Rattle.history_lines.specs.Members.{look_in, standing, text_at, filled_at, some_text_at, number_in, number_at, some_number_at, flag_at, uid_in, uid_at, some_uid_at, quantity_in, some_amount_at, object_in, object_at, items_from, list_in, list_at, some_list_at, modes_at, some_labels_at, kind_at, key_at, data_id_at, some_topology_at};

use crate::errors::Unread;
use json_text::look::{boolean_in, items_in, text_in, whole_in};
use kube_types::items::Items;
use kube_types::key::Key;
use kube_types::objects::{Amount, DataId, Object};
use kube_types::pairs::Pairs;
use kube_types::parts::{Kind, Modes};
use kube_types::text::Text;
use kube_types::uid::Uid;
use kube_types::words::Worded;
use object_text::errors::Member;
use object_text::member_readers::pairs_at;
use object_text::part_readers::{amount_counted, modes_of};
use object_text::reading::object_of;
use serde_json::Value;
use std::alloc::Global;

/// A value that an item of an array gives.
pub trait FromJson: Drop {
    ghost use Rattle.std.specs.Prelude.{Option};
    ghost use Rattle.serde_json.specs.Data.{Data};
    ghost use Rattle.serde_json.specs.View.{view};
    ghost use Rattle.history_lines.specs.Answers.{PartGives};

    ghost read: { Data → Option Self };

    fn read(alloc: Global, value: &Value) -> Result<Self, Unread>
        ensures { PartGives result (read (view value.now)) };
}

/// The value that is there.
pub(crate) fn found<T>(value: Option<T>) -> Result<T, Unread>
    ensures { PartGives result value }
{
    match value {
        Some(value) => Ok(value),
        None => Err(Unread::NotCanonical),
    }
}

/// The member of this name.
pub fn member_at<'v>(value: &'v Value, name: &str) -> Result<&'v Value, Unread>
    ensures { PartGivesBy (λ v. view v.now) result (look_in (view value.now) name.now) }
{
    match value.get(name) {
        Some(member) => Ok(member),
        None => Err(Unread::NotCanonical),
    }
}

/// The first of these whose member stands.
pub(crate) fn standing<T: Worded>(all: &[T], value: &Value) -> Result<T, Unread>
    ensures { PartGives result (standing T.word all.now (look_in (view value.now))) }
{
    for one in all {
        if value.get(one.word()).is_some() {
            return Ok(*one);
        }
    }
    Err(Unread::NotCanonical)
}

// ---- texts, numbers, booleans

fn word_in<'v>(value: Option<&'v Value>) -> Result<&'v str, Unread>
    ensures { PartGivesBy (λ s. s.now) result (text_in (option_map (λ v. view v.now) value.entry)) }
{
    match text_in(value) {
        Some(word) => Ok(word),
        None => Err(Unread::NotCanonical),
    }
}

/// A text, as it stands in the value.
pub fn word_at<'v>(value: &'v Value, name: &str) -> Result<&'v str, Unread>
    ensures { PartGivesBy (λ s. s.now) result (text_at name.now (look_in (view value.now))) }
{
    word_in(value.get(name))
}

/// A copy of a text.
pub fn text_at(alloc: Global, value: &Value, name: &str) -> Result<Text, Unread>
    ensures { PartGives result (text_at name.now (look_in (view value.now))) }
{
    let word = word_at(value, name)?;
    Ok(Text::new(alloc, word)?)
}

/// A copy of a text, the empty one where it is absent.
pub fn filled_at(alloc: Global, value: &Value, name: &str) -> Result<Text, Unread>
    ensures { PartGives result (filled_at name.now (look_in (view value.now))) }
{
    match value.get(name) {
        None => Ok(Text::new(alloc, "")?),
        Some(member) => Ok(Text::new(alloc, word_in(Some(member))?)?),
    }
}

/// A copy of a text that may be absent.
pub fn some_text_at(alloc: Global, value: &Value, name: &str) -> Result<Option<Text>, Unread>
    ensures { PartGives result (some_text_at name.now (look_in (view value.now))) }
{
    match value.get(name) {
        None => Ok(None),
        Some(member) => Ok(Some(Text::new(alloc, word_in(Some(member))?)?)),
    }
}

/// A whole number.
pub fn number_at(value: &Value, name: &str) -> Result<u64, Unread>
    ensures { PartGives result (number_at name.now (look_in (view value.now))) }
{
    found(whole_in(value.get(name)))
}

/// A whole number that may be absent.
pub fn some_number_at(value: &Value, name: &str) -> Result<Option<u64>, Unread>
    ensures { PartGives result (some_number_at name.now (look_in (view value.now))) }
{
    match value.get(name) {
        None => Ok(None),
        Some(member) => Ok(Some(found(whole_in(Some(member)))?)),
    }
}

/// A boolean.
pub fn flag_at(value: &Value, name: &str) -> Result<bool, Unread>
    ensures { PartGives result (flag_at name.now (look_in (view value.now))) }
{
    found(boolean_in(value.get(name)))
}

impl FromJson for u64 {
    ghost use Rattle.history_lines.specs.Members.{number_in};

    ghost read = { number_in };

    fn read(_alloc: Global, value: &Value) -> Result<u64, Unread> {
        found(whole_in(Some(value)))
    }
}

// ---- ids and amounts

fn uid_in(value: &Value) -> Result<Uid, Unread>
    ensures { PartGives result (uid_in (view value.now)) }
{
    let word = word_in(Some(value))?;
    found(Uid::parse(word))
}

/// An id.
pub fn uid_at(value: &Value, name: &str) -> Result<Uid, Unread>
    ensures { PartGives result (uid_at name.now (look_in (view value.now))) }
{
    uid_in(member_at(value, name)?)
}

/// An id that may be absent.
pub fn some_uid_at(value: &Value, name: &str) -> Result<Option<Uid>, Unread>
    ensures { PartGives result (some_uid_at name.now (look_in (view value.now))) }
{
    match value.get(name) {
        None => Ok(None),
        Some(member) => Ok(Some(uid_in(member)?)),
    }
}

impl FromJson for Uid {
    ghost use Rattle.history_lines.specs.Members.{uid_in};

    ghost read = { uid_in };

    fn read(_alloc: Global, value: &Value) -> Result<Uid, Unread> {
        uid_in(value)
    }
}

#[tactic(auto, using(crate::proofs::Taken::taken_fails))]
fn quantity_in(alloc: Global, value: &Value) -> Result<Amount, Unread>
    ensures { PartGives result (quantity_in (view value.now)) }
{
    Ok(amount_counted(alloc, value, Member::Storage)?)
}

/// A quantity that may be absent.
pub fn some_amount_at(alloc: Global, value: &Value, name: &str) -> Result<Option<Amount>, Unread>
    ensures { PartGives result (some_amount_at name.now (look_in (view value.now))) }
{
    match value.get(name) {
        None => Ok(None),
        Some(member) => Ok(Some(quantity_in(alloc, member)?)),
    }
}

// ---- objects, lists and maps

impl FromJson for Object {
    ghost use Rattle.history_lines.specs.Members.{object_in};

    ghost read = { object_in };

    #[tactic(auto, using(crate::proofs::Taken::taken_fails))]
    fn read(alloc: Global, value: &Value) -> Result<Object, Unread> {
        Ok(object_of(alloc, value)?)
    }
}

/// An object, whatever its length.
pub fn object_at(alloc: Global, value: &Value, name: &str) -> Result<Object, Unread>
    ensures { PartGives result (object_at name.now (look_in (view value.now))) }
{
    Object::read(alloc, member_at(value, name)?)
}

fn items_of<T: FromJson>(alloc: Global, values: &[Value]) -> Result<Items<T>, Unread>
    ensures { PartGives result (items_from T.read (items_view values.now) []) }
{
    let mut found = Items::new(alloc);
    for value in values {
        found.push(T::read(alloc, value)?)?;
    }
    Ok(found)
}

fn list_in<T: FromJson>(alloc: Global, value: Option<&Value>) -> Result<Items<T>, Unread>
    ensures { PartGives result (list_in T.read (option_map (λ v. view v.now) value.entry)) }
{
    match items_in(value) {
        Some(values) => items_of(alloc, values),
        None => Err(Unread::NotCanonical),
    }
}

/// What each item of an array gives, in order.
pub fn list_at<T: FromJson>(alloc: Global, value: &Value, name: &str) -> Result<Items<T>, Unread>
    ensures { PartGives result (list_at T.read name.now (look_in (view value.now))) }
{
    list_in(alloc, value.get(name))
}

/// The same of an array that may be absent: nothing then.
pub fn some_list_at<T: FromJson>(
    alloc: Global,
    value: &Value,
    name: &str,
) -> Result<Items<T>, Unread>
    ensures { PartGives result (some_list_at T.read name.now (look_in (view value.now))) }
{
    match value.get(name) {
        None => Ok(Items::new(alloc)),
        Some(member) => list_in(alloc, Some(member)),
    }
}

#[tactic(auto, using(crate::proofs::Taken::taken_fails))]
fn modes_in(values: &[Value]) -> Result<Modes, Unread>
    ensures { PartGives result (taken (modes_from (items_view values.now) no_modes)) }
{
    Ok(modes_of(values)?)
}

/// Access modes.
pub fn modes_at(value: &Value, name: &str) -> Result<Modes, Unread>
    ensures { PartGives result (modes_at name.now (look_in (view value.now))) }
{
    match items_in(value.get(name)) {
        Some(values) => modes_in(values),
        None => Err(Unread::NotCanonical),
    }
}

#[tactic(auto, using(crate::proofs::Taken::taken_fails))]
fn labels_in(alloc: Global, value: &Value) -> Result<Pairs, Unread>
    ensures { PartGives result (taken (pairs_at members.Labels (Some (view value.now)))) }
{
    Ok(pairs_at(alloc, Some(value), Member::Labels)?)
}

/// Labels that may be absent.
pub fn some_labels_at(alloc: Global, value: &Value) -> Result<Option<Pairs>, Unread>
    ensures { PartGives result (some_labels_at (look_in (view value.now))) }
{
    match value.get("labels") {
        None => Ok(None),
        Some(_) => Ok(Some(labels_in(alloc, value)?)),
    }
}

// ---- keys, ids of data, topologies

/// The kind of an object.
pub fn kind_at(value: &Value) -> Result<Kind, Unread>
    ensures { PartGives result (kind_at (look_in (view value.now))) }
{
    let word = word_at(value, "kind")?;
    found(Kind::named(word))
}

/// The key of an object.
pub fn key_at(alloc: Global, value: &Value) -> Result<Key, Unread>
    ensures { PartGives result (key_at (look_in (view value.now))) }
{
    let kind = kind_at(value)?;
    let namespace = filled_at(alloc, value, "namespace")?;
    let name = text_at(alloc, value, "name")?;
    Ok(Key {
        kind,
        namespace,
        name,
    })
}

/// The id of data.
pub fn data_id_at(alloc: Global, value: &Value) -> Result<DataId, Unread>
    ensures { PartGives result (data_id_at (look_in (view value.now))) }
{
    let driver = text_at(alloc, value, "driver")?;
    let id = text_at(alloc, value, "id")?;
    Ok(DataId { driver, id })
}

/// A label and its value, where the label stands.
pub fn topology_at(alloc: Global, value: &Value) -> Result<Option<(Text, Text)>, Unread>
    ensures { PartGives result (some_topology_at (look_in (view value.now))) }
{
    match value.get("label") {
        None => Ok(None),
        Some(member) => {
            let label = Text::new(alloc, word_in(Some(member))?)?;
            let value = text_at(alloc, value, "value")?;
            Ok(Some((label, value)))
        }
    }
}

//! What the members of a line give.

ghost use Rattle.std.specs.Prelude.{◌≡◌, option_map};
ghost use Rattle.serde_json.specs.View.{view};
ghost use Rattle.kube_parts.specs.Named.{kind_named};
ghost use Rattle.object_text.specs.PartReaders.{amount_in};
ghost use Rattle.object_text.specs.Listing.{item_of};
ghost use Rattle.object_text.specs.declared.errors.Member.TheVariants as manifests;
ghost use Rattle.script_lines.specs.Answers.{MemberGives, MemberGivesBy};
ghost use Rattle.script_lines.specs.Steps.Results.{object_line_error, size_line_error};
ghost use Rattle.script_lines.specs.Actors.{actor_named};
ghost use Rattle.script_lines.specs.Members.{at as at_line, needed, text_of, text_at, object_value_of, whole_of, count_at, claims_at, most_call, user_at, kind_from, kind_at, namespace_at, condition_at, key_at, object_taken, object_at, actor_from, actor_at, when_named, when_at, size_taken, size_at, value_from, topology_at};

use crate::actors::{Actor, actor_named};
use crate::errors::{LineError, Reason};
use crate::keys::is_namespaced;
use crate::line_member::LineMember;
use json_text::look::unless_null;
use kube_types::key::Key;
use kube_types::objects::{Amount, Object};
use kube_types::pairs::Pairs;
use kube_types::parts::Kind;
use kube_types::text::Text;
use kube_types::uid::Uid;
use object_text::errors::{Member, ObjectError};
use object_text::listing::item_of;
use object_text::member_readers::{uid_at, word_or};
use object_text::part_readers::amount_counted;
use serde_json::Value;
use std::alloc::Global;

/// The greatest number of a call.
const MOST_CALL: u64 = 999_999_999;

/// How many claims a quota may allow.
const MOST_CLAIMS: u64 = 1024;

/// How many users there are.
const USERS: u64 = 4;

/// The member of the line.
pub fn at<'v>(line: &'v Value, member: LineMember) -> Option<&'v Value>
    ensures { option_map (λ v. view v.now) result ≡ at_line member (view line.now) }
{
    line.get(member.name())
}

/// A member that has to be there.
pub fn needed<'v>(line: &'v Value, member: LineMember) -> Result<&'v Value, LineError>
    ensures { MemberGivesBy (λ v. view v.now) result (needed member (view line.now)) }
{
    match unless_null(at(line, member)) {
        Some(value) => Ok(value),
        None => Err(LineError::Refused(Reason::Missing(member))),
    }
}

// ---- texts, objects and numbers

/// The text that the value is.
pub fn word_of<'v>(value: &'v Value, member: LineMember) -> Result<&'v str, LineError>
    ensures { MemberGivesBy (λ s. s.now) result (text_of member (view value.now)) }
{
    match value.as_str() {
        Some(word) => Ok(word),
        None => Err(LineError::Refused(Reason::WrongType(member))),
    }
}

/// A text that has to be there.
pub fn word_at<'v>(line: &'v Value, member: LineMember) -> Result<&'v str, LineError>
    ensures { MemberGivesBy (λ s. s.now) result (text_at member (view line.now)) }
{
    word_of(needed(line, member)?, member)
}

/// A copy of the text that the value is.
pub fn text_of(alloc: Global, value: &Value, member: LineMember) -> Result<Text, LineError>
    ensures { MemberGives result (text_of member (view value.now)) }
{
    let word = word_of(value, member)?;
    Ok(Text::new(alloc, word)?)
}

/// A copy of a text that has to be there.
pub fn text_at(alloc: Global, line: &Value, member: LineMember) -> Result<Text, LineError>
    ensures { MemberGives result (text_at member (view line.now)) }
{
    let word = word_at(line, member)?;
    Ok(Text::new(alloc, word)?)
}

/// The value, where it is an object.
pub fn object_of<'v>(value: &'v Value, member: LineMember) -> Result<&'v Value, LineError>
    ensures { MemberGivesBy (λ v. view v.now) result (object_value_of member (view value.now)) }
{
    match value.as_object() {
        Some(_) => Ok(value),
        None => Err(LineError::Refused(Reason::WrongType(member))),
    }
}

fn whole_of(value: &Value, member: LineMember, least: u64, most: u64) -> Result<u64, LineError>
    ensures { MemberGives result (whole_of member least most (view value.now)) }
{
    match value {
        Value::Number(number) => {
            if number.is_f64() {
                return Err(LineError::Refused(Reason::NotWhole));
            }
            match number.as_u64() {
                Some(n) => {
                    if n < least || n > most {
                        return Err(LineError::Refused(Reason::BadValue(member)));
                    }
                    Ok(n)
                }
                None => Err(LineError::Refused(Reason::BadValue(member))),
            }
        }
        _ => Err(LineError::Refused(Reason::WrongType(member))),
    }
}

/// A whole number from 1 to the greatest, which has to be there.
pub fn count_at(line: &Value, member: LineMember, most: u64) -> Result<u64, LineError>
    ensures { MemberGives result (count_at member most (view line.now)) }
{
    let value = needed(line, member)?;
    whole_of(value, member, 1, most)
}

/// How many claims a quota allows: from 0 to 1,024, which has to be there.
pub fn claims_at(line: &Value) -> Result<u64, LineError>
    ensures { MemberGives result (claims_at (view line.now)) }
{
    let value = needed(line, LineMember::Claims)?;
    whole_of(value, LineMember::Claims, 0, MOST_CLAIMS)
}

/// The number of a call, which has to be there.
pub fn call_at(line: &Value, member: LineMember) -> Result<u64, LineError>
    ensures { MemberGives result (count_at member most_call (view line.now)) }
{
    count_at(line, member, MOST_CALL)
}

/// The user of a line.
pub fn user_at(line: &Value) -> Result<u64, LineError>
    ensures { MemberGives result (user_at (view line.now)) }
{
    match at(line, LineMember::User) {
        None => Ok(1),
        Some(value) => whole_of(value, LineMember::User, 1, USERS),
    }
}

// ---- keys

fn kind_named(word: &str) -> Result<Kind, LineError>
    ensures { MemberGives result (kind_from (kind_named word.now)) }
{
    match Kind::named(word) {
        Some(kind) => Ok(kind),
        None => Err(LineError::Refused(Reason::UnknownKind)),
    }
}

/// The kind of a line.
pub fn kind_at(line: &Value) -> Result<Kind, LineError>
    ensures { MemberGives result (kind_at (view line.now)) }
{
    let word = word_at(line, LineMember::Of(Member::Kind))?;
    kind_named(word)
}

#[tactic(auto, using(crate::proofs::Taken::taken_fails))]
fn namespace_at(alloc: Global, namespaced: bool, line: &Value) -> Result<Text, LineError>
    ensures { MemberGives result (namespace_at namespaced (view line.now)) }
{
    let word = word_or(Some(line), Member::Namespace, "default")?;
    if namespaced {
        Ok(Text::new(alloc, word)?)
    } else {
        Ok(Text::new(alloc, "")?)
    }
}

/// The UID that the object of a line has to have, where there is one.
#[tactic(auto, using(crate::proofs::Taken::taken_fails))]
pub fn condition_at(line: &Value) -> Result<Option<Uid>, LineError>
    ensures { MemberGives result (condition_at (view line.now)) }
{
    Ok(uid_at(Some(line), Member::Uid)?)
}

/// The key of a line.
#[tactic(auto, unfolding(crate::specs::Members::key_at))]
pub fn key_at(alloc: Global, line: &Value) -> Result<Key, LineError>
    ensures { MemberGives result (key_at (view line.now)) }
{
    let kind = kind_at(line)?;
    let namespace = namespace_at(alloc, is_namespaced(kind), line)?;
    let name = text_at(alloc, line, LineMember::Of(Member::Name))?;
    Ok(Key {
        kind,
        namespace,
        name,
    })
}

// ---- objects

fn object_error(e: ObjectError) -> LineError
    ensures { result ≡ object_line_error e }
{
    match e {
        ObjectError::TooLong => LineError::Refused(Reason::BadValue(LineMember::Object)),
        ObjectError::NotObject => LineError::Refused(Reason::WrongType(LineMember::Object)),
        _ => LineError::from(e),
    }
}

#[tactic(auto, using(crate::proofs::Taken::object_fails))]
fn object_in(alloc: Global, value: &Value) -> Result<Object, LineError>
    ensures { MemberGives result (object_taken (item_of (view value.now))) }
{
    match item_of(alloc, value) {
        Ok(object) => Ok(object),
        Err(e) => Err(object_error(e)),
    }
}

/// The object of a line.
pub fn object_at(alloc: Global, line: &Value) -> Result<Object, LineError>
    ensures { MemberGives result (object_at (view line.now)) }
{
    let value = needed(line, LineMember::Object)?;
    object_in(alloc, value)
}

// ---- actors

fn known_actor(alloc: Global, agents: &Pairs, word: &str) -> Result<Actor, LineError>
    ensures { MemberGives result (actor_from (actor_named agents.now word.now)) }
{
    match actor_named(alloc, agents, word)? {
        Some(actor) => Ok(actor),
        None => Err(LineError::Refused(Reason::BadValue(LineMember::Actor))),
    }
}

/// The actor of a line.
pub fn actor_at(alloc: Global, agents: &Pairs, line: &Value) -> Result<Actor, LineError>
    ensures { MemberGives result (actor_at agents.now (view line.now)) }
{
    let word = word_at(line, LineMember::Actor)?;
    known_actor(alloc, agents, word)
}

fn when_named(word: &str) -> Result<bool, LineError>
    ensures { MemberGives result (when_named word.now) }
{
    if word == "before" {
        Ok(false)
    } else if word == "after" {
        Ok(true)
    } else {
        Err(LineError::Refused(Reason::WrongType(LineMember::When)))
    }
}

/// Whether the call of a line is lost after its effect.
pub fn when_at(line: &Value) -> Result<bool, LineError>
    ensures { MemberGives result (when_at (view line.now)) }
{
    let word = word_at(line, LineMember::When)?;
    when_named(word)
}

// ---- pools

fn size_error(e: ObjectError) -> LineError
    ensures { result ≡ size_line_error e }
{
    match e {
        ObjectError::Missing(_) => LineError::Refused(Reason::Missing(LineMember::Bytes)),
        ObjectError::WrongType(_) => LineError::Refused(Reason::WrongType(LineMember::Bytes)),
        ObjectError::BadQuantity(_) => LineError::Refused(Reason::BadQuantity(LineMember::Bytes)),
        _ => LineError::from(e),
    }
}

#[tactic(auto, using(crate::proofs::Taken::size_fails))]
fn size_in(alloc: Global, value: &Value) -> Result<Amount, LineError>
    ensures { MemberGives result (size_taken (amount_in manifests.Storage (view value.now))) }
{
    match amount_counted(alloc, value, Member::Storage) {
        Ok(amount) => Ok(amount),
        Err(e) => Err(size_error(e)),
    }
}

/// The size of a pool.
pub fn size_at(alloc: Global, line: &Value) -> Result<Amount, LineError>
    ensures { MemberGives result (size_at (view line.now)) }
{
    let value = needed(line, LineMember::Bytes)?;
    size_in(alloc, value)
}

fn value_of_label(
    alloc: Global,
    label: Text,
    value: Option<&Value>,
) -> Result<Option<(Text, Text)>, LineError>
    ensures { MemberGives result (value_from label (option_map (λ v. view v.now) value.entry)) }
{
    match value {
        None => Err(LineError::Refused(Reason::Missing(LineMember::Value))),
        Some(value) => Ok(Some((label, text_of(alloc, value, LineMember::Value)?))),
    }
}

/// The topology of a pool.
pub fn topology_at(alloc: Global, line: &Value) -> Result<Option<(Text, Text)>, LineError>
    ensures { MemberGives result (topology_at (view line.now)) }
{
    let value = at(line, LineMember::Value);
    match at(line, LineMember::Label) {
        None => match value {
            None => Ok(None),
            Some(_) => Err(LineError::Refused(Reason::Missing(LineMember::Label))),
        },
        Some(label) => {
            let label = text_of(alloc, label, LineMember::Label)?;
            value_of_label(alloc, label, value)
        }
    }
}

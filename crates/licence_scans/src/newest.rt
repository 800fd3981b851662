//! The newest that a seat was told of a key.

ghost use Rattle.std.specs.Prelude.{◌≡◌, ◌↔◌, IsTrue, List, ℕ, None, reverse, if◌then◌else◌};
ghost use Rattle.std.specs.Option.{option_copied};
ghost use Rattle.std.specs.Ordering.{is_eq};
ghost use Rattle.kube_objects.specs.Keys.{key_cmp, key_of, row_at, same_key};
ghost use Rattle.binder_model.specs.Told.{later, listing, lists_key, newest, object_of, of_event, tells_of, told_by_events, told_of};
ghost use Rattle.licence_scans.specs.Keyed.{as_telling, key_at};

use call_types::entry::Entry;
use call_types::reply::{Change, Event, Reply};
use call_types::request::Request;
use kube_types::key::{kind_index, kind_of, meta_of, same_kind};
use kube_types::objects::{Object, Version};
use kube_types::parts::Kind;
use plain_data::copies::Plain;
use std::cmp::Ordering;

/// Whether the object stands under this key.
pub fn is_keyed(object: &Object, kind: Kind, namespace: &str, name: &str) -> bool
    ensures { result ≡ same_key (key_of object.now) (key_at kind namespace.now name.now) }
{
    let meta = meta_of(object);
    same_kind(kind_of(object), kind) && meta.namespace.is(namespace) && meta.name.is(name)
}

/// Whether both objects stand under one key.
pub fn has_key_of(object: &Object, other: &Object) -> bool
    ensures { IsTrue result ↔ (key_of object.now ≡ key_of other.now) }
{
    let meta = meta_of(object);
    let other_meta = meta_of(other);
    if !kind_of(object).same(&kind_of(other)) {
        return false;
    }
    if !meta.namespace.same(&other_meta.namespace) {
        return false;
    }
    meta.name.same(&other_meta.name)
}

fn is_row(object: &Object, kind: Kind, namespace: &str, name: &str) -> bool
    ensures { result ≡ is_eq (key_cmp (key_of object.now) (key_at kind namespace.now name.now)) }
{
    let meta = meta_of(object);
    let order = kind_index(kind_of(object))
        .cmp(&kind_index(kind))
        .then(meta.namespace.as_str().cmp(namespace))
        .then(meta.name.as_str().cmp(name));
    match order {
        Ordering::Equal => true,
        _ => false,
    }
}

/// The object of the key in a list of any order.
fn row_in<'a>(items: &'a [Object], kind: Kind, namespace: &str, name: &str) -> Option<&'a Object>
    ensures { option_copied result ≡ row_at (key_at kind namespace.now name.now) items.now }
{
    for item in items {
        if is_row(item, kind, namespace, name) {
            return Some(item);
        }
    }
    None
}

/// What a list tells of the key: the object, or at the list's version its absence.
fn listing<'a>(
    items: &'a [Object],
    version: Version,
    kind: Kind,
    namespace: &str,
    name: &str,
) -> (Version, Option<&'a Object>)
    ensures { as_telling (Some result) ≡ Some (listing version (row_at (key_at kind namespace.now name.now) items.now)) }
{
    match row_in(items, kind, namespace, name) {
        None => (version, None),
        Some(object) => (meta_of(object).version, Some(object)),
    }
}

fn lists_key(request: &Request, kind: Kind, namespace: &str) -> bool
    ensures { (name : List ℕ) → result ≡ lists_key request.now (key_at kind namespace.now name) }
{
    match request {
        Request::List {
            kind: listed,
            namespace: None,
        } => kind_index(*listed) == kind_index(kind),
        Request::List {
            kind: listed,
            namespace: Some(of),
        } => kind_index(*listed) == kind_index(kind) && of.is(namespace),
        _ => false,
    }
}

/// The one with the greater version, the first of two with the same.
fn later<'a>(
    first: Option<(Version, Option<&'a Object>)>,
    second: Option<(Version, Option<&'a Object>)>,
) -> Option<(Version, Option<&'a Object>)>
    ensures { as_telling result ≡ later (as_telling first.entry) (as_telling second.entry) }
{
    match first {
        None => second,
        Some(one) => match second {
            None => Some(one),
            Some(other) => {
                if one.0 < other.0 {
                    Some(other)
                } else {
                    Some(one)
                }
            }
        },
    }
}

fn event_tells<'a>(
    event: &'a Event,
    kind: Kind,
    namespace: &str,
    name: &str,
) -> Option<(Version, Option<&'a Object>)>
    ensures { as_telling result ≡ (if same_key (key_of event.now.object) (key_at kind namespace.now name.now) then Some (of_event event.now.change event.now.object event.now.version) else None) }
{
    if !is_keyed(&event.object, kind, namespace, name) {
        return None;
    }
    match event.change {
        Change::Deleted => Some((event.version, None)),
        Change::Added => Some((event.version, Some(&event.object))),
        Change::Modified => Some((event.version, Some(&event.object))),
    }
}

fn told_by_events<'a>(
    events: &'a [Event],
    kind: Kind,
    namespace: &str,
    name: &str,
) -> Option<(Version, Option<&'a Object>)>
    ensures { as_telling result ≡ told_by_events events.now (key_at kind namespace.now name.now) }
{
    let mut told = None;
    let mut left = events.len();
    while left > 0 {
        left -= 1;
        told = later(event_tells(&events[left], kind, namespace, name), told);
    }
    told
}

fn tells_of<'a>(
    request: &Request,
    reply: &'a Reply,
    kind: Kind,
    namespace: &str,
    name: &str,
) -> Option<(Version, Option<&'a Object>)>
    ensures { as_telling result ≡ tells_of request.now reply.now (key_at kind namespace.now name.now) }
{
    match reply {
        Reply::Done(object) => {
            if !is_keyed(object, kind, namespace, name) {
                return None;
            }
            Some((meta_of(object).version, Some(object)))
        }
        Reply::Left(object) => {
            if !is_keyed(object, kind, namespace, name) {
                return None;
            }
            Some((meta_of(object).version, None))
        }
        Reply::Listed { items, version } => {
            if !lists_key(request, kind, namespace) {
                return None;
            }
            Some(listing(items.as_slice(), *version, kind, namespace, name))
        }
        Reply::Events(events) => told_by_events(events.events.as_slice(), kind, namespace, name),
        _ => None,
    }
}

fn told_of<'a>(
    entry: &'a Entry,
    kind: Kind,
    namespace: &str,
    name: &str,
) -> Option<(Version, Option<&'a Object>)>
    ensures { as_telling result ≡ told_of entry.now (key_at kind namespace.now name.now) }
{
    if !entry.told {
        return None;
    }
    tells_of(&entry.request, &entry.reply, kind, namespace, name)
}

/// The newest that the seat with these entries, the oldest first, was told of the key, with its version.
pub fn newest<'a>(
    mine: &'a [Entry],
    kind: Kind,
    namespace: &str,
    name: &str,
) -> Option<(Version, Option<&'a Object>)>
    ensures { as_telling result ≡ newest (reverse mine.now) (key_at kind namespace.now name.now) }
{
    let mut found = None;
    for entry in mine {
        found = later(told_of(entry, kind, namespace, name), found);
    }
    found
}

/// The newest told object of the key, unless its absence is newer.
pub fn newest_object<'a>(
    mine: &'a [Entry],
    kind: Kind,
    namespace: &str,
    name: &str,
) -> Option<&'a Object>
    ensures { option_copied result ≡ object_of (newest (reverse mine.now) (key_at kind namespace.now name.now)) }
{
    match newest(mine, kind, namespace, name) {
        None => None,
        Some((_, object)) => object,
    }
}

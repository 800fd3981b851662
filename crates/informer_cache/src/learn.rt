//! What an answer tells, taken into what is known.

ghost use Rattle.std.specs.Prelude.{◌≡◌, ℕ, Some, None, IfOk, OnOk, map, option_map, if◌then◌else◌};
ghost use Rattle.kube_objects.specs.declared.key.Key.{Key};
ghost use Rattle.kube_objects.specs.Keys.{key_of, row_at};
ghost use Rattle.call_types.specs.declared.request.Request.TheVariants as requests;
ghost use Rattle.binder_model.specs.Reading.{Following, follow_on};
ghost use Rattle.binder_model.specs.Told.{later, listing, lists_key, tells_of};
ghost use Rattle.informer_cache.specs.Cache.{keys_in, watch_from};
ghost use Rattle.informer_cache.specs.Knowledge.{telling_in};

use crate::lists::Lists;
use crate::merge::take_list;
use crate::rows::Rows;
use crate::tell::{tell_events, tell_object};
use call_types::reply::{Event, Refusal, Reply};
use call_types::request::Request;
use kube_types::copies::{OutOfMemory, Plain};
use kube_types::items::Items;
use kube_types::key::{Key, key_of, meta_of};
use kube_types::objects::{Object, Version};
use kube_types::parts::Kind;
use std::alloc::Global;

/// Takes a list, where it is one of the kind.
fn learn_list(
    alloc: Global,
    rows: &mut Rows,
    lists: &mut Lists,
    request: &Request,
    version: Version,
    items: &[Object],
) -> Result<(), OutOfMemory>
    ensures kind { rows.new.kind ≡ rows.old.kind }
    ensures told { OnOk result ((k : Key) → k.kind ≡ rows.old.kind → telling_in rows.new lists.new k ≡ later (if lists_key request.now k then Some (listing version (row_at k items.now)) else None) (telling_in rows.old lists.old k)) }
{
    match request {
        Request::List { kind, namespace } => {
            if !kind.same(&rows.kind()) {
                return Ok(());
            }
            take_list(alloc, rows, lists, namespace, version, items)
        }
        _ => Ok(()),
    }
}

/// Takes an answer.
pub fn learn(
    alloc: Global,
    rows: &mut Rows,
    lists: &mut Lists,
    request: &Request,
    reply: &Reply,
) -> Result<(), OutOfMemory>
    ensures kind { rows.new.kind ≡ rows.old.kind }
    ensures told { OnOk result ((k : Key) → k.kind ≡ rows.old.kind → telling_in rows.new lists.new k ≡ later (tells_of request.now reply.now k) (telling_in rows.old lists.old k)) }
{
    match reply {
        Reply::Done(object) => {
            tell_object(alloc, rows, lists, object, meta_of(object).version, true)
        }
        Reply::Left(object) => {
            tell_object(alloc, rows, lists, object, meta_of(object).version, false)
        }
        Reply::Listed { items, version } => {
            learn_list(alloc, rows, lists, request, *version, items.as_slice())
        }
        Reply::Events(events) => tell_events(alloc, rows, lists, events.events.as_slice()),
        _ => Ok(()),
    }
}

/// The version that a watch reached, where the kind is listed.
fn reached(from: Option<Version>, upto: Version) -> Option<Version>
    ensures { result ≡ option_map (λ _. upto) from }
{
    match from {
        Some(_) => Some(upto),
        None => None,
    }
}

/// The version from which the kind may be watched, after this answer.
pub fn from_after(
    kind: Kind,
    request: &Request,
    reply: &Reply,
    from: Option<Version>,
) -> Option<Version>
    ensures { (f : Following) → from ≡ watch_from f → result ≡ watch_from (follow_on request.now reply.now kind f) }
{
    match request {
        Request::List {
            kind: asked,
            namespace: None,
        } => from_list(kind, *asked, reply, from),
        Request::Watch {
            kind: asked,
            from: _,
        } => from_watch(kind, *asked, reply, from),
        _ => from,
    }
}

/// The same after a list of a whole kind.
fn from_list(kind: Kind, asked: Kind, reply: &Reply, from: Option<Version>) -> Option<Version>
    ensures { (f : Following) → from ≡ watch_from f → result ≡ watch_from (follow_on (requests.List asked None) reply.now kind f) }
{
    match reply {
        Reply::Listed { items: _, version } => {
            if asked.same(&kind) {
                Some(*version)
            } else {
                from
            }
        }
        _ => from,
    }
}

/// The same after a watch.
fn from_watch(kind: Kind, asked: Kind, reply: &Reply, from: Option<Version>) -> Option<Version>
    ensures { (start : ℕ) (f : Following) → from ≡ watch_from f → result ≡ watch_from (follow_on (requests.Watch asked start) reply.now kind f) }
{
    match reply {
        Reply::Events(events) => {
            if asked.same(&kind) {
                reached(from, events.upto)
            } else {
                from
            }
        }
        Reply::Refused(Refusal::Gone { oldest: _ }) => {
            if asked.same(&kind) { None } else { from }
        }
        _ => from,
    }
}

#[tactic(auto, using(std::proofs::lemmas::List::map_more))]
fn keys_of_objects(alloc: Global, objects: &[Object]) -> Result<Items<Key>, OutOfMemory>
    ensures { IfOk result (λ keys. keys ≡ map key_of objects.now) }
{
    let mut keys = Items::new(alloc);
    for object in objects {
        keys.push(key_of(alloc, object)?)?;
    }
    Ok(keys)
}

#[tactic(auto, using(std::proofs::lemmas::List::map_more))]
fn keys_of_events(alloc: Global, events: &[Event]) -> Result<Items<Key>, OutOfMemory>
    ensures { IfOk result (λ keys. keys ≡ map (λ e. key_of e.object) events.now) }
{
    let mut keys = Items::new(alloc);
    for event in events {
        keys.push(key_of(alloc, &event.object)?)?;
    }
    Ok(keys)
}

/// The keys of the objects in the answer of a list or a watch.
pub fn keys_in(alloc: Global, reply: &Reply) -> Result<Items<Key>, OutOfMemory>
    ensures { IfOk result (λ keys. keys ≡ keys_in reply.now) }
{
    match reply {
        Reply::Listed { items, version: _ } => keys_of_objects(alloc, items.as_slice()),
        Reply::Events(events) => keys_of_events(alloc, events.events.as_slice()),
        _ => Ok(Items::new(alloc)),
    }
}

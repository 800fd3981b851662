//! What an entry tells, put on the pages of the keys of which it speaks.

ghost use Rattle.std.specs.Prelude.{◌≡◌, ◌∷◌, List, IfOk, OnOk};
ghost use Rattle.kube_objects.specs.declared.objects.Object.{Object};
ghost use Rattle.call_types.specs.declared.entry.Entry.{Entry};
ghost use Rattle.call_types.specs.declared.reply.Reply.TheVariants.{Done};
ghost use Rattle.binder_model.specs.Told.{SomeOf, ToldObject, objects_in, objects_of_event, objects_of_events};
ghost use Rattle.evidence_pages.specs.Parts.{ArePages};

use crate::marks::is_ended_for_good;
use crate::pages::Pages;
use crate::parts::{KeyParts, erased_of, failed_of, uid_in, wanted_by};
use call_types::entry::Entry;
use call_types::reply::{Change, Event, Refusal, Reply};
use call_types::request::{Request, SeatKind};
use kube_types::bindings::{is_deleting, is_ended, is_scheduled};
use kube_types::copies::{OutOfMemory, Plain};
use kube_types::data::data_id;
use kube_types::key::{kind_of, meta_of};
use kube_types::objects::{Claim, DataId, Object, Pod, Volume};
use kube_types::parts::Kind;
use kube_types::text::Text;
use std::alloc::Global;

/// An entry of the same seat that tells the object and nothing else.
fn alone(alloc: Global, entry: &Entry, object: &Object) -> Result<Entry, OutOfMemory>
    ensures { IfOk result (λ e. e.reply ≡ Done object.now) }
{
    Ok(Entry {
        seat: entry.seat,
        kind: entry.kind,
        request: Request::List {
            kind: kind_of(object),
            namespace: None,
        },
        reply: Reply::Done(object.copy(alloc)?),
        told: true,
    })
}

/// Puts the object on the page of the key.
fn tell_at(
    alloc: Global,
    pages: &mut Pages,
    key: &KeyParts<'_>,
    entry: &Entry,
    object: &Object,
) -> Result<(), OutOfMemory>
    ensures { OnOk result ((mine : List Entry) → ToldObject (λ x. x ≡ object.now) mine → ArePages pages.old mine → ArePages pages.new mine) }
{
    let told = alone(alloc, entry, object)?;
    pages.add(alloc, key, told)
}

/// Puts a volume that has ended on the pages of what is erased of its data.
fn tell_over(
    alloc: Global,
    pages: &mut Pages,
    id: &DataId,
    volume: &Volume,
    entry: &Entry,
    object: &Object,
) -> Result<(), OutOfMemory>
    ensures { OnOk result ((mine : List Entry) → ToldObject (λ x. x ≡ object.now) mine → ArePages pages.old mine → ArePages pages.new mine) }
{
    tell_at(alloc, pages, &failed_of(id), entry, object)?;
    if !is_ended_for_good(volume) {
        return Ok(());
    }
    tell_at(alloc, pages, &erased_of(id), entry, object)
}

/// The same, where ops was told it and it has ended.
fn tell_ended(
    alloc: Global,
    pages: &mut Pages,
    volume: &Volume,
    entry: &Entry,
    object: &Object,
) -> Result<(), OutOfMemory>
    ensures { OnOk result ((mine : List Entry) → ToldObject (λ x. x ≡ object.now) mine → ArePages pages.old mine → ArePages pages.new mine) }
{
    if !entry.kind.same(&SeatKind::Ops) {
        return Ok(());
    }
    if !is_ended(volume.phase) {
        return Ok(());
    }
    let id = data_id(alloc, &volume.source)?;
    tell_over(alloc, pages, &id, volume, entry, object)?;
    pages.put_source(volume.meta.uid, id)
}

/// Puts a volume on the page of the claim that it refers to.
fn tell_referring(
    alloc: Global,
    pages: &mut Pages,
    volume: &Volume,
    entry: &Entry,
    object: &Object,
) -> Result<(), OutOfMemory>
    ensures { OnOk result ((mine : List Entry) → ToldObject (λ x. x ≡ object.now) mine → ArePages pages.old mine → ArePages pages.new mine) }
{
    match &volume.claim_ref {
        None => Ok(()),
        Some(reference) => {
            let key = KeyParts {
                kind: Kind::PersistentVolumeClaim,
                namespace: reference.namespace.as_str(),
                name: reference.name.as_str(),
            };
            tell_at(alloc, pages, &key, entry, object)
        }
    }
}

/// Puts a volume on the pages of the other keys of which it speaks.
fn tell_volume(
    alloc: Global,
    pages: &mut Pages,
    volume: &Volume,
    entry: &Entry,
    object: &Object,
) -> Result<(), OutOfMemory>
    ensures { OnOk result ((mine : List Entry) → ToldObject (λ x. x ≡ object.now) mine → ArePages pages.old mine → ArePages pages.new mine) }
{
    tell_ended(alloc, pages, volume, entry, object)?;
    tell_referring(alloc, pages, volume, entry, object)
}

/// Puts a claim on the page of the volume that it names.
fn tell_named(
    alloc: Global,
    pages: &mut Pages,
    claim: &Claim,
    entry: &Entry,
    object: &Object,
) -> Result<(), OutOfMemory>
    ensures { OnOk result ((mine : List Entry) → ToldObject (λ x. x ≡ object.now) mine → ArePages pages.old mine → ArePages pages.new mine) }
{
    if claim.volume_name.as_str().is_empty() {
        return Ok(());
    }
    let key = KeyParts {
        kind: Kind::PersistentVolume,
        namespace: "",
        name: claim.volume_name.as_str(),
    };
    tell_at(alloc, pages, &key, entry, object)
}

/// Puts a claim that is deleting on the page of the pods of its namespace.
fn tell_deleting(
    alloc: Global,
    pages: &mut Pages,
    claim: &Claim,
    entry: &Entry,
    object: &Object,
) -> Result<(), OutOfMemory>
    ensures { OnOk result ((mine : List Entry) → ToldObject (λ x. x ≡ object.now) mine → ArePages pages.old mine → ArePages pages.new mine) }
{
    if !is_deleting(&claim.meta) {
        return Ok(());
    }
    let key = KeyParts {
        kind: Kind::Pod,
        namespace: claim.meta.namespace.as_str(),
        name: "",
    };
    tell_at(alloc, pages, &key, entry, object)
}

/// Puts a pod on the pages of the claims that it names, where an agent was told it on a node.
fn tell_claims(
    alloc: Global,
    pages: &mut Pages,
    pod: &Pod,
    entry: &Entry,
    object: &Object,
) -> Result<(), OutOfMemory>
    ensures { OnOk result ((mine : List Entry) → ToldObject (λ x. x ≡ object.now) mine → ArePages pages.old mine → ArePages pages.new mine) }
{
    if !entry.kind.same(&SeatKind::Agent) {
        return Ok(());
    }
    if !is_scheduled(pod) {
        return Ok(());
    }
    for name in pod.claims.as_slice() {
        let key = KeyParts {
            kind: Kind::PersistentVolumeClaim,
            namespace: pod.meta.namespace.as_str(),
            name: name.as_str(),
        };
        tell_at(alloc, pages, &key, entry, object)?;
    }
    Ok(())
}

/// Puts a claim on the page of what is provisioned for it, where ops was told it.
fn tell_wanting(
    alloc: Global,
    pages: &mut Pages,
    claim: &Claim,
    entry: &Entry,
    object: &Object,
) -> Result<(), OutOfMemory>
    ensures { OnOk result ((mine : List Entry) → ToldObject (λ x. x ≡ object.now) mine → ArePages pages.old mine → ArePages pages.new mine) }
{
    if !entry.kind.same(&SeatKind::Ops) {
        return Ok(());
    }
    match claim.meta.uid {
        None => Ok(()),
        Some(uid) => {
            let text = uid.text(alloc)?;
            tell_at(alloc, pages, &wanted_by(text.as_str()), entry, object)
        }
    }
}

/// Puts a claim on the pages of the other keys of which it speaks.
fn tell_claim(
    alloc: Global,
    pages: &mut Pages,
    claim: &Claim,
    entry: &Entry,
    object: &Object,
) -> Result<(), OutOfMemory>
    ensures { OnOk result ((mine : List Entry) → ToldObject (λ x. x ≡ object.now) mine → ArePages pages.old mine → ArePages pages.new mine) }
{
    tell_deleting(alloc, pages, claim, entry, object)?;
    tell_wanting(alloc, pages, claim, entry, object)?;
    tell_named(alloc, pages, claim, entry, object)
}

/// Puts an object on the pages of the other keys of which it speaks.
fn tell_others(
    alloc: Global,
    pages: &mut Pages,
    entry: &Entry,
    object: &Object,
) -> Result<(), OutOfMemory>
    ensures { OnOk result ((mine : List Entry) → ToldObject (λ x. x ≡ object.now) mine → ArePages pages.old mine → ArePages pages.new mine) }
{
    match object {
        Object::Volume(volume) => tell_volume(alloc, pages, volume, entry, object),
        Object::Claim(claim) => tell_claim(alloc, pages, claim, entry, object),
        Object::Pod(pod) => tell_claims(alloc, pages, pod, entry, object),
        _ => Ok(()),
    }
}

/// Puts an object on the pages of its own key and of the others of which it speaks.
fn tell_object(
    alloc: Global,
    pages: &mut Pages,
    entry: &Entry,
    object: &Object,
) -> Result<(), OutOfMemory>
    ensures { OnOk result ((mine : List Entry) → ToldObject (λ x. x ≡ object.now) mine → ArePages pages.old mine → ArePages pages.new mine) }
{
    let meta = meta_of(object);
    let key = KeyParts {
        kind: kind_of(object),
        namespace: meta.namespace.as_str(),
        name: meta.name.as_str(),
    };
    tell_at(alloc, pages, &key, entry, object)?;
    tell_others(alloc, pages, entry, object)
}

fn tell_list(
    alloc: Global,
    pages: &mut Pages,
    entry: &Entry,
    objects: &[Object],
) -> Result<(), OutOfMemory>
    ensures { OnOk result ((mine : List Entry) → ((o : Object) → SomeOf (λ x. x ≡ o) objects.now → ToldObject (λ x. x ≡ o) mine) → ArePages pages.old mine → ArePages pages.new mine) }
{
    for object in objects {
        tell_object(alloc, pages, entry, object)?;
    }
    Ok(())
}

fn tell_event(
    alloc: Global,
    pages: &mut Pages,
    entry: &Entry,
    event: &Event,
) -> Result<(), OutOfMemory>
    ensures { OnOk result ((mine : List Entry) → ((o : Object) → SomeOf (λ x. x ≡ o) (objects_of_event event.now.change event.now.object) → ToldObject (λ x. x ≡ o) mine) → ArePages pages.old mine → ArePages pages.new mine) }
{
    match event.change {
        Change::Added => tell_object(alloc, pages, entry, &event.object),
        Change::Modified => tell_object(alloc, pages, entry, &event.object),
        Change::Deleted => Ok(()),
    }
}

fn tell_events(
    alloc: Global,
    pages: &mut Pages,
    entry: &Entry,
    events: &[Event],
) -> Result<(), OutOfMemory>
    ensures { OnOk result ((mine : List Entry) → ((o : Object) → SomeOf (λ x. x ≡ o) (objects_of_events events.now) → ToldObject (λ x. x ≡ o) mine) → ArePages pages.old mine → ArePages pages.new mine) }
{
    for event in events {
        tell_event(alloc, pages, entry, event)?;
    }
    Ok(())
}

/// Puts what the answer tells on its pages.
fn tell_reply(alloc: Global, pages: &mut Pages, entry: &Entry) -> Result<(), OutOfMemory>
    ensures { OnOk result ((mine : List Entry) → ((o : Object) → SomeOf (λ x. x ≡ o) (objects_in entry.now.reply) → ToldObject (λ x. x ≡ o) mine) → ArePages pages.old mine → ArePages pages.new mine) }
{
    match &entry.reply {
        Reply::Done(object) => tell_object(alloc, pages, entry, object),
        Reply::Found(object) => tell_object(alloc, pages, entry, object),
        Reply::Listed { items, version: _ } => tell_list(alloc, pages, entry, items.as_slice()),
        Reply::Events(events) => tell_events(alloc, pages, entry, events.events.as_slice()),
        _ => Ok(()),
    }
}

/// Puts a copy of the whole entry on the page of the key.
fn keep_at(
    alloc: Global,
    pages: &mut Pages,
    key: &KeyParts<'_>,
    entry: &Entry,
) -> Result<(), OutOfMemory>
    ensures { OnOk result ((mine : List Entry) → ArePages pages.old mine → ArePages pages.new (entry.now ∷ mine)) }
{
    let kept = entry.copy(alloc)?;
    pages.add(alloc, key, kept)
}

/// Puts what was provisioned on the page of the claim for which it is, by the name of the data.
fn keep_provision(
    alloc: Global,
    pages: &mut Pages,
    name: &Text,
    entry: &Entry,
) -> Result<(), OutOfMemory>
    ensures { OnOk result ((mine : List Entry) → ArePages pages.old mine → ArePages pages.new (entry.now ∷ mine)) }
{
    match uid_in(name.as_str()) {
        None => Ok(()),
        Some(uid) => keep_at(alloc, pages, &wanted_by(uid), entry),
    }
}

/// The page of the calls that were answered as this one, which was to erase the data.
fn page_of_erase<'a>(id: &'a DataId, reply: &Reply) -> Option<KeyParts<'a>> {
    match reply {
        Reply::Erased { removed: _ } => Some(erased_of(id)),
        Reply::Refused(Refusal::BackFault { planned: _ }) => Some(failed_of(id)),
        _ => None,
    }
}

/// Puts a call that erased the data, or failed to, on the page of such calls.
fn keep_erase(
    alloc: Global,
    pages: &mut Pages,
    id: &DataId,
    entry: &Entry,
) -> Result<(), OutOfMemory>
    ensures { OnOk result ((mine : List Entry) → ArePages pages.old mine → ArePages pages.new (entry.now ∷ mine)) }
{
    match page_of_erase(id, &entry.reply) {
        None => Ok(()),
        Some(key) => keep_at(alloc, pages, &key, entry),
    }
}

/// Puts a list of the pods of a namespace on their page.
fn keep_list(
    alloc: Global,
    pages: &mut Pages,
    kind: Kind,
    namespace: &Option<Text>,
    entry: &Entry,
) -> Result<(), OutOfMemory>
    ensures { OnOk result ((mine : List Entry) → ArePages pages.old mine → ArePages pages.new (entry.now ∷ mine)) }
{
    match (kind, namespace) {
        (Kind::Pod, Some(namespace)) => {
            let key = KeyParts {
                kind: Kind::Pod,
                namespace: namespace.as_str(),
                name: "",
            };
            keep_at(alloc, pages, &key, entry)
        }
        _ => Ok(()),
    }
}

/// Puts the whole entry on the page of what its request speaks of: a read of one key, of the pods of a
/// namespace, or a call to the back end.
fn keep_asked(alloc: Global, pages: &mut Pages, entry: &Entry) -> Result<(), OutOfMemory>
    ensures { OnOk result ((mine : List Entry) → ArePages pages.old mine → ArePages pages.new (entry.now ∷ mine)) }
{
    match &entry.request {
        Request::Get { key } => {
            let key = KeyParts {
                kind: key.kind,
                namespace: key.namespace.as_str(),
                name: key.name.as_str(),
            };
            keep_at(alloc, pages, &key, entry)
        }
        Request::List { kind, namespace } => keep_list(alloc, pages, *kind, namespace, entry),
        Request::Provision {
            name,
            provisioner: _,
            bytes: _,
            labels: _,
        } => keep_provision(alloc, pages, name, entry),
        Request::Erase { id } => keep_erase(alloc, pages, id, entry),
        _ => Ok(()),
    }
}

/// Puts an entry, and what it tells, on the pages of the keys of which it speaks.
pub(crate) fn learn(alloc: Global, pages: &mut Pages, entry: &Entry) -> Result<(), OutOfMemory>
    ensures { OnOk result ((mine : List Entry) → ArePages pages.old mine → ArePages pages.new (entry.now ∷ mine)) }
{
    if !entry.told {
        return Ok(());
    }
    keep_asked(alloc, pages, entry)?;
    tell_reply(alloc, pages, entry)
}

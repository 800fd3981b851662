//! Where the index shows that an agent may read a claim or a volume.

ghost use Rattle.std.specs.Prelude.{◌≡◌, ◌<◌, List, IfSome, IsTrue, length, reverse};
ghost use Rattle.call_types.specs.declared.entry.Entry.{Entry};
ghost use Rattle.binder_model.specs.Reading.{AsksForMount, NamesClaim};
ghost use Rattle.binder_model.specs.Told.{SomeOf, ToldObject, ToldPod as WasTold};
ghost use Rattle.evidence_pages.specs.Parts.{ArePages, IsPart};
ghost use Rattle.evidence_agent.specs.Indexed.{IsAgentIndexOf};
ghost use Rattle.evidence_agent.specs.Steps.Seen.{TellsNaming};

use crate::agent::is_taken;
use crate::by_place::topics::{About, Matter};
use crate::index::AgentIndex;
use call_types::entry::Entry;
use call_types::reply::Reply;
use evidence_pages::pages::Pages;
use evidence_pages::sought::Sought;
use kube_types::bindings::is_scheduled;
use kube_types::copies::Plain;
use kube_types::key::Key;
use kube_types::objects::{Object, Pod};
use kube_types::parts::Kind;
use licence_rows::asking::is_volume_key;

// the volume that a claim names

/// Whether the entry told a read that found a claim which names the volume of the key.
fn tells_naming(key: &Key, entry: &Entry) -> bool
    ensures { IsTrue result → TellsNaming key.now entry.now }
{
    if !entry.told {
        return false;
    }
    match &entry.reply {
        Reply::Found(object) => match object {
            Object::Claim(claim) => is_volume_key(key, claim),
            _ => false,
        },
        _ => false,
    }
}

/// Whether the last read that found a claim naming this volume is shown.
fn was_found_naming(index: &AgentIndex, entries: &[Entry], key: &Key) -> bool
    ensures { IsTrue result → SomeOf (TellsNaming key.now) (reverse entries.now) }
{
    let about = About::object(Matter::Naming, Kind::Node, "", key.name.as_str());
    match index.lasts.place(&about) {
        None => false,
        Some(place) => {
            if place >= entries.len() {
                return false;
            }
            tells_naming(key, &entries[place])
        }
    }
}

// the claim that a pod names

/// The object that the entry at this place of a page tells alone.
fn told_on<'a>(page: &'a [Entry], place: usize) -> Option<&'a Object>
    requires { place < length page.now }
    ensures { IfSome result (λ o. (mine : List Entry) → IsPart (reverse page.now) mine → ToldObject (λ x. x ≡ o.now) mine) }
{
    let entry = &page[place];
    if !entry.told {
        return None;
    }
    match &entry.reply {
        Reply::Done(object) => Some(object),
        _ => None,
    }
}

/// Whether the pod is scheduled to a node that was taken, and names the claim of the key.
fn names_claim(index: &AgentIndex, entries: &[Entry], key: &Key, pod: &Pod) -> bool
    requires { IsAgentIndexOf index.now (reverse entries.now) }
    ensures { IsTrue result → NamesClaim (reverse entries.now) key.now pod.now }
{
    if !key.kind.same(&Kind::PersistentVolumeClaim) {
        return false;
    }
    if !key.namespace.same(&pod.meta.namespace) {
        return false;
    }
    if !pod.claims.contains(key.name.as_str()) {
        return false;
    }
    if !is_scheduled(pod) {
        return false;
    }
    is_taken(index, entries, &pod.node)
}

/// Whether the entry at this place of a page tells such a pod.
fn is_named_on(
    index: &AgentIndex,
    entries: &[Entry],
    page: &[Entry],
    place: usize,
    key: &Key,
) -> bool
    requires index { IsAgentIndexOf index.now (reverse entries.now) }
    requires place { place < length page.now }
    ensures { IsPart (reverse page.now) (reverse entries.now) → IsTrue result → WasTold (NamesClaim (reverse entries.now) key.now) (reverse entries.now) }
{
    match told_on(page, place) {
        None => false,
        Some(object) => match object {
            Object::Pod(pod) => names_claim(index, entries, key, pod),
            _ => false,
        },
    }
}

/// Whether the page tells such a pod. The newest entries are looked at first.
fn is_named(index: &AgentIndex, entries: &[Entry], page: &[Entry], key: &Key) -> bool
    requires { IsAgentIndexOf index.now (reverse entries.now) }
    ensures { IsPart (reverse page.now) (reverse entries.now) → IsTrue result → WasTold (NamesClaim (reverse entries.now) key.now) (reverse entries.now) }
{
    let mut left = page.len();
    while left > 0 {
        left -= 1;
        if is_named_on(index, entries, page, left, key) {
            return true;
        }
    }
    false
}

/// Whether the index shows that the object of the key may be read. Of the pods that name a claim the last one is
/// looked at first.
pub fn may_get(index: &AgentIndex, pages: &Pages, entries: &[Entry], key: &Key) -> bool
    requires index { IsAgentIndexOf index.now (reverse entries.now) }
    requires pages { ArePages pages.now (reverse entries.now) }
    ensures { IsTrue result → AsksForMount (reverse entries.now) key.now }
{
    if was_found_naming(index, entries, key) {
        return true;
    }
    let namespace = key.namespace.as_str();
    let name = key.name.as_str();
    let last = pages.about(key.kind, namespace, name, Sought::Scheduled);
    if is_named(index, entries, last, key) {
        return true;
    }
    let page = pages.about(key.kind, namespace, name, Sought::All);
    is_named(index, entries, page, key)
}

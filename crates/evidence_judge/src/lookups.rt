//! What the index of a seat shows of the entries that it was given.

ghost use Rattle.std.specs.Prelude.{◌≡◌, ◌↔◌, [], List, IfSome, IsTrue};
ghost use Rattle.std.specs.Option.{option_copied};
ghost use Rattle.kube_types.specs.Steps.Scan.{class_at};
ghost use Rattle.call_types.specs.declared.entry.Entry.{Entry};
ghost use Rattle.binder_model.specs.Licence.{AreOfKind};
ghost use Rattle.binder_model.specs.ObjectKeys.{node_key};
ghost use Rattle.binder_model.specs.Reading.{IsFrom, IsUnlisted, LacksUid, following_of};
ghost use Rattle.binder_model.specs.Told.{IsNewest, IsNewestAbsent, newest, object_of};
ghost use Rattle.informer_cache.specs.All.{AllStandFor, all_objects};
ghost use Rattle.informer_cache.specs.declared.cache.NextRead.TheVariants as asks;
ghost use Rattle.licence_scans.specs.Keyed.{key_at};
ghost use Rattle.licence_record.specs.Defaulted.{IsDefaultNamed};
ghost use Rattle.evidence_pages.specs.Indexed.{IsIndexOf};
ghost use Rattle.evidence_judge.specs.Steps.Lists.{AreListsOf};

use crate::lists::LastLists;
use call_types::request::SeatKind;
use evidence_pages::index::PageIndex;
use evidence_pages::newest::newest_of;
use evidence_pages::parts::KeyParts;
use informer_cache::cache::NextRead;
use informer_cache::caches::Caches;
use kube_types::copies::Plain;
use kube_types::defaults::default_class;
use kube_types::key::Key;
use kube_types::lookup::Lookup;
use kube_types::objects::{Class, Object, Version};
use kube_types::parts::Kind;
use kube_types::uid::Uid;
use licence_rows::asking::lacks_uid;

/// Whether all entries had this kind.
pub(crate) fn is_kind_of(index: &PageIndex, kind: SeatKind) -> bool
    ensures { (mine : List Entry) → IsIndexOf index.now mine → IsTrue result → AreOfKind kind mine }
{
    match index.kind {
        None => false,
        Some(own) => own.same(&kind),
    }
}

/// The newest told object of the key, where the caches know.
pub(crate) fn newest_in<'a>(
    index: &'a PageIndex,
    kind: Kind,
    namespace: &str,
    name: &str,
) -> Option<&'a Object>
    ensures { IfSome result (λ o. (mine : List Entry) → IsIndexOf index.now mine → IsNewest mine (key_at kind namespace.now name.now) o.now) }
{
    if !index.known {
        return None;
    }
    let key = KeyParts {
        kind,
        namespace,
        name,
    };
    match newest_of(&index.caches, &key) {
        None => None,
        Some(found) => Some(found),
    }
}

/// Whether the nodes were listed, and the newest told of this name is that there is none.
fn is_absent(caches: &Caches, name: &str) -> bool
    ensures { (mine : List Entry) → AllStandFor caches.now mine → IsTrue result → IsNewestAbsent mine (node_key name.now) }
{
    let key = KeyParts {
        kind: Kind::Node,
        namespace: "",
        name,
    };
    match newest_of(caches, &key) {
        Some(_) => false,
        None => match watched_from(caches.ask(Kind::Node)) {
            None => false,
            Some(_from) => true,
        },
    }
}

/// From which version a kind is watched that was listed.
fn watched_from(ask: NextRead) -> Option<Version>
    ensures { IfSome result (λ from. ask ≡ asks.Watch from) }
{
    match ask {
        NextRead::Watch { from } => Some(from),
        NextRead::List => None,
    }
}

/// Whether the newest told of the node is that there is none.
pub(crate) fn shows_absent(index: &PageIndex, name: &str) -> bool
    ensures { (mine : List Entry) → IsIndexOf index.now mine → IsTrue result → IsNewestAbsent mine (node_key name.now) }
{
    if !index.known {
        return false;
    }
    is_absent(&index.caches, name)
}

/// Whether the newest told of the key is no claim with this UID.
pub(crate) fn shows_lacking(index: &PageIndex, key: &Key, uid: Uid) -> bool
    ensures { (mine : List Entry) → IsIndexOf index.now mine → IsTrue result → LacksUid (object_of (newest mine key.now)) uid }
{
    if !index.known {
        return false;
    }
    lacks_uid(index.caches.row(key), uid)
}

// the default class

/// Whether the class is in no namespace.
fn is_unplaced(class: &Class) -> bool
    ensures { IsTrue result ↔ (class.now.meta.namespace ≡ []) }
{
    class.meta.namespace.as_str().is_empty()
}

fn has_name(class: &Class, name: &str) -> bool
    ensures { IsTrue result ↔ (class.now.meta.name ≡ name.now) }
{
    class.meta.name.as_str() == name
}

/// Whether the class, which is in no namespace, has this name.
fn is_class_named(class: &Class, name: &str) -> bool
    ensures { IsTrue result → (class.now.meta.namespace ≡ []) × (class.now.meta.name ≡ name.now) }
{
    if !is_unplaced(class) {
        return false;
    }
    has_name(class, name)
}

/// The class at a place among the classes.
fn class_at(caches: &Caches, place: usize) -> Option<&Class>
    ensures { option_copied result ≡ class_at (all_objects caches.now) place }
{
    match caches.at(Kind::StorageClass, place) {
        Some(Object::Class(class)) => Some(class),
        _ => None,
    }
}

/// Whether the default class among the caches has this name.
fn has_default(caches: &Caches, name: &str) -> bool
    ensures { (mine : List Entry) → AllStandFor caches.now mine → IsTrue result → IsDefaultNamed mine name.now }
{
    match default_class(caches) {
        None => false,
        Some(place) => match class_at(caches, place) {
            None => false,
            Some(class) => is_class_named(class, name),
        },
    }
}

/// Whether the class of this name is the default one of those that were told newest.
pub(crate) fn shows_default(index: &PageIndex, name: &str) -> bool
    ensures { (mine : List Entry) → IsIndexOf index.now mine → IsTrue result → IsDefaultNamed mine name.now }
{
    if !index.known {
        return false;
    }
    has_default(&index.caches, name)
}

// lists and watches

fn is_ask(ask: NextRead, other: NextRead) -> bool
    ensures { IsTrue result ↔ (ask ≡ other) }
{
    ask == other
}

/// Whether the kind is to be listed.
pub(crate) fn shows_unlisted(index: &PageIndex, kind: Kind) -> bool
    ensures { (mine : List Entry) → IsIndexOf index.now mine → IsTrue result → IsUnlisted (following_of mine kind) }
{
    if !index.known {
        return false;
    }
    is_ask(index.caches.ask(kind), NextRead::List)
}

/// Whether a watch of the kind may begin at this version: the one of its list, or the one reached since.
pub(crate) fn shows_from(index: &PageIndex, lists: &LastLists, kind: Kind, from: Version) -> bool
    ensures { (mine : List Entry) → IsIndexOf index.now mine → AreListsOf lists.now mine → IsTrue result → IsFrom from (following_of mine kind) }
{
    if lists.has(kind, from) {
        return true;
    }
    if !index.known {
        return false;
    }
    is_ask(index.caches.ask(kind), NextRead::Watch { from })
}

//! Which newest told objects refer to the object of a key. What is found here is a hint, and the row that asks decides.

ghost use Rattle.std.specs.Prelude.{List, reverse};
ghost use Rattle.call_types.specs.declared.entry.Entry.{Entry};
ghost use Rattle.evidence_pages.specs.Parts.{IsPart};
ghost use Rattle.evidence_pages.specs.Indexed.{IsIndexOf};

use call_types::entry::Entry;
use call_types::reply::{Event, Reply};
use call_types::request::{Request, SeatKind};
use evidence_pages::index::PageIndex;
use evidence_pages::newest::newest_of;
use evidence_pages::parts::KeyParts;
use evidence_pages::sought::Sought;
use informer_cache::caches::Caches;
use kube_types::bindings::is_completed;
use kube_types::copies::{OutOfMemory, Plain};
use kube_types::key::{Key, key_of, kind_index, kind_of, meta_of};
use kube_types::objects::{Claim, Object, Version, Volume};
use kube_types::parts::Kind;
use kube_types::rows::{Ranked, place_of};
use kube_types::text::Text;
use kube_types::uid::Uid;
use std::alloc::Global;
use std::cmp::Ordering;
use std::collections::BTreeMap;

/// The UID to which an object refers, and its own. A claim refers to a volume by its name, so to no UID.
#[derive(Clone, Copy, PartialEq, Eq, PartialOrd, Ord)]
struct Reference {
    to: u128,
    by: u128,
}

/// The object that refers, in the version that was told.
struct Referrer {
    key: Key,
    version: Version,
}

impl Drop for Referrer {
    fn drop(self) {
        let Referrer { key, version: _ } = self;
        drop(key);
    }
}

/// A key, and the newest told objects that refer to it.
struct Referred {
    key: Key,
    referrers: BTreeMap<Reference, Referrer>,
}

impl Drop for Referred {
    fn drop(self) {
        let Referred { key, referrers } = self;
        drop(key);
        drop(referrers);
    }
}

impl<'a> Ranked<KeyParts<'a>> for Referred {
    ghost use Rattle.kube_objects.specs.Keys.{key_cmp};
    ghost use Rattle.evidence_pages.specs.Keyed.{key_by};

    ghost rank = { λ r k. key_cmp r.key (key_by k) };

    fn rank(&self, key: &KeyParts<'a>) -> Ordering {
        kind_index(self.key.kind)
            .cmp(&kind_index(key.kind))
            .then(self.key.namespace.as_str().cmp(key.namespace))
            .then(self.key.name.as_str().cmp(key.name))
    }
}

// what an object refers to

fn number_of(uid: Option<Uid>) -> u128 {
    match uid {
        None => 0,
        Some(uid) => uid.0,
    }
}

/// The claim with a UID to which a volume refers.
fn referred_claim(volume: &Volume) -> Option<(KeyParts<'_>, Reference)> {
    match &volume.claim_ref {
        None => None,
        Some(reference) => match reference.uid {
            None => None,
            Some(to) => Some((
                KeyParts {
                    kind: Kind::PersistentVolumeClaim,
                    namespace: reference.namespace.as_str(),
                    name: reference.name.as_str(),
                },
                Reference {
                    to: to.0,
                    by: number_of(volume.meta.uid),
                },
            )),
        },
    }
}

/// The volume that a completed claim names.
fn named_volume(claim: &Claim) -> Option<(KeyParts<'_>, Reference)> {
    if !is_completed(claim) {
        return None;
    }
    Some((
        KeyParts {
            kind: Kind::PersistentVolume,
            namespace: "",
            name: claim.volume_name.as_str(),
        },
        Reference {
            to: 0,
            by: number_of(claim.meta.uid),
        },
    ))
}

fn reference_of(object: &Object) -> Option<(KeyParts<'_>, Reference)> {
    match object {
        Object::Volume(volume) => referred_claim(volume),
        Object::Claim(claim) => named_volume(claim),
        _ => None,
    }
}

/// The newest told object of the key of this one.
fn newest_like<'a>(caches: &'a Caches, object: &Object) -> Option<&'a Object> {
    let meta = meta_of(object);
    newest_of(
        caches,
        &KeyParts {
            kind: kind_of(object),
            namespace: meta.namespace.as_str(),
            name: meta.name.as_str(),
        },
    )
}

/// The kind of which the entry told a list.
fn listed_kind(entry: &Entry) -> Option<Kind> {
    match (&entry.request, &entry.reply) {
        (
            Request::List { kind, namespace: _ },
            Reply::Listed {
                items: _,
                version: _,
            },
        ) => Some(*kind),
        _ => None,
    }
}

/// Whether the entry told the binder something, whose reads ask for this.
fn is_of_binder(entry: &Entry) -> bool {
    entry.told && entry.kind.same(&SeatKind::Binder)
}

/// The keys to which newest told objects refer, in order.
pub(crate) struct References {
    rows: Vec<Referred>,
}

impl Drop for References {
    fn drop(self) {
        let References { rows } = self;
        drop(rows);
    }
}

impl References {
    /// Nothing was told. It takes no memory.
    pub(crate) fn new(alloc: Global) -> References {
        References {
            rows: Vec::new(alloc),
        }
    }

    // before an entry: what its objects refer to as far as they were told

    fn leave_object(&mut self, object: &Object) {
        match reference_of(object) {
            None => {}
            Some((key, reference)) => match place_of(&self.rows, &key) {
                Ok(at) => {
                    let _ = self.rows[at].referrers.remove(&reference);
                }
                Err(_) => {}
            },
        }
    }

    fn leave_newest(&mut self, caches: &Caches, object: &Object) {
        match newest_like(caches, object) {
            None => {}
            Some(newest) => self.leave_object(newest),
        }
    }

    fn leave_events(&mut self, caches: &Caches, events: &[Event]) {
        for event in events {
            self.leave_newest(caches, &event.object);
        }
    }

    fn leave_all(&mut self, objects: &[Object]) {
        for object in objects {
            self.leave_object(object);
        }
    }

    fn leave_listed(&mut self, caches: &Caches, entry: &Entry) {
        match listed_kind(entry) {
            None => {}
            Some(kind) => self.leave_all(caches.cache(kind).objects()),
        }
    }

    /// Before the caches are told the entry: the objects that it tells refer to nothing more.
    pub(crate) fn leave(&mut self, caches: &Caches, entry: &Entry) {
        if !is_of_binder(entry) {
            return;
        }
        match &entry.reply {
            Reply::Done(object) => self.leave_newest(caches, object),
            Reply::Left(object) => self.leave_newest(caches, object),
            Reply::Events(events) => self.leave_events(caches, events.events.as_slice()),
            _ => self.leave_listed(caches, entry),
        }
    }

    // after it

    fn put(
        &mut self,
        alloc: Global,
        key: &KeyParts<'_>,
        reference: Reference,
        referrer: Referrer,
    ) -> Result<(), OutOfMemory> {
        match place_of(&self.rows, key) {
            Ok(at) => {
                let _ = self.rows[at].referrers.insert(reference, referrer)?;
                Ok(())
            }
            Err(at) => {
                let mut referrers = BTreeMap::new(alloc);
                let _ = referrers.insert(reference, referrer)?;
                let key = Key {
                    kind: key.kind,
                    namespace: Text::new(alloc, key.namespace)?,
                    name: Text::new(alloc, key.name)?,
                };
                self.rows.insert(at, Referred { key, referrers })?;
                Ok(())
            }
        }
    }

    fn enter_object(&mut self, alloc: Global, object: &Object) -> Result<(), OutOfMemory> {
        match reference_of(object) {
            None => Ok(()),
            Some((key, reference)) => {
                let referrer = Referrer {
                    key: key_of(alloc, object)?,
                    version: meta_of(object).version,
                };
                self.put(alloc, &key, reference, referrer)
            }
        }
    }

    fn enter_newest(
        &mut self,
        alloc: Global,
        caches: &Caches,
        object: &Object,
    ) -> Result<(), OutOfMemory> {
        match newest_like(caches, object) {
            None => Ok(()),
            Some(newest) => self.enter_object(alloc, newest),
        }
    }

    fn enter_events(
        &mut self,
        alloc: Global,
        caches: &Caches,
        events: &[Event],
    ) -> Result<(), OutOfMemory> {
        for event in events {
            self.enter_newest(alloc, caches, &event.object)?;
        }
        Ok(())
    }

    fn enter_all(&mut self, alloc: Global, objects: &[Object]) -> Result<(), OutOfMemory> {
        for object in objects {
            self.enter_object(alloc, object)?;
        }
        Ok(())
    }

    fn enter_listed(
        &mut self,
        alloc: Global,
        caches: &Caches,
        entry: &Entry,
    ) -> Result<(), OutOfMemory> {
        match listed_kind(entry) {
            None => Ok(()),
            Some(kind) => self.enter_all(alloc, caches.cache(kind).objects()),
        }
    }

    /// After the caches were told the entry: what the objects that it tells refer to now.
    pub(crate) fn enter(
        &mut self,
        alloc: Global,
        caches: &Caches,
        entry: &Entry,
    ) -> Result<(), OutOfMemory> {
        if !is_of_binder(entry) {
            return Ok(());
        }
        match &entry.reply {
            Reply::Done(object) => self.enter_newest(alloc, caches, object),
            Reply::Left(object) => self.enter_newest(alloc, caches, object),
            Reply::Events(events) => self.enter_events(alloc, caches, events.events.as_slice()),
            _ => self.enter_listed(alloc, caches, entry),
        }
    }

    // what refers to a key

    /// An object that refers to the key, and not to this UID where there is such a one. References stand in the order of
    /// UIDs, so it is the first or the last.
    fn referrer(&self, key: &KeyParts<'_>, uid: u128) -> Option<&Referrer> {
        match place_of(&self.rows, key) {
            Err(_) => None,
            Ok(at) => {
                let referrers = &self.rows[at].referrers;
                match referrers.first_key_value() {
                    None => None,
                    Some((reference, first)) => {
                        if reference.to != uid {
                            return Some(first);
                        }
                        match referrers.last_key_value() {
                            None => None,
                            Some((_reference, last)) => Some(last),
                        }
                    }
                }
            }
        }
    }
}

/// The UID of the newest told object of the key.
fn uid_at(caches: &Caches, key: &KeyParts<'_>) -> u128 {
    match newest_of(caches, key) {
        None => 0,
        Some(object) => number_of(meta_of(object).uid),
    }
}

/// What is sought on the page of the key.
fn on_page<'a>(
    index: &'a PageIndex,
    kind: Kind,
    namespace: &str,
    name: &str,
    sought: Sought,
) -> &'a [Entry]
    ensures { (mine : List Entry) → IsIndexOf index.now mine → IsPart (reverse result.now) mine }
{
    index.pages.about(kind, namespace, name, sought)
}

/// What tells the object in its version.
fn telling<'a>(index: &'a PageIndex, referrer: &Referrer) -> &'a [Entry]
    ensures { (mine : List Entry) → IsIndexOf index.now mine → IsPart (reverse result.now) mine }
{
    let key = &referrer.key;
    let sought = Sought::Version(Some(referrer.version));
    on_page(
        index,
        key.kind,
        key.namespace.as_str(),
        key.name.as_str(),
        sought,
    )
}

/// What tells an object that refers to the key and was told newest of its own: one that refers to another UID than what
/// stands under the key has, where there is one.
fn referring<'a>(index: &'a PageIndex, references: &References, key: &KeyParts<'_>) -> &'a [Entry]
    ensures { (mine : List Entry) → IsIndexOf index.now mine → IsPart (reverse result.now) mine }
{
    match references.referrer(key, uid_at(&index.caches, key)) {
        None => &[],
        Some(referrer) => telling(index, referrer),
    }
}

/// What is sought among the entries that speak of the key. What refers to it is found by the references.
pub(crate) fn about<'a>(
    index: &'a PageIndex,
    references: &References,
    kind: Kind,
    namespace: &str,
    name: &str,
    sought: Sought,
) -> &'a [Entry]
    ensures { (mine : List Entry) → IsIndexOf index.now mine → IsPart (reverse result.now) mine }
{
    let key = KeyParts {
        kind,
        namespace,
        name,
    };
    match sought {
        Sought::Referring => referring(index, references, &key),
        Sought::Completed => referring(index, references, &key),
        _ => on_page(index, kind, namespace, name, sought),
    }
}

//! Parts of what a seat was told, each under the key of which it speaks.

ghost use Rattle.std.specs.Prelude.{◌≡◌, [], ◌∷◌, ◌++◌, List, IfOk, OnOk, length, reverse};
ghost use Rattle.std.specs.List.Sorted.{IsSearchInRange};
ghost use Rattle.call_types.specs.declared.entry.Entry.{Entry};
ghost use Rattle.evidence_pages.specs.Parts.{ArePages, IsPart, MayStandBehind};

use crate::marks::EntryMarks;
use crate::parts::{KeyParts, erased_of, failed_of, uid_in, wanted_by};
use crate::sought::Sought;
use call_types::entry::Entry;
use call_types::reply::Reply;
use kube_types::copies::{OutOfMemory, Plain, same_option};
use kube_types::items::Items;
use kube_types::key::{Key, kind_index, meta_of};
use kube_types::objects::{DataId, Object, Version};
use kube_types::parts::Kind;
use kube_types::rows::{Ranked, place_of};
use kube_types::text::Text;
use kube_types::uid::Uid;
use std::alloc::Global;
use std::cmp::Ordering;
use std::collections::BTreeMap;
use std::marker::Model;

/// What was told that speaks of one key, the oldest first.
pub struct Page {
    pub key: Key,
    pub entries: Items<Entry>,
    marks: EntryMarks,
}

impl Drop for Page {
    fn drop(self) {
        let Page {
            key,
            entries,
            marks,
        } = self;
        drop(key);
        drop(entries);
        drop(marks);
    }
}

impl<'a> Ranked<KeyParts<'a>> for Page {
    ghost use Rattle.kube_objects.specs.Keys.{key_cmp};
    ghost use Rattle.evidence_pages.specs.Keyed.{key_by};

    ghost rank = { λ p k. key_cmp p.key (key_by k) };

    fn rank(&self, key: &KeyParts<'a>) -> Ordering {
        kind_index(self.key.kind)
            .cmp(&kind_index(key.kind))
            .then(self.key.namespace.as_str().cmp(key.namespace))
            .then(self.key.name.as_str().cmp(key.name))
    }
}

/// Pages in the order of their keys, and by its UID what a volume is over.
pub struct Pages {
    list: Vec<Page>,
    sources: BTreeMap<u128, DataId>,
}

impl Drop for Pages {
    fn drop(self) {
        let Pages { list, sources } = self;
        drop(list);
        drop(sources);
    }
}

impl Model for Pages {
    ghost use Rattle.std.specs.Prelude.{List};
    ghost use Rattle.evidence_pages.specs.declared.pages.Page.{Page};

    ghost Value = { List Page };

    ghost view = { λ p. p.list.items };
}

/// Where the page of the key is, or where it would stand.
fn page_place(pages: &[Page], key: &KeyParts<'_>) -> Result<usize, usize>
    ensures { IsSearchInRange result (length pages.now) }
{
    place_of(pages, key)
}

/// A page with one entry.
fn new_page(alloc: Global, key: &KeyParts<'_>, entry: Entry) -> Result<Page, OutOfMemory>
    ensures { IfOk result (λ page. page.entries ≡ entry ∷ []) }
{
    let mut entries = Items::new(alloc);
    entries.push(entry)?;
    Ok(Page {
        key: Key {
            kind: key.kind,
            namespace: Text::new(alloc, key.namespace)?,
            name: Text::new(alloc, key.name)?,
        },
        entries,
        marks: EntryMarks::new(alloc),
    })
}

/// So many entries are read without a mark.
const FEW: usize = 8;

/// Whether the page is so short that all of it is read.
fn is_short(page: &Page) -> bool {
    page.entries.as_slice().len() <= FEW
}

/// EntryMarks the entries of a page that is not short.
fn mark(page: &mut Page) -> Result<(), OutOfMemory>
    ensures { page.new.entries ≡ page.old.entries }
{
    if is_short(page) {
        return Ok(());
    }
    page.marks.catch_up(page.entries.as_slice())
}

fn put_last(page: &mut Page, entry: Entry) -> Result<(), OutOfMemory>
    ensures { OnOk result (page.new.entries ≡ page.old.entries ++ entry ∷ []) }
{
    page.entries.push(entry)?;
    mark(page)
}

/// Whether the entry tells alone an object with this UID.
fn tells_uid(entry: &Entry, uid: Option<Uid>) -> bool {
    match &entry.reply {
        Reply::Done(object) => same_option(&meta_of(object).uid, &uid),
        _ => false,
    }
}

/// Whether the page tells the object in this version.
fn has_object(page: &Page, object: &Object) -> bool {
    match page.marks.of_version(object) {
        None => false,
        Some(place) => {
            let entries = page.entries.as_slice();
            if place >= entries.len() {
                return false;
            }
            tells_uid(&entries[place], meta_of(object).uid)
        }
    }
}

/// Whether the entry is the last on the page.
fn is_last(page: &Page, entry: &Entry) -> bool {
    match page.entries.as_slice().last() {
        None => false,
        Some(last) => last.same(entry),
    }
}

/// Whether the page tells what the entry tells alone, or ends with the same read. Put there again it shows nothing
/// more.
fn has_entry(page: &Page, entry: &Entry) -> bool {
    match &entry.reply {
        Reply::Done(object) => has_object(page, object),
        _ => is_last(page, entry),
    }
}

/// Puts the entry last on the page of the key, unless it shows nothing more there.
fn add_to(
    alloc: Global,
    pages: &mut Vec<Page>,
    key: &KeyParts<'_>,
    entry: Entry,
) -> Result<(), OutOfMemory>
    ensures { OnOk result ((mine after : List Entry) → MayStandBehind entry mine after → ArePages pages.old.items mine → ArePages pages.new.items after) }
{
    match page_place(pages, key) {
        Ok(at) => {
            if has_entry(&pages[at], &entry) {
                return Ok(());
            }
            put_last(&mut pages[at], entry)
        }
        Err(at) => {
            let page = new_page(alloc, key, entry)?;
            pages.insert(at, page)?;
            Ok(())
        }
    }
}

/// The entries from the one place to the last.
fn stretch_of<'a>(entries: &'a [Entry], first: usize, last: usize) -> &'a [Entry]
    ensures { (mine : List Entry) → IsPart (reverse entries.now) mine → IsPart (reverse result.now) mine }
{
    if last >= entries.len() {
        return &[];
    }
    if first > last {
        return &[];
    }
    let (older, _newer) = entries.split_at(last + 1);
    let (_before, stretch) = older.split_at(first);
    stretch
}

/// The stretch of the page where what is sought stands.
fn found_on<'a>(page: &'a Page, sought: Sought) -> &'a [Entry]
    ensures { (mine : List Entry) → IsPart (reverse page.now.entries) mine → IsPart (reverse result.now) mine }
{
    let entries = page.entries.as_slice();
    match page.marks.find(entries, page.key.kind, sought) {
        None => &[],
        Some((first, last)) => stretch_of(entries, first, last),
    }
}

/// All entries of the page.
fn entries_of<'a>(page: &'a Page) -> &'a [Entry]
    ensures { (mine : List Entry) → IsPart (reverse page.now.entries) mine → IsPart (reverse result.now) mine }
{
    page.entries.as_slice()
}

/// What is sought on the page, or all of a short one.
fn sought_on<'a>(page: &'a Page, sought: Sought) -> &'a [Entry]
    ensures { (mine : List Entry) → IsPart (reverse page.now.entries) mine → IsPart (reverse result.now) mine }
{
    if is_short(page) {
        return entries_of(page);
    }
    match sought {
        Sought::All => entries_of(page),
        _ => found_on(page, sought),
    }
}

/// What is sought on the page of the key.
fn entries_at<'a>(pages: &'a [Page], key: &KeyParts<'_>, sought: Sought) -> &'a [Entry]
    ensures { (mine : List Entry) → ArePages pages.now mine → IsPart (reverse result.now) mine }
{
    match page_place(pages, key) {
        Ok(at) => sought_on(&pages[at], sought),
        Err(_) => &[],
    }
}

/// What is sought on the page of the key, where there is one.
fn entries_of_some<'a>(pages: &'a [Page], key: Option<KeyParts<'_>>, sought: Sought) -> &'a [Entry]
    ensures { (mine : List Entry) → ArePages pages.now mine → IsPart (reverse result.now) mine }
{
    match key {
        None => &[],
        Some(key) => entries_at(pages, &key, sought),
    }
}

/// The UID of the object of the version that the entry tells alone.
fn uid_at(entry: &Entry, given: Option<Version>) -> Option<Uid> {
    match &entry.reply {
        Reply::Done(object) => {
            let meta = meta_of(object);
            if same_option(&Some(meta.version), &given) {
                meta.uid
            } else {
                None
            }
        }
        _ => None,
    }
}

/// The UID of an object of the version that the entries tell.
fn uid_among(entries: &[Entry], given: Option<Version>) -> Option<Uid> {
    for entry in entries {
        match uid_at(entry, given) {
            None => {}
            Some(uid) => return Some(uid),
        }
    }
    None
}

impl Pages {
    pub fn new(alloc: Global) -> Pages
        ensures { result ≡ [] }
    {
        Pages {
            list: Vec::new(alloc),
            sources: BTreeMap::new(alloc),
        }
    }

    /// Keeps what the volume of the UID is over.
    pub(crate) fn put_source(&mut self, volume: Option<Uid>, id: DataId) -> Result<(), OutOfMemory>
        ensures { self.new ≡ self.old }
    {
        match volume {
            None => Ok(()),
            Some(uid) => {
                let _ = self.sources.insert(uid.0, id)?;
                Ok(())
            }
        }
    }

    /// The page of the calls by which the data of the volume were erased.
    fn erased_key(&self, volume: Uid) -> Option<KeyParts<'_>> {
        match self.sources.get(&volume.0) {
            None => None,
            Some(id) => Some(erased_of(id)),
        }
    }

    /// The page of the calls that failed to erase the data of the volume that was told under the key in the version.
    fn failed_key(&self, key: &KeyParts<'_>, given: Option<Version>) -> Option<KeyParts<'_>> {
        match uid_among(entries_at(&self.list, key, Sought::Version(given)), given) {
            None => None,
            Some(uid) => match self.sources.get(&uid.0) {
                None => None,
                Some(id) => Some(failed_of(id)),
            },
        }
    }

    /// Puts the entry last on the page of the key.
    pub fn add(
        &mut self,
        alloc: Global,
        key: &KeyParts<'_>,
        entry: Entry,
    ) -> Result<(), OutOfMemory>
        ensures { OnOk result ((mine after : List Entry) → MayStandBehind entry mine after → ArePages self.old mine → ArePages self.new after) }
    {
        add_to(alloc, &mut self.list, key, entry)
    }

    /// What is sought of that which speaks of the key, the oldest first.
    pub fn about(&self, kind: Kind, namespace: &str, name: &str, sought: Sought) -> &[Entry]
        ensures { (mine : List Entry) → ArePages self.now mine → IsPart (reverse result.now) mine }
    {
        let key = KeyParts {
            kind,
            namespace,
            name,
        };
        match sought {
            Sought::Failed(given) => {
                entries_of_some(&self.list, self.failed_key(&key, given), sought)
            }
            Sought::Erased(volume) => {
                entries_of_some(&self.list, self.erased_key(volume), sought)
            }
            _ => entries_at(&self.list, &key, sought),
        }
    }

    /// The same of what is provisioned under this name.
    pub fn provisioned(&self, name: &Text, sought: Sought) -> &[Entry]
        ensures { (mine : List Entry) → ArePages self.now mine → IsPart (reverse result.now) mine }
    {
        match uid_in(name.as_str()) {
            None => &[],
            Some(uid) => entries_at(&self.list, &wanted_by(uid), sought),
        }
    }

    /// The same of what is provisioned for the claim with the UID of this text.
    pub fn wanted(&self, uid: &str, sought: Sought) -> &[Entry]
        ensures { (mine : List Entry) → ArePages self.now mine → IsPart (reverse result.now) mine }
    {
        entries_at(&self.list, &wanted_by(uid), sought)
    }
}

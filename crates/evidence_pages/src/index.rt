//! The index of the entries of one seat: parts of them by key, the newest told of each key, and their
//! kind.

ghost use Rattle.std.specs.Prelude.{◌≡◌, [], ◌∷◌, List, OnOk, Some, true};
ghost use Rattle.call_types.specs.declared.entry.Entry.{Entry};
ghost use Rattle.call_types.specs.declared.request.SeatKind.{SeatKind as SeatKinds};
ghost use Rattle.binder_model.specs.Licence.{AreOfKind};
ghost use Rattle.informer_cache.specs.All.{AllStandFor};
ghost use Rattle.evidence_pages.specs.Indexed.{IsIndexOf};

use crate::pages::Pages;
use crate::tellings::learn;
use call_types::entry::Entry;
use call_types::request::SeatKind;
use informer_cache::caches::Caches;
use kube_types::copies::{OutOfMemory, Plain};
use std::alloc::Global;

/// What is looked up in place of the entries. Where the caches do not know, or there is no kind, the
/// entries themselves are read.
pub struct PageIndex {
    pub pages: Pages,
    pub caches: Caches,
    pub known: bool,
    pub kind: Option<SeatKind>,
}

impl Drop for PageIndex {
    fn drop(self) {
        let PageIndex {
            pages,
            caches,
            known: _,
            kind: _,
        } = self;
        drop(pages);
        drop(caches);
    }
}

/// The kind of all entries, where they had this one and one more of the other comes.
fn kind_after(kind: Option<SeatKind>, first: bool, next: SeatKind) -> Option<SeatKind>
    ensures { (mine : List Entry) (e : Entry) → e.kind ≡ next → (first ≡ true → mine ≡ []) → ((k : SeatKinds) → kind ≡ Some k → AreOfKind k mine) → (k : SeatKinds) → result ≡ Some k → AreOfKind k (e ∷ mine) }
{
    if first {
        return Some(next);
    }
    match kind {
        None => None,
        Some(kind) => { if kind.same(&next) { Some(kind) } else { None } }
    }
}

/// Takes what the entry tells into the caches.
fn absorb(caches: &mut Caches, entry: &Entry) -> Result<(), OutOfMemory>
    ensures { OnOk result ((mine : List Entry) → AllStandFor caches.old mine → AllStandFor caches.new (entry.now ∷ mine)) }
{
    if !entry.told {
        return Ok(());
    }
    let _ = caches.absorb(&entry.request, &entry.reply)?;
    Ok(())
}

impl PageIndex {
    /// The index of no entries.
    pub fn new(alloc: Global) -> PageIndex
        ensures { IsIndexOf result [] }
    {
        PageIndex {
            pages: Pages::new(alloc),
            caches: Caches::new(alloc),
            known: true,
            kind: None,
        }
    }

    /// An index that knows nothing, whatever the entries are.
    pub fn lost(alloc: Global) -> PageIndex
        ensures { (mine : List Entry) → IsIndexOf result mine }
    {
        PageIndex {
            pages: Pages::new(alloc),
            caches: Caches::new(alloc),
            known: false,
            kind: None,
        }
    }

    /// Takes one more entry, which may be the first.
    pub fn learn(&mut self, alloc: Global, entry: &Entry, first: bool) -> Result<(), OutOfMemory>
        ensures { OnOk result ((mine : List Entry) → (first ≡ true → mine ≡ []) → IsIndexOf self.old mine → IsIndexOf self.new (entry.now ∷ mine)) }
    {
        learn(alloc, &mut self.pages, entry)?;
        absorb(&mut self.caches, entry)?;
        self.kind = kind_after(self.kind, first, entry.kind);
        Ok(())
    }
}

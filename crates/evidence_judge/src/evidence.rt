//! What one seat was told so far.

ghost use Rattle.std.specs.Prelude.{◌≡◌, [], ◌∷◌, List, IsTrue, MatchResult, OnErr, OnOk, length, reverse, true};
ghost use Rattle.call_types.specs.declared.entry.Entry.{Entry};
ghost use Rattle.binder_model.specs.Licence.{IsRefusedBy, Licensed};
ghost use Rattle.evidence_pages.specs.Indexed.{IsIndexOf};
ghost use Rattle.evidence_judge.specs.Steps.Kept.{AreAgentsOf};

use crate::agents::{
    Agents, shows_current, shows_finish, shows_mount, shows_over, shows_read, shows_unmount,
};
use crate::lists::LastLists;
use crate::lookups::{
    is_kind_of, newest_in, shows_absent, shows_default, shows_from, shows_lacking, shows_unlisted,
};
use crate::references::{References, about};
use call_types::entry::Entry;
use call_types::request::{Request, SeatKind};
use evidence_pages::index::PageIndex;
use evidence_pages::sought::Sought;
use kube_types::copies::{OutOfMemory, Plain};
use kube_types::items::Items;
use kube_types::key::Key;
use kube_types::names::LicenceRule;
use kube_types::objects::{DataId, Object, Version, Volume};
use kube_types::parts::Kind;
use kube_types::text::Text;
use kube_types::uid::Uid;
use licence_record::record::Record;
use licence_rules::{is_licensed, licensed};
use std::alloc::Global;
use std::marker::Model;

/// The entries of one seat, with an index. Contracts see the list of the entries, the newest first.
pub struct Evidence {
    alloc: Global,
    entries: Items<Entry>,
    index: PageIndex,
    agents: Agents,
    lists: LastLists,
    references: References,
}

impl Drop for Evidence {
    fn drop(self) {
        let Evidence {
            alloc: _,
            entries,
            index,
            agents,
            lists: _,
            references,
        } = self;
        drop(entries);
        drop(index);
        drop(agents);
        drop(references);
    }
}

impl Model for Evidence {
    ghost use Rattle.std.specs.Prelude.{List, reverse};
    ghost use Rattle.call_types.specs.declared.entry.Entry.{Entry};
    ghost use Rattle.evidence_pages.specs.Indexed.{IsIndexOf};
    ghost use Rattle.evidence_judge.specs.Steps.Kept.{AreAgentsOf};
    ghost use Rattle.evidence_judge.specs.Steps.Lists.{AreListsOf};

    ghost Value = { List Entry };

    ghost view = { λ e. reverse e.entries };

    ghost invariant = { λ e. IsIndexOf e.index (reverse e.entries) × AreAgentsOf e.agents (reverse e.entries) × AreListsOf e.lists (reverse e.entries) };
}

fn is_first(entries: &[Entry]) -> bool
    ensures { result ≡ true → reverse entries.now ≡ [] }
{
    entries.is_empty()
}

/// Where the next entry will stand.
fn next_place(entries: &[Entry]) -> usize
    ensures { length (reverse entries.now) ≡ result }
{
    entries.len()
}

/// Takes the entry into the index of what the newest told objects refer to, and into that of the entries.
fn learn(
    alloc: Global,
    index: &mut PageIndex,
    references: &mut References,
    entry: &Entry,
    first: bool,
) -> Result<(), OutOfMemory>
    ensures { OnOk result ((mine : List Entry) → (first ≡ true → mine ≡ []) → IsIndexOf index.old mine → IsIndexOf index.new (entry.now ∷ mine)) }
{
    references.leave(&index.caches, entry);
    index.learn(alloc, entry, first)?;
    references.enter(alloc, &index.caches, entry)?;
    Ok(())
}

/// Puts one more entry behind the others and into the index.
fn take(
    alloc: Global,
    entries: &mut Items<Entry>,
    index: &mut PageIndex,
    agents: &mut Agents,
    references: &mut References,
    entry: &Entry,
) -> Result<(), OutOfMemory>
    requires { AreAgentsOf agents.old (reverse entries.old) }
    ensures ok { OnOk result (reverse entries.new ≡ entry.now ∷ reverse entries.old) }
    ensures err { OnErr result (entries.new ≡ entries.old) }
    ensures index { OnOk result (IsIndexOf index.old (reverse entries.old) → IsIndexOf index.new (entry.now ∷ reverse entries.old)) }
    ensures agents { OnOk result (AreAgentsOf agents.new (entry.now ∷ reverse entries.old)) }
{
    let kept = entry.copy(alloc)?;
    let noted = entries.as_slice();
    let first = is_first(noted);
    let place = next_place(noted);
    learn(alloc, index, references, entry, first)?;
    agents.learn(alloc, entry, place)?;
    entries.push(kept)
}

impl Evidence {
    /// Evidence of a seat that made no call. It takes no memory.
    pub fn new(alloc: Global) -> Evidence
        ensures { result ≡ [] }
    {
        Evidence {
            alloc,
            entries: Items::new(alloc),
            index: PageIndex::new(alloc),
            agents: Agents::new(alloc),
            lists: LastLists::new(),
            references: References::new(alloc),
        }
    }

    /// Puts one more entry behind the others. Where memory is wanting it is not noted, and later
    /// judgements read the entries.
    pub fn note(&mut self, entry: &Entry) -> Result<(), OutOfMemory>
        ensures ok { OnOk result (self.new ≡ entry.now ∷ self.old) }
        ensures err { OnErr result (self.new ≡ self.old) }
    {
        let alloc = self.alloc;
        let lists = self.lists.after(entry);
        match take(
            alloc,
            &mut self.entries,
            &mut self.index,
            &mut self.agents,
            &mut self.references,
            entry,
        ) {
            Ok(()) => {
                self.lists = lists;
                Ok(())
            }
            Err(OutOfMemory) => {
                self.index = PageIndex::lost(alloc);
                self.agents = Agents::lost(alloc);
                self.references = References::new(alloc);
                Err(OutOfMemory)
            }
        }
    }

    /// Ok exactly where a seat of this kind may make the request after the entries that were noted; else
    /// the rule that refuses it.
    pub fn judge(&self, kind: SeatKind, request: &Request) -> Result<(), LicenceRule>
        ensures { MatchResult result (λ _. Licensed kind self.now request.now) (IsRefusedBy kind self.now request.now) }
    {
        if self.shows(kind, request) {
            return Ok(());
        }
        licensed(kind, self.entries.as_slice(), request)
    }

    /// Whether the index shows that the request is licensed.
    fn shows(&self, kind: SeatKind, request: &Request) -> bool
        ensures { IsTrue result → Licensed kind self.now request.now }
    {
        is_licensed(kind, self, request)
    }
}

impl Record for Evidence {
    ghost told = { λ e. e };

    ghost whole = { λ e. ⊥ };

    fn is_of_kind(&self, kind: SeatKind) -> bool {
        is_kind_of(&self.index, kind)
    }

    fn newest(&self, kind: Kind, namespace: &str, name: &str) -> Option<&Object> {
        match newest_in(&self.index, kind, namespace, name) {
            None => None,
            Some(found) => Some(found),
        }
    }

    fn is_node_absent(&self, name: &str) -> bool {
        shows_absent(&self.index, name)
    }

    fn lacks_claim(&self, key: &Key, uid: Uid) -> bool {
        shows_lacking(&self.index, key, uid)
    }

    fn is_default(&self, name: &str) -> bool {
        shows_default(&self.index, name)
    }

    fn about(&self, kind: Kind, namespace: &str, name: &str, sought: Sought) -> &[Entry] {
        about(&self.index, &self.references, kind, namespace, name, sought)
    }

    fn provisioned(&self, name: &Text, sought: Sought) -> &[Entry] {
        self.index.pages.provisioned(name, sought)
    }

    fn wanted(&self, uid: &str, sought: Sought) -> &[Entry] {
        self.index.pages.wanted(uid, sought)
    }

    fn last_over(&self, id: &DataId) -> Option<&Volume> {
        match shows_over(&self.agents, self.entries.as_slice(), id) {
            None => None,
            Some(volume) => Some(volume),
        }
    }

    fn is_unlisted(&self, kind: Kind) -> bool {
        shows_unlisted(&self.index, kind)
    }

    fn is_from(&self, kind: Kind, from: Version) -> bool {
        shows_from(&self.index, &self.lists, kind, from)
    }

    fn is_current(&self, node: &Text, epoch: u64) -> bool {
        shows_current(&self.agents, self.entries.as_slice(), node, epoch)
    }

    fn may_mount(&self, node: &Text, epoch: u64, pod: Uid, claims: &[Uid]) -> bool {
        let entries = self.entries.as_slice();
        shows_mount(&self.agents, &self.index, entries, node, epoch, pod, claims)
    }

    fn may_unmount(&self, node: &Text, epoch: u64, pod: Uid) -> bool {
        shows_unmount(&self.agents, self.entries.as_slice(), node, epoch, pod)
    }

    fn may_finish(&self, key: &Key, pod: Uid, node: &Text, epoch: u64) -> bool {
        shows_finish(&self.agents, self.entries.as_slice(), key, pod, node, epoch)
    }

    fn asks_for_mount(&self, key: &Key) -> bool {
        shows_read(&self.agents, &self.index, self.entries.as_slice(), key)
    }
}

//! What the places of last entries show of the rows of a node agent, and of what a read found last.

ghost use Rattle.std.specs.Prelude.{◌≡◌, [], ◌∷◌, List, IfSome, IsTrue, OnOk, Some, length, reverse};
ghost use Rattle.call_types.specs.declared.entry.Entry.{Entry};
ghost use Rattle.binder_model.specs.AgentLicence.{MayFinish, MayMount, MayReadMounts, MayUnmount};
ghost use Rattle.binder_model.specs.Reading.{AsksForMount};
ghost use Rattle.binder_model.specs.Told.{last_found};
ghost use Rattle.evidence_pages.specs.Indexed.{IsIndexOf};
ghost use Rattle.evidence_agent.specs.Places.Rows.{AreLastsOf};
ghost use Rattle.evidence_judge.specs.Steps.Kept.{AreAgentsOf};

use call_types::entry::Entry;
use evidence_agent::agent::{is_current, may_mount, may_unmount};
use evidence_agent::by_place::lasts::Lasts;
use evidence_agent::by_place::topics::{About, Matter};
use evidence_agent::finish::may_finish;
use evidence_agent::index::AgentIndex;
use evidence_agent::reads::may_get;
use evidence_pages::index::PageIndex;
use kube_types::copies::OutOfMemory;
use kube_types::key::Key;
use kube_types::objects::{DataId, Volume};
use kube_types::text::Text;
use kube_types::uid::Uid;
use licence_rows::found::found_over;
use std::alloc::Global;

/// The index by places. Where it is not known, it shows nothing.
pub struct Agents {
    pub index: AgentIndex,
    pub known: bool,
}

impl Drop for Agents {
    fn drop(self) {
        let Agents { index, known: _ } = self;
        drop(index);
    }
}

impl Agents {
    /// The index of no entries.
    pub(crate) fn new(alloc: Global) -> Agents
        ensures { AreAgentsOf result [] }
    {
        Agents {
            index: AgentIndex::new(alloc),
            known: true,
        }
    }

    /// An index that is not known, whatever the entries are.
    pub(crate) fn lost(alloc: Global) -> Agents
        ensures { (mine : List Entry) → AreAgentsOf result mine }
    {
        Agents {
            index: AgentIndex::new(alloc),
            known: false,
        }
    }

    /// Takes one more entry, which stands at the place.
    pub(crate) fn learn(
        &mut self,
        alloc: Global,
        entry: &Entry,
        place: usize,
    ) -> Result<(), OutOfMemory>
        ensures { OnOk result ((mine : List Entry) → length mine ≡ place → AreAgentsOf self.old mine → AreAgentsOf self.new (entry.now ∷ mine)) }
    {
        self.index.learn(alloc, entry, place)
    }
}

/// Whether the places show that the node's mounts may be read at this epoch.
pub(crate) fn shows_current(agents: &Agents, entries: &[Entry], node: &Text, epoch: u64) -> bool
    requires { AreAgentsOf agents.now (reverse entries.now) }
    ensures { IsTrue result → MayReadMounts (reverse entries.now) node.now epoch }
{
    if !agents.known {
        return false;
    }
    is_current(&agents.index, entries, node, epoch)
}

/// Whether the places and the index show that the pod may be mounted with these claims.
pub(crate) fn shows_mount(
    agents: &Agents,
    index: &PageIndex,
    entries: &[Entry],
    node: &Text,
    epoch: u64,
    pod: Uid,
    claims: &[Uid],
) -> bool
    requires agents { AreAgentsOf agents.now (reverse entries.now) }
    requires index { IsIndexOf index.now (reverse entries.now) }
    ensures { IsTrue result → MayMount (reverse entries.now) node.now epoch pod claims.now }
{
    if !agents.known {
        return false;
    }
    if !index.known {
        return false;
    }
    may_mount(
        &agents.index,
        &index.caches,
        entries,
        node,
        epoch,
        pod,
        claims,
    )
}

/// Whether the places show that the pod may be unmounted.
pub(crate) fn shows_unmount(
    agents: &Agents,
    entries: &[Entry],
    node: &Text,
    epoch: u64,
    pod: Uid,
) -> bool
    requires { AreAgentsOf agents.now (reverse entries.now) }
    ensures { IsTrue result → MayUnmount (reverse entries.now) node.now epoch pod }
{
    if !agents.known {
        return false;
    }
    may_unmount(&agents.index, entries, node, epoch, pod)
}

/// Whether the places show that the pod may be finished.
pub(crate) fn shows_finish(
    agents: &Agents,
    entries: &[Entry],
    key: &Key,
    pod: Uid,
    node: &Text,
    epoch: u64,
) -> bool
    requires { AreAgentsOf agents.now (reverse entries.now) }
    ensures { IsTrue result → MayFinish (reverse entries.now) key.now pod node.now epoch }
{
    if !agents.known {
        return false;
    }
    may_finish(&agents.index, entries, key, pod, node, epoch)
}

/// Whether the places and the index show that an agent may read the claim or volume of the key.
pub(crate) fn shows_read(agents: &Agents, index: &PageIndex, entries: &[Entry], key: &Key) -> bool
    requires agents { AreAgentsOf agents.now (reverse entries.now) }
    requires index { IsIndexOf index.now (reverse entries.now) }
    ensures { IsTrue result → AsksForMount (reverse entries.now) key.now }
{
    if !agents.known {
        return false;
    }
    may_get(&agents.index, &index.pages, entries, key)
}

// what a read found last

/// The volume that the last read over the data found.
fn last_found<'a>(lasts: &Lasts, entries: &'a [Entry], id: &DataId) -> Option<&'a Volume>
    requires { AreLastsOf lasts.now (reverse entries.now) }
    ensures { IfSome result (λ volume. last_found id.now (reverse entries.now) ≡ Some volume.now) }
{
    match lasts.place(&About::data(Matter::Over, id)) {
        None => None,
        Some(place) => {
            if place >= entries.len() {
                return None;
            }
            match found_over(id, &entries[place]) {
                None => None,
                Some(volume) => Some(volume),
            }
        }
    }
}

/// The volume that the last read over the data found, where the places are known.
pub(crate) fn shows_over<'a>(
    agents: &Agents,
    entries: &'a [Entry],
    id: &DataId,
) -> Option<&'a Volume>
    requires { AreAgentsOf agents.now (reverse entries.now) }
    ensures { IfSome result (λ volume. last_found id.now (reverse entries.now) ≡ Some volume.now) }
{
    if !agents.known {
        return None;
    }
    match last_found(&agents.index.lasts, entries, id) {
        None => None,
        Some(volume) => Some(volume),
    }
}

//! What an agent was told so far: places of last entries, and pods.

ghost use Rattle.std.specs.Prelude.{◌≡◌, [], ◌∷◌, List, OnOk, length};
ghost use Rattle.call_types.specs.declared.entry.Entry.{Entry};
ghost use Rattle.evidence_agent.specs.Indexed.{IsAgentIndexOf};

use crate::by_place::lasts::Lasts;
use crate::pods::Pods;
use call_types::entry::Entry;
use kube_types::copies::OutOfMemory;
use std::alloc::Global;

/// What is looked up in place of the entries.
pub struct AgentIndex {
    pub lasts: Lasts,
    pub pods: Pods,
}

impl Drop for AgentIndex {
    fn drop(self) {
        let AgentIndex { lasts, pods } = self;
        drop(lasts);
        drop(pods);
    }
}

impl AgentIndex {
    /// The index of no entries.
    pub fn new(alloc: Global) -> AgentIndex
        ensures { IsAgentIndexOf result [] }
    {
        AgentIndex {
            lasts: Lasts::new(alloc),
            pods: Pods::new(alloc),
        }
    }

    /// Takes one more entry, which stands at the place.
    pub fn learn(&mut self, alloc: Global, entry: &Entry, place: usize) -> Result<(), OutOfMemory>
        ensures { OnOk result ((mine : List Entry) → length mine ≡ place → IsAgentIndexOf self.old mine → IsAgentIndexOf self.new (entry.now ∷ mine)) }
    {
        self.lasts.learn(alloc, entry, place)?;
        self.pods.learn(alloc, entry, place)
    }
}

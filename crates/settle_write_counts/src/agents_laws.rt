//! A node agent writes little in a slot.
//!
//! Promises: the only write of a node agent is that a pod leaves, so in each slot of an agent the pods that stand are
//! fewer by one for each of its writes (`agents_write_little`); and no slot of an actor that is built adds a pod
//! (`slots_add_no_pod`). All is said over any choice of which requests reach the world, of slots that end idle or
//! with their budget spent, and whatever is under way. Not said: that a write is done.

ghost use Rattle.settle_write_counts.specs.Agents.Agents.{AgentsWriteLittle, SlotsAddNoPod};

/// Each write of an agent is that a pod leaves.
pub fn agents_write_little()
    ensures { AgentsWriteLittle }
{}

/// No slot adds a pod.
pub fn slots_add_no_pod()
    ensures { SlotsAddNoPod }
{}

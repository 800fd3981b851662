//! What is due for a node agent begins a call that lasts.
//!
//! Promises, of an agent whose epoch is its node's and that sees the pods as they are, in any world that is like that
//! of the start: it acts on each pod of its node for which something is due (`agents_act`). One that is to be mounted
//! it mounts after it has read each claim and volume; one that is to be finished it unmounts and finishes. To act is
//! that the decision on the key begins what makes a call that lasts, if its calls reach the world. Not said: that a
//! drain has an agent for each node.

ghost use Rattle.settle_progress.specs.Agents.Acts.{AgentsAct};

/// The agent of its node acts on a pod for which something is due.
pub fn agents_act()
    ensures { AgentsAct }
{}

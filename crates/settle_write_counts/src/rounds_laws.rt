//! How many writes a round does, by what its world has and has still to do.
//!
//! Promises: what may still be written is what is left to do and the nodes that are selected. It falls in a round of
//! the actors of a drain that pay and begin with nothing under way, with each of its writes, but for twice what the
//! scheduler may write (`rounds_write_little`). Nodes are counted as often as they stand; where the annotations of
//! claims are in order there are no more than claims (`nodes_are_few`). Premise: what the scheduler may write is no
//! more than 512. An agent that was told that its epoch is stale makes no call, and may have anything under way. Not
//! said: that actors pay, which is for `settle_pays` to say; nor how many rounds there are.

ghost use Rattle.settle_write_counts.specs.Rounds.Counts.{NodesAreFew, RoundsWriteLittle};

/// No claim whose annotations are in order has two nodes.
pub fn nodes_are_few()
    ensures { NodesAreFew }
{}

/// A round does few writes.
pub fn rounds_write_little()
    ensures { RoundsWriteLittle }
{}

//! What a node agent remembers of its node, and that the node stays its own.
//!
//! Promises, of runs: the epoch of an agent stays the node's, whatever others do that do not take the node
//! (`epochs_stay`), and in each round in which no other agent of the node is still to take it (`rounds_keep_epochs`).
//! A round leaves it so that an agent is silent only where another took its node (`rounds_silence_the_overtaken`);
//! then one that took no epoch but the node's is no stale one (`current_are_awake`). Not said: that no two agents of
//! a round serve one node.

ghost use Rattle.settle_progress.specs.Epochs.Epochs.{EpochsStay, RoundsKeepEpochs};
ghost use Rattle.settle_progress.specs.Epochs.Silent.{CurrentAreAwake, RoundsSilenceTheOvertaken};

/// Entries that take the node only by the seat's own told calls leave it its epoch.
pub fn epochs_stay()
    ensures { EpochsStay }
{}

/// A round leaves the agent of a node its epoch.
pub fn rounds_keep_epochs()
    ensures { RoundsKeepEpochs }
{}

/// A round leaves it so that an agent is silent only where another took its node.
pub fn rounds_silence_the_overtaken()
    ensures { RoundsSilenceTheOvertaken }
{}

/// An agent that took no epoch but its node's is then no stale one.
pub fn current_are_awake()
    ensures { CurrentAreAwake }
{}

//! When a round makes progress.
//!
//! Promises: a whole round that begins with something due, for an actor that is no stale agent, has an entry that
//! lasts. Each controller is in the round; the agent of a node need be, and is no stale one where it took no epoch
//! but the node's. What the actor has cached or under way does not matter; but only agents are silent whose node was
//! taken by another, which rounds leave so. Only agents call Mounts, and for a pod only its own, with the UIDs of its
//! claims; so of a gate that holds back Mounts alone it is asked only that the Mount passes which is due, if what is
//! due is one (`held_rounds_last`). So it is said of a round that holds nothing back (`passed_rounds_last`), and of
//! each of a drain (`drained_rounds_last`). Where each pod that a node runs has such an agent, whatever is due is due
//! for such an actor (`served_have_doers`); and drainers whose seats have no entries yet have one for each of their
//! nodes (`fresh_drainers_serve`). A whole round leaves its drainers so that the next may begin with them, with
//! nothing under way but in an agent that is silent (`rounds_leave_drainers`). Not said: how many rounds there are.

ghost use Rattle.settle_progress.specs.Drains.Drained.{DrainedRoundsLast, PassedRoundsLast, ServedHaveDoers};
ghost use Rattle.settle_progress.specs.Drains.Fresh.{FreshDrainersServe};
ghost use Rattle.settle_progress.specs.Drains.Held.{HeldRoundsLast};
ghost use Rattle.settle_progress.specs.Drains.Settling.{RoundsLeaveDrainers};

/// A whole round that begins with something due, in which a gate holds back Mounts alone, has an entry that lasts, where the Mount
/// passes that is due, if one is.
pub fn held_rounds_last()
    ensures { HeldRoundsLast }
{}

/// So has one in which nothing is held back.
pub fn passed_rounds_last()
    ensures { PassedRoundsLast }
{}

/// So has each of a drain.
pub fn drained_rounds_last()
    ensures { DrainedRoundsLast }
{}

/// Where each pod that a node runs has an agent that is no stale one, whatever is due is due for such an actor.
pub fn served_have_doers()
    ensures { ServedHaveDoers }
{}

/// Drainers whose seats have no entries have an agent that is no stale one for each of their nodes.
pub fn fresh_drainers_serve()
    ensures { FreshDrainersServe }
{}

/// A whole round leaves its drainers so that the next may begin with them.
pub fn rounds_leave_drainers()
    ensures { RoundsLeaveDrainers }
{}

//! What each round of a script's drains comes to.
//!
//! Promises: of a replay that is a run, each whole round of each of its drains that begins with something due, for an
//! actor that is no stale agent, has an entry that lasts (`replayed_drains_last`), and so has each whole round of the
//! drain with which a run on threads ends (`threaded_drains_last`). At every point of both each pod that a node runs is
//! on a node that the script names (`replayed_pods_are_on_named`, `threaded_pods_are_on_named`), so the drains have an
//! agent of that node; and the objects that stand are at most twice those that the script imports and that its lines
//! create (`replayed_objects_are_few`, `threaded_objects_are_few`). All follows from what a replay and a run on threads
//! are, with no premise on the actors of the drains. Not said: that a drain ends settled; anything of a round that is not
//! whole; that the agent of a node is no stale one, for another agent may have taken the node after it.

ghost use Rattle.replay_laws.specs.Drains.Lasting.{ReplayedDrainsLast, ThreadedDrainsLast};
ghost use Rattle.replay_laws.specs.Drains.Naming.{ReplayedPodsAreOnNamed, ThreadedPodsAreOnNamed};
ghost use Rattle.replay_laws.specs.Drains.Objects.{ReplayedObjectsAreFew, ThreadedObjectsAreFew};

/// Each whole round of the drains of a replay that begins with something due has an entry that lasts.
pub fn replayed_drains_last()
    ensures { ReplayedDrainsLast }
{}

/// So has each whole round of the drain of a run on threads.
pub fn threaded_drains_last()
    ensures { ThreadedDrainsLast }
{}

/// The pods of a replay are on nodes that the script names.
pub fn replayed_pods_are_on_named()
    ensures { ReplayedPodsAreOnNamed }
{}

/// So are those of a run on threads.
pub fn threaded_pods_are_on_named()
    ensures { ThreadedPodsAreOnNamed }
{}

/// The objects of a replay are at most twice those that its script imports and creates.
pub fn replayed_objects_are_few()
    ensures { ReplayedObjectsAreFew }
{}

/// So are those of a run on threads.
pub fn threaded_objects_are_few()
    ensures { ThreadedObjectsAreFew }
{}

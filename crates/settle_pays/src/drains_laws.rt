//! All actors of a drain pay, so what the world has still to do never rises in its rounds.
//!
//! Promises: whatever an actor of any kind decides in a run, where it sees the store as it is, pays with each of its
//! calls as long as nobody else calls (`actors_pay`). The setup must allow it: the UIDs of imports have 128 bits,
//! which the reclaimer alone needs. So each entry of a round pays, be the round whole or not, where its drainers have
//! the roles of a drain and nothing under way (`rounds_pay`). What the world has still to do never rises in such a
//! round, and falls where an entry of it lasts that is worth something. The same holds of a drain from end to end
//! (`drains_pay`). Not said: anything of a round that begins with a task under way, but in a silent agent; that a
//! round has an entry that lasts, which is for `settle_progress` to say; nor what becomes of the tries that are left,
//! for which the node of a claim counts.

ghost use Rattle.settle_pays.specs.Drains.All.{ActorsPay, DrainsPay, RoundsOfActorsPay};

/// Each actor that is built pays.
pub fn actors_pay()
    ensures { ActorsPay }
{}

/// Each entry of a round of a drain pays.
pub fn rounds_pay()
    ensures { RoundsOfActorsPay }
{}

/// Each entry of a drain pays.
pub fn drains_pay()
    ensures { DrainsPay }
{}

//! The calls of an actor pay: each that lasts lowers what the world has still to do.
//!
//! Promises: entries that pay lower what is left to do (`paid_is_less`): by one where one of them lasts, but for the
//! node of a claim, for which tries are counted. An actor whose decisions pay, wherever it sees the store as it is,
//! pays with each call of its slot (`slots_pay`). All is said over any choice of which requests reach the world. Not
//! said: that an actor is such; nor that a round has an entry that lasts, which is for `settle_progress` to say.

ghost use Rattle.settle_pays.specs.Pays.Pays.{PaidIsLess, SlotsPay};

/// Entries that pay lower what is left to do.
pub fn paid_is_less()
    ensures { PaidIsLess }
{}

/// An actor whose decisions pay, run with nothing under way, pays with each of its calls.
pub fn slots_pay()
    ensures { SlotsPay }
{}

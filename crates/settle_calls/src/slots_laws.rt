//! A slot makes few calls beside its writes.
//!
//! Promises: a slot, whether it ends idle or its budget is spent, makes no more calls than a number says that grows with what
//! its objects may cost and with its writes (`slots_are_short`). Up to 512 writes it grows evenly with each of these. Premise:
//! no list or watch of a whole kind and no call of an agent's start is held back; so it is where none but a Mount is held back.
//! Not said: how many writes a slot does.

ghost use Rattle.settle_calls.specs.Slots.Slots.{SlotsAreShort};

/// A slot makes few calls beside its writes.
pub fn slots_are_short()
    ensures { SlotsAreShort }
{}

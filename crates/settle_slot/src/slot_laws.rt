//! A slot: one actor is woken, and run until it is idle while nobody else calls.
//!
//! Promises: past its pass the actor sees the store as it is, of each kind that it follows
//! (`passed_see_the_store`); so each of its decisions rests on the store. In a slot that ends idle each
//! key that waits is decided: where the decision on it is a call that lasts, at once or later, the slot has an entry that
//! lasts (`slots_last`), but for an agent whose node was taken by another; no other actor is so (`others_stay_awake`). All is said over any choice of which requests reach the
//! world: a decision that would make a call that lasts makes it where each call that it leads to reaches a world like
//! that of the start (`would_act_where_calls_pass`). Not said: which decisions are such calls, nor that a key of an
//! object that stands waits.

ghost use Rattle.settle_slot.specs.Slot.Slots.{OthersStayAwake, PassedSeeTheStore, SlotsLast};
ghost use Rattle.settle_slot.specs.Slot.Would.{WouldActWhereCallsPass};

/// Past its pass an actor sees the store as it is.
pub fn passed_see_the_store()
    ensures { PassedSeeTheStore }
{}

/// No actor but an agent is silent at the end.
pub fn others_stay_awake()
    ensures { OthersStayAwake }
{}

/// A slot that ends idle, with a key waiting on which the actor acts, has an entry that lasts.
pub fn slots_last()
    ensures { SlotsLast }
{}

/// A decision that would make a call that lasts makes it, where its calls pass.
pub fn would_act_where_calls_pass()
    ensures { WouldActWhereCallsPass }
{}

//! What an actor has still to call for in a slot, as a number, and how each call lowers it.
//!
//! The number counts the writes that are still ahead, the calls that are left of what is under way, the keys that
//! wait, the events that are to be told, the lists after a watch is gone and the watches of the pass (`specs/Passes`).
//! Promises: in the first pass each call whose answer is told lowers it (`first_calls_pay`), and past it too
//! (`calls_pay`); there a turn leaves it as it is. A write pays for its event, for the pass that tells it and for the
//! decision on it; 513 writes pay for the lists of the kinds whose watches are gone. Not said: how many writes there
//! are.

ghost use Rattle.settle_calls.specs.Passes.Passes.{CallsPay, FirstCallsPay};

/// In the first pass each call leaves less to come.
pub fn first_calls_pay()
    ensures { FirstCallsPay }
{}

/// Past it each call does so too.
pub fn calls_pay()
    ensures { CallsPay }
{}

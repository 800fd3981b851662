//! What an actor writes says something new.
//!
//! Promises: each write of an actor that is done lasts, whatever the actor has seen of the store, but for those that are
//! counted apart: the node of a claim, which the scheduler writes and ops takes back, and phase Failed, which is written
//! anew after each fault (`other_writes_last`). Not said: how many writes are counted apart.

ghost use Rattle.settle_writes.specs.Done.Apart.{OtherWritesLast};

/// Each write of an actor that is done lasts, but for those that are counted apart.
pub fn other_writes_last()
    ensures { OtherWritesLast }
{}

//! What a client was told, and what stands in the store.
//!
//! Promises: the newest that a seat was told of a key is what stands there, unless the key was changed since
//! (`newest_is_true`). Not said: that a seat is told of each change, which is for what runs an actor to say.

ghost use Rattle.settle_slot.specs.Told.Telling.{NewestIsTrue};

/// What a seat was told of a key is so now, unless the key was changed since.
#[tactic(auto, using(crate::proofs::Told::Telling::newest_is_true))]
pub fn newest_is_true()
    ensures { NewestIsTrue }
{}

//! What is still to be told to a seat.
//!
//! Promises: the events of a kind that came after a version are fewer by those that a watch tells; a full answer reaches 64
//! versions further at least, and any other the store's version (`watches_tell_less`). Not said: how many events there are.

ghost use Rattle.settle_calls.specs.Events.Telling.{WatchesTellLess};

/// What a watch tells is so much less to be told.
pub fn watches_tell_less()
    ensures { WatchesTellLess }
{}

//! Where in a seat's list its last entries on a topic stand.
//!
//! Promises: of each topic, `Lasts` knows the place of the last entry that speaks of it, or that there is
//! none (`lasts`); what an entry speaks of is told by `topics`. Places count from the oldest entry, so
//! "after" is a comparison of places. Not said: how long a look-up takes.

pub mod lasts;
pub mod topics;

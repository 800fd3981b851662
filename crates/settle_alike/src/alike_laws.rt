//! Worlds that differ in versions, epochs and the count of device calls alone.
//!
//! Promises: in such worlds the same is due, for each object as it stands in the one and in the other
//! (`alike_is_due`), and one is settled where the other is (`alike_is_settled`). A call lasts, in the sense of
//! `settle_writes`, or leaves the world alike (`calls_last_or_leave_alike`); so among some entries one lasts, or the
//! world at their end is like the one before them (`entries_last_or_leave_alike`). Not said: that any entry lasts.

ghost use Rattle.settle_alike.specs.Alike.Alike.{AlikeIsDue, AlikeIsSettled, CallsLastOrLeaveAlike, EntriesLastOrLeaveAlike};

/// The same is due in worlds that are alike.
pub fn alike_is_due()
    ensures { AlikeIsDue }
{}

/// One is settled where the other is.
pub fn alike_is_settled()
    ensures { AlikeIsSettled }
{}

/// A call lasts, or leaves the world alike.
pub fn calls_last_or_leave_alike()
    ensures { CallsLastOrLeaveAlike }
{}

/// Among some entries one lasts, or the world at their end is like the one before them.
pub fn entries_last_or_leave_alike()
    ensures { EntriesLastOrLeaveAlike }
{}

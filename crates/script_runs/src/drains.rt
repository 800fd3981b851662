//! What a drain of a replay comes to, and who its actors are.

ghost use Rattle.script_runs.specs.Drains.{AllLinesKeepDrainers, CallsLeaveEntries, DrainsComeTo, DrainsKeepDrainers, LinesKeepDrainers, NewOnesAreDrainers};

/// What follows from how a drain is made: whose entries it has, that none is a user's, and how it ends. It does nothing.
pub fn drains_come_to()
    ensures come { DrainsComeTo }
    ensures entries { CallsLeaveEntries }
{}

/// Before each drain of a replay its actors have the seats and the roles of new ones, and they are at rest as long as a
/// budget that was given is not spent. It does nothing.
pub fn drainers_stay()
    ensures new { NewOnesAreDrainers }
    ensures drain { DrainsKeepDrainers }
    ensures line { LinesKeepDrainers }
    ensures lines { AllLinesKeepDrainers }
{}

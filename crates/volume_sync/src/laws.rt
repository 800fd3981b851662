//! What the decision and the table of its cases have to do with each other and with what is due.

ghost use Rattle.volume_sync.specs.VolumeLaw.{DecidesDue};
ghost use Rattle.volume_sync.specs.VolumeTable.{TablePicks};

/// The law that the row of a volume's conditions has the action that is decided.
pub fn table_picks()
    ensures { TablePicks }
{}

/// The law that the decision on a volume is what is due for it, where the look-up and each read see
/// the store itself.
pub fn decides_due()
    ensures { DecidesDue }
{}

//! What the decision and the table of its cases have to do with each other and with what is due.

ghost use Rattle.claim_sync.specs.ClaimLaw.{DecidesDue};
ghost use Rattle.claim_sync.specs.ClaimTable.{TablePicks};

/// The law that the row of a claim's conditions has the step that is decided.
pub fn table_picks()
    ensures { TablePicks }
{}

/// The law that the decision on a claim is what is due for it, where the look-up and each read see
/// the store itself.
pub fn decides_due()
    ensures { DecidesDue }
{}

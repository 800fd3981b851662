//! The rows of a table.

ghost use Rattle.std.specs.Prelude.{◌≡◌};
ghost use Rattle.case_table.specs.Cases.{fits, fits_need};

/// What a row needs of one condition.
#[derive(Clone, Copy, Debug, PartialEq, Eq)]
pub enum Need {
    Yes,
    No,
    Any,
}

/// A row: what it needs of each condition, and the action of the lists that fit it.
#[derive(Clone, Copy, Debug)]
pub struct CaseRow<const K: usize> {
    pub needs: [Need; K],
    pub action: u8,
}

/// Whether the condition is as needed.
pub(crate) fn fits_need(need: Need, condition: bool) -> bool
    ensures { result ≡ fits_need need condition }
{
    match need {
        Need::Yes => condition,
        Need::No => !condition,
        Need::Any => true,
    }
}

/// Whether all conditions are as needed.
pub(crate) fn fits<const K: usize>(needs: &[Need; K], conditions: &[bool; K]) -> bool
    ensures { result ≡ fits needs.now conditions.now }
{
    for i in 0..K {
        if !fits_need(needs[i], conditions[i]) {
            return false;
        }
    }
    true
}

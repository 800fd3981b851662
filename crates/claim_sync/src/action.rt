//! The actions on a claim.

ghost use Rattle.std.specs.Prelude.{◌≡◌};
ghost use Rattle.claim_sync.specs.ClaimTable.{step_number, step_numbered};

/// What to do about a claim.
#[derive(Clone, Copy, Debug, PartialEq, Eq)]
pub enum ClaimAction {
    Nothing,
    /// Read the volume by itself, and decide again.
    ReadVolume,
    /// Make the writes of the binding with the volume at this place among the volumes.
    Bind(usize),
    /// Set the claim's class to the one at this place among the classes.
    AssignClass(usize),
    /// Write phase Lost.
    Lost,
}

/// An action without its place.
#[derive(Clone, Copy, Debug, PartialEq, Eq)]
pub enum ClaimStep {
    Nothing,
    ReadVolume,
    Bind,
    AssignClass,
    Lost,
}

impl ClaimStep {
    /// The number of the step in the table.
    pub(crate) fn number(self) -> u8
        ensures { result ≡ step_number self }
    {
        match self {
            ClaimStep::Nothing => 0,
            ClaimStep::ReadVolume => 1,
            ClaimStep::Bind => 2,
            ClaimStep::AssignClass => 3,
            ClaimStep::Lost => 4,
        }
    }

    /// The step of a number of the table.
    pub fn numbered(number: u8) -> ClaimStep
        ensures { result ≡ step_numbered number }
    {
        match number {
            1 => ClaimStep::ReadVolume,
            2 => ClaimStep::Bind,
            3 => ClaimStep::AssignClass,
            4 => ClaimStep::Lost,
            _ => ClaimStep::Nothing,
        }
    }
}

//! The actions on a volume.

ghost use Rattle.std.specs.Prelude.{◌≡◌};
ghost use Rattle.volume_sync.specs.VolumeTable.{action_number, action_numbered};

/// What to do about a volume.
#[derive(Clone, Copy, Debug, PartialEq, Eq)]
pub enum VolumeAction {
    Nothing,
    /// Read the claim by itself, and decide again.
    ReadClaim,
    /// Write phase Available.
    Available,
    /// Write phase Bound.
    Bound,
    /// Write phase Released.
    Release,
    /// Take the reference back, then write phase Available.
    Unbind,
    /// Decide the claim.
    QueueClaim,
}

impl VolumeAction {
    /// The number of the action in the table.
    pub(crate) fn number(self) -> u8
        ensures { result ≡ action_number self }
    {
        match self {
            VolumeAction::Nothing => 0,
            VolumeAction::ReadClaim => 1,
            VolumeAction::Available => 2,
            VolumeAction::Bound => 3,
            VolumeAction::Release => 4,
            VolumeAction::Unbind => 5,
            VolumeAction::QueueClaim => 6,
        }
    }

    /// The action of a number of the table.
    pub fn numbered(number: u8) -> VolumeAction
        ensures { result ≡ action_numbered number }
    {
        match number {
            1 => VolumeAction::ReadClaim,
            2 => VolumeAction::Available,
            3 => VolumeAction::Bound,
            4 => VolumeAction::Release,
            5 => VolumeAction::Unbind,
            6 => VolumeAction::QueueClaim,
            _ => VolumeAction::Nothing,
        }
    }
}

//! Why a history could not be read.

use kube_types::copies::OutOfMemory;

/// Why a line of a history is refused, the first that applies.
#[derive(Clone, Copy, Debug, PartialEq, Eq)]
pub enum HistoryReason {
    /// The line has more than 4,194,304 bytes.
    TooLong,
    /// It is not the text that is printed of a setup or an entry, or it nests more than 127 levels.
    NotCanonical,
    /// No line `end` stands before the end of the text.
    MissingEnd,
}

/// The first line at fault, counted from 1, and why.
#[derive(Clone, Copy, Debug, PartialEq, Eq)]
pub struct BadHistoryLine {
    pub line: u64,
    pub reason: HistoryReason,
}

/// Why no history was read.
#[derive(Clone, Copy, Debug, PartialEq, Eq)]
pub enum HistoryError {
    OutOfMemory,
    BadLine(BadHistoryLine),
}

impl From<OutOfMemory> for HistoryError {
    ghost use Rattle.std.specs.Prelude.{◌≡◌};
    ghost use Rattle.history_read.specs.declared.errors.HistoryError.TheVariants.{OutOfMemory};

    ghost from_gives = { λ _ e. e ≡ OutOfMemory };

    fn from(_e: OutOfMemory) -> HistoryError {
        HistoryError::OutOfMemory
    }
}

/// Why a line was not taken.
#[derive(Clone, Copy, Debug, PartialEq, Eq)]
pub enum HistoryLineError {
    OutOfMemory,
    Refused(HistoryReason),
}

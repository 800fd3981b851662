//! How the program ends.

ghost use Rattle.std.specs.Prelude.{◌≡◌};
ghost use Rattle.binder_console.specs.Outcomes.{status_number};

/// How the program ends.
#[derive(Clone, Copy, Debug, PartialEq, Eq)]
pub enum Status {
    /// All was written.
    Done,
    /// The words are none of the program's.
    Usage,
    /// The input was refused.
    Refused,
    /// The calls ran out before all was settled.
    Unsettled,
    ReadFault,
    WriteFault,
    /// Memory was wanting.
    Memory,
    /// The audited history is not one of the program's.
    AuditNo,
}

impl Status {
    /// The exit status.
    pub fn number(self) -> u8
        ensures { result ≡ status_number self }
    {
        match self {
            Status::Done => 0,
            Status::Usage => 1,
            Status::Refused => 2,
            Status::Unsettled => 3,
            Status::ReadFault => 4,
            Status::WriteFault => 5,
            Status::Memory => 6,
            Status::AuditNo => 7,
        }
    }
}

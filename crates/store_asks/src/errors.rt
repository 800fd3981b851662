//! Why an ask could not be read.

ghost use Rattle.std.specs.Prelude.{◌≡◌};
ghost use Rattle.store_asks.specs.Asks.{ask_member_word};

/// A member of an ask.
#[derive(Clone, Copy)]
pub enum AskMember {
    /// What is asked.
    Ask,
    /// Which kind of client the seat is.
    Kind,
    Seat,
    /// Whether the answer reaches the one who asks.
    Told,
}

impl AskMember {
    /// The name in JSON, which refusals print.
    pub fn name(&self) -> &str
        ensures { result.now ≡ ask_member_word self.now }
    {
        match self {
            AskMember::Ask => "ask",
            AskMember::Kind => "kind",
            AskMember::Seat => "seat",
            AskMember::Told => "told",
        }
    }
}

/// Why no ask was read.
#[derive(Clone, Copy)]
pub enum AskError {
    OutOfMemory,
    /// The member is absent, of another type, or none that is known.
    BadMember(AskMember),
}

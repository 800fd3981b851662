//! What the words of the command line say.

use std::alloc::AllocError;

/// What the program is asked to do.
#[derive(Clone, Copy, Debug, PartialEq, Eq)]
pub enum Command {
    /// To replay a script.
    Replay,
    /// To run a script with threads.
    Run,
    /// To test a history.
    Audit,
    /// To print the objects of a manifest or of a list of manifests.
    Check,
    /// To make a script and replay it.
    Gen,
    /// To replay a script that has lines of its side beside those of its world.
    Extend,
}

/// The numbers of the options, with the default of each that was not given.
#[derive(Clone, Copy, Debug, PartialEq, Eq)]
pub struct Options {
    pub workers: u64,
    pub seed: u64,
    pub calls: u64,
    /// `None` where it was not given: each drain then raises its budget itself.
    pub budget: Option<u64>,
}

/// A command with its options, also with those that it does not use.
#[derive(Clone, Copy, Debug, PartialEq, Eq)]
pub struct CommandWords {
    pub command: Command,
    pub options: Options,
}

/// Why words are not read.
#[derive(Clone, Copy, Debug, PartialEq, Eq)]
pub enum WordsError {
    /// They are outside the grammar.
    Usage,
    OutOfMemory,
}

impl From<AllocError> for WordsError {
    ghost use Rattle.std.specs.Prelude.{◌≡◌};
    ghost use Rattle.command_words.specs.declared.words.WordsError.TheVariants.{OutOfMemory};

    ghost from_gives = { λ _ e. e ≡ OutOfMemory };

    fn from(_e: AllocError) -> WordsError {
        WordsError::OutOfMemory
    }
}

//! The words of lines.

ghost use Rattle.std.specs.Prelude.{◌≡◌};
ghost use Rattle.script_lines.specs.Verbs.{verb_word, verb_named};

use kube_types::words::{Worded, value_named};

/// What a line does, by its member `do`.
#[derive(Clone, Copy)]
pub enum Verb {
    Create,
    Update,
    Edit,
    Delete,
    Get,
    List,
    Time,
    Pool,
    Fault,
    Import,
    Lose,
    Restart,
    Turn,
    Drain,
}

impl Worded for Verb {
    ghost use Rattle.script_lines.specs.Verbs.{verb_word};

    ghost word = { verb_word };

    fn word(&self) -> &str {
        match self {
            Verb::Create => "create",
            Verb::Update => "update",
            Verb::Edit => "edit",
            Verb::Delete => "delete",
            Verb::Get => "get",
            Verb::List => "list",
            Verb::Time => "time",
            Verb::Pool => "pool",
            Verb::Fault => "fault",
            Verb::Import => "import",
            Verb::Lose => "lose",
            Verb::Restart => "restart",
            Verb::Turn => "turn",
            Verb::Drain => "drain",
        }
    }
}

/// What the word says to do.
pub fn verb_named(word: &str) -> Option<Verb>
    ensures { result ≡ verb_named word.now }
{
    value_named(
        &[
            Verb::Create,
            Verb::Update,
            Verb::Edit,
            Verb::Delete,
            Verb::Get,
            Verb::List,
            Verb::Time,
            Verb::Pool,
            Verb::Fault,
            Verb::Import,
            Verb::Lose,
            Verb::Restart,
            Verb::Turn,
            Verb::Drain,
        ],
        word,
    )
}

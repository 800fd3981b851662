//! Why a line was not read.

use kube_types::copies::OutOfMemory;
use object_text::errors::ObjectError;
use std::alloc::AllocError;

/// Why a line, or a value in it, was not read.
#[derive(Clone, Copy, PartialEq, Eq)]
pub enum Unread {
    OutOfMemory,
    /// It is not the text of an entry or a setup.
    NotCanonical,
}

impl From<OutOfMemory> for Unread {
    ghost use Rattle.std.specs.Prelude.{◌≡◌};
    ghost use Rattle.history_lines.specs.declared.errors.Unread.TheVariants.{OutOfMemory};

    ghost from_gives = { λ _ e. e ≡ OutOfMemory };

    fn from(_e: OutOfMemory) -> Unread {
        Unread::OutOfMemory
    }
}

impl From<AllocError> for Unread {
    ghost use Rattle.std.specs.Prelude.{◌≡◌};
    ghost use Rattle.history_lines.specs.declared.errors.Unread.TheVariants.{OutOfMemory};

    ghost from_gives = { λ _ e. e ≡ OutOfMemory };

    fn from(_e: AllocError) -> Unread {
        Unread::OutOfMemory
    }
}

impl From<ObjectError> for Unread {
    ghost use Rattle.std.specs.Prelude.{◌≡◌};
    ghost use Rattle.history_lines.specs.Answers.{unread_of};

    ghost from_gives = { λ e f. f ≡ unread_of e };

    fn from(e: ObjectError) -> Unread {
        match e {
            ObjectError::OutOfMemory => Unread::OutOfMemory,
            _ => Unread::NotCanonical,
        }
    }
}

//! Why a script could not be read.

use crate::line_member::LineMember;
use kube_types::copies::OutOfMemory;
use object_text::errors::ObjectError;
use std::alloc::AllocError;

/// Why a line of a script is refused, the first that applies.
#[derive(Clone, Copy)]
pub enum Reason {
    /// The line has more than 16,384 bytes.
    TooLong,
    /// It is no JSON text of at most 127 levels, or not in UTF-8.
    NotJson,
    /// The value is no object.
    NotObject,
    /// A member that has to be there is absent or null.
    Missing(LineMember),
    /// The word of the line is none of those that are known.
    UnknownDo,
    /// A member is of another type, or a text outside the listed values.
    WrongType(LineMember),
    /// A kind is none of the five.
    UnknownKind,
    /// A text is no quantity.
    BadQuantity(LineMember),
    /// A number within a listed member is no whole number of 64 bits.
    NotWhole,
    /// A number is out of its range or was given before, an actor is unknown, an object is too long or is not
    /// imported, or not exactly one edit member stands in the line.
    BadValue(LineMember),
    TooManyLines,
    TooManyObjects,
    TooManyNodes,
    TooManyPools,
    TooManyFaults,
    TooManyRestarts,
    TooManyLosses,
    /// The calls of all turn lines together are too many.
    TooManyTurns,
    /// More namespaces are given a quota than an extended script may have.
    TooManyQuotas,
}

/// The first line at fault, counted from 1, and why.
#[derive(Clone, Copy)]
pub struct BadLine {
    pub line: u64,
    pub reason: Reason,
}

/// Why no script was read.
#[derive(Clone, Copy)]
pub enum ScriptError {
    OutOfMemory,
    BadLine(BadLine),
}

impl From<AllocError> for ScriptError {
    ghost use Rattle.std.specs.Prelude.{◌≡◌};
    ghost use Rattle.script_lines.specs.declared.errors.ScriptError.TheVariants.{OutOfMemory};

    ghost from_gives = { λ _ e. e ≡ OutOfMemory };

    fn from(_e: AllocError) -> ScriptError {
        ScriptError::OutOfMemory
    }
}

impl From<OutOfMemory> for ScriptError {
    ghost use Rattle.std.specs.Prelude.{◌≡◌};
    ghost use Rattle.script_lines.specs.declared.errors.ScriptError.TheVariants.{OutOfMemory};

    ghost from_gives = { λ _ e. e ≡ OutOfMemory };

    fn from(_e: OutOfMemory) -> ScriptError {
        ScriptError::OutOfMemory
    }
}

/// Why a line was not taken.
#[derive(Clone, Copy)]
pub enum LineError {
    OutOfMemory,
    Refused(Reason),
}

impl From<OutOfMemory> for LineError {
    ghost use Rattle.std.specs.Prelude.{◌≡◌};
    ghost use Rattle.script_lines.specs.declared.errors.LineError.TheVariants.{OutOfMemory};

    ghost from_gives = { λ _ e. e ≡ OutOfMemory };

    fn from(_e: OutOfMemory) -> LineError {
        LineError::OutOfMemory
    }
}

impl From<AllocError> for LineError {
    ghost use Rattle.std.specs.Prelude.{◌≡◌};
    ghost use Rattle.script_lines.specs.declared.errors.LineError.TheVariants.{OutOfMemory};

    ghost from_gives = { λ _ e. e ≡ OutOfMemory };

    fn from(_e: AllocError) -> LineError {
        LineError::OutOfMemory
    }
}

impl From<ObjectError> for LineError {
    ghost use Rattle.std.specs.Prelude.{◌≡◌};
    ghost use Rattle.script_lines.specs.Answers.{line_error};

    ghost from_gives = { λ e f. f ≡ line_error e };

    fn from(e: ObjectError) -> LineError {
        match e {
            ObjectError::OutOfMemory => LineError::OutOfMemory,
            ObjectError::TooLong => LineError::Refused(Reason::TooLong),
            ObjectError::NotJson => LineError::Refused(Reason::NotJson),
            ObjectError::NotObject => LineError::Refused(Reason::NotObject),
            ObjectError::NotWhole => LineError::Refused(Reason::NotWhole),
            ObjectError::UnknownKind => LineError::Refused(Reason::UnknownKind),
            ObjectError::Missing(member) => LineError::Refused(Reason::Missing(LineMember::Of(
                member,
            ))),
            ObjectError::WrongType(member) => LineError::Refused(Reason::WrongType(LineMember::Of(
                member,
            ))),
            ObjectError::BadQuantity(member) => LineError::Refused(Reason::BadQuantity(
                LineMember::Of(member),
            )),
        }
    }
}

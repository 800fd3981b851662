//! Why an input is not checked.

use object_text::errors::ListError;
use plain_data::copies::OutOfMemory;

/// Why nothing is printed of a list of manifests.
#[derive(Clone, Copy)]
pub enum CheckError {
    /// An item was refused, and it is the first.
    Refused(ListError),
    OutOfMemory,
}

impl From<OutOfMemory> for CheckError {
    ghost use Rattle.std.specs.Prelude.{◌≡◌};
    ghost use Rattle.binder_console.specs.declared.errors.CheckError.TheVariants.{OutOfMemory};

    ghost from_gives = { λ _ e. e ≡ OutOfMemory };

    fn from(_e: OutOfMemory) -> CheckError {
        CheckError::OutOfMemory
    }
}

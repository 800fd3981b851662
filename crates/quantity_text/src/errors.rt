//! Why a text is no quantity.

use kube_types::copies::OutOfMemory;

/// Why a text is no quantity, the first that applies in this order. A place is counted in bytes from 0.
#[derive(Clone, Copy, Debug, PartialEq, Eq)]
pub enum AmountError {
    /// There is no byte.
    Empty,
    /// The text begins with a minus.
    Negative,
    /// At this place, the start or behind a plus, stands no number.
    BadNumber(usize),
    /// From this place, behind the number, the text is no suffix.
    BadSuffix(usize),
    /// The number has more than 18 digits without leading zeros, or more than 18 behind the point.
    TooManyDigits,
    /// The exponent is below -18 or above 18.
    BadExponent,
    /// There are more than 2^63 - 1 bytes.
    TooLarge,
    /// Memory ran out.
    OutOfMemory,
}

impl From<OutOfMemory> for AmountError {
    ghost use Rattle.std.specs.Prelude.{◌≡◌};
    ghost use Rattle.quantity_text.specs.declared.errors.AmountError.TheVariants.{OutOfMemory};

    ghost from_gives = { λ _ e. e ≡ OutOfMemory };

    fn from(_e: OutOfMemory) -> AmountError {
        AmountError::OutOfMemory
    }
}

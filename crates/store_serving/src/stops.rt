//! Why serving stopped before its end.

use fault_io::ends::{ReadError, WriteFault};
use kube_types::copies::OutOfMemory;

/// Why serving stopped before its end.
#[derive(Clone, Copy)]
pub enum ServeStop {
    /// A read failed.
    ReadFault,
    /// A write failed, so a part of an answer may be missing.
    WriteFault,
    OutOfMemory,
    /// More than 4 MiB were read with no line feed.
    TooLong,
}

impl From<ReadError> for ServeStop {
    ghost use Rattle.std.specs.Prelude.{◌≡◌};
    ghost use Rattle.store_serving.specs.Serving.{stop_of};

    ghost from_gives = { λ e f. f ≡ stop_of e };

    fn from(e: ReadError) -> ServeStop {
        match e {
            ReadError::ReadFault => ServeStop::ReadFault,
            ReadError::OutOfMemory => ServeStop::OutOfMemory,
            ReadError::TooLong => ServeStop::TooLong,
        }
    }
}

impl From<OutOfMemory> for ServeStop {
    ghost use Rattle.std.specs.Prelude.{◌≡◌};
    ghost use Rattle.store_serving.specs.declared.stops.ServeStop.TheVariants as stops;

    ghost from_gives = { λ _ e. e ≡ stops.OutOfMemory };

    fn from(_e: OutOfMemory) -> ServeStop {
        ServeStop::OutOfMemory
    }
}

impl From<WriteFault> for ServeStop {
    ghost use Rattle.std.specs.Prelude.{◌≡◌};
    ghost use Rattle.store_serving.specs.declared.stops.ServeStop.TheVariants as stops;

    ghost from_gives = { λ _ e. e ≡ stops.WriteFault };

    fn from(_e: WriteFault) -> ServeStop {
        ServeStop::WriteFault
    }
}

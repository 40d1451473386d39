ghost use Rattle.std.specs.Prelude.{◌≡◌};
ghost use Rattle.ny_parse.specs.declared.fault.ParseFault.TheVariants.{OutOfMemory};

use std::alloc::{AllocError, AllocFailed};

/// Why tokens have no tree.
#[derive(Clone, Copy, Debug, PartialEq, Eq)]
pub enum ParseFault {
    /// The place of the first token that no accepted text goes on with, or the text's length.
    At { at: u32 },
    OutOfMemory,
}

impl From<AllocError> for ParseFault {
    ghost from_gives = { λ _ e. e ≡ OutOfMemory };

    fn from(_e: AllocError) -> ParseFault {
        ParseFault::OutOfMemory
    }
}

impl<T: Drop> From<AllocFailed<T>> for ParseFault {
    ghost from_gives = { λ _ e. e ≡ OutOfMemory };

    fn from(_e: AllocFailed<T>) -> ParseFault {
        ParseFault::OutOfMemory
    }
}

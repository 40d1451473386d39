use ny_num::NumFault;
use std::alloc::{AllocError, AllocFailed};

/// Why a token can't be read (`docs/LANGUAGE.md`, "Tokens").
#[derive(Clone, Copy, Debug, PartialEq, Eq)]
pub enum LexWhy {
    /// The byte begins no token.
    BadByte,
    /// What follows a `#` is not `if`.
    BadHash,
    /// A number is not digits, with perhaps a point and more digits.
    NotDecimal,
    /// More than six digits follow a number's point.
    TooManyPlaces,
    /// A number is above 2^53 millionths.
    TooLarge,
}

/// Why a text has no tokens.
#[derive(Clone, Copy, Debug, PartialEq, Eq)]
pub enum LexFault {
    /// The leftmost token that can't be read begins at this byte.
    Bad { at: u32, why: LexWhy },
    /// Memory ran out.
    OutOfMemory,
}

impl From<NumFault> for LexWhy {
    ghost use Rattle.std.specs.Prelude.{◌≡◌};
    ghost use Rattle.ny_lex.specs.Words.{why_of};

    ghost from_gives = { λ fault why. why ≡ why_of fault };

    fn from(fault: NumFault) -> LexWhy {
        match fault {
            NumFault::NotDecimal => LexWhy::NotDecimal,
            NumFault::TooManyPlaces => LexWhy::TooManyPlaces,
            NumFault::TooLarge => LexWhy::TooLarge,
        }
    }
}

impl From<AllocError> for LexFault {
    ghost use Rattle.std.specs.Prelude.{◌≡◌};
    ghost use Rattle.ny_lex.specs.declared.fault.LexFault.TheVariants.{OutOfMemory};

    ghost from_gives = { λ _ fault. fault ≡ OutOfMemory };

    fn from(_error: AllocError) -> LexFault {
        LexFault::OutOfMemory
    }
}

impl<T: Drop> From<AllocFailed<T>> for LexFault {
    ghost use Rattle.std.specs.Prelude.{◌≡◌};
    ghost use Rattle.ny_lex.specs.declared.fault.LexFault.TheVariants.{OutOfMemory};

    ghost from_gives = { λ _ fault. fault ≡ OutOfMemory };

    fn from(_error: AllocFailed<T>) -> LexFault {
        LexFault::OutOfMemory
    }
}

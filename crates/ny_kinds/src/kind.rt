use sqlite_items::Items;
use std::alloc::{AllocError, AllocFailed};

/// What an expression gives (`docs/LANGUAGE.md`, "Kinds").
#[derive(Clone, Copy, PartialEq, Eq)]
pub enum Kind {
    Number,
    Sound,
    Test,
    /// So many sounds side by side.
    Channels(usize),
}

/// What an operator says of its operands' kinds.
#[derive(Clone, Copy, PartialEq, Eq)]
pub enum Judgement {
    /// The expression is of this kind.
    Is(Kind),
    /// The operands are refused.
    Refused,
    /// An operand has no kind, so nothing is said.
    Silent,
}

/// The kind of an expression, if it has one, and the least place of a refusal in it.
#[derive(Clone, Copy, PartialEq, Eq)]
pub struct Found {
    pub kind: Option<Kind>,
    pub fault: Option<u32>,
}

/// What a call says, of the kinds of its arguments.
#[derive(Clone, Copy, PartialEq, Eq)]
pub struct Reached {
    pub row: Judgement,
    /// The least place of a refusal in the body that it reaches.
    pub fault: Option<u32>,
}

/// A function, by the number of its declaration, with the kinds of its arguments.
#[derive(Drop)]
pub struct Use {
    pub number: u32,
    pub kinds: Items<Kind>,
}

/// What the body of a function is for these kinds.
#[derive(Drop)]
pub struct Entry {
    pub number: u32,
    pub kinds: Items<Kind>,
    pub found: Found,
    /// Where the entry before it in its list stands, counted from 1; or 0.
    pub earlier: usize,
}

/// Why an expression is not judged yet.
#[derive(Drop)]
pub enum Stop {
    /// This function is to be judged first, for these kinds; and then those whose bodies called for it, from the innermost on.
    Missing(Use, Items<Use>),
    /// As many expressions were judged as are to be.
    TooManyNodes,
    OutOfMemory,
}

/// Why the kinds of a text are not known.
#[derive(Clone, Copy, Debug, PartialEq, Eq)]
pub enum Unjudged {
    /// As many expressions were judged as the caller allows.
    TooManyNodes,
    /// No memory was left.
    OutOfMemory,
}

impl From<AllocError> for Unjudged {
    ghost use Rattle.std.specs.Prelude.{◌≡◌};
    ghost use Rattle.ny_kinds.specs.declared.kind.Unjudged.TheVariants.{OutOfMemory};

    ghost from_gives = { λ e s. s ≡ OutOfMemory };

    fn from(_error: AllocError) -> Unjudged {
        Unjudged::OutOfMemory
    }
}

impl From<AllocError> for Stop {
    ghost use Rattle.std.specs.Prelude.{◌≡◌};
    ghost use Rattle.ny_kinds.specs.declared.kind.Stop.TheVariants.{OutOfMemory};

    ghost from_gives = { λ e s. s ≡ OutOfMemory };

    fn from(_error: AllocError) -> Stop {
        Stop::OutOfMemory
    }
}

impl<T: Drop> From<AllocFailed<T>> for Stop {
    ghost use Rattle.std.specs.Prelude.{◌≡◌};
    ghost use Rattle.ny_kinds.specs.declared.kind.Stop.TheVariants.{OutOfMemory};

    ghost from_gives = { λ e s. s ≡ OutOfMemory };

    fn from(_error: AllocFailed<T>) -> Stop {
        Stop::OutOfMemory
    }
}

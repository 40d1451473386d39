ghost use Rattle.std.specs.Prelude.{◌≡◌};

/// How a run ended (`docs/LANGUAGE.md`, "The command line").
#[derive(Clone, Copy, Debug, PartialEq, Eq)]
pub enum Status {
    Ok,
    /// The words are no command.
    Usage,
    /// The input can't be opened, or the output can't be created.
    OpenFault,
    /// The input can't be read.
    ReadFault,
    /// The output can't be written, or a line can't be printed.
    WriteFault,
    /// The text can't be played.
    Refused,
    /// The pool had no free block.
    PoolFull,
    OutOfMemory,
}

impl Status {
    ghost use Rattle.ny_top.specs.Outcome.{code_of};

    /// The exit code of the program.
    pub fn code(&self) -> u8
        ensures { result ≡ code_of self.now }
    {
        match self {
            Status::Ok => 0,
            Status::Usage => 2,
            Status::OpenFault => 3,
            Status::ReadFault => 4,
            Status::WriteFault => 5,
            Status::Refused => 6,
            Status::PoolFull => 8,
            Status::OutOfMemory => 9,
        }
    }
}

ghost use Rattle.std.specs.Prelude.{◌≡◌, ◌≢◌};

use clap::error::ErrorKind;

/// Why words were not read.
#[derive(Clone, Copy)]
pub enum WordsFault {
    /// They are no command.
    Usage,
    /// There was no memory to read them.
    OutOfMemory,
}

/// Why words were not read, by the kind of the reader's error: help that is asked for is no command.
pub fn fault_of(kind: ErrorKind) -> WordsFault
    ensures usage { result ≡ WordsFault.Usage → kind ≢ ErrorKind.OutOfMemory }
    ensures memory { result ≡ WordsFault.OutOfMemory → kind ≡ ErrorKind.OutOfMemory }
{
    match kind {
        ErrorKind::OutOfMemory => WordsFault::OutOfMemory,
        _ => WordsFault::Usage,
    }
}

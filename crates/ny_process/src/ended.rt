ghost use Rattle.std.specs.Prelude.{◌≡◌, ◌⊎◌, Option, None, map, string_bytes, IsTrue, IfSome};
ghost use Rattle.ny_pull.specs.Engine.{EngineState};
ghost use Rattle.ny_top.specs.Outcome.{HasOutcome, code_of};
ghost use Rattle.ny_top.specs.Ends.{EndsAs, is_whole};
ghost use Rattle.ny_words.specs.Words.{read_words};

use ny_io::Host;
use ny_top::{Status, run};
use std::alloc::Global;

/// The exit code of the run of these words over a host (`docs/LANGUAGE.md`, "The command line").
pub fn exit_code<H: Host>(alloc: Global, words: &[String], host: &mut H) -> u8
    // The code of a status, and where no fault brings that status, of the run's outcome.
    ensures code { (status : Status) × (engine : Option EngineState) × (result ≡ code_of status)
        × (IsTrue (is_whole status) → IfSome (H.state host.old).files (λ files.
        EndsAs (HasOutcome (map string_bytes words.now) files engine) status (H.state host.old) (H.state host.new))) }

    // Words that are no command end with 2, with 5 where the line can't be printed, or with 9 where there was no memory to read them.
    ensures usage { read_words (map string_bytes words.now) ≡ None → (result ≡ 2) ⊎ (result ≡ 5) ⊎ (result ≡ 9) }
{
    let mut left = None;
    run(alloc, words, host, &mut left).code()
}

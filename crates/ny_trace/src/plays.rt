ghost use Rattle.std.specs.Prelude.{ℕ};
ghost use Rattle.ny_check.specs.Code.{Code, IsOrdered};
ghost use Rattle.ny_trace.specs.Laws.{KeepsFree};
ghost use Rattle.ny_trace.specs.Plays.{Plays, PlaysLawfully, PlaysSettling};

/// The laws of a trace of what is played (`docs/DEFINITIONS.md`, "The trace of an evaluation"), however deep
/// it is.
pub fn plays_laws()
    // The sounds that it leaves in hand are those of the strict meaning, in order, and all that was there is
    // as it was.
    ensures lawful { (code : Code) (n : ℕ) → IsOrdered code → KeepsFree code → PlaysLawfully code (Plays code n) }
    // It leaves no part that is due.
    ensures settling { (code : Code) (n : ℕ) → PlaysSettling (Plays code n) }
{}

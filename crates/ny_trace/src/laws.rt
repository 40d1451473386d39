ghost use Rattle.std.specs.Prelude.{ℕ};
ghost use Rattle.ny_check.specs.Code.{Code, IsOrdered};
ghost use Rattle.ny_trace.specs.Evaluates.{Evaluates};
ghost use Rattle.ny_trace.specs.Heights.{IsTall, IsRising};
ghost use Rattle.ny_trace.specs.Laws.{KeepsFree, IsLawful};
ghost use Rattle.ny_trace.specs.Settled.{IsSettling};

/// The laws of a trace of evaluation (`docs/DEFINITIONS.md`, "The trace of an evaluation"), however deep it
/// is.
pub fn trace_laws()
    // The one sound that it leaves in hand is that of the strict meaning, and all that was there is as it was.
    ensures lawful { (code : Code) (n : ℕ) → IsOrdered code → KeepsFree code → IsLawful code (Evaluates code n) }
    // Its units stand no higher than the text lets them, and under parts that wait there is room.
    ensures rising { (code : Code) (tall : ℕ → ℕ) (n : ℕ) → IsOrdered code → KeepsFree code → IsTall code tall → IsRising code tall (Evaluates code n) }
    // It leaves no part that is due.
    ensures settling { (code : Code) (n : ℕ) → IsSettling (Evaluates code n) }
{}

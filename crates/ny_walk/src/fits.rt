ghost use Rattle.std.specs.Prelude.{◌≡◌, ℕ, ◌+◌, ◌<◌, ◌≤◌, List, Some, length};
ghost use Rattle.ny_warp.specs.declared.env.Env.{Env};
ghost use Rattle.ny_check.specs.Code.{Code, IsOrdered};
ghost use Rattle.ny_heap.specs.declared.sound.Sound.{Sound};
ghost use Rattle.ny_heap.specs.Heap.{HeapState};
ghost use Rattle.ny_heap.specs.Reach.{HeapLaws};
ghost use Rattle.ny_hands.specs.declared.branch.Branch.{Branch};
ghost use Rattle.ny_hands.specs.Frames.{Names};
ghost use Rattle.ny_timing.specs.Timings.{timing_at};
ghost use Rattle.ny_trace.specs.Evaluates.{Evaluates, times_in};
ghost use Rattle.ny_trace.specs.Laws.{KeepsFree};
ghost use Rattle.ny_trace.specs.Plays.{Plays};
ghost use Rattle.ny_trace.specs.Reveals.{PartTurn as HandedPart};
ghost use Rattle.ny_walk.specs.Walk.{FillTurn, PartTurn};
ghost use Rattle.ny_walk.specs.Fits.{Fits};

/// The laws of parts that wait within their units (`docs/DEFINITIONS.md`, "The walk"). A walk keeps them
/// too, as `walk_laws` says.
pub fn fit_laws()
    // What is evaluated is heard when the timings of its names tell.
    ensures told { (code : Code) (n e : ℕ) (env : Env) (names : Names) (old new : HeapState Branch) (s : Sound) → Evaluates code n e env names old new s → IsOrdered code → e < length code.nodes → s.timing ≡ timing_at code e env (times_in names) }
    // Evaluation leaves parts that fit, and so do that of what is played, a fill, and a part that is revealed.
    ensures evaluates { (code : Code) (n e : ℕ) (env : Env) (names : Names) (old new : HeapState Branch) (s : Sound) → Evaluates code n e env names old new s → IsOrdered code → KeepsFree code → e < length code.nodes → Fits code old → Fits code new }
    ensures plays { (code : Code) (n e : ℕ) (env : Env) (names : Names) (old new : HeapState Branch) (ss : List Sound) → Plays code n e env names old new ss → IsOrdered code → KeepsFree code → e < length code.nodes → Fits code old → Fits code new }
    ensures fills { (code : Code) (old new : HeapState Branch) (u : ℕ) → FillTurn old new u → Fits code old → Fits code new }
    ensures reveals { (code : Code) (old new : HeapState Branch) (u : ℕ) → PartTurn code old u new → IsOrdered code → KeepsFree code → HeapLaws old → Fits code old → Fits code new }
    // The part that was handed out and evaluated ends no later than its unit.
    ensures ends { (code : Code) (n : ℕ) (old mid : HeapState Branch) (u : ℕ) (s : Sound) (turn : HandedPart (Evaluates code n) old mid u s) → IsOrdered code → turn.branch.expr.0 < length code.nodes → Fits code old → s.timing.start + s.timing.len ≤ turn.takes.hands.unit.timing.start + turn.takes.hands.unit.timing.len }
{}

ghost use Rattle.std.specs.Prelude.{◌≡◌, ℕ, ◌+◌, ◌<◌, ◌≤◌, Bool, true, length};
ghost use Rattle.ny_check.specs.Code.{Code, IsOrdered};
ghost use Rattle.ny_heap.specs.declared.sound.Sound.{Sound};
ghost use Rattle.ny_heap.specs.Heap.{HeapState};
ghost use Rattle.ny_heap.specs.Means.{Whole, Means};
ghost use Rattle.ny_heap.specs.Reach.{HeapLaws};
ghost use Rattle.ny_hands.specs.declared.branch.Branch.{Branch};
ghost use Rattle.ny_hands.specs.Frames.{part_is};
ghost use Rattle.ny_hands.specs.Hands.{Later};
ghost use Rattle.ny_trace.specs.Evaluates.{Evaluates};
ghost use Rattle.ny_trace.specs.Heights.{IsTall, Ranks};
ghost use Rattle.ny_trace.specs.Laws.{KeepsFree};
ghost use Rattle.ny_trace.specs.Settled.{SettledBut};
ghost use Rattle.ny_trace.specs.Reveals.{PartTurn, RevealTurn, IsReadyPart, IsRevealed, StandsBelow};

/// The laws of a part that falls due (`docs/DEFINITIONS.md`, "A part that falls due"), however deep its
/// evaluation is.
pub fn reveal_laws()
    // Its unit has one part more, and all else that is still read is as it was.
    ensures revealed { (code : Code) (n : ℕ) → IsOrdered code → KeepsFree code → (old new : HeapState Branch) (u : ℕ) (turn : RevealTurn (Evaluates code n) old new u) → HeapLaws old → turn.part.branch.expr.0 < length code.nodes → IsRevealed old new u }
    // No list changes, and nothing is owed that was not.
    ensures means { (code : Code) (n : ℕ) → IsOrdered code → KeepsFree code → (old new : HeapState Branch) (u : ℕ) (turn : RevealTurn (Evaluates code n) old new u) → HeapLaws old → turn.part.branch.expr.0 < length code.nodes → (w : Whole) → Means (part_is code) old w → Later (part_is code) old new w }
    // All that was there stands as high as it did, and what is new stands below the unit.
    ensures rising { (code : Code) (tall : ℕ → ℕ) (n : ℕ) → IsOrdered code → KeepsFree code → IsTall code tall → (old new : HeapState Branch) (u : ℕ) (turn : RevealTurn (Evaluates code n) old new u) → HeapLaws old → turn.part.branch.expr.0 < length code.nodes → (rank : ℕ → ℕ) → Ranks tall old rank → StandsBelow tall old new u rank }
    // No part of another unit is due that was not, and none is still to be attached.
    ensures settling { (code : Code) (n : ℕ) → IsOrdered code → KeepsFree code → (old new : HeapState Branch) (u : ℕ) (turn : RevealTurn (Evaluates code n) old new u) → HeapLaws old → turn.part.branch.expr.0 < length code.nodes → (but : ℕ → Bool) → but u ≡ true → SettledBut but old → SettledBut but new }
    // What was evaluated can be attached, where it ends no later than its unit.
    ensures ready { (code : Code) (tall : ℕ → ℕ) (n : ℕ) → IsOrdered code → KeepsFree code → IsTall code tall → (old mid : HeapState Branch) (u : ℕ) (s : Sound) (turn : PartTurn (Evaluates code n) old mid u s) → HeapLaws old → turn.branch.expr.0 < length code.nodes → (rank : ℕ → ℕ) → Ranks tall old rank → s.timing.start + s.timing.len ≤ turn.takes.hands.unit.timing.start + turn.takes.hands.unit.timing.len → IsReadyPart mid u s }
{}

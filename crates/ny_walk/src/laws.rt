ghost use Rattle.std.specs.Prelude.{◌≡◌, ◌⊎◌, ℕ, ◌<◌, List, length, IsSome};
ghost use Rattle.ny_warp.specs.declared.env.Env.{Env};
ghost use Rattle.ny_check.specs.Code.{Code, IsOrdered};
ghost use Rattle.ny_heap.specs.declared.sound.Sound.{Sound};
ghost use Rattle.ny_heap.specs.Heap.{HeapState, node_at, free_of};
ghost use Rattle.ny_heap.specs.Reach.{HeapLaws};
ghost use Rattle.ny_hands.specs.declared.branch.Branch.{Branch};
ghost use Rattle.ny_hands.specs.Frames.{Names};
ghost use Rattle.ny_trace.specs.Evaluates.{Evaluates};
ghost use Rattle.ny_trace.specs.Heights.{IsTall};
ghost use Rattle.ny_trace.specs.Laws.{KeepsFree};
ghost use Rattle.ny_trace.specs.Plays.{Plays};
ghost use Rattle.ny_walk.specs.Walk.{Walks};
ghost use Rattle.ny_walk.specs.Stops.{StopsAtFull, RunsOut, NoneWaits};
ghost use Rattle.ny_walk.specs.Parts.{AllPartsOf};
ghost use Rattle.ny_walk.specs.Below.{IsSettled, IsRanked, Walked, Stopped};
ghost use Rattle.ny_walk.specs.Heard.{StaysHeard};

/// The laws of a walk (`docs/DEFINITIONS.md`, "The walk"), however deep it is.
pub fn walk_laws()
    // The unit has one block more, and nothing is due. All that stands higher, or is read from there or from outside, is as it was.
    ensures walks { (code : Code) (n : ℕ) (old new : HeapState Branch) (u : ℕ) (us : List ℕ) → Walks code n old u us new → IsOrdered code → KeepsFree code → (tall : ℕ → ℕ) → IsTall code tall → (left : ℕ) → IsSome (node_at old u) → HeapLaws old → IsSettled old → IsRanked tall old u left → Walked code tall old new u }
    // So it is where the walk stops, but the unit has no block more.
    ensures stops { (code : Code) (n : ℕ) (old new : HeapState Branch) (u : ℕ) (us : List ℕ) → StopsAtFull code n old u us new → IsOrdered code → KeepsFree code → (tall : ℕ → ℕ) → IsTall code tall → (left : ℕ) → IsSome (node_at old u) → HeapLaws old → IsSettled old → IsRanked tall old u left → Stopped code tall old new u }
    // Who has a sound in hand hears the same from it.
    ensures heard { (code : Code) (n : ℕ) (old new : HeapState Branch) (u : ℕ) (us : List ℕ) → Walks code n old u us new ⊎ StopsAtFull code n old u us new → IsOrdered code → KeepsFree code → (tall : ℕ → ℕ) → IsTall code tall → (left : ℕ) → IsSome (node_at old u) → HeapLaws old → IsSettled old → IsRanked tall old u left → StaysHeard code old new }
    // Evaluation leaves what is known of the parts that wait, as a walk does.
    ensures makes { (code : Code) (n e : ℕ) (env : Env) (names : Names) (old new : HeapState Branch) (s : Sound) → Evaluates code n e env names old new s → IsOrdered code → e < length code.nodes → AllPartsOf code old → AllPartsOf code new }
    // So does the evaluation of what is played.
    ensures plays_makes { (code : Code) (n e : ℕ) (env : Env) (names : Names) (old new : HeapState Branch) (ss : List Sound) → Plays code n e env names old new ss → IsOrdered code → e < length code.nodes → AllPartsOf code old → AllPartsOf code new }
    // A walk stops where no block is free.
    ensures full { (code : Code) (n : ℕ) (old new : HeapState Branch) (u : ℕ) (us : List ℕ) → StopsAtFull code n old u us new → free_of new ≡ 0 }
    // Where no part waits none waits afterwards, a walk either ends or stops, and memory is not missing.
    ensures quiet { (code : Code) (n : ℕ) (old new : HeapState Branch) (u : ℕ) (us : List ℕ) → Walks code n old u us new → NoneWaits old → NoneWaits new }
    ensures only { (code : Code) (n m : ℕ) (old new stop : HeapState Branch) (u : ℕ) (us ws : List ℕ) → NoneWaits old → Walks code n old u us new → StopsAtFull code m old u ws stop → ⊥ }
    ensures enough { (code : Code) (n : ℕ) (old last : HeapState Branch) (u : ℕ) (us : List ℕ) → RunsOut code n old u us last → NoneWaits old → ⊥ }
{}

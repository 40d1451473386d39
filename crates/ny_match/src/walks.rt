ghost use Rattle.std.specs.Prelude.{◌≡◌, ℕ, ◌+◌, ◌≤◌, ◌==◌, true, List, Some};
ghost use Rattle.std.specs.List.{list_any};
ghost use Rattle.ny_check.specs.Code.{Code, IsOrdered};
ghost use Rattle.ny_heap.specs.Heap.{Node, HeapState, node_at, is_open, live_of};
ghost use Rattle.ny_hands.specs.declared.branch.Branch.{Branch};
ghost use Rattle.ny_plan.specs.Rows.{Row};
ghost use Rattle.ny_plan.specs.Need.{Filled};
ghost use Rattle.ny_plan.specs.Fills.{Fills, fill_row};
ghost use Rattle.ny_plan.specs.Order.{AllRows};
ghost use Rattle.ny_plan.specs.Peak.{live_before};
ghost use Rattle.ny_trace.specs.Heights.{IsTall};
ghost use Rattle.ny_trace.specs.Laws.{KeepsFree};
ghost use Rattle.ny_walk.specs.Walk.{Walks};
ghost use Rattle.ny_walk.specs.Stops.{StopsAtFull};
ghost use Rattle.ny_walk.specs.Below.{IsRanked};
ghost use Rattle.ny_match.specs.Keeps.{KeepsMade};
ghost use Rattle.ny_match.specs.Matched.{Seats};
ghost use Rattle.ny_match.specs.Walking.{ChannelsFrom, Rests, WalksAs};

/// A walk of a heap whose units are the rows of a plan (`docs/DEFINITIONS.md`, "The match").
pub fn walk_law()
    // It fills the rows that the plan fills for the row of its unit, in the same order, and finds so many blocks live before each.
    ensures walks { (code : Code) → IsOrdered code → KeepsFree code → KeepsMade code → (tall : ℕ → ℕ) → IsTall code tall → (rows : List Row) → AllRows rows →
        (top : ℕ) → ChannelsFrom top rows → (n : ℕ) (old new : HeapState Branch) (u left : ℕ) (us : List ℕ) (x : Node Branch) → node_at old u ≡ Some x →
        is_open old.block x ≡ true → IsRanked tall old u left → (f : Filled) (seats : Seats) → Rests code rows f old seats → Walks code n old u us new →
        WalksAs code tall rows f old new seats u (fill_row old.block rows (seats.row u + 1) (seats.row u) f) }
    // Where it stops for want of a block, that order comes to a fill before which all blocks of the pool are live.
    ensures stops { (code : Code) → IsOrdered code → KeepsFree code → KeepsMade code → (tall : ℕ → ℕ) → IsTall code tall → (rows : List Row) → AllRows rows →
        (top : ℕ) → ChannelsFrom top rows → (n : ℕ) (old new : HeapState Branch) (u left : ℕ) (us : List ℕ) (x : Node Branch) → node_at old u ≡ Some x →
        is_open old.block x ≡ true → IsRanked tall old u left → (f : Filled) (seats : Seats) → Rests code rows f old seats → StopsAtFull code n old u us new →
        live_of new ≤ new.pool →
        list_any (λ n. n == old.pool) (live_before old.block rows (Fills.order (fill_row old.block rows (seats.row u + 1) (seats.row u) f)) f) ≡ true }
{}

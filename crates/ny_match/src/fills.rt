ghost use Rattle.std.specs.Prelude.{◌≡◌, ℕ, ◌+◌, Bool, true, nat_lt, List, Some, length, slice_index, slice_get, slice_set};
ghost use Rattle.ny_check.specs.Code.{Code};
ghost use Rattle.ny_heap.specs.Heap.{Node, HeapState, node_at, is_open, live_of};
ghost use Rattle.ny_heap.specs.Reach.{HeapLaws};
ghost use Rattle.ny_hands.specs.declared.branch.Branch.{Branch};
ghost use Rattle.ny_heap.specs.Kinds.{UnitKind};
ghost use Rattle.ny_plan.specs.Rows.{Input, Row, row_at};
ghost use Rattle.ny_plan.specs.Need.{Filled, has_come};
ghost use Rattle.ny_plan.specs.Liveness.{live, live_of_kinds};
ghost use Rattle.ny_plan.specs.Order.{AllRows};
ghost use Rattle.ny_heap.specs.Kinds.{kept_of_kinds};
ghost use Rattle.ny_plan.specs.StandsFor.{Matches};
ghost use Rattle.ny_walk.specs.Walk.{FillTurn};
ghost use Rattle.ny_walk.specs.Below.{IsSettled};
ghost use Rattle.ny_match.specs.Matched.{Seats, Matched};
ghost use Rattle.ny_match.specs.Roots.{Roots};

/// What a fill leaves of a matched heap, and which blocks it keeps (`docs/DEFINITIONS.md`, "The match").
pub fn fill_laws()
    // One block more of a unit is one block more of its row, and of no other. Every unit is the row that it was.
    ensures fills { (code : Code) (all : List Row) (f : Filled) (old new : HeapState Branch) (seats : Seats) (u : ℕ) → FillTurn old new u →
        length f ≡ length all → Matched code all f old seats → Matched code all (slice_set f (seats.row u) (slice_index f (seats.row u) + 1)) new seats }
    // Where nothing is due, exactly the inputs that an open unit was given have come.
    ensures come { (code : Code) (all : List Row) (f : Filled) (h : HeapState Branch) (seats : Seats) → IsSettled h → Matched code all f h seats →
        (u k : ℕ) (unit : Node Branch) (i : Input) → node_at h u ≡ Some unit → is_open h.block unit ≡ true →
        slice_get (row_at all (seats.row u)).inputs k ≡ Some i → has_come h.block (slice_index f (seats.row u)) i ≡ nat_lt k (length unit.inputs) }
    // Where only channels are read from outside, the heap stands for the plan.
    ensures stands { (code : Code) (all : List Row) (f : Filled) (h : HeapState Branch) (seats : Seats) → IsSettled h → Matched code all f h seats →
        Roots all f h seats → Matches h.block all f h seats.row }
    // So as many of its blocks are taken as are live, and as many of the units of some kinds as are live of the rows of these kinds.
    ensures live { (code : Code) (all : List Row) (f : Filled) (h : HeapState Branch) (seats : Seats) → HeapLaws h → IsSettled h →
        Matched code all f h seats → Roots all f h seats → AllRows all → live_of h ≡ live h.block all f }
    ensures by_kind { (kinds : UnitKind → Bool) (code : Code) (all : List Row) (f : Filled) (h : HeapState Branch) (seats : Seats) → HeapLaws h →
        IsSettled h → Matched code all f h seats → Roots all f h seats → AllRows all → kept_of_kinds kinds h 0 h.nodes ≡ live_of_kinds kinds h.block all f }
{}

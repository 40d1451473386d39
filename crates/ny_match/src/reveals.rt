ghost use Rattle.std.specs.Prelude.{◌≡◌, ℕ, List, Some};
ghost use Rattle.ny_check.specs.Code.{Code, IsOrdered};
ghost use Rattle.ny_heap.specs.Heap.{Node, HeapState, node_at};
ghost use Rattle.ny_heap.specs.Reach.{HeapLaws};
ghost use Rattle.ny_hands.specs.declared.branch.Branch.{Branch};
ghost use Rattle.ny_hands.specs.Counts.{SameCounts};
ghost use Rattle.ny_plan.specs.Rows.{Row};
ghost use Rattle.ny_plan.specs.Need.{Filled};
ghost use Rattle.ny_trace.specs.Laws.{KeepsFree};
ghost use Rattle.ny_walk.specs.Walk.{PartTurn};
ghost use Rattle.ny_match.specs.Matched.{Seats, Matched};
ghost use Rattle.ny_match.specs.Keeps.{KeepsMade};

use ny_check::Program;

/// What a part that waits makes (`docs/DEFINITIONS.md`, "The match"): the rows that it would have made among all names, also where nothing is
/// kept but what its free names stand for.
pub fn keep_law(program: &Program)
    ensures made { KeepsMade program.now }
{
    program.order_law();
    program.text_law();
}

/// A part that falls due (`docs/DEFINITIONS.md`, "The match"): it makes the rows that waited for it and is the next input of its row. Every
/// unit that was there is the row that it was, and no block is filled.
pub fn reveal_law()
    ensures reveals { (code : Code) → IsOrdered code → KeepsFree code → KeepsMade code →
        (all : List Row) (f : Filled) (old new : HeapState Branch) (seats : Seats) (u : ℕ) → HeapLaws old → PartTurn code old u new →
        Matched code all f old seats → (later : Seats) × Matched code all f new later ×
        ((v : ℕ) (x : Node Branch) → node_at old v ≡ Some x → later.row v ≡ seats.row v) × SameCounts old new }
{}

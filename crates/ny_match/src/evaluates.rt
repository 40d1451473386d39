ghost use Rattle.std.specs.Prelude.{◌≡◌, ℕ, List, [], None};
ghost use Rattle.ny_num.specs.declared.rate.Rate.{Rate};
ghost use Rattle.ny_warp.specs.Environment.{opening};
ghost use Rattle.ny_check.specs.Code.{Code, IsOrdered};
ghost use Rattle.ny_heap.specs.declared.sound.Sound.{Sound};
ghost use Rattle.ny_heap.specs.Heap.{HeapState, node_at};
ghost use Rattle.ny_heap.specs.Reach.{HeapLaws};
ghost use Rattle.ny_hands.specs.declared.branch.Branch.{Branch};
ghost use Rattle.ny_trace.specs.Channels.{ChannelsTurn};
ghost use Rattle.ny_trace.specs.Evaluates.{Evaluates};
ghost use Rattle.ny_trace.specs.Laws.{KeepsFree};
ghost use Rattle.ny_trace.specs.Plays.{Plays};
ghost use Rattle.ny_plan.specs.Peak.{nothing_filled};
ghost use Rattle.ny_plan.specs.Plan.{plan};
ghost use Rattle.ny_match.specs.Born.{AreSounds, IsMatching};
ghost use Rattle.ny_match.specs.Keeps.{KeepsMade};
ghost use Rattle.ny_match.specs.Matched.{Seats, Matched};

/// What an evaluation leaves of a matched heap (`docs/DEFINITIONS.md`, "The match"), however deep it is.
pub fn evaluation_laws()
    // The units that it makes are the rows that the plan makes of the expression, its parts that wait make the plan's next rows, and its
    // sound is the plan's. All that was there is the row that it was.
    ensures evaluates { (code : Code) (n : ℕ) → IsOrdered code → KeepsFree code → KeepsMade code → IsMatching code (Evaluates code n) }
    // So it is from the beginning: where all that a program plays was evaluated in a heap without units, and made channels, the units are the
    // rows of the plan, of which nothing is filled, and the channels are the plan's.
    ensures opens { (code : Code) (n : ℕ) (rate : Rate) (old mid new : HeapState Branch) (ps ss : List Sound) → IsOrdered code → KeepsFree code →
        KeepsMade code → HeapLaws old → ((v : ℕ) → node_at old v ≡ None) → Plays code n code.play.0 (opening rate) [] old mid ps →
        ChannelsTurn rate ps mid new ss → (seats : Seats) × Matched code (plan code rate).rows (nothing_filled (plan code rate).rows) new seats ×
        AreSounds seats.row ss (plan code rate).channels }
{}

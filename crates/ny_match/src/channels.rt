ghost use Rattle.std.specs.Prelude.{◌≡◌, ℕ, ◌*◌, ◌<◌, min, nat_lt, List, Option, Some, sum};
ghost use Rattle.ny_num.specs.declared.rate.Rate.{Rate};
ghost use Rattle.ny_check.specs.Code.{Code};
ghost use Rattle.ny_heap.specs.declared.sound.Sound.{Sound};
ghost use Rattle.ny_heap.specs.Heap.{Node, HeapState, node_at, list_of, place_of};
ghost use Rattle.ny_heap.specs.Reach.{IsTrimmed};
ghost use Rattle.ny_heap.specs.Steps.{IsHeldSound, without_sound, advanced};
ghost use Rattle.ny_hands.specs.declared.branch.Branch.{Branch};
ghost use Rattle.ny_hands.specs.Hands.{marks_at};
ghost use Rattle.ny_plan.specs.Rows.{Row, Plan};
ghost use Rattle.ny_plan.specs.Plan.{plan};
ghost use Rattle.ny_plan.specs.Need.{Filled, is_open};
ghost use Rattle.ny_match.specs.Matched.{Seats, Matched};
ghost use Rattle.ny_match.specs.Roots.{Roots};
ghost use Rattle.ny_match.specs.Channels.{HasChannels, AreReading};

/// Who reads a matched heap from outside: the channels of its plan (`docs/DEFINITIONS.md`, "The match").
pub fn channel_laws()
    // The channels of a plan are its last rows, and no other row is of that kind.
    ensures last { (code : Code) (rate : Rate) → HasChannels (plan code rate) }
    // Where a sound reads each channel that is open, the channels alone are read from outside, each where its next block begins.
    ensures roots { (p : Plan) (f : Filled) (h : HeapState Branch) (seats : Seats) (sounds : List (Option Sound)) → HasChannels p →
        AreReading p f h seats.row sounds → Roots p.rows f h seats }
    // So stands a sound that has read all blocks that are filled of a list, shows the whole list, and is its only reader outside.
    ensures stands { (h : HeapState Branch) (s : Sound) (n pulls : ℕ) (unit : Node Branch) → 0 < h.block → node_at h n ≡ Some unit → list_of s ≡ Some n →
        IsHeldSound h s → unit.timing.len ≡ s.timing.len → sum unit.outside ≡ 1 → place_of s ≡ min (pulls * h.block) s.timing.len →
        pulls * h.block < s.timing.len → (0 < marks_at h n pulls) × ((j : ℕ) → 0 < marks_at h n j → j ≡ pulls) }
    // A row is open exactly where its filled blocks do not reach its end.
    ensures opens { (block done : ℕ) (x : Row) → 0 < block → is_open block x done ≡ nat_lt (done * block) x.timing.len }
    // What is read, or given up, leaves each unit the row that it was.
    ensures reads { (code : Code) (all : List Row) (f : Filled) (old new : HeapState Branch) (seats : Seats) (s t : Sound) →
        IsTrimmed (advanced old s t) new → Matched code all f old seats → Matched code all f new seats }
    ensures given_up { (code : Code) (all : List Row) (f : Filled) (old new : HeapState Branch) (seats : Seats) (s : Sound) →
        IsTrimmed (without_sound old s) new → Matched code all f old seats → Matched code all f new seats }
{}

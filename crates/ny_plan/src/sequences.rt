//! Sequences, whose parts come when the part before stops. That time is placed by a lemma on the least inverse, and the rest is
//! computed, in blocks of 16 samples at 8000 samples a second. The programs stand in `specs/Worked.antt`.

ghost use Rattle.std.specs.Prelude.{◌≡◌, [], ◌∷◌, Some};
ghost use Rattle.ny_heap.specs.Kinds.{Osc, Mix, Channel};
ghost use Rattle.ny_plan.specs.Lines.{Peak};
ghost use Rattle.ny_plan.specs.Worked.{rows_seen, lines_of, pull, ample, overlapping, twice, unshared, untaken};

/// A part that comes before the one before it has ended: the next part comes at its logical stop.
pub fn overlapping_parts()
    ensures { lines_of overlapping ample (0 ∷ []) ≡ pull 1 0 0 3 ∷ pull 2 0 0 7 ∷ Peak 3 ∷ [] }
{}

/// One sound twice in turn: the part that waits has captured it, so its blocks live until they are heard again.
pub fn captured_parts()
    ensures rows { rows_seen twice ≡ (Osc, 8000, 0, 160, 14112000, []) ∷ (Mix, 8000, 0, 320, 28224000, (Some 0, 0, 160, 0, (0, 0, 160) ∷ []) ∷ (Some 0, 160, 160, 160, (0, 0, 160) ∷ []) ∷ []) ∷ (Channel, 8000, 0, 320, 28224000, (Some 1, 0, 320, 0, []) ∷ []) ∷ [] }
    ensures told { lines_of twice ample (0 ∷ []) ≡ pull 1 0 1 3 ∷ pull 2 0 2 6 ∷ pull 3 0 3 9 ∷ pull 4 0 4 12 ∷ pull 5 0 5 15 ∷ pull 6 0 6 18 ∷ pull 7 0 7 21 ∷ pull 8 0 8 24 ∷ pull 9 0 9 27 ∷ pull 10 0 10 30 ∷ pull 11 0 9 32 ∷ pull 12 0 8 34 ∷ pull 13 0 7 36 ∷ pull 14 0 6 38 ∷ pull 15 0 5 40 ∷ pull 16 0 4 42 ∷ pull 17 0 3 44 ∷ pull 18 0 2 46 ∷ pull 19 0 1 48 ∷ pull 20 0 0 50 ∷ Peak 12 ∷ [] }
{}

/// The same sound written twice: each is a row of its own, and no block lives after a pull.
pub fn parts_of_their_own()
    ensures { lines_of unshared ample (0 ∷ []) ≡ pull 1 0 0 3 ∷ pull 2 0 0 6 ∷ pull 3 0 0 9 ∷ pull 4 0 0 12 ∷ pull 5 0 0 15 ∷ pull 6 0 0 18 ∷ pull 7 0 0 21 ∷ pull 8 0 0 24 ∷ pull 9 0 0 27 ∷ pull 10 0 0 30 ∷ pull 11 0 0 33 ∷ pull 12 0 0 36 ∷ pull 13 0 0 39 ∷ pull 14 0 0 42 ∷ pull 15 0 0 45 ∷ pull 16 0 0 48 ∷ pull 17 0 0 51 ∷ pull 18 0 0 54 ∷ pull 19 0 0 57 ∷ pull 20 0 0 60 ∷ Peak 2 ∷ [] }
{}

/// A part keeps what its names stand for until it comes, also a name that `#if` then passes over.
pub fn names_passed_over()
    ensures rows { rows_seen untaken ≡ (Osc, 8000, 0, 160, 14112000, []) ∷ (Osc, 8000, 0, 160, 14112000, []) ∷ (Osc, 8000, 160, 160, 28224000, []) ∷ (Mix, 8000, 0, 320, 28224000, (Some 1, 0, 160, 0, []) ∷ (Some 2, 160, 160, 160, (0, 0, 160) ∷ []) ∷ []) ∷ (Mix, 8000, 0, 320, 28224000, (Some 0, 0, 160, 0, []) ∷ (Some 3, 0, 320, 0, []) ∷ []) ∷ (Channel, 8000, 0, 320, 28224000, (Some 4, 0, 320, 0, []) ∷ []) ∷ [] }
    ensures told { lines_of untaken ample (0 ∷ []) ≡ pull 1 0 1 5 ∷ pull 2 0 2 10 ∷ pull 3 0 3 15 ∷ pull 4 0 4 20 ∷ pull 5 0 5 25 ∷ pull 6 0 6 30 ∷ pull 7 0 7 35 ∷ pull 8 0 8 40 ∷ pull 9 0 9 45 ∷ pull 10 0 0 50 ∷ pull 11 0 0 54 ∷ pull 12 0 0 58 ∷ pull 13 0 0 62 ∷ pull 14 0 0 66 ∷ pull 15 0 0 70 ∷ pull 16 0 0 74 ∷ pull 17 0 0 78 ∷ pull 18 0 0 82 ∷ pull 19 0 0 86 ∷ pull 20 0 0 90 ∷ Peak 12 ∷ [] }
{}

//! Programs whose plans and lines are computed: in blocks of 16 samples, at 8000 samples a second. A row tells its kind, samples a
//! second, start, length, stop in ticks, and inputs; an input its row, start, visible length, offset, and what it has captured.
//! The programs stand in `specs/Worked.antt`, or in the clauses by its words; a number there is the place of a node.

// What the definitions say is opened for all of them, so that they compute.
#![tactic(auto, unfolding(crate::specs::Plan::made, crate::specs::Plan::played, crate::specs::Plan::plan, crate::specs::Liveness::live, crate::specs::Liveness::live_of_kinds, crate::specs::Fills::counts, crate::specs::Fills::fills, crate::specs::Peak::peak_of, crate::specs::Peak::first_full, crate::specs::Lines::sequence, crate::specs::Lines::lines, ny_heap::specs::Heap::taken_after, ny_check::specs::Recursion::by_smaller, ny_check::specs::Values::scalar_of, ny_check::specs::Values::number_of, ny_check::specs::Values::test_of, ny_check::specs::Behaviours::sustained_timing, ny_check::specs::Behaviours::plain_timing, ny_check::specs::Behaviours::rest_timing, ny_check::specs::Behaviours::cue_timing, ny_warp::specs::Environment::opening, ny_warp::specs::Environment::global_time, ny_warp::specs::Environment::shifted, ny_warp::specs::Warp::scaled, ny_num::specs::Numbers::fix_mul, ny_num::specs::Numbers::fix_add, ny_num::specs::Numbers::sat, ny_num::specs::Grid::clamp_ticks, ny_num::specs::Grid::ticks_of_micro, ny_num::specs::Grid::index_at, ny_num::specs::Grid::tick_at, ny_num::specs::Sound::spanning, ny_num::specs::Sound::cut_len, ny_num::specs::Sound::placed_timing, ny_num::specs::Sound::cued_timing, ny_num::specs::Sound::sum_timing, ny_num::specs::Leaves::leaf_timing, ny_num::specs::Pointwise::product_timing, ny_num::specs::Resampling::other_rate_timing, ny_num::specs::Resampling::index_between, ny_num::specs::Resampling::resampled_timing, ny_num::specs::Mix::mix_timing, ny_num::specs::Mix::channel_timing))]

ghost use Rattle.std.specs.Prelude.{◌≡◌, [], ◌∷◌, take, Some, pos};
ghost use Rattle.ny_heap.specs.Kinds.{Const, Osc, Pwl, Mul, Resample, Mix, Channel};
ghost use Rattle.ny_plan.specs.Lines.{Pull, Peak, PoolFull};
ghost use Rattle.ny_plan.specs.Worked.{rows_seen, lines_of, lines_by_kind, pull, ample, number, constant, envelope, playing, echo, both, cut_short, kept_product};

/// A constant: none of its samples, 16 of them, and 17. A sound without a sample is no row, and nothing is filled.
pub fn constants()
    ensures none { rows_seen (playing (number (pos 500000) ∷ number (pos 0) ∷ constant 0 1 ∷ [])) ≡ [] }
    ensures none_told { lines_of (playing (number (pos 500000) ∷ number (pos 0) ∷ constant 0 1 ∷ [])) ample (0 ∷ []) ≡ Peak 0 ∷ [] }
    ensures sixteen { rows_seen (playing (number (pos 100000) ∷ number (pos 2000) ∷ constant 0 1 ∷ [])) ≡ (Const, 8000, 0, 16, 1411200, []) ∷ (Channel, 8000, 0, 16, 1411200, (Some 0, 0, 16, 0, []) ∷ []) ∷ [] }
    ensures sixteen_told { lines_of (playing (number (pos 100000) ∷ number (pos 2000) ∷ constant 0 1 ∷ [])) ample (0 ∷ []) ≡ pull 1 0 0 2 ∷ Peak 2 ∷ [] }
    ensures seventeen_told { lines_of (playing (number (pos 100000) ∷ number (pos 2125) ∷ constant 0 1 ∷ [])) ample (0 ∷ []) ≡ pull 1 0 0 2 ∷ pull 2 0 0 4 ∷ Peak 2 ∷ [] }
{}

/// A shared sound and its echo: the sound is one row, heard twice, and its blocks live until the later one has read them. A pool
/// of 6 blocks is just enough; one of 5 is full at the fourth pull, before which three are whole.
pub fn echoes()
    ensures rows { rows_seen echo ≡ (Osc, 8000, 0, 160, 14112000, []) ∷ (Mix, 8000, 0, 224, 19756800, (Some 0, 0, 160, 0, []) ∷ (Some 0, 64, 160, 0, []) ∷ []) ∷ (Channel, 8000, 0, 224, 19756800, (Some 1, 0, 224, 0, []) ∷ []) ∷ [] }
    ensures told { lines_of echo ample (0 ∷ []) ≡ pull 1 0 1 3 ∷ pull 2 0 2 6 ∷ pull 3 0 3 9 ∷ pull 4 0 4 12 ∷ pull 5 0 4 15 ∷ pull 6 0 4 18 ∷ pull 7 0 4 21 ∷ pull 8 0 4 24 ∷ pull 9 0 4 27 ∷ pull 10 0 4 30 ∷ pull 11 0 3 32 ∷ pull 12 0 2 34 ∷ pull 13 0 1 36 ∷ pull 14 0 0 38 ∷ Peak 6 ∷ [] }
    ensures first_by_kind { take 1 (lines_by_kind echo ample (0 ∷ [])) ≡ Pull 1 0 1 3 (0 ∷ 0 ∷ 1 ∷ 0 ∷ 0 ∷ 0 ∷ 0 ∷ 0 ∷ 0 ∷ 0 ∷ 0 ∷ 0 ∷ 0 ∷ 0 ∷ 0 ∷ 0 ∷ 0 ∷ 0 ∷ []) ∷ [] }
    ensures enough { lines_of echo 6 (0 ∷ []) ≡ lines_of echo ample (0 ∷ []) }
    ensures full { lines_of echo 5 (0 ∷ []) ≡ pull 1 0 1 3 ∷ pull 2 0 2 6 ∷ pull 3 0 3 9 ∷ PoolFull 3 ∷ [] }
{}

/// Two channels of one sound, in the order 0, 0, 1, 1.
pub fn two_channels()
    ensures rows { rows_seen both ≡ (Osc, 8000, 0, 32, 2822400, []) ∷ (Channel, 8000, 0, 32, 2822400, (Some 0, 0, 32, 0, []) ∷ []) ∷ (Channel, 8000, 0, 32, 2822400, (Some 0, 0, 32, 0, []) ∷ []) ∷ [] }
    ensures told { lines_of both ample (0 ∷ 0 ∷ 1 ∷ 1 ∷ []) ≡ pull 1 0 1 2 ∷ pull 2 0 2 4 ∷ pull 3 1 1 5 ∷ pull 4 1 0 6 ∷ Peak 3 ∷ [] }
{}

/// A product that ends long before its longer input: the input is given up with the product's last block. Where the product itself
/// is read again later, its one block alone lives on.
pub fn products()
    ensures short { lines_of cut_short ample (0 ∷ []) ≡ pull 1 0 0 4 ∷ Peak 3 ∷ [] }
    ensures rows { rows_seen kept_product ≡ (Const, 8000, 0, 10, 882000, []) ∷ (Osc, 8000, 0, 8000, 705600000, []) ∷ (Mul, 8000, 0, 10, 882000, (Some 0, 0, 10, 0, []) ∷ (Some 1, 0, 8000, 0, []) ∷ []) ∷ (Mix, 8000, 0, 74, 6526800, (Some 2, 0, 10, 0, []) ∷ (Some 2, 64, 10, 0, []) ∷ []) ∷ (Channel, 8000, 0, 74, 6526800, (Some 3, 0, 74, 0, []) ∷ []) ∷ [] }
    ensures kept { lines_of kept_product ample (0 ∷ []) ≡ pull 1 0 1 5 ∷ pull 2 0 1 7 ∷ pull 3 0 1 9 ∷ pull 4 0 1 11 ∷ pull 5 0 0 13 ∷ Peak 3 ∷ [] }
{}

/// An envelope at the control rate, and its resampling, which reads ahead by one sample: `pwl(0.01, 1, 0.01)`.
pub fn envelopes()
    ensures rows { rows_seen (playing (number (pos 10000) ∷ number (pos 1000000) ∷ number (pos 10000) ∷ envelope (0 ∷ 1 ∷ 2 ∷ []) ∷ [])) ≡ (Pwl, 2205, 0, 22, 7056000, []) ∷ (Resample, 8000, 0, 80, 7056000, (Some 0, 0, 22, 0, []) ∷ []) ∷ (Channel, 8000, 0, 80, 7056000, (Some 1, 0, 80, 0, []) ∷ []) ∷ [] }
    ensures told { lines_of (playing (number (pos 10000) ∷ number (pos 1000000) ∷ number (pos 10000) ∷ envelope (0 ∷ 1 ∷ 2 ∷ []) ∷ [])) ample (0 ∷ []) ≡ pull 1 0 1 3 ∷ pull 2 0 1 5 ∷ pull 3 0 1 7 ∷ pull 4 0 1 10 ∷ pull 5 0 0 12 ∷ Peak 3 ∷ [] }
{}

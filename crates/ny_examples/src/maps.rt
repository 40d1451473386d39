//! Maps of times, and environments. Times are in ticks, of which a second has 705,600,000.

ghost use Rattle.std.specs.Prelude.{◌≡◌, [], ◌∷◌, map, Bool, false, pos, neg_ℤ};
ghost use Rattle.ny_num.specs.Grid.{horizon, ticks_of_micro, index_at};
ghost use Rattle.ny_num.specs.declared.rate.Rate.TheVariants.{R8000};
ghost use Rattle.ny_warp.specs.Maps.{map_value, is_rising, IsThreshold};
ghost use Rattle.ny_warp.specs.Environment.{opening, shifted, stretched, global_time};
ghost use Rattle.ny_examples.specs.Maps.{point, steep, flat, under_steep};

/// Times of numbers, and the indices nearest to them.
#[tactic(auto, unfolding(ny_num::specs::Grid::ticks_of_micro, ny_num::specs::Grid::clamp_ticks, ny_num::specs::Grid::index_at))]
pub fn times()
    ensures index { index_at (ticks_of_micro (pos 2000)) R8000 ≡ 16 }
    ensures halfway { map (λ t. index_at t R8000) (44099 ∷ 44100 ∷ []) ≡ 0 ∷ 1 ∷ [] }
    ensures before { ticks_of_micro (neg_ℤ (pos 1000000)) ≡ 0 }
    ensures after { ticks_of_micro (pos 4000000000) ≡ horizon }
{}

/// A map above the diagonal and one below it: values, and the least time with a value.
#[tactic(auto, using(crate::proofs::Thresholds::least_times))]
pub fn map_values()
    ensures steep { map (map_value steep) (1 ∷ 705599 ∷ 705600 ∷ 1411201 ∷ []) ≡ 2 ∷ 1411198 ∷ 1411200 ∷ 2116801 ∷ [] }
    ensures flat { map (map_value flat) (1 ∷ 2 ∷ []) ≡ 0 ∷ 1 ∷ [] }
    ensures steep_least { IsThreshold (map_value steep) 1411200 705600 }
    ensures steep_least_before { IsThreshold (map_value steep) 1411199 705600 }
    ensures flat_least { IsThreshold (map_value flat) 1 2 }
    ensures no_map { map is_rising ((point 5 5 ∷ point 5 6 ∷ []) ∷ (point 5 5 ∷ point 6 5 ∷ []) ∷ [] ∷ []) ≡ false ∷ false ∷ false ∷ [] }
{}

/// Under the steep map a millisecond lasts 0.002 s, and the one after it 0.001 s. A later local time when all is twice as
/// slow. A factor below 0 is 0.
#[tactic(auto, unfolding(ny_num::specs::Grid::ticks_of_micro, ny_num::specs::Grid::clamp_ticks, ny_num::specs::Numbers::fix_mul, ny_num::specs::Numbers::sat, ny_warp::specs::Warp::scaled, ny_warp::specs::Environment::opening, ny_warp::specs::Environment::warped, ny_warp::specs::Environment::stretched, ny_warp::specs::Environment::shifted, ny_warp::specs::Environment::global_time))]
pub fn environments()
    ensures warped { map (global_time under_steep) (pos 0 ∷ pos 1000 ∷ pos 2000 ∷ []) ≡ 0 ∷ 1411200 ∷ 2116800 ∷ [] }
    ensures slower { global_time (shifted (stretched (opening R8000) (pos 2000000)) (pos 500000)) (pos 250000) ≡ 1058400000 }
    ensures no_factor_below { (stretched (opening R8000) (neg_ℤ (pos 1))).s ≡ pos 0 }
{}

ghost use Rattle.std.specs.Prelude.{◌+◌, List, ◌≡◌, ℕ, ◌≤◌, ◌<◌, length, ℤ};
ghost use Rattle.ny_num.specs.Sound.{Sound};
ghost use Rattle.ny_num.specs.Filters.{Coefficients, one_pole_value, one_pole, biquad_value, biquad, comb_value, comb};
ghost use Rattle.ny_num.specs.ByIndex.{NeverFall, item_at, item_before, knot_at, recent_at};
ghost use Rattle.ny_num.specs.Leaves.{envelope_value, on_line};

/// The laws of filters by index: each output follows from the input at its place and from the inputs
/// and outputs shortly before, 0 before the first.
#[tactic(auto, using(crate::proofs::FilterLaws::by_index))]
pub fn filter_laws()
    ensures one_pole { (a : ℤ) (s : Sound) (n : ℕ) → n < length s.samples → item_at (one_pole a s).samples n ≡ one_pole_value a (item_before 1 (one_pole a s).samples n) (item_at s.samples n) }
    ensures biquad { (c : Coefficients) (s : Sound) (n : ℕ) → n < length s.samples → item_at (biquad c s).samples n ≡ biquad_value c (recent_at s.samples (biquad c s).samples n) (item_at s.samples n) }
    ensures comb { (delay : ℕ) (gain : ℤ) (s : Sound) (n : ℕ) → 1 ≤ delay → n < length s.samples → item_at (comb delay gain s).samples n ≡ comb_value gain (item_before delay (comb delay gain s).samples n) (item_at s.samples n) }
{}

/// The law of envelopes by index: from a knot on and before the next one, the level is on the line
/// between the two.
#[tactic(auto, using(crate::proofs::KnotLaws::between_knots))]
pub fn envelope_law()
    ensures between { (knots : List (ℕ × ℤ)) (i m : ℕ) → NeverFall knots → i + 1 < length knots → (knot_at knots i).0 ≤ m → m < (knot_at knots (i + 1)).0 → envelope_value knots m ≡ on_line (knot_at knots i) (knot_at knots (i + 1)) m }
{}

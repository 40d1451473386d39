//! Values of leaves, and sounds by themselves: mixes, channels, and sounds that are moved.

// What the definitions say is opened for all of them, so that they compute.
#![tactic(auto, unfolding(ny_num::specs::Numbers::fix_add, ny_num::specs::Numbers::sat, ny_num::specs::Numbers::sat_sample, ny_num::specs::Numbers::whole_units, ny_num::specs::Numbers::sample_add, ny_num::specs::Grid::index_at, ny_num::specs::Grid::tick_at, ny_num::specs::Sound::timing_of, ny_num::specs::Sound::value_at, ny_num::specs::Sound::sound_of, ny_num::specs::Sound::spanning, ny_num::specs::Sound::placed, ny_num::specs::Sound::cued, ny_num::specs::Sound::cut_len, ny_num::specs::Leaves::leaf, ny_num::specs::Leaves::leaf_timing, ny_num::specs::Leaves::ramp_value, ny_num::specs::Leaves::arch, ny_num::specs::Leaves::wave_entry, ny_num::specs::Leaves::increment, ny_num::specs::Leaves::entry_at_phase, ny_num::specs::Leaves::key_of, ny_num::specs::Leaves::key_frequency, ny_num::specs::Leaves::key_hz, ny_num::specs::Leaves::seed_of, ny_num::specs::Leaves::on_line, ny_num::specs::Leaves::envelope_value, ny_num::specs::Mix::mix, ny_num::specs::Mix::mix_timing, ny_num::specs::Mix::sum_at, ny_num::specs::Mix::channel, ny_num::specs::Mix::channel_timing))]

ghost use Rattle.std.specs.Prelude.{◌≡◌, [], ◌∷◌, map, pos, neg_ℤ};
ghost use Rattle.ny_num.specs.declared.rate.Rate.TheVariants.{R8000};
ghost use Rattle.ny_num.specs.Sound.{placed, cued};
ghost use Rattle.ny_num.specs.Leaves.{ramp_value, increment, entry_at_phase, key_of, key_hz, seed_of, envelope_value};
ghost use Rattle.ny_num.specs.Mix.{mix, channel};
ghost use Rattle.ny_examples.specs.Sounds.{constant};

/// The increment of key 69; a quarter and three quarters of a period in the smallest and the largest table; the frequencies
/// of the keys 0, 59 and 72, and of key numbers above 127 and below 0.
pub fn periods()
    ensures increment { increment (key_hz (key_of (pos 69000000) (pos 0))) R8000 ≡ 236223201 }
    ensures peaks { entry_at_phase 256 1073741824 ∷ entry_at_phase 4096 1073741824 ∷ entry_at_phase 256 3221225472 ∷ entry_at_phase 4096 3221225472 ∷ [] ≡ pos 1000000 ∷ pos 1000000 ∷ neg_ℤ (pos 1000000) ∷ neg_ℤ (pos 1000000) ∷ [] }
    ensures keys { map key_hz (0 ∷ 59 ∷ 72 ∷ key_of (pos 200000000) (pos 0) ∷ key_of (neg_ℤ (pos 1)) (pos 0) ∷ []) ≡ pos 8175800 ∷ pos 246941600 ∷ pos 523251200 ∷ pos 12543852800 ∷ pos 8175800 ∷ [] }
{}

/// A ramp of three samples; an envelope of which two breakpoints stand at one index; the seed of a number below 0.
pub fn formulas()
    ensures ramp { map (ramp_value 3) (0 ∷ 1 ∷ 2 ∷ []) ≡ pos 0 ∷ pos 333333 ∷ pos 666666 ∷ [] }
    ensures envelope { map (envelope_value ((0, pos 0) ∷ (22, pos 1000000) ∷ (22, pos 0) ∷ [])) (0 ∷ 1 ∷ 21 ∷ 22 ∷ []) ≡ pos 0 ∷ pos 45454 ∷ pos 954545 ∷ pos 0 ∷ [] }
    ensures seed { seed_of (neg_ℤ (pos 1)) ≡ 4294967295 }
{}

/// A mix is clamped at each step, from the left, and lasts until the stops of its parts.
pub fn mixed()
    ensures order { (mix R8000 (constant (pos 2000000000) 0 88200 88200 ∷ constant (pos 2000000000) 0 88200 88200 ∷ constant (neg_ℤ (pos 2000000000)) 0 88200 88200 ∷ [])).samples ≡ pos 147483647 ∷ [] }
    ensures stop { (mix R8000 (constant (pos 100000) 0 88200 264600 ∷ [])).samples ≡ pos 100000 ∷ pos 0 ∷ pos 0 ∷ [] }
{}

/// The channel of a sound without samples lasts until the sound's place. A cue one sample later, a cue past the horizon, and
/// a sound of two samples placed at the last index but one.
pub fn moved()
    ensures channel { (channel (constant (pos 1) 176400 176400 176400)).samples ≡ pos 0 ∷ pos 0 ∷ [] }
    ensures cued { cued 1 (constant (pos 1) 88200 176400 176400) ≡ record { rate = R8000; start = 2; stop = 264600; samples = pos 1 ∷ [] } }
    ensures cued_past { cued 28800000 (constant (pos 1) 88200 176400 176400) ≡ record { rate = R8000; start = 28800000; stop = 2540160000000; samples = [] } }
    ensures placed { placed 28799999 (constant (pos 1) 0 176400 176400) ≡ record { rate = R8000; start = 28799999; stop = 2540159911800; samples = pos 1 ∷ [] } }
{}

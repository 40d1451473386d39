//! Programs whose frames are computed: of one channel where nothing else is said, at 8000 samples a second. The tables stand
//! in the clauses, by the words of `specs/Programs.antt`; a number is the place of a node.

// What the definitions say is opened for all of them, so that they compute.
#![tactic(auto, unfolding(ny_check::specs::Channels::frames, ny_check::specs::Channels::channels, ny_check::specs::Channels::played, ny_check::specs::Meaning::meaning, ny_check::specs::Recursion::by_smaller, ny_check::specs::Values::scalar_of, ny_check::specs::Values::number_of, ny_check::specs::Values::test_of, ny_check::specs::Behaviours::const_sound, ny_check::specs::Behaviours::osc_sound, ny_check::specs::Behaviours::hzosc_sound, ny_check::specs::Behaviours::lfo_sound, ny_check::specs::Behaviours::noise_sound, ny_check::specs::Behaviours::envelope_sound, ny_check::specs::Behaviours::cue_sound, ny_check::specs::Behaviours::sustained_timing, ny_check::specs::Behaviours::plain_timing, ny_warp::specs::Environment::opening, ny_warp::specs::Environment::global_time, ny_warp::specs::Environment::shifted, ny_warp::specs::Environment::louder, ny_warp::specs::Environment::sustained, ny_warp::specs::Environment::transposed, ny_warp::specs::Environment::warped, ny_warp::specs::Warp::scaled, ny_num::specs::Numbers::fix_mul, ny_num::specs::Numbers::fix_add, ny_num::specs::Numbers::fix_div, ny_num::specs::Numbers::sat, ny_num::specs::Numbers::sat_sample, ny_num::specs::Numbers::whole_units, ny_num::specs::Numbers::sample_add, ny_num::specs::Numbers::sample_sub, ny_num::specs::Numbers::sample_mul, ny_num::specs::Grid::clamp_ticks, ny_num::specs::Grid::ticks_of_micro, ny_num::specs::Grid::index_at, ny_num::specs::Grid::tick_at, ny_num::specs::Sound::timing_of, ny_num::specs::Sound::value_at, ny_num::specs::Sound::sound_of, ny_num::specs::Sound::spanning, ny_num::specs::Sound::sum_timing, ny_num::specs::Sound::placed, ny_num::specs::Sound::cued, ny_num::specs::Sound::cut_len, ny_num::specs::Leaves::leaf, ny_num::specs::Leaves::leaf_timing, ny_num::specs::Leaves::arch, ny_num::specs::Leaves::wave_entry, ny_num::specs::Leaves::increment, ny_num::specs::Leaves::entry_at_phase, ny_num::specs::Leaves::wave_value, ny_num::specs::Leaves::louder_value, ny_num::specs::Leaves::key_of, ny_num::specs::Leaves::key_frequency, ny_num::specs::Leaves::key_hz, ny_num::specs::Leaves::seed_of, ny_num::specs::Leaves::noise_step, ny_num::specs::Leaves::noise_state, ny_num::specs::Leaves::noise_level, ny_num::specs::Leaves::noise_value, ny_num::specs::Leaves::on_line, ny_num::specs::Leaves::envelope_value, ny_num::specs::Pointwise::combined, ny_num::specs::Pointwise::each_value, ny_num::specs::Pointwise::product_timing, ny_num::specs::Resampling::resampled, ny_num::specs::Resampling::other_rate_timing, ny_num::specs::Resampling::index_between, ny_num::specs::Resampling::interpolated, ny_num::specs::Filters::one_pole, ny_num::specs::Filters::one_pole_value, ny_num::specs::Filters::biquad, ny_num::specs::Filters::biquad_value, ny_num::specs::Filters::comb, ny_num::specs::Filters::comb_value, ny_num::specs::Filters::comb_delay, ny_num::specs::Mix::mix, ny_num::specs::Mix::mix_timing, ny_num::specs::Mix::sum_at, ny_num::specs::Mix::channel, ny_num::specs::Mix::channel_timing))]

ghost use Rattle.std.specs.Prelude.{◌≡◌, [], ◌∷◌, map, take, drop, length, replicate, pos, neg_ℤ};
ghost use Rattle.ny_examples.specs.Programs.{playing, playing_with, frames_of, mono, number, named, constant, oscillator, hz_oscillator, low_oscillator, noise, envelope, sum, product, negated, later, louder, transposed, cue, one_pole, comb, biquad, together, repeated_together, where_name_is, called, less, chosen, in_channels};

/// Constants: `const(0.5, 0.001)`, `const(0.5, 0)`.
pub fn constants()
    ensures eight { frames_of (playing (number (pos 500000) ∷ number (pos 1000) ∷ constant 0 1 ∷ [])) ≡ mono (replicate 8 (pos 500000)) }
    ensures none { frames_of (playing (number (pos 500000) ∷ number (pos 0) ∷ constant 0 1 ∷ [])) ≡ [] }
{}

/// Waves at the sound rate: `osc(69, 0.001)`, `loud(0.5, transpose(12, osc(57, 0.001)))`, `hzosc(440, 0.001)`.
pub fn waves()
    ensures key { frames_of (playing (number (pos 69000000) ∷ number (pos 1000) ∷ oscillator 0 1 ∷ [])) ≡ mono (pos 0 ∷ pos 338063 ∷ pos 633484 ∷ pos 856533 ∷ pos 981737 ∷ pos 988107 ∷ pos 877914 ∷ pos 661365 ∷ []) }
    ensures transposed { frames_of (playing (number (pos 57000000) ∷ number (pos 1000) ∷ oscillator 0 1 ∷ number (pos 12000000) ∷ transposed 3 2 ∷ number (pos 500000) ∷ louder 5 4 ∷ [])) ≡ mono (pos 0 ∷ pos 169031 ∷ pos 316742 ∷ pos 428266 ∷ pos 490868 ∷ pos 494053 ∷ pos 438957 ∷ pos 330682 ∷ []) }
    ensures frequency { frames_of (playing (number (pos 440000000) ∷ number (pos 1000) ∷ hz_oscillator 0 1 ∷ [])) ≡ mono (pos 0 ∷ pos 339499 ∷ pos 635839 ∷ pos 858899 ∷ pos 982029 ∷ pos 987628 ∷ pos 875699 ∷ pos 661365 ∷ []) }
{}

/// Noise: `noise(1, 0.000125)`.
pub fn noises()
    ensures { frames_of (playing (number (pos 1000000) ∷ number (pos 125) ∷ noise 0 1 ∷ [])) ≡ mono (neg_ℤ (pos 527089) ∷ []) }
{}

/// Leaves at the control rate, brought to the sound rate: `lfo(100, 0.002)`; the length of `pwl(0.01, 1, 0.01)` and its
/// samples 0, 1, 78 and 79.
pub fn control_leaves()
    ensures wave { frames_of (playing (number (pos 100000000) ∷ number (pos 2000) ∷ low_oscillator 0 1 ∷ [])) ≡ mono (pos 0 ∷ pos 73928 ∷ pos 147857 ∷ pos 221786 ∷ pos 295539 ∷ pos 368997 ∷ pos 442454 ∷ pos 515912 ∷ pos 576741 ∷ pos 633218 ∷ pos 689696 ∷ pos 716066 ∷ pos 512202 ∷ pos 308338 ∷ pos 104474 ∷ []) }
    ensures length { length (frames_of (playing (number (pos 10000) ∷ number (pos 1000000) ∷ number (pos 10000) ∷ envelope (0 ∷ 1 ∷ 2 ∷ []) ∷ []))) ≡ 80 }
    ensures first { take 2 (frames_of (playing (number (pos 10000) ∷ number (pos 1000000) ∷ number (pos 10000) ∷ envelope (0 ∷ 1 ∷ 2 ∷ []) ∷ []))) ≡ mono (pos 0 ∷ pos 12528 ∷ []) }
    ensures last { drop 78 (frames_of (playing (number (pos 10000) ∷ number (pos 1000000) ∷ number (pos 10000) ∷ envelope (0 ∷ 1 ∷ 2 ∷ []) ∷ []))) ≡ mono (pos 478465 ∷ pos 215369 ∷ []) }
{}

/// Operations: `f(2) + f(-5000)` where `f(v)` is `const(v, 0.00025)`; the length of
/// `const(0.5, 0.00125) * osc(69, 1)` and its first two samples;
/// `-osc(69, 0.0005)`.
pub fn operations()
    ensures sum { frames_of (playing_with 2 (named ∷ number (pos 250) ∷ constant 0 1 ∷ number (pos 2000000) ∷ number (neg_ℤ (pos 5000000000)) ∷ called 3 ∷ called 4 ∷ sum 5 6 ∷ [])) ≡ mono (replicate 2 (neg_ℤ (pos 2145483647))) }
    ensures length { length (frames_of (playing (number (pos 500000) ∷ number (pos 1250) ∷ constant 0 1 ∷ number (pos 69000000) ∷ number (pos 1000000) ∷ oscillator 3 4 ∷ product 2 5 ∷ []))) ≡ 10 }
    ensures product { take 2 (frames_of (playing (number (pos 500000) ∷ number (pos 1250) ∷ constant 0 1 ∷ number (pos 69000000) ∷ number (pos 1000000) ∷ oscillator 3 4 ∷ product 2 5 ∷ []))) ≡ mono (pos 0 ∷ pos 169031 ∷ []) }
    ensures negation { frames_of (playing (number (pos 69000000) ∷ number (pos 500) ∷ oscillator 0 1 ∷ negated 2 ∷ [])) ≡ mono (pos 0 ∷ neg_ℤ (pos 338063) ∷ neg_ℤ (pos 633484) ∷ neg_ℤ (pos 856533) ∷ []) }
{}

/// Filters: `onepole(const(1, 0.0005), 0.5)`, `onepole(const(-0.000001, 0.00025), 0.5)`,
/// `comb(const(0.5, 0.0005), 0.00025, 0.5)`, `biquad(const(1, 0.0005), 0.5, 0.5, 0, 0, 0)`.
pub fn filters()
    ensures one_pole { frames_of (playing (number (pos 1000000) ∷ number (pos 500) ∷ constant 0 1 ∷ number (pos 500000) ∷ one_pole 2 3 ∷ [])) ≡ mono (pos 500000 ∷ pos 750000 ∷ pos 875000 ∷ pos 937500 ∷ []) }
    ensures one_pole_below { frames_of (playing (number (neg_ℤ (pos 1)) ∷ number (pos 250) ∷ constant 0 1 ∷ number (pos 500000) ∷ one_pole 2 3 ∷ [])) ≡ mono (replicate 2 (neg_ℤ (pos 1))) }
    ensures comb { frames_of (playing (number (pos 500000) ∷ number (pos 500) ∷ constant 0 1 ∷ number (pos 250) ∷ comb 2 3 0 ∷ [])) ≡ mono (pos 500000 ∷ pos 500000 ∷ pos 750000 ∷ pos 750000 ∷ []) }
    ensures biquad { frames_of (playing (number (pos 1000000) ∷ number (pos 500) ∷ constant 0 1 ∷ number (pos 500000) ∷ number (pos 0) ∷ biquad 2 (3 ∷ 3 ∷ 4 ∷ 4 ∷ 4 ∷ []) ∷ [])) ≡ mono (pos 500000 ∷ replicate 3 (pos 1000000)) }
{}

/// Choices and repeats: `#if(1 < 2, const(0.5, 0.001), const(0.1, 1))`,
/// `simrep(i, 3, const(0.1, 0.001) @ (i * 0.001))`.
pub fn choices()
    ensures first { frames_of (playing (number (pos 1000000) ∷ number (pos 2000000) ∷ less 0 1 ∷ number (pos 500000) ∷ number (pos 1000) ∷ constant 3 4 ∷ number (pos 100000) ∷ constant 6 0 ∷ chosen 2 5 7 ∷ [])) ≡ mono (replicate 8 (pos 500000)) }
    ensures repeats { frames_of (playing (number (pos 100000) ∷ number (pos 1000) ∷ constant 0 1 ∷ named ∷ product 3 1 ∷ later 4 2 ∷ repeated_together 3 5 ∷ [])) ≡ mono (replicate 24 (pos 100000)) }
{}

/// Cues of a name x that stands for `osc(69, 0.001)`: `sim(cue(x), cue(x) @ 0.0005)`, and `loud(0.5, cue(x))`.
pub fn cues()
    ensures together { frames_of (playing (number (pos 69000000) ∷ number (pos 1000) ∷ oscillator 0 1 ∷ named ∷ cue 3 ∷ number (pos 500) ∷ later 5 4 ∷ together (4 ∷ 6 ∷ []) ∷ where_name_is 2 7 ∷ [])) ≡ mono (pos 0 ∷ pos 338063 ∷ pos 633484 ∷ pos 856533 ∷ pos 981737 ∷ pos 1326170 ∷ pos 1511398 ∷ pos 1517898 ∷ pos 981737 ∷ pos 988107 ∷ pos 877914 ∷ pos 661365 ∷ []) }
    ensures quieter { frames_of (playing (number (pos 69000000) ∷ number (pos 1000) ∷ oscillator 0 1 ∷ named ∷ cue 3 ∷ number (pos 500000) ∷ louder 5 4 ∷ where_name_is 2 6 ∷ [])) ≡ mono (pos 0 ∷ pos 169031 ∷ pos 316742 ∷ pos 428266 ∷ pos 490868 ∷ pos 494053 ∷ pos 438957 ∷ pos 330682 ∷ []) }
{}

/// Channels: `vector(const(0.1, 0.00025), const(0.2, 0.000125) @ 0.00025)`, whose second begins where the first ends, and
/// `begin with x = osc(69, 0.0005) return vector(cue(x), cue(x)) end`.
pub fn channels()
    ensures apart { frames_of (playing (number (pos 100000) ∷ number (pos 250) ∷ constant 0 1 ∷ number (pos 200000) ∷ number (pos 125) ∷ constant 3 4 ∷ later 1 5 ∷ in_channels (2 ∷ 6 ∷ []) ∷ [])) ≡ (pos 100000 ∷ pos 0 ∷ []) ∷ (pos 100000 ∷ pos 0 ∷ []) ∷ (pos 0 ∷ pos 200000 ∷ []) ∷ [] }
    ensures same { frames_of (playing (number (pos 69000000) ∷ number (pos 500) ∷ oscillator 0 1 ∷ named ∷ cue 3 ∷ in_channels (4 ∷ 4 ∷ []) ∷ where_name_is 2 5 ∷ [])) ≡ map (λ x. x ∷ x ∷ []) (pos 0 ∷ pos 338063 ∷ pos 633484 ∷ pos 856533 ∷ []) }
{}

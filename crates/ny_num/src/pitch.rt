//! What a leaf plays: keys, frequencies, phases and seeds.

ghost use Rattle.std.specs.Prelude.{◌≡◌, ◌*◌, ◌-◌, ◌/◌, ◌≤◌, ◌<◌, ◌^◌, slice_index_or};
ghost use Rattle.ny_num.specs.Leaves.{increment, key_of, octave_of_60, key_frequency, key_hz, seed_of};

use crate::fix::Fix;
use crate::rate::Rate;

/// The frequencies of the keys 60 to 71, in ten-thousandths of Hz.
const OCTAVE_OF_60: [u32; 12] = [
    2_616_256, 2_771_826, 2_936_648, 3_111_270, 3_296_276, 3_492_282, 3_699_944, 3_919_954,
    4_153_047, 4_400_000, 4_661_638, 4_938_833,
];

/// One period of the phase.
const PERIOD: u64 = 4_294_967_296;

/// By how much the phase of a wave of this frequency in Hz grows from sample to sample, where 2^32 is
/// one period (`docs/DEFINITIONS.md`, "Leaves").
#[tactic(auto, unfolding(crate::specs::Leaves::increment))]
pub fn increment(hz: Fix, rate: Rate) -> u32
    ensures { result ≡ increment hz rate }
{
    let hz = u128::from(hz.micro().max(0) as u64);
    let steps = hz * u128::from(PERIOD) / (1_000_000 * u128::from(rate.hz()));
    (steps % u128::from(PERIOD)) as u32
}

/// The key of a key number and a transposition, from 0 to 127.
#[tactic(auto, unfolding(crate::specs::Leaves::key_of))]
pub fn key_of(key: Fix, transposition: Fix) -> u32
    ensures value { result ≡ key_of key transposition }
    ensures within { result ≤ 127 }
{
    key.add(transposition).whole().clamp(0, 127) as u32
}

/// The frequency of a key of the octave of key 60, by its place there.
fn named_frequency(place: u32) -> u32
    requires { place < 12 }
    ensures value { result ≡ slice_index_or octave_of_60 place 0 }
    ensures within { result ≤ 4938833 }
{
    OCTAVE_OF_60[place as usize]
}

/// Two to the power of a number of octaves.
#[tactic(auto, using(crate::proofs::Octaves::octaves_within))]
fn octaves(count: u32) -> u64
    requires { count ≤ 5 }
    ensures value { result ≡ 2 ^ count }
    ensures within { result ≤ 32 }
{
    2u64.pow(count)
}

/// The frequency of a key in ten-thousandths of Hz.
#[tactic(auto, using(crate::proofs::Octaves::product_within), unfolding(crate::specs::Leaves::key_frequency))]
fn key_frequency(key: u32) -> u64
    requires { key ≤ 127 }
    ensures value { result ≡ key_frequency key }
    ensures within { result ≤ 158042656 }
{
    let octave = key / 12;
    let named = u64::from(named_frequency(key % 12));
    if octave >= 5 {
        named * octaves(octave - 5)
    } else {
        named / octaves(5 - octave)
    }
}

/// The frequency of a key, at most 127, in Hz.
#[tactic(auto, unfolding(crate::specs::Leaves::key_hz))]
pub fn key_hz(key: u32) -> Fix
    requires { key ≤ 127 }
    ensures { result ≡ key_hz key }
{
    Fix::of((100 * key_frequency(key)) as i64)
}

/// The state from which noise of this number begins.
#[tactic(auto, unfolding(crate::specs::Leaves::seed_of))]
pub fn seed_of(number: Fix) -> u32
    ensures { result ≡ seed_of number }
{
    number.whole().rem_euclid(4_294_967_296) as u32
}

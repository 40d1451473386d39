ghost use Rattle.std.specs.Prelude.{◌≡◌, ◌≤◌, ◌*◌, ◌++◌, ◌^◌, pos, neg_ℤ, ◌≤ℤ◌, length, drop};
ghost use Rattle.ny_num.specs.Numbers.{floor_div, million};
ghost use Rattle.ny_wav.specs.WavFile.{level_of, pcm16_of, frame_of};

use byteorder::{ByteOrder, LittleEndian};
use ny_num::Sample;

/// The level of a sample of 1, and the highest of 16 bits.
const LEVELS: i64 = 32767;

/// The lowest level of 16 bits.
const LOWEST: i64 = -32768;

const MILLION: i64 = 1_000_000;

/// A number of levels that no sample lies below 0.
const SHIFT: i64 = 100_000_000;

/// A number divided by a million, rounded down. The number is moved above 0 first, where division
/// rounds down by itself: a branch on the sign would be guessed wrong at half of the samples of a
/// noise, and cost more than the rest.
fn rounded_down(scaled: i64) -> i64
    requires above { neg_ℤ (pos (10 ^ 14)) ≤ℤ scaled }
    requires below { scaled ≤ℤ pos (10 ^ 14) }
    ensures { result ≡ floor_div scaled million }
{
    let moved = (scaled + SHIFT * MILLION) as u64;
    (moved / MILLION as u64) as i64 - SHIFT
}

/// The level of a sample: 32767 to 1, rounded down, from -32768 to 32767.
fn level(sample: Sample) -> i16
    ensures { result ≡ level_of sample }
{
    let scaled = i64::from(sample.micro()) * LEVELS;
    rounded_down(scaled).clamp(LOWEST, LEVELS) as i16
}

/// Writes the two bytes of a sample at the head of `out`.
#[tactic(auto, unfolding(crate::specs::WavFile::pcm16_of))]
fn write_sample(sample: Sample, out: &mut [u8])
    requires { 2 ≤ length out.old }
    ensures { out.new ≡ pcm16_of sample ++ drop 2 out.old }
{
    LittleEndian::write_i16(out, level(sample));
}

/// The two bytes of a sample, low byte first (`docs/DEFINITIONS.md`, "The WAV file"). A sample
/// of 1 has the level 32767; levels are rounded down, and those out of 16 bits are clamped.
pub fn pcm16(s: Sample) -> [u8; 2]
    ensures { result ≡ pcm16_of s }
{
    let mut bytes = [0; 2];
    write_sample(s, &mut bytes);
    bytes
}

/// Writes the bytes of a frame, channel 0 first, two bytes for each sample
/// (`docs/DEFINITIONS.md`, "The WAV file"). It also writes several frames in a row, sample after
/// sample.
pub fn frame_bytes(channels: &[Sample], out: &mut [u8])
    requires { length out.old ≡ 2 * length channels.now }
    ensures { out.new ≡ frame_of channels.now }
{
    for i in 0..channels.len() {
        write_sample(channels[i], &mut out[2 * i..]);
    }
}

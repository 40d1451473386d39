ghost use Rattle.std.specs.Prelude.{◌≡◌, ℕ, ◌+◌, ◌<◌, ◌≤◌, ◌^◌, length, map};
ghost use Rattle.std.specs.List.{range_with_len};
ghost use Rattle.ny_num.specs.Leaves.{ramp_value, wave_value, louder_value, noise_state, noise_value};
ghost use Rattle.ny_wave.specs.Tables.{IsTableSize};
ghost use Rattle.ny_units.specs.Playing.{leaf_value, IsLeaf, Reaches};
ghost use Rattle.ny_units.specs.LeafKinds.{leaf_kind};
ghost use Rattle.ny_units.specs.Voices.{leaf_of, IsVoice};

use crate::envelope::fill_envelope;
use crate::leaves::{Knot, Leaf, LeafKind};
use crate::line::fill_line;
use crate::loudness::at_loudness;
use crate::noise::fill_noise;
use crate::waves::fill_wave;
use ny_num::Sample;
use ny_wave::{Wave, Waves};

/// A leaf and where it stands: the state of its noise, or the knot that its envelope has reached.
#[derive(Drop)]
pub(crate) enum Voice {
    Constant(Sample),
    Ramp(u32),
    Middle { inc: u32, loud: Sample },
    High { inc: u32, loud: Sample },
    Low { inc: u32 },
    Noise { x: u32, state: u32, loud: Sample },
    Envelope { knots: Vec<Knot>, segment: usize },
}

// A wave at a loudness, from sample `from` on.
fn fill_loud_wave<const N: usize>(
    wave: &Wave<N>,
    inc: u32,
    loud: Sample,
    from: u32,
    out: &mut [Sample],
)
    requires { IsTableSize N }
    ensures { out.new ≡ map (λ n. louder_value loud (wave_value N inc n)) (range_with_len from (length out.old)) }
{
    fill_wave(wave, inc, from, out);
    at_loudness(loud, out);
}

// A constant sample.
pub(crate) fn fill_constant(value: Sample, from: u32, out: &mut [Sample])
    ensures { out.new ≡ map (λ n. value) (range_with_len from (length out.old)) }
{
    out.fill(value);
}

// The line from 0 that would reach 1 at a length.
fn fill_ramp(len: u32, from: u32, out: &mut [Sample])
    requires some { 0 < len }
    requires within { from + length out.old ≤ len }
    ensures { out.new ≡ map (ramp_value len) (range_with_len from (length out.old)) }
{
    fill_line(0, 1_000_000, u64::from(len), u64::from(from), out);
}

// The noise that follows a state, at a loudness. Answers the state after the last sample.
fn fill_loud_noise(state: u32, loud: Sample, out: &mut [Sample]) -> u32
    ensures state { result ≡ noise_state state (length out.old) }
    ensures samples { out.new ≡ map (λ n. louder_value loud (noise_value state n)) (range_with_len 0 (length out.old)) }
{
    let after = fill_noise(state, out);
    at_loudness(loud, out);
    after
}

impl Voice {
    /// The voice of a leaf that has given nothing yet.
    pub(crate) fn of(leaf: Leaf) -> Voice
        requires { IsLeaf leaf }
        ensures leaf { leaf_of result ≡ leaf }
        ensures begins { IsVoice result 0 }
    {
        match leaf {
            Leaf::Const(value) => Voice::Constant(value),
            Leaf::Ramp(len) => Voice::Ramp(len),
            Leaf::Osc { inc, loud } => Voice::Middle { inc, loud },
            Leaf::HzOsc { inc, loud } => Voice::High { inc, loud },
            Leaf::Lfo { inc } => Voice::Low { inc },
            Leaf::Noise { x, loud } => Voice::Noise { x, state: x, loud },
            Leaf::Pwl(knots) => Voice::Envelope { knots, segment: 0 },
        }
    }

    /// What its leaf is.
    pub(crate) fn kind(&self) -> LeafKind
        ensures { result ≡ leaf_kind (leaf_of self.now) }
    {
        match self {
            Voice::Constant(_) => LeafKind::Const,
            Voice::Ramp(_) => LeafKind::Ramp,
            Voice::Middle { .. } => LeafKind::Osc,
            Voice::High { .. } => LeafKind::HzOsc,
            Voice::Low { .. } => LeafKind::Lfo,
            Voice::Noise { .. } => LeafKind::Noise,
            Voice::Envelope { .. } => LeafKind::Pwl,
        }
    }

    /// Writes the samples from `from` on.
    pub(crate) fn fill(&mut self, waves: &Waves, from: u32, out: &mut [Sample])
        requires stands { IsVoice self.old from }
        requires within { Reaches (leaf_of self.old) (from + length out.old) }
        ensures leaf { leaf_of self.new ≡ leaf_of self.old }
        ensures stands { IsVoice self.new (from + length out.old) }
        ensures samples { out.new ≡ map (leaf_value (leaf_of self.old)) (range_with_len from (length out.old)) }
    {
        match self {
            Voice::Constant(value) => fill_constant(*value, from, out),
            Voice::Ramp(len) => fill_ramp(*len, from, out),
            Voice::Middle { inc, loud } => fill_loud_wave(&waves.middle, *inc, *loud, from, out),
            Voice::High { inc, loud } => fill_loud_wave(&waves.high, *inc, *loud, from, out),
            Voice::Low { inc } => fill_wave(&waves.low, *inc, from, out),
            Voice::Noise { state, loud, .. } => *state = fill_loud_noise(*state, *loud, out),
            Voice::Envelope { knots, segment } => {
                *segment = fill_envelope(knots, *segment, u64::from(from), out);
            }
        }
    }
}

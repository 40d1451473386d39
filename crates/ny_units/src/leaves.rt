use ny_num::Sample;

/// A corner of an envelope: its place `t` in samples from the sound's start, and its level there.
#[derive(Clone, Copy)]
pub struct Knot {
    pub t: u32,
    pub level: Sample,
}

/// A sound that is made of no other sound (`docs/DEFINITIONS.md`, "Leaves").
///
/// A phase increment `inc` is added to the phase after each sample, where 2^32 is one period. A
/// loudness `loud` of 1 is 1000000 millionths.
#[derive(Drop)]
pub enum Leaf {
    /// The same sample throughout.
    Const(Sample),
    /// The line from 0 that would reach 1 at this length in samples, which is at least 1.
    Ramp(u32),
    /// A wave of 1024 entries.
    Osc { inc: u32, loud: Sample },
    /// A wave of 4096 entries.
    HzOsc { inc: u32, loud: Sample },
    /// A wave of 256 entries.
    Lfo { inc: u32 },
    /// Noise from the state `x` on.
    Noise { x: u32, loud: Sample },
    /// Straight lines from knot to knot, the first of which stands at 0.
    Pwl(Vec<Knot>),
}

/// What a leaf is, without its numbers.
#[derive(Clone, Copy)]
pub enum LeafKind {
    Const,
    Ramp,
    Osc,
    HzOsc,
    Lfo,
    Noise,
    Pwl,
}

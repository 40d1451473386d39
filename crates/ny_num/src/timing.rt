use crate::rate::Rate;
use crate::ticks::Ticks;

/// When a sound is heard, at its rate (`docs/DEFINITIONS.md`, "Sounds").
///
/// `start` is the index of its first sample, `len` how many samples it has, and `stop` its logical
/// stop, which may lie before or after its last sample.
#[derive(Clone, Copy, Debug, PartialEq, Eq)]
pub struct Timing {
    pub rate: Rate,
    pub start: u32,
    pub len: u32,
    pub stop: Ticks,
}

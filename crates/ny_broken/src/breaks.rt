ghost use Rattle.std.specs.Prelude.{◌<◌};

use std::alloc::{AllocError, Global};

const MULTIPLIER: u32 = 1_664_525;

const INCREMENT: u32 = 1_013_904_223;

/// The most breaks of a text.
const MOST_BREAKS: usize = 3;

/// The most bytes that one break removes or doubles.
const MOST_BYTES: usize = 8;

/// Bytes that texts are made of. Three of four bytes that are put in are drawn from them, the
/// others from all bytes.
const COMMON: &[u8; 48] = b"aeghnsvx0123579 .,()+-*/<>=!&|@~#\n;\"[]{}defplayr";

/// A source of numbers: a state of 32 bits, of which each draw takes the upper half.
#[derive(Drop)]
pub struct Draws {
    state: u32,
}

impl Draws {
    /// The source of a seed.
    pub fn of(seed: u32) -> Draws {
        Draws { state: seed }
    }

    /// The next number, below a bound of at most 65,536.
    fn below(&mut self, bound: usize) -> usize
        requires { 0 < bound }
        ensures { result < bound }
    {
        self.state = self.state.wrapping_mul(MULTIPLIER).wrapping_add(INCREMENT);
        (self.state >> 16) as usize % bound
    }

    fn byte(&mut self) -> u8 {
        if self.below(4) == 0 {
            self.below(256) as u8
        } else {
            COMMON[self.below(COMMON.len())]
        }
    }
}

/// The text with one break: a byte that is changed, or some bytes that are removed or doubled.
fn with_break(alloc: Global, text: &[u8], draws: &mut Draws) -> Result<Vec<u8>, AllocError> {
    let start = draws.below(text.len() + 1);
    let end = text.len().min(start + 1 + draws.below(MOST_BYTES));
    let mut broken = Vec::from_slice(alloc, &text[..start])?;
    match draws.below(3) {
        0 => {
            broken.push(draws.byte())?;
            broken.extend_from_slice(&text[text.len().min(start + 1)..])?;
        }
        1 => broken.extend_from_slice(&text[end..])?,
        _ => {
            broken.extend_from_slice(&text[start..end])?;
            broken.extend_from_slice(&text[start..])?;
        }
    }
    Ok(broken)
}

/// The text with one to three breaks.
pub fn broken(alloc: Global, text: &[u8], draws: &mut Draws) -> Result<Vec<u8>, AllocError> {
    let mut broken = Vec::from_slice(alloc, text)?;
    for _ in 0..=draws.below(MOST_BREAKS) {
        broken = with_break(alloc, &broken, draws)?;
    }
    Ok(broken)
}

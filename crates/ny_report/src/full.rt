ghost use Rattle.std.specs.Prelude.{◌≡◌, ◌≤◌, IfOk, vec_capacity};
ghost use Rattle.ny_report.specs.Lines.{full_line_of};

use itoa::Buffer;
use std::alloc::{AllocError, Global};

/// The most bytes of the line of a full pool: those of its words, 20 digits and a line feed.
const MOST: usize = 43;

/// Room for the line of a full pool (`docs/DEFINITIONS.md`, "Lines"), whatever its number is. The
/// line is made in it without more memory, so that a full pool is told whatever memory is left.
#[derive(Drop)]
pub struct FullLine {
    room: Vec<u8>,
    ghost enough: { 43 ≤ vec_capacity room },
}

impl FullLine {
    /// Takes the room.
    ///
    /// # Errors
    /// `AllocError` where memory is missing.
    pub fn reserve(alloc: Global) -> Result<FullLine, AllocError> {
        let room = Vec::with_capacity(alloc, MOST)?;
        Ok(FullLine { room })
    }

    /// The line: how many pulls gave samples before a fill found no free block.
    #[tactic(auto, unfolding(crate::specs::Lines::full_line_of))]
    pub fn write(self, pulls: u64) -> Vec<u8>
        ensures { result.items ≡ full_line_of pulls }
    {
        let mut digits = Buffer::new();
        let mut line = self.room;
        line.clear();
        line.extend_from_slice(b"pool full after ").unwrap();
        line.extend_from_slice(digits.format(pulls).as_bytes())
            .unwrap();
        line.extend_from_slice(b" pulls\n").unwrap();
        line
    }
}

/// The line of a full pool, in memory of its own.
///
/// # Errors
/// `AllocError` where memory is missing.
pub fn full_line(alloc: Global, pulls: u64) -> Result<Vec<u8>, AllocError>
    ensures { IfOk result (λ line. line.items ≡ full_line_of pulls) }
{
    let room = FullLine::reserve(alloc)?;
    Ok(room.write(pulls))
}

ghost use Rattle.std.specs.Prelude.{◌≡◌, ◌≤◌, ◌+◌, ◌*◌, length, IfOk, OnOk};
ghost use Rattle.ny_gen.specs.Piece.{is_left, is_right, left_notes, right_notes, joined_notes, note_call, with_call, piece_text};

use crate::draws::Draws;
use crate::note::{Note, push_note};
use std::alloc::{AllocError, Global};

/// The calls of the notes of each ear, joined.
#[derive(Drop)]
struct Ears {
    left: Vec<u8>,
    right: Vec<u8>,
}

impl Ears {
    /// Appends a note: an even one goes left, an odd one right.
    fn push(&mut self, place: u32, note: Note) -> Result<(), AllocError>
        ensures left { OnOk result (self.new.left.items ≡ with_call (is_left place) self.old.left.items (note_call note.key note.milliseconds)) }
        ensures right { OnOk result (self.new.right.items ≡ with_call (is_right place) self.old.right.items (note_call note.key note.milliseconds)) }
    {
        if place % 2 == 0 {
            push_note(&mut self.left, note)
        } else {
            push_note(&mut self.right, note)
        }
    }
}

/// Draws the notes of a piece.
fn draw_notes(alloc: Global, seed: u32, notes: u32) -> Result<Ears, AllocError>
    ensures left { IfOk result (λ ears. ears.left.items ≡ joined_notes seed (left_notes notes)) }
    ensures right { IfOk result (λ ears. ears.right.items ≡ joined_notes seed (right_notes notes)) }
{
    let mut ears = Ears {
        left: Vec::new(alloc),
        right: Vec::new(alloc),
    };
    let mut draws = Draws { state: seed };
    for place in 0..notes {
        let note = Note::next(&mut draws);
        ears.push(place, note)?;
    }
    Ok(ears)
}

/// The text of a piece (`docs/DEFINITIONS.md`, "Drawn pieces"): the piece of `seed` with so many
/// notes, three lines in the language of `docs/LANGUAGE.md`. It fails only for want of memory.
pub fn generate(alloc: Global, seed: u32, notes: u32) -> Result<Vec<u8>, AllocError>
    requires least { 2 ≤ notes }
    requires most { notes ≤ 20000 }
    ensures text { IfOk result (λ text. text.items ≡ piece_text seed notes) }
    ensures bounded { IfOk result (λ text. length text.items ≤ 200 + 14 * notes) }
{
    let ears = draw_notes(alloc, seed, notes)?;
    let mut text = Vec::new(alloc);
    text.extend_from_slice(
        b"define function n(k, d) return osc(k, d) * pwl(0.01, 0.3, d - 0.02, 0.2, d)\n",
    )?;
    text.extend_from_slice(
        b"define function e(x) return sim(cue(x), scale(0.4, cue(x) @ 0.25))\n",
    )?;
    text.extend_from_slice(b"play vector(e(seq(")?;
    text.extend_from_slice(&ears.left)?;
    text.extend_from_slice(b")), e(seq(")?;
    text.extend_from_slice(&ears.right)?;
    text.extend_from_slice(b")))\n")?;
    Ok(text)
}

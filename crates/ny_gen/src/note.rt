ghost use Rattle.std.specs.Prelude.{◌≡◌, ◌*◌, ◌++◌, pos, OnOk};
ghost use Rattle.ny_gen.specs.Piece.{next_state, drawn, key_of, milliseconds_of, note_call, before_more};

use crate::draws::Draws;
use ny_num::{Fix, push_decimal};
use std::alloc::AllocError;

const LOWEST_KEY: u32 = 48;

const KEYS: u32 = 25;

const SHORTEST: u32 = 100;

const STEP: u32 = 25;

const LENGTHS: u32 = 7;

/// A key, and how long it sounds in milliseconds.
#[derive(Clone, Copy)]
pub struct Note {
    pub key: u32,
    pub milliseconds: u32,
}

impl Note {
    /// The note of two numbers.
    fn of(first: u32, second: u32) -> Note
        ensures key { result.key ≡ key_of first }
        ensures milliseconds { result.milliseconds ≡ milliseconds_of second }
    {
        Note {
            key: LOWEST_KEY + first % KEYS,
            milliseconds: SHORTEST + STEP * (second % LENGTHS),
        }
    }

    /// The next note, of the next two numbers.
    pub fn next(draws: &mut Draws) -> Note
        ensures state { draws.new.state ≡ next_state (next_state draws.old.state) }
        ensures key { result.key ≡ key_of (drawn (next_state draws.old.state)) }
        ensures milliseconds { result.milliseconds ≡ milliseconds_of (drawn (next_state (next_state draws.old.state))) }
    {
        let first = draws.draw();
        let second = draws.draw();
        Note::of(first, second)
    }
}

/// A whole number.
fn whole(n: u32) -> Fix
    ensures { result ≡ pos (1000000 * n) }
{
    Fix::of(i64::from(n) * 1_000_000)
}

/// So many thousandths.
fn thousandths(n: u32) -> Fix
    ensures { result ≡ pos (1000 * n) }
{
    Fix::of(i64::from(n) * 1_000)
}

/// Appends a comma and a space where the text is not empty.
fn push_separator(text: &mut Vec<u8>) -> Result<(), AllocError>
    ensures { OnOk result (text.new.items ≡ before_more text.old.items) }
{
    if !text.is_empty() {
        text.extend_from_slice(b", ")?;
    }
    Ok(())
}

/// Appends the call of a note, after a comma and a space where the text is not empty.
pub fn push_note(text: &mut Vec<u8>, note: Note) -> Result<(), AllocError>
    ensures { OnOk result (text.new.items ≡ before_more text.old.items ++ note_call note.key note.milliseconds) }
{
    push_separator(text)?;
    text.extend_from_slice(b"n(")?;
    push_decimal(text, whole(note.key))?;
    text.extend_from_slice(b", ")?;
    push_decimal(text, thousandths(note.milliseconds))?;
    text.push(b')')?;
    Ok(())
}

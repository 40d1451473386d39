ghost use Rattle.std.specs.Prelude.{◌≡◌, ℕ, ◌+◌, ◌<◌, ◌≤◌, ◌^◌, ℤ, List, length, map, option_copied};
ghost use Rattle.std.specs.List.{range_with_len};
ghost use Rattle.ny_units.specs.Inputs.{source_of, reader_of, with_reader, taken_of, input_at, need_of, ShowsInput, CanRead, IsReader, piece_at, piece_len};
ghost use Rattle.ny_units.specs.Copies.{with_input};

use crate::input::{Input, Piece, Source};
use crate::voice::fill_constant;
use ny_list::{Cursor, Reads};
use ny_num::Sample;
use std::marker::Model;

/// An input as it is, from an index on, at or before which it begins or after (`docs/DEFINITIONS.md`, "Units").
#[derive(Drop)]
pub struct CopyUnit {
    input: Source,
    start: u32,
}

impl Model for CopyUnit {
    ghost use Rattle.ny_units.specs.Copies.{Copy};

    ghost Value = { Copy };

    ghost view = { λ u. record { input = u.input; start = u.start } };
}

// What a piece has at each place of `out`.
fn copy_piece(piece: Piece<'_>, out: &mut [Sample])
    requires { length out.old ≤ piece_len piece }
    ensures { out.new ≡ map (λ k. piece_at piece.entry k) (range_with_len 0 (length out.old)) }
{
    match piece {
        Piece::Samples(samples) => out.copy_from_slice(&samples[..out.len()]),
        Piece::Same { value, .. } => fill_constant(value, 0, out),
    }
}

// An input from index `m` on, piece by piece.
fn fill_copy(input: &Source, reads: &Reads<'_>, m: u64, out: &mut [Sample])
    requires ready { CanRead reads.now input.now m (m + length out.old) }
    requires short { m + length out.old < 2 ^ 64 }
    ensures samples { (xs : List ℤ) → ShowsInput reads.now input.now xs → out.new ≡ map (λ n. input_at input.now xs n) (range_with_len m (length out.old)) }
{
    let mut done = 0;
    while done < out.len() {
        let piece = input.piece(reads, m + done as u64, out.len() - done);
        let end = done + piece.len();
        copy_piece(piece, &mut out[done..end]);
        done = end;
    }
}

impl CopyUnit {
    /// An input from the index `start` on.
    pub fn of(a: Input, start: u32) -> CopyUnit
        ensures { result ≡ record { input = source_of a; start = start } }
    {
        CopyUnit {
            input: Source::of(a),
            start,
        }
    }

    /// Writes the samples from `from` on, counted from the start, as many as `out` has places. The input is computed as
    /// far as the slice asks of it, where its cursor is left.
    pub fn fill(&mut self, reads: &Reads<'_>, from: u32, out: &mut [Sample])
        requires ready { CanRead reads.now self.old.input (self.old.start + from) (self.old.start + from + length out.old) }
        ensures unchanged { self.new ≡ self.old }
        ensures samples { (xs : List ℤ) → ShowsInput reads.now self.old.input xs → out.new ≡ map (λ m. input_at self.old.input xs m) (range_with_len (self.old.start + from) (length out.old)) }
    {
        let m = u64::from(self.start) + u64::from(from);
        fill_copy(&self.input, reads, m, out);
    }

    /// The cursor of the input; none where it is a number, had no samples, or its cursor was taken.
    pub fn cursor(&self, i: u32) -> Option<&Cursor>
        requires inside { i < 1 }
        ensures { option_copied result ≡ reader_of self.now.input }
    {
        self.input.cursor()
    }

    /// Takes the cursor of the input, where it has one.
    pub fn take_cursor(&mut self, i: u32) -> Option<Cursor>
        requires inside { i < 1 }
        ensures cursor { result ≡ reader_of self.old.input }
        ensures taken { self.new ≡ with_input self.old (taken_of self.old.input) }
    {
        self.input.take()
    }

    /// Puts the cursor of the input back that was taken.
    pub fn put_cursor(&mut self, i: u32, c: Cursor)
        requires inside { i < 1 }
        requires reader { IsReader self.old.input }
        ensures { self.new ≡ with_input self.old (with_reader self.old.input c) }
    {
        self.input.put(c);
    }

    /// How many samples have been taken of the input once the unit has `done` samples.
    pub fn need(&self, i: u32, done: u32) -> u32
        requires inside { i < 1 }
        ensures { result ≡ need_of self.now.start self.now.input done }
    {
        self.input.need(self.start, done)
    }
}

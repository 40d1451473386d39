ghost use Rattle.std.specs.Prelude.{◌≡◌, ℕ, ◌+◌, ◌<◌, ◌≤◌, ◌^◌, ℤ, List, length, map, option_copied};
ghost use Rattle.std.specs.List.{range_with_len};
ghost use Rattle.ny_num.specs.Numbers.{sample_abs};
ghost use Rattle.ny_units.specs.Inputs.{source_of, start_of, reader_of, with_reader, taken_of, input_at, need_of, ShowsInput, CanRead, IsReader, piece_at, piece_len};

use crate::input::{Input, Piece, Source};
use crate::voice::fill_constant;
use ny_kernels::absolute;
use ny_list::{Cursor, Reads};
use ny_num::Sample;
use std::marker::Model;

/// An input without its signs (`docs/DEFINITIONS.md`, "Units").
#[derive(Drop)]
pub struct AbsUnit {
    input: Source,
}

impl Model for AbsUnit {
    ghost use Rattle.ny_units.specs.declared.input.Source.{Source};

    ghost Value = { Source };

    ghost view = { λ u. u.input };
}

// What a piece has at each place of `out`, without its sign.
fn absolute_piece(piece: Piece<'_>, out: &mut [Sample])
    requires { length out.old ≤ piece_len piece }
    ensures { out.new ≡ map (λ k. sample_abs (piece_at piece.entry k)) (range_with_len 0 (length out.old)) }
{
    match piece {
        Piece::Samples(samples) => absolute(&samples[..out.len()], out),
        Piece::Same { value, .. } => fill_constant(value.abs(), 0, out),
    }
}

// An input without its signs from index `m` on, piece by piece.
fn fill_absolute(input: &Source, reads: &Reads<'_>, m: u64, out: &mut [Sample])
    requires ready { CanRead reads.now input.now m (m + length out.old) }
    requires short { m + length out.old < 2 ^ 64 }
    ensures samples { (xs : List ℤ) → ShowsInput reads.now input.now xs → out.new ≡ map (λ n. sample_abs (input_at input.now xs n)) (range_with_len m (length out.old)) }
{
    let mut done = 0;
    while done < out.len() {
        let piece = input.piece(reads, m + done as u64, out.len() - done);
        let end = done + piece.len();
        absolute_piece(piece, &mut out[done..end]);
        done = end;
    }
}

impl AbsUnit {
    /// An input without its signs, from where it begins on.
    pub fn of(a: Input) -> AbsUnit
        ensures { result ≡ source_of a }
    {
        AbsUnit {
            input: Source::of(a),
        }
    }

    /// Writes the samples from `from` on, counted from where the input begins, as many as `out` has places. The input is
    /// computed as far as the slice asks of it, where its cursor is left.
    pub fn fill(&mut self, reads: &Reads<'_>, from: u32, out: &mut [Sample])
        requires ready { CanRead reads.now self.old (start_of self.old + from) (start_of self.old + from + length out.old) }
        ensures unchanged { self.new ≡ self.old }
        ensures samples { (xs : List ℤ) → ShowsInput reads.now self.old xs → out.new ≡ map (λ m. sample_abs (input_at self.old xs m)) (range_with_len (start_of self.old + from) (length out.old)) }
    {
        let m = u64::from(self.input.start()) + u64::from(from);
        fill_absolute(&self.input, reads, m, out);
    }

    /// The cursor of the input; none where it is a number, had no samples, or its cursor was taken.
    pub fn cursor(&self, i: u32) -> Option<&Cursor>
        requires inside { i < 1 }
        ensures { option_copied result ≡ reader_of self.now }
    {
        self.input.cursor()
    }

    /// Takes the cursor of the input, where it has one.
    pub fn take_cursor(&mut self, i: u32) -> Option<Cursor>
        requires inside { i < 1 }
        ensures cursor { result ≡ reader_of self.old }
        ensures taken { self.new ≡ taken_of self.old }
    {
        self.input.take()
    }

    /// Puts the cursor of the input back that was taken.
    pub fn put_cursor(&mut self, i: u32, c: Cursor)
        requires inside { i < 1 }
        requires reader { IsReader self.old }
        ensures { self.new ≡ with_reader self.old c }
    {
        self.input.put(c);
    }

    /// How many samples have been taken of the input once the unit has `done` samples.
    pub fn need(&self, i: u32, done: u32) -> u32
        requires inside { i < 1 }
        ensures { result ≡ need_of (start_of self.now) self.now done }
    {
        self.input.need(self.input.start(), done)
    }
}

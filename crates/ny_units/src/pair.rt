ghost use Rattle.std.specs.Prelude.{◌≡◌, ℕ, ◌+◌, ◌<◌, ◌≤◌, ◌^◌, ℤ, List, length, map, option_copied};
ghost use Rattle.std.specs.List.{range_with_len};
ghost use Rattle.ny_kernels.specs.Operations.{operation};
ghost use Rattle.ny_units.specs.Inputs.{source_of, reader_of, with_reader, taken_of, input_at, need_of, ShowsInput, CanRead, IsReader, piece_at, piece_len};
ghost use Rattle.ny_units.specs.Pairs.{side_of, with_side};

use crate::input::{Input, Piece, Source};
use crate::voice::fill_constant;
use ny_kernels::{Op, Side, binary};
use ny_list::{Cursor, Reads};
use ny_num::Sample;
use std::marker::Model;

/// An operation on two inputs, index by index (`docs/DEFINITIONS.md`, "Units"). Input 0 is the left one.
#[derive(Drop)]
pub struct PairUnit {
    op: Op,
    left: Source,
    right: Source,
    start: u32,
}

impl Model for PairUnit {
    ghost use Rattle.ny_units.specs.Pairs.{Pair};

    ghost Value = { Pair };

    ghost view = { λ u. record { op = u.op; left = u.left; right = u.right; start = u.start } };
}

// The operation on what two pieces have at each place of `out`.
fn combine(op: Op, left: Piece<'_>, right: Piece<'_>, out: &mut [Sample])
    requires left { length out.old ≤ piece_len left }
    requires right { length out.old ≤ piece_len right }
    ensures { out.new ≡ map (λ k. operation op (piece_at left.entry k) (piece_at right.entry k)) (range_with_len 0 (length out.old)) }
{
    let len = out.len();
    match left {
        Piece::Samples(a) => match right {
            Piece::Samples(b) => binary(op, Side::List(&a[..len]), Side::List(&b[..len]), out),
            Piece::Same { value, .. } => binary(
                op,
                Side::List(&a[..len]),
                Side::Number(value),
                out,
            ),
        },
        Piece::Same { value, .. } => match right {
            Piece::Samples(b) => binary(op, Side::Number(value), Side::List(&b[..len]), out),
            Piece::Same { value: other, .. } => fill_constant(op.of(value, other), 0, out),
        },
    }
}

// The operation on two inputs from index `m` on. It goes on from piece to piece, to the nearer end of the two.
fn fill_pair(op: Op, left: &Source, right: &Source, reads: &Reads<'_>, m: u64, out: &mut [Sample])
    requires left { CanRead reads.now left.now m (m + length out.old) }
    requires right { CanRead reads.now right.now m (m + length out.old) }
    requires short { m + length out.old < 2 ^ 64 }
    ensures samples { (xs ys : List ℤ) → ShowsInput reads.now left.now xs → ShowsInput reads.now right.now ys → out.new ≡ map (λ n. operation op (input_at left.now xs n) (input_at right.now ys n)) (range_with_len m (length out.old)) }
{
    let mut done = 0;
    while done < out.len() {
        let n = m + done as u64;
        let a = left.piece(reads, n, out.len() - done);
        let b = right.piece(reads, n, a.len());
        let end = done + b.len();
        combine(op, a, b, &mut out[done..end]);
        done = end;
    }
}

impl PairUnit {
    /// The operation on two inputs, from the index `start` on.
    pub fn of(op: Op, a: Input, b: Input, start: u32) -> PairUnit
        ensures { result ≡ record { op = op; left = source_of a; right = source_of b; start = start } }
    {
        PairUnit {
            op,
            left: Source::of(a),
            right: Source::of(b),
            start,
        }
    }

    /// Its operation.
    pub fn op(&self) -> Op
        ensures { result ≡ self.now.op }
    {
        self.op
    }

    /// Writes the samples from `from` on, counted from the start, as many as `out` has places. Each input whose cursor is
    /// left is computed as far as the slice asks of it.
    pub fn fill(&mut self, reads: &Reads<'_>, from: u32, out: &mut [Sample])
        requires left { CanRead reads.now self.old.left (self.old.start + from) (self.old.start + from + length out.old) }
        requires right { CanRead reads.now self.old.right (self.old.start + from) (self.old.start + from + length out.old) }
        ensures unchanged { self.new ≡ self.old }
        ensures samples { (xs ys : List ℤ) → ShowsInput reads.now self.old.left xs → ShowsInput reads.now self.old.right ys → out.new ≡ map (λ m. operation self.old.op (input_at self.old.left xs m) (input_at self.old.right ys m)) (range_with_len (self.old.start + from) (length out.old)) }
    {
        let m = u64::from(self.start) + u64::from(from);
        fill_pair(self.op, &self.left, &self.right, reads, m, out);
    }

    /// The cursor of an input; none where it is a number, had no samples, or its cursor was taken.
    pub fn cursor(&self, i: u32) -> Option<&Cursor>
        requires inside { i < 2 }
        ensures { option_copied result ≡ reader_of (side_of self.now i) }
    {
        if i == 0 {
            self.left.cursor()
        } else {
            self.right.cursor()
        }
    }

    /// Takes the cursor of an input, where it has one.
    pub fn take_cursor(&mut self, i: u32) -> Option<Cursor>
        requires inside { i < 2 }
        ensures cursor { result ≡ reader_of (side_of self.old i) }
        ensures taken { self.new ≡ with_side self.old i (taken_of (side_of self.old i)) }
    {
        if i == 0 {
            self.left.take()
        } else {
            self.right.take()
        }
    }

    /// Puts the cursor of an input back that was taken.
    pub fn put_cursor(&mut self, i: u32, c: Cursor)
        requires inside { i < 2 }
        requires reader { IsReader (side_of self.old i) }
        ensures { self.new ≡ with_side self.old i (with_reader (side_of self.old i) c) }
    {
        if i == 0 {
            self.left.put(c);
        } else {
            self.right.put(c);
        }
    }

    /// How many samples have been taken of an input once the unit has `done` samples.
    pub fn need(&self, i: u32, done: u32) -> u32
        requires inside { i < 2 }
        ensures { result ≡ need_of self.now.start (side_of self.now i) done }
    {
        if i == 0 {
            self.left.need(self.start, done)
        } else {
            self.right.need(self.start, done)
        }
    }
}

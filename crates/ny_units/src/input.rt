ghost use Rattle.std.specs.Prelude.{◌≡◌, ℕ, ◌+◌, ◌<◌, ◌≤◌, ℤ, List, take, option_copied};
ghost use Rattle.ny_list.specs.Reading.{Shows};
ghost use Rattle.ny_units.specs.Inputs.{source_of, start_of, reader_of, with_reader, taken_of, heard_at, input_at, taken_by, need_of, ShowsInput, CanHear, CanRead, IsReader, piece_at, piece_len};

use ny_list::{Cursor, Reads};
use ny_num::Sample;

/// What a unit is made of: a list that begins at the index `start`, as far as its cursor sees it, or a number, which is
/// the value at each index. An input without samples is the number 0.
#[derive(Drop)]
pub enum Input {
    List { cursor: Cursor, start: u32 },
    Number(Sample),
}

/// An input as its unit keeps it: a reader has no cursor once it was taken, and gives 0 from then on.
#[derive(Drop)]
pub enum Source {
    Reader { cursor: Option<Cursor>, start: u32 },
    Number(Sample),
}

/// The next samples of an input: samples of its list, or the same one for a while.
#[derive(Clone, Copy)]
pub(crate) enum Piece<'a> {
    Samples(&'a [Sample]),
    Same { value: Sample, len: usize },
}

impl<'a> Piece<'a> {
    /// How many samples it has.
    pub(crate) fn len(&self) -> usize
        ensures { result ≡ piece_len self.now }
    {
        match self {
            Piece::Samples(samples) => samples.len(),
            Piece::Same { len, .. } => *len,
        }
    }
}

// The next samples, from index `m` on, of a list that begins at the index `start`, as far as a cursor sees it. Outside
// what it sees there are zeros.
fn heard<'a>(reads: &'a Reads<'_>, c: &Cursor, start: u32, m: u64, limit: usize) -> Piece<'a>
    requires some { 0 < limit }
    requires ready { CanHear reads.now c.now start m (m + limit) }
    ensures some { 0 < piece_len result }
    ensures within { piece_len result ≤ limit }
    ensures values { (xs : List ℤ) → Shows reads.now c.now.list xs → (k : ℕ) → k < piece_len result → piece_at result k ≡ heard_at start (take c.now.visible xs) (m + k) }
{
    let start = u64::from(start);
    if m < start {
        return Piece::Same {
            value: Sample::ZERO,
            len: limit.min((start - m) as usize),
        };
    }
    let place = m - start;
    if place >= u64::from(c.visible()) {
        return Piece::Same {
            value: Sample::ZERO,
            len: limit,
        };
    }
    let run = reads.run(c, place as u32);
    Piece::Samples(&run[..limit.min(run.len())])
}

// How many samples of an input that begins at `start`, of which so many are seen, a unit that begins at `begins` has
// taken once it has `done` samples.
fn taken_by(begins: u32, start: u32, visible: u32, done: u32) -> u32
    ensures { result ≡ taken_by begins start visible done }
{
    if done == 0 {
        return 0;
    }
    let end = u64::from(begins) + u64::from(done);
    end.saturating_sub(u64::from(start)).min(u64::from(visible)) as u32
}

impl Source {
    /// An input of which nothing has been taken.
    pub(crate) fn of(input: Input) -> Source
        ensures { result ≡ source_of input }
    {
        match input {
            Input::List { cursor, start } => Source::Reader {
                cursor: Some(cursor),
                start,
            },
            Input::Number(value) => Source::Number(value),
        }
    }

    /// The index where it begins: 0 for a number.
    pub(crate) fn start(&self) -> u32
        ensures { result ≡ start_of self.now }
    {
        match self {
            Source::Reader { start, .. } => *start,
            Source::Number(_) => 0,
        }
    }

    /// The cursor, where the input has one.
    pub(crate) fn cursor(&self) -> Option<&Cursor>
        ensures { option_copied result ≡ reader_of self.now }
    {
        match self {
            Source::Reader { cursor, .. } => cursor.as_ref(),
            Source::Number(_) => None,
        }
    }

    /// Takes the cursor, where the input has one.
    pub(crate) fn take(&mut self) -> Option<Cursor>
        ensures cursor { result ≡ reader_of self.old }
        ensures taken { self.new ≡ taken_of self.old }
    {
        match self {
            Source::Reader { cursor, .. } => cursor.take(),
            Source::Number(_) => None,
        }
    }

    /// Puts a cursor back that was taken.
    pub(crate) fn put(&mut self, c: Cursor)
        requires { IsReader self.old }
        ensures { self.new ≡ with_reader self.old c }
    {
        match self {
            Source::Reader { cursor, .. } => *cursor = Some(c),
            Source::Number(_) => {}
        }
    }
    /// How many samples a unit that begins at the index `begins` has taken of this input once it has `done` samples.
    pub(crate) fn need(&self, begins: u32, done: u32) -> u32
        ensures { result ≡ need_of begins self.now done }
    {
        match self {
            Source::Reader { cursor, start } => match cursor {
                Some(c) => taken_by(begins, *start, c.visible(), done),
                None => 0,
            },
            Source::Number(_) => 0,
        }
    }

    /// The next samples from index `m` on: one at least, and no more than `limit`.
    pub(crate) fn piece<'a>(&self, reads: &'a Reads<'_>, m: u64, limit: usize) -> Piece<'a>
        requires some { 0 < limit }
        requires ready { CanRead reads.now self.now m (m + limit) }
        ensures some { 0 < piece_len result }
        ensures within { piece_len result ≤ limit }
        ensures values { (xs : List ℤ) → ShowsInput reads.now self.now xs → (k : ℕ) → k < piece_len result → piece_at result k ≡ input_at self.now xs (m + k) }
    {
        match self {
            Source::Reader { cursor, start } => match cursor {
                Some(c) => heard(reads, c, *start, m, limit),
                None => Piece::Same {
                    value: Sample::ZERO,
                    len: limit,
                },
            },
            Source::Number(value) => Piece::Same {
                value: *value,
                len: limit,
            },
        }
    }
}

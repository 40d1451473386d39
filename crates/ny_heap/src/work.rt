ghost use Rattle.std.specs.Prelude.{◌≡◌, ℕ, ◌+◌, ◌<◌, ◌≤◌, ◌^◌, ◌∷◌, [], is_some, if◌then◌else◌, ℤ, List, length, option_copied, slice_index_or, pos, None, MatchOption};
ghost use Rattle.ny_units.specs.Inputs.{IsReader};
ghost use Rattle.ny_heap.specs.Work.{kind_of, inputs_in, side_in, source_at, cursor_at, without_cursor_at, with_cursor_at, need_in, waits_in, without_first, HasGiven, CanWork, ShowsAll, work_value, MovesOn, Recalls};

use crate::sound::Sound;
use ny_filters::FilterUnit;
use ny_list::{Cursor, Reads};
use ny_mix::Mix;
use ny_num::Sample;
use ny_units::{AbsUnit, CopyUnit, LeafUnit, PairUnit, ResampleUnit};
use ny_wave::Waves;

/// What a unit computes, with the cursors of what it reads.
#[derive(Drop)]
pub(crate) enum Work {
    Leaf(LeafUnit),
    /// An operation, and the samples that are given in place of its sides.
    Pair(PairUnit, Option<Sample>, Option<Sample>),
    Abs(AbsUnit),
    Resample(ResampleUnit),
    /// A filter, and the index where it begins.
    Filter(FilterUnit, u32),
    /// A mix. What each part that waits keeps lies in it.
    Mix(Mix<Vec<Sound>>),
    Channel(CopyUnit),
}

// How many of two sides are sounds.
fn sides(left: &Option<Sample>, right: &Option<Sample>) -> u32
    ensures { result ≡ (if is_some left.now then 0 else 1) + (if is_some right.now then 0 else 1) }
{
    let first = if left.is_some() { 0 } else { 1 };
    let second = if right.is_some() { 0 } else { 1 };
    first + second
}

// The side that an input is, where this is what is given on the left.
fn side(left: &Option<Sample>, i: u32) -> u32
    requires { i < 2 }
    ensures { result ≡ side_in left.now i }
{
    if left.is_some() { i + 1 } else { i }
}

impl Work {
    /// How many sounds it is made of.
    pub(crate) fn inputs(&self) -> u32
        ensures { result ≡ inputs_in self.now }
    {
        match self {
            Work::Leaf(_) => 0,
            Work::Pair(_, left, right) => sides(left, right),
            Work::Abs(_) => 1,
            Work::Resample(_) => 1,
            Work::Filter(_, _) => 1,
            Work::Mix(mix) => mix.parts(),
            Work::Channel(_) => 1,
        }
    }

    /// How many inputs at the front have no cursor; more may have none. A mix of many parts that are over passes them over.
    pub(crate) fn over(&self) -> u32
        ensures inside { result ≤ inputs_in self.now }
        ensures gone { (i : ℕ) → i < result → cursor_at self.now i ≡ None }
    {
        match self {
            Work::Mix(mix) => mix.over(),
            _ => 0,
        }
    }

    /// The cursor of an input; none where it is no list, or its cursor was taken.
    pub(crate) fn cursor(&self, i: u32) -> Option<&Cursor>
        requires inside { i < inputs_in self.now }
        ensures { option_copied result ≡ cursor_at self.now i }
    {
        match self {
            Work::Leaf(_) => None,
            Work::Pair(unit, left, _) => unit.cursor(side(left, i)),
            Work::Abs(unit) => unit.cursor(i),
            Work::Resample(unit) => unit.cursor(i),
            Work::Filter(unit, _) => unit.cursor(i),
            Work::Mix(mix) => mix.cursor(i),
            Work::Channel(unit) => unit.cursor(i),
        }
    }

    /// Takes the cursor of an input, where it has one.
    pub(crate) fn take_cursor(&mut self, i: u32) -> Option<Cursor>
        requires inside { i < inputs_in self.old }
        ensures cursor { result ≡ cursor_at self.old i }
        ensures taken { self.new ≡ without_cursor_at self.old i }
    {
        match self {
            Work::Leaf(_) => None,
            Work::Pair(unit, left, _) => unit.take_cursor(side(left, i)),
            Work::Abs(unit) => unit.take_cursor(i),
            Work::Resample(unit) => unit.take_cursor(i),
            Work::Filter(unit, _) => unit.take_cursor(i),
            Work::Mix(mix) => mix.take_cursor(i),
            Work::Channel(unit) => unit.take_cursor(i),
        }
    }

    /// Puts the cursor of an input back that was taken.
    pub(crate) fn put_cursor(&mut self, i: u32, c: Cursor)
        requires inside { i < inputs_in self.old }
        requires reader { IsReader (source_at self.old i) }
        ensures { self.new ≡ with_cursor_at self.old i c }
    {
        match self {
            Work::Leaf(_) => {}
            Work::Pair(unit, left, _) => unit.put_cursor(side(left, i), c),
            Work::Abs(unit) => unit.put_cursor(i, c),
            Work::Resample(unit) => unit.put_cursor(i, c),
            Work::Filter(unit, _) => unit.put_cursor(i, c),
            Work::Mix(mix) => mix.put_cursor(i, c),
            Work::Channel(unit) => unit.put_cursor(i, c),
        }
    }

    /// How many parts wait.
    pub(crate) fn waiting(&self) -> usize
        ensures { result ≡ length (waits_in self.now) }
    {
        match self {
            Work::Mix(mix) => mix.waiting(),
            _ => 0,
        }
    }

    /// Takes out what the first part that waits keeps; none exactly where no part waits.
    pub(crate) fn next_waiting(&mut self) -> Option<Vec<Sound>>
        ensures first { MatchOption result (waits_in self.old ≡ []) (λ kept. waits_in self.old ≡ kept.items ∷ waits_in self.new) }
        ensures taken { self.new ≡ without_first self.old }
    {
        match self {
            Work::Leaf(_) => None,
            Work::Pair(_, _, _) => None,
            Work::Abs(_) => None,
            Work::Resample(_) => None,
            Work::Filter(_, _) => None,
            Work::Mix(mix) => mix.next(),
            Work::Channel(_) => None,
        }
    }

    /// How many samples are taken of an input once there are `done`.
    pub(crate) fn need(&self, i: u32, done: u32) -> u32
        requires inside { i < inputs_in self.now }
        ensures { result ≡ need_in self.now i done }
    {
        match self {
            Work::Leaf(_) => 0,
            Work::Pair(unit, left, _) => unit.need(side(left, i), done),
            Work::Abs(unit) => unit.need(i, done),
            Work::Resample(unit) => unit.need(i, done),
            Work::Filter(unit, _) => unit.need(i, done),
            Work::Mix(mix) => mix.need(i, done),
            Work::Channel(unit) => unit.need(i, done),
        }
    }

    /// Computes the samples from `from` on, counted from the start, as many as `out` has places.
    /// What keeps a place or samples moves on.
    pub(crate) fn fill(&mut self, reads: &Reads<'_>, waves: &Waves, from: u32, out: &mut [Sample])
        requires ready { CanWork reads.now self.old from (from + length out.old) }
        requires given { HasGiven self.old (from + length out.old) from }
        requires short { from + length out.old < 2 ^ 32 }
        ensures moves { MovesOn self.old self.new (from + length out.old) }
        ensures recalls { (whole : ℕ → List ℤ) → ShowsAll reads.now whole → Recalls self.old self.new whole from (length out.old) }
        ensures len { length out.new ≡ length out.old }
        ensures samples { (whole : ℕ → List ℤ) → ShowsAll reads.now whole → (k : ℕ) → k < length out.old → slice_index_or out.new k (pos 0) ≡ work_value self.old whole from (from + k) }
    {
        match self {
            Work::Leaf(unit) => unit.fill(waves, from, out),
            Work::Pair(unit, _, _) => unit.fill(reads, from, out),
            Work::Abs(unit) => unit.fill(reads, from, out),
            Work::Resample(unit) => unit.fill(reads, from, out),
            Work::Filter(unit, _) => unit.fill(reads, from, out),
            Work::Mix(mix) => mix.fill(reads, from, out),
            Work::Channel(unit) => unit.fill(reads, from, out),
        }
    }
}

ghost use Rattle.std.specs.Prelude.{◌≡◌, ℕ, ◌+◌, ◌-◌, ◌^◌, ◌<◌, ◌≤◌, ◌==◌, if◌then◌else◌, ℤ, List, All, length, map, pos, slice_index_or, min, Option, Some, None, option_copied};
ghost use Rattle.std.specs.List.{range_with_len};
ghost use Rattle.std.specs.Option.{ForSome, option_map_or};
ghost use Rattle.ny_list.specs.Store.{CursorState};
ghost use Rattle.ny_list.specs.Steps.{IsComputed};
ghost use Rattle.ny_list.specs.Reading.{Shows};
ghost use Rattle.ny_num.specs.Resampling.{other_rate_timing, interpolated};
ghost use Rattle.ny_units.specs.Courses.{IsCourse, IsWindow, place_at, course_value};
ghost use Rattle.ny_units.specs.Neighbours.{between};
ghost use Rattle.ny_units.specs.Resamplings.{heard_sound, cursor_of, IsHeardAt, next_after, taken_after, two_before, known, Remembers, CanTake, CanResample};

use crate::course::{Course, Window};
use crate::input::Input;
use crate::stretch::fill_stretch;
use ny_list::{Cursor, Reads};
use ny_num::{Sample, Timing};
use std::marker::Model;

// The samples of an input from index `next` on, as far as they are at hand. Past its end there are zeros.
fn samples_ahead<'a>(
    reads: &'a Reads<'_>,
    reader: &Option<Cursor>,
    from: &Timing,
    next: u64,
    silence: &'a [Sample],
) -> &'a [Sample]
    requires zeros { (k : ℕ) → slice_index_or silence.now k (pos 0) ≡ pos 0 }
    requires long { 0 < length silence.now }
    requires later { from.now.start ≤ next }
    requires ready { ForSome reader.now (λ c. CanTake reads.now from.now c next) }
    requires exhausted { reader.now ≡ None → from.now.len ≤ next - from.now.start }
    ensures some { ((c : CursorState) → reader.now ≡ Some c → next - from.now.start < from.now.len → IsComputed reads.now c (next - from.now.start - c.place + 1)) → 0 < length result.now }
    ensures values { (xs : List ℤ) → ForSome reader.now (λ c. Shows reads.now c.list xs) → (k : ℕ) → k < length result.now → slice_index_or result.now k (pos 0) ≡ two_before from.now xs (next + 2 + k) }
{
    let place = next - u64::from(from.start);
    match reader {
        Some(c) => {
            if place < u64::from(c.visible()) {
                reads.run(c, place as u32)
            } else {
                silence
            }
        }
        None => silence,
    }
}

// The outputs from index `m` on, run by run of the input. Answers the window at the last one. What the first window holds may be
// anything; past it the input's samples are read.
fn fill_runs(
    course: &Course,
    reads: &Reads<'_>,
    reader: &Option<Cursor>,
    from: &Timing,
    first: Window,
    m: u64,
    out: &mut [Sample],
) -> Window
    requires course { IsCourse course.now }
    requires later { from.now.start ≤ first.next }
    requires forward { first.next ≤ place_at course.now m + 2 }
    requires short { m + length out.old < 2 ^ 34 }
    requires ready { ForSome reader.now (λ c. CanTake reads.now from.now c first.next) }
    requires exhausted { reader.now ≡ None → from.now.len ≤ first.next - from.now.start }
    requires computed { ForSome reader.now (λ c. 0 < length out.old → IsComputed reads.now c (min (place_at course.now (m + length out.old - 1) + 2 - from.now.start) from.now.len - c.place)) }
    ensures next { result.next ≡ (if length out.old == 0 then first.next else place_at course.now (m + length out.old - 1) + 2) }
    ensures samples { (xs : List ℤ) → ForSome reader.now (λ c. Shows reads.now c.list xs) → (g : ℕ → ℤ) → IsWindow g first → ((p : ℕ) → first.next + 2 ≤ p → g p ≡ two_before from.now xs p) → out.new ≡ map (course_value course.now g) (range_with_len m (length out.old)) }
    ensures window { (xs : List ℤ) → ForSome reader.now (λ c. Shows reads.now c.list xs) → (g : ℕ → ℤ) → IsWindow g first → ((p : ℕ) → first.next + 2 ≤ p → g p ≡ two_before from.now xs p) → IsWindow g result }
{
    let silence = [Sample::ZERO; 16];
    let mut window = first;
    let mut at = course.at(m);
    let mut done = 0;
    while done < out.len() {
        let ahead = samples_ahead(&*reads, reader, from, window.next, &silence);
        let stretch = fill_stretch(course, window, at, ahead, &mut out[done..]);
        window = stretch.window;
        at = stretch.at;
        done += stretch.written;
    }
    window
}

/// A list that is brought to another rate, slice by slice: each fill goes on where the last one ended
/// (`docs/DEFINITIONS.md`, "Units"). It keeps the last two samples that it took.
#[derive(Drop)]
pub struct ResampleUnit {
    from: Timing,
    to: Timing,
    reader: Option<Cursor>,
    window: Window,
    given: u32,
}

impl Model for ResampleUnit {
    ghost use Rattle.ny_units.specs.Resamplings.{Resampling};

    ghost Value = { Resampling };

    ghost use Rattle.ny_units.specs.Resamplings.{next_after, BeginsLater};
    ghost use Rattle.std.specs.Prelude.{◌≡◌};

    ghost view = { λ u. record { from = u.from; to = u.to; reader = u.reader; before = u.window.before; after = u.window.after; given = u.given } };

    ghost invariant = { λ u. (u.window.next ≡ next_after u.from u.to u.given) × BeginsLater u.from u.to };
}

// The cursor of an input that is a list.
fn list_of(a: Input) -> Option<Cursor>
    ensures { result ≡ cursor_of a }
{
    match a {
        Input::List { cursor, .. } => Some(cursor),
        Input::Number(_) => None,
    }
}

impl ResampleUnit {
    /// A list that is heard as `from` says, at another rate; `to` says when it is heard then.
    pub fn of(a: Input, from: Timing, to: Timing) -> ResampleUnit
        requires input { IsHeardAt a from }
        requires timing { to ≡ other_rate_timing to.rate from }
        ensures { result ≡ record { from = from; to = to; reader = cursor_of a; before = pos 0; after = pos 0; given = 0 } }
    {
        ResampleUnit {
            from,
            to,
            reader: list_of(a),
            window: Window {
                before: Sample::ZERO,
                after: Sample::ZERO,
                next: u64::from(from.start),
            },
            given: 0,
        }
    }

    /// Writes the samples from `from` on, counted from where the outputs begin, as many as `out` has places; `from` is where
    /// the last fill ended. The input is computed as far as these outputs ask of it, and where its cursor was taken, all of it
    /// was.
    pub fn fill(&mut self, reads: &Reads<'_>, from: u32, out: &mut [Sample])
        requires next { from ≡ self.old.given }
        requires short { from + length out.old < 2 ^ 32 }
        requires ready { ForSome self.old.reader (λ c. CanResample reads.now self.old c (from + length out.old)) }
        requires exhausted { self.old.reader ≡ None → taken_after self.old.from self.old.to from ≡ self.old.from.len }
        ensures from { self.new.from ≡ self.old.from }
        ensures to { self.new.to ≡ self.old.to }
        ensures reader { self.new.reader ≡ self.old.reader }
        ensures given { self.new.given ≡ from + length out.old }
        ensures samples { (xs : List ℤ) → ForSome self.old.reader (λ c. Shows reads.now c.list xs) → Remembers self.old xs → out.new ≡ map (interpolated self.old.to.rate (heard_sound self.old.from xs)) (range_with_len (self.old.to.start + from) (length out.old)) }
        ensures rest { (xs : List ℤ) → ForSome self.old.reader (λ c. Shows reads.now c.list xs) → out.new ≡ map (between self.old.from.rate self.old.to.rate (known self.old xs)) (range_with_len (self.old.to.start + from) (length out.old)) }
        ensures before { (xs : List ℤ) → ForSome self.old.reader (λ c. Shows reads.now c.list xs) → (p : ℕ) → p + 2 ≡ next_after self.new.from self.new.to self.new.given → self.new.before ≡ known self.old xs p }
        ensures after { (xs : List ℤ) → ForSome self.old.reader (λ c. Shows reads.now c.list xs) → (p : ℕ) → p + 1 ≡ next_after self.new.from self.new.to self.new.given → self.new.after ≡ known self.old xs p }
        ensures remembers { (xs : List ℤ) → ForSome self.old.reader (λ c. Shows reads.now c.list xs) → Remembers self.old xs → Remembers self.new xs }
    {
        let course = Course::between(self.from.rate, self.to.rate);
        let m = u64::from(self.to.start) + u64::from(from);
        self.window = fill_runs(
            &course,
            reads,
            &self.reader,
            &self.from,
            self.window,
            m,
            out,
        );
        self.given = from + out.len() as u32;
    }

    /// The cursor of the input; none where it was taken.
    pub fn cursor(&self, i: u32) -> Option<&Cursor>
        requires inside { i < 1 }
        ensures { option_copied result ≡ self.now.reader }
    {
        self.reader.as_ref()
    }

    /// Takes the cursor of the input.
    pub fn take_cursor(&mut self, i: u32) -> Option<Cursor>
        requires inside { i < 1 }
        ensures cursor { result ≡ self.old.reader }
        ensures taken { self.new ≡ record self.old { reader = None } }
    {
        self.reader.take()
    }

    /// Puts the cursor of the input back that was taken.
    pub fn put_cursor(&mut self, i: u32, c: Cursor)
        requires inside { i < 1 }
        ensures { self.new ≡ record self.old { reader = Some c } }
    {
        self.reader = Some(c);
    }

    /// How many samples have been taken of the input once the unit has `done` samples: up to both neighbours of the last one.
    pub fn need(&self, i: u32, done: u32) -> u32
        requires inside { i < 1 }
        ensures { result ≡ taken_after self.now.from self.now.to done }
    {
        if done == 0 {
            return 0;
        }
        let last = u64::from(self.to.start) + u64::from(done) - 1;
        let next = Course::between(self.from.rate, self.to.rate).at(last).place + 2;
        let taken = next.saturating_sub(u64::from(self.from.start));
        taken.min(u64::from(self.from.len)) as u32
    }
}

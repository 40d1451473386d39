ghost use Rattle.std.specs.Prelude.{◌≡◌, ℕ, ◌+◌, ◌<◌, ◌≤◌, ◌∷◌, ◌++◌, [], if◌then◌else◌, ℤ, List, Some, None, length, map, MatchOption, MatchResult, option_copied, slice_get};
ghost use Rattle.std.specs.List.{range_with_len};
ghost use Rattle.ny_num.specs.Mix.{sum_at};
ghost use Rattle.ny_mix.specs.Mixes.{cursor_at, with_cursor, last_stop, offset_of, is_due, sounds_of, ShowsParts, CanReadParts, need_of};

use crate::adding::{fill_parts, over_after};
use crate::part::Part;
use ny_list::{Cursor, Reads};
use ny_num::{Sample, Ticks, Timing, index};
use std::alloc::Global;
use std::collections::VecDeque;
use std::marker::Model;

/// The sum of parts that are heard at different times, clamped at each step from the left (`docs/DEFINITIONS.md`, "Mixes").
///
/// Some parts wait: `B` is what such a part is evaluated from, with the sounds that it keeps for that. They are taken out in order,
/// each once it is due, and attached as parts after those that are there.
#[derive(Drop)]
pub struct Mix<B> {
    timing: Timing,
    parts: Vec<Part>,
    // The first so many parts have no cursor.
    over: usize,
    waiting: VecDeque<B>,
    room: u32,
}

impl<B> Model for Mix<B> {
    ghost use Rattle.std.specs.Prelude.{length, vec_capacity};
    ghost use Rattle.ny_mix.specs.Mixes.{MixState, IsMix};

    ghost Value = { MixState B };

    ghost view = { λ m. record { timing = m.timing; parts = m.parts.items; waiting = m.waiting.items; room = m.room } };

    ghost invariant = { λ m. IsMix m.parts.items (length m.waiting.items) m.room (vec_capacity m.parts) m.over };
}

impl<B> Mix<B> {
    /// A mix without parts, heard as `timing` says, in which `waiting` wait. Room for `first` parts and all waiting ones is
    /// made here.
    ///
    /// # Errors
    /// Hands `waiting` back where memory is missing. Parts by the 2^32 have no room.
    pub fn open(
        alloc: Global,
        timing: Timing,
        first: u32,
        waiting: Vec<B>,
    ) -> Result<Mix<B>, Vec<B>>
        ensures { MatchResult result (λ m. m ≡ record { timing = timing; parts = []; waiting = waiting.items; room = first + length waiting.items }) (λ back. back ≡ waiting) }
    {
        let Ok(more) = u32::try_from(waiting.len()) else {
            return Err(waiting);
        };
        let Some(room) = first.checked_add(more) else {
            return Err(waiting);
        };
        match Vec::with_capacity(alloc, room as usize) {
            Ok(parts) => Ok(Mix {
                timing,
                parts,
                over: 0,
                waiting: VecDeque::from(waiting),
                room,
            }),
            Err(_) => Err(waiting),
        }
    }

    // How many samples after the mix's start the next part is needed.
    fn offset(&self) -> u32
        ensures { result ≡ offset_of self.now }
    {
        match self.parts.last() {
            Some(part) => index(part.stop, self.timing.rate).saturating_sub(self.timing.start),
            None => 0,
        }
    }

    /// The first waiting part, where the mix needs it in the block after `filled` blocks of `block` samples each.
    pub fn due(&self, filled: u32, block: u32) -> Option<&B>
        ensures { option_copied result ≡ (if is_due self.now filled block then slice_get self.now.waiting 0 else None) }
    {
        let end = (u64::from(filled) + 1) * u64::from(block);
        if u64::from(self.offset()) < end {
            self.waiting.front()
        } else {
            None
        }
    }

    /// Takes the first waiting part out; none exactly where no part waits.
    pub fn next(&mut self) -> Option<B>
        ensures { MatchOption result ((self.old.waiting ≡ []) × (self.new ≡ self.old)) (λ b. self.old ≡ record self.new { waiting = b ∷ self.new.waiting }) }
    {
        self.waiting.pop_front()
    }

    /// How many parts wait.
    pub fn waiting(&self) -> usize
        ensures { result ≡ length self.now.waiting }
    {
        self.waiting.len()
    }

    /// How many parts it has, without those that wait.
    pub fn parts(&self) -> u32
        ensures { result ≡ length self.now.parts }
    {
        self.parts.len() as u32
    }

    /// The stop of the part that was attached last.
    pub fn last_stop(&self) -> Ticks
        requires some { 0 < length self.now.parts }
        ensures { result ≡ last_stop self.now.parts }
    {
        self.parts[self.parts.len() - 1].stop
    }

    /// A part more, after those that are there: it is heard as `placed` says, at the mix's rate. One without samples has no
    /// cursor.
    pub fn attach(&mut self, part: Option<Cursor>, placed: Timing)
        requires room { length self.old.parts + length self.old.waiting < self.old.room }
        ensures { self.new ≡ record self.old { parts = self.old.parts ++ record { start = placed.start; stop = placed.stop; cursor = part } ∷ [] } }
    {
        self.parts.push_reserved(Part {
            start: placed.start,
            stop: placed.stop,
            cursor: part,
        });
    }

    /// Writes the samples from `from` on, counted from the mix's start, as many as `out` has places: the sum of its parts. Each
    /// part whose cursor is left is computed as far as the slice asks of it. It takes no memory, and a part that is over or has
    /// not begun costs nothing for a sample.
    pub fn fill(&mut self, reads: &Reads<'_>, from: u32, out: &mut [Sample])
        requires ready { CanReadParts reads.now self.old.parts (self.old.timing.start + from) (self.old.timing.start + from + length out.old) }
        ensures unchanged { self.new ≡ self.old }
        ensures samples { (whole : ℕ → List ℤ) → ShowsParts reads.now self.old.parts whole → out.new ≡ map (sum_at (sounds_of self.old.timing.rate whole self.old.parts)) (range_with_len (self.old.timing.start + from) (length out.old)) }
    {
        self.over = over_after(&self.parts, self.over);
        let m = u64::from(self.timing.start) + u64::from(from);
        fill_parts(&self.parts, self.over, reads, m, out);
    }

    /// How many parts at the front have no cursor; more may have none.
    pub fn over(&self) -> u32
        ensures inside { result ≤ length self.now.parts }
        ensures gone { (i : ℕ) → i < result → cursor_at self.now.parts i ≡ None }
    {
        self.over as u32
    }

    /// The cursor of a part; none where it had no sample, or its cursor was taken.
    pub fn cursor(&self, i: u32) -> Option<&Cursor>
        requires inside { i < length self.now.parts }
        ensures { option_copied result ≡ cursor_at self.now.parts i }
    {
        self.parts[i as usize].cursor.as_ref()
    }

    /// Takes the cursor of a part, where it has one.
    pub fn take_cursor(&mut self, i: u32) -> Option<Cursor>
        requires inside { i < length self.old.parts }
        ensures cursor { result ≡ cursor_at self.old.parts i }
        ensures taken { self.new ≡ record self.old { parts = with_cursor self.old.parts i None } }
    {
        self.parts[i as usize].cursor.take()
    }

    /// Puts the cursor of a part back that was taken.
    pub fn put_cursor(&mut self, i: u32, c: Cursor)
        requires inside { i < length self.old.parts }
        ensures { self.new ≡ record self.old { parts = with_cursor self.old.parts i (Some c) } }
    {
        self.over = self.over.min(i as usize);
        self.parts[i as usize].cursor = Some(c);
    }

    /// How many samples have been taken of a part once the mix has `done` samples.
    pub fn need(&self, i: u32, done: u32) -> u32
        requires inside { i < length self.now.parts }
        ensures { result ≡ need_of self.now.timing.start self.now.parts i done }
    {
        self.parts[i as usize].need(self.timing.start, done)
    }
}

ghost use Rattle.std.specs.Prelude.{◌≡◌, ℕ, ◌+◌, ◌<◌, ◌≤◌, ℤ, List, Option, Some, None, IsSome, length, min, take, drop, option_copied, IfOk, IfErr};
ghost use Rattle.std.specs.Option.{ForSome, option_map_or};
ghost use Rattle.ny_list.specs.Reading.{Shows};
ghost use Rattle.ny_filters.specs.Filtering.{IsFilter, IsComb, silent, filtered, outputs_after, memory_after, IsAfter, CanFilter};

use crate::filter::Filter;
use crate::stage::Stage;
use ny_list::{Cursor, Reads};
use ny_num::Sample;
use std::alloc::Global;
use std::marker::Model;

/// A filter that is heard, slice by slice: each fill goes on where the last one ended (`docs/DEFINITIONS.md`, "Units").
#[derive(Drop)]
pub struct FilterUnit {
    stage: Stage,
    reader: Option<Cursor>,
}

// A unit is seen as its filter, the cursor of its input, and what it keeps.
impl Model for FilterUnit {
    ghost use Rattle.ny_filters.specs.Filtering.{Filtering};

    ghost Value = { Filtering };

    ghost use Rattle.ny_filters.specs.Stages.{filter_of, memory_of, IsStage};

    ghost view = { λ u. record { filter = filter_of u.stage; reader = u.reader; memory = memory_of u.stage } };

    ghost invariant = { λ u. IsStage u.stage };
}

impl FilterUnit {
    /// A filter of a list, which has heard nothing yet. A comb's delay is 1 to 65,536 samples.
    ///
    /// # Errors
    /// The cursor, where memory for a comb's line is missing.
    pub fn of(alloc: Global, f: Filter, a: Cursor) -> Result<FilterUnit, Cursor>
        requires { IsFilter f }
        ensures begins { IfOk result (λ u. u ≡ record { filter = f; reader = Some a; memory = silent f }) }
        ensures cursor { IfErr result (λ c. c ≡ a) }
        ensures refused { IfErr result (λ _. IsComb f) }
    {
        match Stage::of(alloc, f) {
            Ok(stage) => Ok(FilterUnit {
                stage,
                reader: Some(a),
            }),
            Err(_) => Err(a),
        }
    }

    /// Writes the outputs from `from` on, as many as `out` has places; `from` is where the last fill ended. The input's
    /// samples there are seen and computed.
    pub fn fill(&mut self, reads: &Reads<'_>, from: u32, out: &mut [Sample])
        requires reader { IsSome self.old.reader }
        requires ready { ForSome self.old.reader (λ c. CanFilter reads.now c from (from + length out.old)) }
        ensures filter { self.new.filter ≡ self.old.filter }
        ensures reader { self.new.reader ≡ self.old.reader }
        ensures samples { ForSome self.old.reader (λ c. (xs : List ℤ) → Shows reads.now c.list xs → IsAfter self.old xs from → out.new ≡ take (length out.old) (drop from (filtered self.old.filter xs))) }
        ensures rest { ForSome self.old.reader (λ c. (xs : List ℤ) → Shows reads.now c.list xs → out.new ≡ outputs_after self.old.filter self.old.memory (take (length out.old) (drop from xs))) }
        ensures keeps { ForSome self.old.reader (λ c. (xs : List ℤ) → Shows reads.now c.list xs → self.new.memory ≡ memory_after self.old.filter self.old.memory (take (length out.old) (drop from xs))) }
        ensures after { ForSome self.old.reader (λ c. (xs : List ℤ) → Shows reads.now c.list xs → IsAfter self.old xs from → IsAfter self.new xs (from + length out.old)) }
    {
        if let Some(c) = &self.reader {
            self.stage.fill(reads, c, from, out);
        }
    }

    /// The cursor of the input; none where it was taken.
    pub fn cursor(&self, i: u32) -> Option<&Cursor>
        requires inside { i < 1 }
        ensures { option_copied result ≡ self.now.reader }
    {
        self.reader.as_ref()
    }

    /// Takes the cursor of the input.
    pub fn take_cursor(&mut self, i: u32) -> Option<Cursor>
        requires inside { i < 1 }
        ensures cursor { result ≡ self.old.reader }
        ensures taken { self.new ≡ record self.old { reader = None } }
    {
        self.reader.take()
    }

    /// Puts the cursor of the input back that was taken.
    pub fn put_cursor(&mut self, i: u32, c: Cursor)
        requires inside { i < 1 }
        ensures { self.new ≡ record self.old { reader = Some c } }
    {
        self.reader = Some(c);
    }

    /// How many samples have been taken of the input once the unit has `done` samples: one for each, as far as it is seen.
    pub fn need(&self, i: u32, done: u32) -> u32
        requires inside { i < 1 }
        ensures { result ≡ option_map_or (λ c. min done c.visible) self.now.reader 0 }
    {
        match &self.reader {
            Some(c) => done.min(c.visible()),
            None => 0,
        }
    }
}

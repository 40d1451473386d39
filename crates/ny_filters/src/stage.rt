ghost use Rattle.std.specs.Prelude.{◌≡◌, ◌+◌, ◌-◌, ◌<◌, ◌≤◌, length, take, drop, ℤ, List, IfOk, IfErr};
ghost use Rattle.ny_list.specs.Reading.{Shows};
ghost use Rattle.ny_filters.specs.Filtering.{IsFilter, IsComb, silent, outputs_after, memory_after, CanFilter};
ghost use Rattle.ny_filters.specs.declared.filter.Filter.TheVariants.{Comb as CombOf};
ghost use Rattle.ny_filters.specs.Stages.{filter_of, memory_of, IsStage};

use crate::biquad::fill_biquad;
use crate::comb::fill_comb;
use crate::filter::Filter;
use crate::one_pole::fill_one_pole;
use crate::recent::{Coefficients, Recent};
use circular_buffer::HeapCircularBuffer;
use ny_list::{Cursor, Reads};
use ny_num::{Fix, Sample};
use std::alloc::{AllocError, Global};

/// A filter and what it keeps of the samples before. A comb's line is as long as its delay.
#[derive(Drop)]
pub(crate) enum Stage {
    Pole {
        a: Fix,
        output: Sample,
    },
    Biquad {
        c: Coefficients,
        recent: Recent,
    },
    Comb {
        gain: Fix,
        line: HeapCircularBuffer<Sample>,
    },
}

// A comb that has heard nothing yet.
fn comb(alloc: Global, delay: u32, gain: Fix) -> Result<Stage, AllocError>
    requires { 1 ≤ delay }
    ensures { IfOk result (λ s. (filter_of s ≡ CombOf delay gain) × (memory_of s ≡ silent (filter_of s)) × IsStage s) }
{
    let line = HeapCircularBuffer::with_capacity(alloc, delay as usize)?;
    Ok(Stage::Comb { gain, line })
}

impl Stage {
    /// A filter that has heard nothing yet.
    ///
    /// # Errors
    /// `AllocError` where memory is missing, for a comb alone.
    pub(crate) fn of(alloc: Global, f: Filter) -> Result<Stage, AllocError>
        requires { IsFilter f }
        ensures filter { IfOk result (λ s. filter_of s ≡ f) }
        ensures silent { IfOk result (λ s. memory_of s ≡ silent f) }
        ensures stage { IfOk result IsStage }
        ensures refused { IfErr result (λ _. IsComb f) }
    {
        match f {
            Filter::OnePole(a) => Ok(Stage::Pole {
                a,
                output: Sample::ZERO,
            }),
            Filter::Biquad { b0, b1, b2, a1, a2 } => Ok(Stage::Biquad {
                c: Coefficients { b0, b1, b2, a1, a2 },
                recent: Recent::none(),
            }),
            Filter::Comb { delay, gain } => comb(alloc, delay, gain),
        }
    }

    /// The outputs for these samples.
    pub(crate) fn filter(&mut self, input: &[Sample], out: &mut [Sample])
        requires stage { IsStage self.old }
        requires lengths { length input.now ≡ length out.old }
        ensures filter { filter_of self.new ≡ filter_of self.old }
        ensures stage { IsStage self.new }
        ensures samples { out.new ≡ outputs_after (filter_of self.old) (memory_of self.old) input.now }
        ensures memory { memory_of self.new ≡ memory_after (filter_of self.old) (memory_of self.old) input.now }
    {
        match self {
            Stage::Pole { a, output } => *output = fill_one_pole(*a, *output, input, out),
            Stage::Biquad { c, recent } => *recent = fill_biquad(c, *recent, input, out),
            Stage::Comb { gain, line } => fill_comb(*gain, line, input, out),
        }
    }
    /// The outputs for the samples that a cursor's list has from place `from` on, run by run.
    pub(crate) fn fill(&mut self, reads: &Reads<'_>, c: &Cursor, from: u32, out: &mut [Sample])
        requires stage { IsStage self.old }
        requires ready { CanFilter reads.now c.now from (from + length out.old) }
        ensures filter { filter_of self.new ≡ filter_of self.old }
        ensures stage { IsStage self.new }
        ensures samples { (xs : List ℤ) → Shows reads.now c.now.list xs → out.new ≡ outputs_after (filter_of self.old) (memory_of self.old) (take (length out.old) (drop from xs)) }
        ensures memory { (xs : List ℤ) → Shows reads.now c.now.list xs → memory_of self.new ≡ memory_after (filter_of self.old) (memory_of self.old) (take (length out.old) (drop from xs)) }
    {
        // Places are below 2^32, which is known once it was read how many samples are seen.
        let _seen = c.visible();
        let mut done = 0;
        while done < out.len() {
            let run = reads.run(c, from + done as u32);
            let end = out.len().min(done + run.len());
            self.filter(&run[..end - done], &mut out[done..end]);
            done = end;
        }
    }
}

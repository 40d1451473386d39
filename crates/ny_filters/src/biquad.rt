ghost use Rattle.std.specs.Prelude.{◌≡◌, ◌≤◌, ◌++◌, true, length, take, drop};
ghost use Rattle.ny_num.specs.Filters.{biquad_next, biquad_after};
ghost use Rattle.ny_filters.specs.Kept.{kept_after};
ghost use Rattle.ny_filters.specs.Sizes.{is_small, each_holds};

use crate::recent::{Coefficients, Recent};
use crate::weighing::{is_sample, lifted_units, sample_of};
use crate::width::{Narrow, Wide, Width, are_small};
use ny_num::Sample;

fn run<W: Width>(c: &Coefficients, before: Recent, input: &[Sample], out: &mut [Sample]) -> Recent
    requires holds { each_holds W.holds c.now ≡ true }
    requires lengths { length input.now ≡ length out.old }
    ensures samples { out.new ≡ biquad_after c.now before input.now }
    ensures last { result ≡ kept_after (biquad_next c.now) before input.now }
{
    let mut recent = before;
    for k in 0..out.len() {
        let output = W::weighed(c, &recent, input[k]);
        recent = recent.after(input[k], output);
        out[k] = output;
    }
    recent
}

/// The first outputs of a slice: how many they are, and what is recent then.
#[derive(Clone, Copy)]
struct Begun {
    done: usize,
    recent: Recent,
}

// The first outputs, up to one that is clamped. So the next output waits for no clamp, which few outputs need.
fn run_within(c: &Coefficients, before: Recent, input: &[Sample], out: &mut [Sample]) -> Begun
    requires small { each_holds is_small c.now ≡ true }
    requires lengths { length input.now ≡ length out.old }
    ensures within { result.done ≤ length out.old }
    ensures written { take result.done out.new ++ biquad_after c.now result.recent (drop result.done input.now) ≡ biquad_after c.now before input.now }
    ensures kept { kept_after (biquad_next c.now) result.recent (drop result.done input.now) ≡ kept_after (biquad_next c.now) before input.now }
{
    let mut recent = before;
    for k in 0..out.len() {
        let units = lifted_units(c, &recent, input[k]);
        if !is_sample(units) {
            return Begun { done: k, recent };
        }
        let output = sample_of(units);
        recent = recent.after(input[k], output);
        out[k] = output;
    }
    Begun {
        done: out.len(),
        recent,
    }
}

// The outputs of a filter with small numbers.
fn run_small(c: &Coefficients, before: Recent, input: &[Sample], out: &mut [Sample]) -> Recent
    requires small { each_holds is_small c.now ≡ true }
    requires lengths { length input.now ≡ length out.old }
    ensures samples { out.new ≡ biquad_after c.now before input.now }
    ensures last { result ≡ kept_after (biquad_next c.now) before input.now }
{
    let begun = run_within(c, before, input, out);
    run::<Narrow>(
        c,
        begun.recent,
        &input[begun.done..],
        &mut out[begun.done..],
    )
}

/// The outputs of a biquad filter for these samples, after what is recent. Answers what is recent then.
pub(crate) fn fill_biquad(
    c: &Coefficients,
    before: Recent,
    input: &[Sample],
    out: &mut [Sample],
) -> Recent
    requires { length input.now ≡ length out.old }
    ensures samples { out.new ≡ biquad_after c.now before input.now }
    ensures last { result ≡ kept_after (biquad_next c.now) before input.now }
{
    if are_small(c) {
        run_small(c, before, input, out)
    } else {
        run::<Wide>(c, before, input, out)
    }
}

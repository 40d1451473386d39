ghost use Rattle.std.specs.Prelude.{◌≡◌, ◌≤◌, true, length};
ghost use Rattle.ny_num.specs.Filters.{comb_value, comb_after, delayed};
ghost use Rattle.ny_filters.specs.Kept.{kept_after, comb_next};
ghost use Rattle.circular_buffer.specs.Buffer.{buffer};

use crate::exact::level;
use crate::width::{Narrow, Wide, Width, is_small};
use circular_buffer::HeapCircularBuffer;
use ny_num::{Fix, Sample};

// The output that comes back: as many samples ago as the line is long, and 0 before there is one.
fn coming_back(line: &HeapCircularBuffer<Sample>) -> Sample
    requires { 1 ≤ line.now.capacity }
    ensures { result ≡ delayed line.now.capacity line.now.items }
{
    let oldest = line.get(line.capacity() - 1);
    oldest.copied().unwrap_or(Sample::ZERO)
}

// The next output.
#[tactic(auto, unfolding(ny_num::specs::Filters::comb_value))]
fn next_output<W: Width>(gain: Fix, back: Sample, input: Sample) -> Sample
    requires { W.holds gain ≡ true }
    ensures { result ≡ comb_value gain back input }
{
    W::added(input, gain, level(back))
}

fn run<W: Width>(
    gain: Fix,
    line: &mut HeapCircularBuffer<Sample>,
    input: &[Sample],
    out: &mut [Sample],
)
    requires holds { W.holds gain ≡ true }
    requires some { 1 ≤ line.old.capacity }
    requires lengths { length input.now ≡ length out.old }
    ensures samples { out.new ≡ comb_after line.old.capacity gain line.old.items input.now }
    ensures line { line.new ≡ buffer (kept_after (comb_next line.old.capacity gain) line.old.items input.now) line.old.capacity }
{
    for k in 0..out.len() {
        let output = next_output::<W>(gain, coming_back(line), input[k]);
        line.push_front(output);
        out[k] = output;
    }
}

/// The outputs of a comb for these samples, after those in its line, which is as long as the delay and has the latest
/// output at its front.
pub(crate) fn fill_comb(
    gain: Fix,
    line: &mut HeapCircularBuffer<Sample>,
    input: &[Sample],
    out: &mut [Sample],
)
    requires some { 1 ≤ line.old.capacity }
    requires lengths { length input.now ≡ length out.old }
    ensures samples { out.new ≡ comb_after line.old.capacity gain line.old.items input.now }
    ensures line { line.new ≡ buffer (kept_after (comb_next line.old.capacity gain) line.old.items input.now) line.old.capacity }
{
    if is_small(gain) {
        run::<Narrow>(gain, line, input, out);
    } else {
        run::<Wide>(gain, line, input, out);
    }
}

ghost use Rattle.std.specs.Prelude.{◌≡◌, true, length, pos, ◌-ℤ◌};
ghost use Rattle.ny_num.specs.Filters.{one_pole_value, one_pole_after};
ghost use Rattle.ny_filters.specs.Kept.{kept_after};
ghost use Rattle.ny_filters.specs.Ways.{IsShare, IsLifted, lift};

use crate::exact::difference;
use crate::lifted::{lifted, lowered};
use crate::share::Share;
use crate::width::{Narrow, Wide, Width, is_small};
use ny_num::{Fix, Sample};

// The next output.
#[tactic(auto, unfolding(ny_num::specs::Filters::one_pole_value))]
fn next_output<W: Width>(a: Fix, output: Sample, input: Sample) -> Sample
    requires { W.holds a ≡ true }
    ensures { result ≡ one_pole_value a output input }
{
    W::added(output, a, difference(input, output))
}

fn run<W: Width>(a: Fix, before: Sample, input: &[Sample], out: &mut [Sample]) -> Sample
    requires holds { W.holds a ≡ true }
    requires lengths { length input.now ≡ length out.old }
    ensures samples { out.new ≡ one_pole_after a before input.now }
    ensures last { result ≡ kept_after (one_pole_value a) before input.now }
{
    let mut output = before;
    for k in 0..out.len() {
        output = next_output::<W>(a, output, input[k]);
        out[k] = output;
    }
    output
}

// The next output, lifted, towards which this share of the way leads. It lies between the last one and the input.
fn next_lifted(share: &Share, output: u64, input: Sample) -> u64
    requires share { IsShare share.now }
    requires output { IsLifted output }
    ensures value { pos result -ℤ lift ≡ one_pole_value (pos share.now.micro) (pos output -ℤ lift) input }
    ensures within { IsLifted result }
{
    share.towards(output, lifted(input))
}

// The same where each output lies between the last one and the input, so that none is clamped.
fn run_within(share: &Share, before: Sample, input: &[Sample], out: &mut [Sample]) -> Sample
    requires share { IsShare share.now }
    requires lengths { length input.now ≡ length out.old }
    ensures samples { out.new ≡ one_pole_after (pos share.now.micro) before input.now }
    ensures last { result ≡ kept_after (one_pole_value (pos share.now.micro)) before input.now }
{
    let mut output = lifted(before);
    for k in 0..out.len() {
        output = next_lifted(share, output, input[k]);
        out[k] = lowered(output);
    }
    lowered(output)
}

/// The outputs of one pole for these samples, after the output `before`. Answers the last output.
pub(crate) fn fill_one_pole(a: Fix, before: Sample, input: &[Sample], out: &mut [Sample]) -> Sample
    requires { length input.now ≡ length out.old }
    ensures samples { out.new ≡ one_pole_after a before input.now }
    ensures last { result ≡ kept_after (one_pole_value a) before input.now }
{
    let micro = a.micro();
    if 0 <= micro && micro < 1_000_000 {
        run_within(&Share::of(micro as u64), before, input, out)
    } else if is_small(a) {
        run::<Narrow>(a, before, input, out)
    } else {
        run::<Wide>(a, before, input, out)
    }
}

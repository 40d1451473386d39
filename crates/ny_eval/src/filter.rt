//! The units of effects: a sound without signs, and filtered.

ghost use Rattle.std.specs.Prelude.{◌≡◌};
ghost use Rattle.ny_num.specs.Filters.{comb_delay};
ghost use Rattle.ny_eval.specs.Shapes.{make_of};

use ny_check::Effect;
use ny_check::operations::number_at;
use ny_heap::{Filter, Make};
use ny_num::{Fix, Rate, index, ticks_of};

/// How many samples a delay in seconds lasts at a rate: at least 1, at most 65,536.
#[tactic(auto, unfolding(ny_num::specs::Filters::comb_delay))]
fn comb_delay(rate: Rate, delay: Fix) -> u32
    ensures value { result ≡ comb_delay rate delay }
{
    index(ticks_of(delay), rate).clamp(1, 65_536)
}

/// The unit that computes an effect of these numbers, of a sound of this rate: a row for each.
pub(crate) fn make_of(effect: Effect, numbers: &[Fix], rate: Rate) -> Make
    ensures { result ≡ make_of effect numbers.now rate }
{
    match effect {
        Effect::Abs => Make::Abs,
        Effect::OnePole => Make::Filter(Filter::OnePole(number_at(numbers, 0))),
        Effect::Biquad => Make::Filter(Filter::Biquad {
            b0: number_at(numbers, 0),
            b1: number_at(numbers, 1),
            b2: number_at(numbers, 2),
            a1: number_at(numbers, 3),
            a2: number_at(numbers, 4),
        }),
        Effect::Comb => Make::Filter(Filter::Comb {
            delay: comb_delay(rate, number_at(numbers, 0)),
            gain: number_at(numbers, 1),
        }),
    }
}

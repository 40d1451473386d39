//! When sounds are heard that are made of others, each by its own rule.

ghost use Rattle.std.specs.Prelude.{◌≡◌, ◌≤◌, min, max};
ghost use Rattle.std.specs.List.{All};
ghost use Rattle.ny_num.specs.Grid.{last_index};
ghost use Rattle.ny_num.specs.Sound.{IsTiming, spanning, cut_len, placed_timing, cued_timing, sum_timing};
ghost use Rattle.ny_num.specs.Leaves.{leaf_timing};
ghost use Rattle.ny_num.specs.Pointwise.{product_timing};
ghost use Rattle.ny_num.specs.Resampling.{index_between, is_same_rate, other_rate_timing, resampled_timing};
ghost use Rattle.ny_num.specs.Mix.{least_start, greatest_end, greatest_stop, mix_timing, channel_timing};
ghost use Rattle.ny_check.specs.Families.{pair_timing};
ghost use Rattle.ny_timing.specs.Timings.{IsTimingAt};

use ny_check::Op;
use ny_num::{Rate, Ticks, Timing, index, tick_of_index};

/// The index of the horizon.
fn last_index(rate: Rate) -> u32
    ensures { result ≡ last_index rate }
{
    3600 * rate.hz()
}

fn later(a: Ticks, b: Ticks) -> Ticks
    ensures { result ≡ max a b }
{
    if a.get() < b.get() { b } else { a }
}

fn earlier(a: Ticks, b: Ticks) -> Ticks
    ensures { result ≡ min a b }
{
    if a.get() < b.get() { a } else { b }
}

/// From the index `start` to the index `end`, both at most the horizon's, with the stop raised to the
/// start where it lies before.
#[tactic(auto, unfolding(ny_num::specs::Sound::spanning))]
pub fn spanning(rate: Rate, start: u32, end: u32, stop: Ticks) -> Timing
    requires start { start ≤ last_index rate }
    requires end { end ≤ last_index rate }
    ensures value { result ≡ spanning rate start end stop }
    ensures rate { result.rate ≡ rate }
    ensures bounds { IsTiming result }
{
    let _stop = stop.get();
    Timing {
        rate,
        start,
        len: end.saturating_sub(start),
        stop: later(stop, tick_of_index(start, rate)),
    }
}

/// When a leaf is heard that begins and ends at these times.
#[tactic(auto, unfolding(ny_num::specs::Leaves::leaf_timing))]
pub fn leaf_timing(rate: Rate, begins: Ticks, ends: Ticks, stop: Ticks) -> Timing
    ensures value { result ≡ leaf_timing rate begins ends stop }
    ensures bounds { IsTiming result }
{
    spanning(rate, index(begins, rate), index(ends, rate), stop)
}

/// The first index of the rate `to` that is no earlier than the index `m` of the rate `from`.
#[tactic(auto, unfolding(ny_num::specs::Resampling::index_between))]
fn index_between(from: Rate, to: Rate, m: u32) -> u32
    requires { m ≤ last_index from }
    ensures value { result ≡ index_between from to m }
    ensures within { result ≤ last_index to }
{
    (u64::from(m) * from.grid()).div_ceil(to.grid()) as u32
}

fn is_same_rate(a: Rate, b: Rate) -> bool
    ensures { result ≡ is_same_rate a b }
{
    a.hz() == b.hz()
}

/// When a sound is heard at another rate.
#[tactic(auto, unfolding(ny_num::specs::Resampling::other_rate_timing))]
fn other_rate_timing(to: Rate, t: &Timing) -> Timing
    requires { IsTiming t.now }
    ensures value { result ≡ other_rate_timing to t.now }
    ensures rate { result.rate ≡ to }
    ensures bounds { IsTiming result }
{
    let start = index_between(t.rate, to, t.start);
    let end = index_between(t.rate, to, t.start + t.len);
    spanning(to, start, end, t.stop)
}

/// When a sound is heard once it was brought to a rate.
#[tactic(auto, using(crate::proofs::SameRates::by_hz), unfolding(ny_num::specs::Resampling::resampled_timing))]
pub fn resampled_timing(to: Rate, t: &Timing) -> Timing
    requires { IsTiming t.now }
    ensures value { result ≡ resampled_timing to t.now }
    ensures rate { result.rate ≡ to }
    ensures bounds { IsTiming result }
{
    if is_same_rate(t.rate, to) {
        *t
    } else {
        other_rate_timing(to, t)
    }
}

/// What is left of a length from a start on, before the horizon.
#[tactic(auto, unfolding(ny_num::specs::Sound::cut_len))]
fn cut_len(rate: Rate, start: u32, len: u32) -> u32
    ensures { result ≡ cut_len rate start len }
{
    len.min(last_index(rate).saturating_sub(start))
}

/// When a sound is heard once it was placed at an index, at most the horizon's.
#[tactic(auto, unfolding(ny_num::specs::Sound::placed_timing, ny_num::specs::Sound::cut_len))]
pub fn placed_timing(place: u32, t: &Timing) -> Timing
    requires place { place ≤ last_index t.now.rate }
    requires bounds { IsTiming t.now }
    ensures value { result ≡ placed_timing place t.now }
    ensures rate { result.rate ≡ t.now.rate }
    ensures bounds { IsTiming result }
{
    let start = t.start.max(place);
    let _stop = t.stop.get();
    Timing {
        rate: t.rate,
        start,
        len: cut_len(t.rate, start, t.len),
        stop: later(t.stop, tick_of_index(start, t.rate)),
    }
}

/// When a sound is heard that many samples later, at most an hour.
#[tactic(auto, unfolding(ny_num::specs::Sound::cued_timing, ny_num::specs::Sound::cut_len, ny_num::specs::Grid::tick_at))]
pub fn cued_timing(count: u32, t: &Timing) -> Timing
    requires count { count ≤ last_index t.now.rate }
    requires bounds { IsTiming t.now }
    ensures value { result ≡ cued_timing count t.now }
    ensures rate { result.rate ≡ t.now.rate }
    ensures bounds { IsTiming result }
{
    let start = (t.start + count).min(last_index(t.rate));
    let stop = t.stop.get() + tick_of_index(count, t.rate).get();
    Timing {
        rate: t.rate,
        start,
        len: cut_len(t.rate, start, t.len),
        stop: Ticks::of(stop),
    }
}

/// When the sum of two sounds of one rate is heard, or their difference, greatest or least value.
#[tactic(auto, unfolding(ny_num::specs::Sound::sum_timing))]
pub fn sum_timing(a: &Timing, b: &Timing) -> Timing
    requires rate { a.now.rate ≡ b.now.rate }
    requires a_bounds { IsTiming a.now }
    requires b_bounds { IsTiming b.now }
    ensures value { result ≡ sum_timing a.now b.now }
    ensures bounds { IsTiming result }
{
    let end = (a.start + a.len).max(b.start + b.len);
    spanning(a.rate, a.start.min(b.start), end, later(a.stop, b.stop))
}

/// When the product of two sounds of one rate is heard.
#[tactic(auto, unfolding(ny_num::specs::Pointwise::product_timing))]
pub fn product_timing(a: &Timing, b: &Timing) -> Timing
    requires rate { a.now.rate ≡ b.now.rate }
    requires a_bounds { IsTiming a.now }
    requires b_bounds { IsTiming b.now }
    ensures value { result ≡ product_timing a.now b.now }
    ensures bounds { IsTiming result }
{
    let end = (a.start + a.len).min(b.start + b.len);
    spanning(a.rate, a.start.min(b.start), end, earlier(a.stop, b.stop))
}

/// When two sounds of one rate are heard together by an operation.
pub fn pair_timing(op: Op, a: &Timing, b: &Timing) -> Timing
    requires rate { a.now.rate ≡ b.now.rate }
    requires a_bounds { IsTiming a.now }
    requires b_bounds { IsTiming b.now }
    ensures value { result ≡ pair_timing op a.now b.now }
    ensures bounds { IsTiming result }
{
    match op {
        Op::Add | Op::Sub | Op::Max | Op::Min => sum_timing(a, b),
        Op::Mul => product_timing(a, b),
    }
}

/// When a mix is heard, of parts that have its rate.
#[tactic(auto, unfolding(ny_num::specs::Mix::mix_timing))]
pub fn mix_timing(rate: Rate, parts: &[Timing]) -> Timing
    requires { All (IsTimingAt rate) parts.now }
    ensures value { result ≡ mix_timing rate parts.now }
    ensures bounds { IsTiming result }
{
    if parts.is_empty() {
        return spanning(rate, 0, 0, Ticks::of(0));
    }
    let mut start = parts[0].start;
    let mut end = 0;
    let mut stop = Ticks::of(0);
    for part in parts {
        start = start.min(part.start);
        end = end.max((part.start + part.len).max(index(part.stop, rate)));
        stop = later(stop, part.stop);
    }
    spanning(rate, start, end, stop)
}

/// When the channel of a sound is heard.
#[tactic(auto, unfolding(ny_num::specs::Mix::channel_timing))]
pub fn channel_timing(t: &Timing) -> Timing
    requires { IsTiming t.now }
    ensures value { result ≡ channel_timing t.now }
    ensures bounds { IsTiming result }
{
    spanning(t.rate, 0, t.start + t.len, t.stop)
}

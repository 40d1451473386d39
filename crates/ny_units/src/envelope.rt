ghost use Rattle.std.specs.Prelude.{◌≡◌, ◌↔◌, IsTrue, ℕ, ◌+◌, ◌-◌, ◌^◌, ◌<◌, ◌≤◌, length, map, drop};
ghost use Rattle.std.specs.List.{range_with_len};
ghost use Rattle.ny_num.specs.Leaves.{envelope_value, on_line};
ghost use Rattle.ny_units.specs.Lines.{line_value};
ghost use Rattle.ny_units.specs.Envelopes.{corner, corners, corner_at, last_place, StandsAt};

use crate::leaves::Knot;
use crate::line::fill_line;
use ny_num::Sample;

// Whether the knot after this one is reached at place `n`.
fn is_passed(knots: &[Knot], segment: usize, n: u64) -> bool
    requires { segment < length knots.now }
    ensures { IsTrue result ↔ ((segment + 1 < length knots.now) × ((corner_at (corners knots.now) (segment + 1)).0 ≤ n)) }
{
    segment + 1 < knots.len() && u64::from(knots[segment + 1].t) <= n
}

// The knot that the envelope stands at once it has gone on to place `n`.
fn reached(knots: &[Knot], segment: usize, n: u64) -> usize
    requires { StandsAt (corners knots.now) segment n }
    ensures stands { StandsAt (corners knots.now) result n }
    ensures next { result + 1 < length knots.now → n < (corner_at (corners knots.now) (result + 1)).0 }
{
    let mut at = segment;
    while is_passed(knots, at, n) {
        at += 1;
    }
    at
}

// The line from one knot to a later one, from place `n` on.
fn fill_between(from: Knot, to: Knot, n: u64, out: &mut [Sample])
    requires begun { from.t ≤ n }
    requires within { n + length out.old ≤ to.t }
    ensures { out.new ≡ map (on_line (corner from) (corner to)) (range_with_len n (length out.old)) }
{
    if out.is_empty() {
        return;
    }
    let level = i64::from(from.level.micro());
    let rise = i64::from(to.level.micro()) - level;
    let width = u64::from(to.t) - u64::from(from.t);
    fill_line(level, rise, width, n - u64::from(from.t), out);
}

/// An envelope over its knots, from place `n` on, and where it stands there. Answers where it
/// stands after the last sample.
pub(crate) fn fill_envelope(knots: &[Knot], segment: usize, from: u64, out: &mut [Sample]) -> usize
    requires stands { StandsAt (corners knots.now) segment from }
    requires within { from + length out.old ≤ last_place (corners knots.now) }
    requires short { from + length out.old < 2 ^ 64 }
    ensures stands { StandsAt (corners knots.now) result (from + length out.old) }
    ensures samples { out.new ≡ map (envelope_value (corners knots.now)) (range_with_len from (length out.old)) }
{
    let mut at = segment;
    let mut done = 0;
    while done < out.len() {
        let n = from + done as u64;
        at = reached(knots, at, n);
        let next = knots[at + 1];
        let end = out.len().min((u64::from(next.t) - from) as usize);
        fill_between(knots[at], next, n, &mut out[done..end]);
        done = end;
    }
    at
}

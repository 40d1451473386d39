ghost use Rattle.std.specs.Prelude.{◌≡◌, ◌+◌, ◌-◌, ◌^◌, ◌<◌, ◌≤◌, pos, neg_ℤ, ◌+ℤ◌, ◌*ℤ◌, ◌≤ℤ◌, length, map};
ghost use Rattle.std.specs.List.{range_with_len};
ghost use Rattle.ny_num.specs.Numbers.{IsSample, floor_div};
ghost use Rattle.std.specs.Int.{int_rem_euclid};
ghost use Rattle.ny_units.specs.Lines.{line_value, IsRisen, IsSlope, IsPart};

use ny_num::Sample;

/// How far a line has risen: whole millionths, and `rest` parts of one, of which `width` make a
/// whole.
#[derive(Clone, Copy)]
struct Risen {
    whole: i64,
    rest: u64,
}

// The exact product, which 64 bits cannot hold.
fn product(rise: i64, place: u64) -> i128
    ensures { result ≡ rise *ℤ pos place }
{
    i128::from(rise) * i128::from(place)
}

// The whole part of a quotient that is rounded down.
fn whole_part(product: i128, width: u64) -> i64
    requires some { 0 < width }
    requires low { neg_ℤ (pos (2 ^ 32)) ≤ℤ floor_div product (pos width) }
    requires high { floor_div product (pos width) ≤ℤ pos (2 ^ 32) }
    ensures { result ≡ floor_div product (pos width) }
{
    product.div_euclid(i128::from(width)) as i64
}

// What the quotient leaves over.
fn rest_part(product: i128, width: u64) -> u64
    requires some { 0 < width }
    ensures value { int_rem_euclid product (pos width) ≡ pos result }
    ensures part { result < width }
{
    product.rem_euclid(i128::from(width)) as u64
}

// How far a line has risen at a place that rises by `rise` over `width` places.
fn risen_to(rise: i64, width: u64, place: u64) -> Risen
    requires { IsSlope rise width place }
    ensures { IsRisen rise width place result }
{
    let product = product(rise, place);
    Risen {
        whole: whole_part(product, width),
        rest: rest_part(product, width),
    }
}

// How far a line has risen one place on from here; `step` is how far it rises in one.
fn risen_further(here: Risen, step: Risen, width: u64) -> Risen
    requires short { width < 2 ^ 33 }
    requires here { IsPart here width }
    requires step { IsPart step width }
    ensures kept { here.rest + step.rest < width → (result.whole ≡ here.whole +ℤ step.whole) × (result.rest ≡ here.rest + step.rest) }
    ensures carried { width ≤ here.rest + step.rest → (result.whole ≡ here.whole +ℤ step.whole +ℤ pos 1) × (result.rest ≡ here.rest + step.rest - width) }
{
    let whole = here.whole + step.whole;
    let rest = here.rest + step.rest;
    if rest < width {
        Risen { whole, rest }
    } else {
        Risen {
            whole: whole + 1,
            rest: rest - width,
        }
    }
}

/// The line that starts at `level` and rises by `rise` over `width` places, rounded down, from a
/// place on. It is divided twice in all: from place to place it rises by the same whole number,
/// and by one more where the parts that are left over have filled a whole.
pub(crate) fn fill_line(level: i64, rise: i64, width: u64, place: u64, out: &mut [Sample])
    requires level { IsSample level }
    requires slope { IsSlope rise width (place + length out.old) }
    ensures { out.new ≡ map (line_value level rise width) (range_with_len place (length out.old)) }
{
    if out.is_empty() {
        return;
    }
    let step = risen_to(rise, width, 1);
    let mut here = risen_to(rise, width, place);
    for k in 0..out.len() {
        out[k] = Sample::of(level + here.whole);
        here = risen_further(here, step, width);
    }
}

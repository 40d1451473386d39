ghost use Rattle.std.specs.Prelude.{◌≡◌, pos, length, map, slice_index_or};
ghost use Rattle.std.specs.List.{range_with_len};
ghost use Rattle.ny_num.specs.Numbers.{sample_abs};
ghost use Rattle.ny_kernels.specs.Sides.{combined, side_at, CanCombine};

use crate::operation::{Difference, Greater, Op, Operation, Product, Smaller, Sum};
use ny_num::Sample;

/// What stands on one side of an operation: samples, or the same value at each place.
#[derive(Clone, Copy, Debug)]
pub enum Side<'a> {
    List(&'a [Sample]),
    Number(Sample),
    Zero,
}

fn both_lists<O: Operation>(a: &[Sample], b: &[Sample], out: &mut [Sample])
    requires left { length a.now ≡ length out.old }
    requires right { length b.now ≡ length out.old }
    ensures { out.new ≡ map (λ n. O.gives (slice_index_or a.now n (pos 0)) (slice_index_or b.now n (pos 0))) (range_with_len 0 (length out.old)) }
{
    for n in 0..out.len() {
        out[n] = O::apply(a[n], b[n]);
    }
}

fn with_number<O: Operation>(a: &[Sample], b: Sample, out: &mut [Sample])
    requires { length a.now ≡ length out.old }
    ensures { out.new ≡ map (λ n. O.gives (slice_index_or a.now n (pos 0)) b) (range_with_len 0 (length out.old)) }
{
    for n in 0..out.len() {
        out[n] = O::apply(a[n], b);
    }
}

fn number_with<O: Operation>(a: Sample, b: &[Sample], out: &mut [Sample])
    requires { length b.now ≡ length out.old }
    ensures { out.new ≡ map (λ n. O.gives a (slice_index_or b.now n (pos 0))) (range_with_len 0 (length out.old)) }
{
    for n in 0..out.len() {
        out[n] = O::apply(a, b[n]);
    }
}

fn lists(op: Op, a: &[Sample], b: &[Sample], out: &mut [Sample])
    requires left { length a.now ≡ length out.old }
    requires right { length b.now ≡ length out.old }
    ensures { out.new ≡ combined op (λ n. slice_index_or a.now n (pos 0)) (λ n. slice_index_or b.now n (pos 0)) (length out.old) }
{
    match op {
        Op::Add => both_lists::<Sum>(a, b, out),
        Op::Sub => both_lists::<Difference>(a, b, out),
        Op::Mul => both_lists::<Product>(a, b, out),
        Op::Max => both_lists::<Greater>(a, b, out),
        Op::Min => both_lists::<Smaller>(a, b, out),
    }
}

fn list_and_number(op: Op, a: &[Sample], b: Sample, out: &mut [Sample])
    requires { length a.now ≡ length out.old }
    ensures { out.new ≡ combined op (λ n. slice_index_or a.now n (pos 0)) (λ n. b) (length out.old) }
{
    match op {
        Op::Add => with_number::<Sum>(a, b, out),
        Op::Sub => with_number::<Difference>(a, b, out),
        Op::Mul => with_number::<Product>(a, b, out),
        Op::Max => with_number::<Greater>(a, b, out),
        Op::Min => with_number::<Smaller>(a, b, out),
    }
}

fn number_and_list(op: Op, a: Sample, b: &[Sample], out: &mut [Sample])
    requires { length b.now ≡ length out.old }
    ensures { out.new ≡ combined op (λ n. a) (λ n. slice_index_or b.now n (pos 0)) (length out.old) }
{
    match op {
        Op::Add => number_with::<Sum>(a, b, out),
        Op::Sub => number_with::<Difference>(a, b, out),
        Op::Mul => number_with::<Product>(a, b, out),
        Op::Max => number_with::<Greater>(a, b, out),
        Op::Min => number_with::<Smaller>(a, b, out),
    }
}

/// The operation on what two sides have at each place of `out` (`docs/DEFINITIONS.md`, "Operations
/// on blocks"). The two sides are samples and samples, samples and a number, a number and samples,
/// or zero and samples, and the samples are as many as the places of `out`.
pub fn binary(op: Op, a: Side<'_>, b: Side<'_>, out: &mut [Sample])
    requires { CanCombine a b (length out.old) }
    ensures { out.new ≡ combined op (side_at a.entry) (side_at b.entry) (length out.old) }
{
    match a {
        Side::List(left) => match b {
            Side::List(right) => lists(op, left, right, out),
            Side::Number(right) => list_and_number(op, left, right, out),
            Side::Zero => unreachable!(),
        },
        Side::Number(left) => match b {
            Side::List(right) => number_and_list(op, left, right, out),
            _ => unreachable!(),
        },
        Side::Zero => match b {
            Side::List(right) => number_and_list(op, Sample::ZERO, right, out),
            _ => unreachable!(),
        },
    }
}

/// Each sample without its sign; `out` has as many places.
pub fn absolute(a: &[Sample], out: &mut [Sample])
    requires { length a.now ≡ length out.old }
    ensures { out.new ≡ map sample_abs a.now }
{
    for n in 0..out.len() {
        out[n] = a[n].abs();
    }
}

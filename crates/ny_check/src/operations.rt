//! What operators make of scalars: of a sound, or of the wrong kind, they make no number and no
//! test (`docs/DEFINITIONS.md`, "Values").

ghost use Rattle.std.specs.Prelude.{◌≡◌, pos, ◌<ℤ◌};
ghost use Rattle.ny_num.specs.Numbers.{fix_div, fix_neg};
ghost use Rattle.ny_check.specs.Families.{fix_operation, number_at};
ghost use Rattle.ny_check.specs.Values.{of_numbers, of_number, compared, of_tests, denied, both, either, is_true, number_in, passed, holds_between};

use crate::value::Scalar;
use ny_kernels::Op;
use ny_num::Fix;
use ny_resolve::Relation;

/// What an operation makes of two numbers.
fn operated(op: Op, a: Fix, b: Fix) -> Fix
    ensures { result ≡ fix_operation op a b }
{
    match op {
        Op::Add => a.add(b),
        Op::Sub => a.sub(b),
        Op::Mul => a.mul(b),
        Op::Max => Fix::of(a.micro().max(b.micro())),
        Op::Min => Fix::of(a.micro().min(b.micro())),
    }
}

/// What an operation makes of two numbers.
pub fn combined(op: Op, a: Scalar, b: Scalar) -> Scalar
    ensures { result ≡ of_numbers (fix_operation op) a b }
{
    match a {
        Scalar::Number(a) => match b {
            Scalar::Number(b) => Scalar::Number(operated(op, a, b)),
            _ => Scalar::Sound,
        },
        _ => Scalar::Sound,
    }
}

/// A number by a divisor above 0.
pub fn quotient(a: Scalar, by: Fix) -> Scalar
    requires { pos 0 <ℤ by }
    ensures { result ≡ of_number (λ x. fix_div x by) a }
{
    match a {
        Scalar::Number(a) => Scalar::Number(a.div(by)),
        _ => Scalar::Sound,
    }
}

/// A number with the other sign.
pub fn negated(a: Scalar) -> Scalar
    ensures { result ≡ of_number fix_neg a }
{
    match a {
        Scalar::Number(a) => Scalar::Number(a.neg()),
        _ => Scalar::Sound,
    }
}

fn holds_between(relation: Relation, a: i64, b: i64) -> bool
    ensures { result ≡ holds_between relation a b }
{
    match relation {
        Relation::Eq => !(a < b) && !(b < a),
        Relation::Ne => a < b || b < a,
        Relation::Lt => a < b,
        Relation::Gt => b < a,
        Relation::Le => !(b < a),
        Relation::Ge => !(a < b),
    }
}

/// Whether two numbers stand in a relation.
pub fn compare(relation: Relation, a: Scalar, b: Scalar) -> Scalar
    ensures { result ≡ compared relation a b }
{
    match a {
        Scalar::Number(a) => match b {
            Scalar::Number(b) => Scalar::Test(holds_between(relation, a.micro(), b.micro())),
            _ => Scalar::Sound,
        },
        _ => Scalar::Sound,
    }
}

/// Whether both tests hold.
pub fn and(a: Scalar, b: Scalar) -> Scalar
    ensures { result ≡ of_tests both a b }
{
    match a {
        Scalar::Test(a) => match b {
            Scalar::Test(b) => Scalar::Test(a && b),
            _ => Scalar::Sound,
        },
        _ => Scalar::Sound,
    }
}

/// Whether a test or the other holds.
pub fn or(a: Scalar, b: Scalar) -> Scalar
    ensures { result ≡ of_tests either a b }
{
    match a {
        Scalar::Test(a) => match b {
            Scalar::Test(b) => Scalar::Test(a || b),
            _ => Scalar::Sound,
        },
        _ => Scalar::Sound,
    }
}

/// Whether a test does not hold.
pub fn not(a: Scalar) -> Scalar
    ensures { result ≡ denied a }
{
    match a {
        Scalar::Test(a) => Scalar::Test(!a),
        _ => Scalar::Sound,
    }
}

/// Whether a test holds; what is no test does not.
pub fn holds(scalar: Scalar) -> bool
    ensures { result ≡ is_true scalar }
{
    match scalar {
        Scalar::Test(holds) => holds,
        _ => false,
    }
}

/// What a name can stand for.
pub fn passed(scalar: Scalar) -> Scalar
    ensures { result ≡ passed scalar }
{
    match scalar {
        Scalar::Number(v) => Scalar::Number(v),
        _ => Scalar::Sound,
    }
}

/// The number; 0 of what is none.
pub fn number_in(scalar: Scalar) -> Fix
    ensures { result ≡ number_in scalar }
{
    match scalar {
        Scalar::Number(v) => v,
        _ => Fix::of(0),
    }
}

/// The number of an operator at a place among its numbers; 0 where it has none.
pub fn number_at(numbers: &[Fix], k: usize) -> Fix
    ensures { result ≡ number_at numbers.now k }
{
    if k < numbers.len() {
        numbers[k]
    } else {
        Fix::of(0)
    }
}

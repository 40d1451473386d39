ghost use Rattle.std.specs.Prelude.{◌≡◌, IfOk, None, map, is_some, not, nat_eq};
ghost use Rattle.ny_resolve.specs.Literals.{literal_in, bare_in, is_mapped, literals_in, all_literals, is_count, count_in, count_of_shape, rate_at, rate_of_shape, rises, is_map_of, is_good_map, map_literals, value_of_shape, is_zero};
ghost use Rattle.ny_resolve.specs.Reading.{reading, shape_of};

use crate::builtin::is_map;
use crate::word::Word;
use ny_num::{Fix, Rate, ticks_of};
use ny_syntax::{Expr, Form};
use sqlite_items::Items;
use std::alloc::{AllocError, Global};

const HOUR: i64 = 3_600_000_000;

// in millionths of samples a second
const GREATEST_RATE: u64 = 48_000_000_000;

/// The literal that an expression is.
pub(crate) fn literal(e: &Expr) -> Option<Fix>
    ensures { result ≡ literal_in (reading e.now).shape }
{
    match &e.form {
        Form::Number(v) => Some(*v),
        _ => None,
    }
}

/// The bare name that an expression is.
pub(crate) fn bare<'t>(e: &'t Expr) -> Option<Word<'t>>
    ensures { result ≡ bare_in (reading e.now).shape }
{
    match &e.form {
        Form::Name(x) => Some(Word::of(x)),
        _ => None,
    }
}

/// Whether an expression is a call of `map`.
pub(crate) fn is_mapped(e: &Expr) -> bool
    ensures { result ≡ is_mapped (reading e.now).shape }
{
    match &e.form {
        Form::Call(x, _) => is_map(x.bytes.as_slice()),
        _ => false,
    }
}

/// The literals that expressions are, where all are.
fn all_literals(alloc: Global, parts: &[Expr]) -> Result<Option<Items<Fix>>, AllocError>
    ensures { IfOk result (λ all. all ≡ all_literals (map shape_of (map reading parts.now))) }
{
    let mut all = Items::new(alloc);
    for part in parts {
        match literal(part) {
            Some(v) => all.push(v)?,
            None => return Ok(None),
        }
    }
    Ok(Some(all))
}

/// The literals of a map, where an expression is a call of `map` with literals alone.
fn mapped_literals(alloc: Global, e: &Expr) -> Result<Option<Items<Fix>>, AllocError>
    ensures { IfOk result (λ all. all ≡ literals_in (reading e.now).shape) }
{
    match &e.form {
        Form::Call(x, parts) => {
            if is_map(x.bytes.as_slice()) {
                all_literals(alloc, parts.as_slice())
            } else {
                Ok(None)
            }
        }
        _ => Ok(None),
    }
}

fn count_in(v: Fix) -> u32
    ensures { result ≡ count_in v }
{
    let micro = v.micro().max(0) as u64;
    let whole = micro / 1_000_000;
    if micro % 1_000_000 == 0 && 1 <= whole && whole <= 100_000 {
        whole as u32
    } else {
        0
    }
}

/// The count that an expression is, or 0 where it is none.
pub(crate) fn count(e: &Expr) -> u32
    ensures { result ≡ count_of_shape (reading e.now).shape }
{
    match literal(e) {
        Some(v) => count_in(v),
        None => 0,
    }
}

/// The rate of so many millionths of samples a second.
#[tactic(auto, using(crate::proofs::Rates::rate_laws))]
fn rate_at(micro: u64) -> Option<Rate>
    ensures { result ≡ rate_at micro }
{
    if micro % 1_000_000 != 0 || GREATEST_RATE < micro {
        return None;
    }
    Rate::of((micro / 1_000_000) as u32)
}

/// The rate of the table that an expression is.
pub(crate) fn rate(e: &Expr) -> Option<Rate>
    ensures { result ≡ rate_of_shape (reading e.now).shape }
{
    match literal(e) {
        Some(v) => rate_at(v.micro().max(0) as u64),
        None => None,
    }
}

/// Whether pairs rise in both numbers and stay within an hour.
fn rises(numbers: &[Fix]) -> bool
    ensures { result ≡ rises 0 0 numbers.now }
{
    let mut x = 0;
    let mut y = 0;
    for v in numbers {
        let tick = ticks_of(*v).get();
        if HOUR < v.micro() || tick <= x {
            return false;
        }
        x = y;
        y = tick;
    }
    true
}

fn is_map_of(numbers: &[Fix]) -> bool
    ensures { result ≡ is_map_of numbers.now }
{
    numbers.len() % 2 == 0 && 0 < numbers.len() && rises(numbers)
}

/// Whether an expression is a good map.
pub(crate) fn is_good_map(alloc: Global, e: &Expr) -> Result<bool, AllocError>
    ensures { IfOk result (λ good. good ≡ is_good_map (reading e.now).shape) }
{
    match mapped_literals(alloc, e)? {
        Some(numbers) => Ok(is_map_of(numbers.as_slice())),
        None => Ok(false),
    }
}

/// The literals of a map.
pub(crate) fn map_literals(alloc: Global, e: &Expr) -> Result<Items<Fix>, AllocError>
    ensures { IfOk result (λ all. all ≡ map_literals (reading e.now).shape) }
{
    match mapped_literals(alloc, e)? {
        Some(numbers) => Ok(numbers),
        None => Ok(Items::new(alloc)),
    }
}

/// The literal that an expression is, or 0.
pub(crate) fn value(e: &Expr) -> Fix
    ensures { result ≡ value_of_shape (reading e.now).shape }
{
    match literal(e) {
        Some(v) => v,
        None => Fix::of(0),
    }
}

pub(crate) fn is_zero(v: Fix) -> bool
    ensures { result ≡ is_zero v }
{
    v.micro() == 0
}

ghost use Rattle.std.specs.Prelude.{◌≡◌, ◌≤◌, ◌+◌, length, IfOk, map, nat_eq, ◌&&◌, true};
ghost use Rattle.ny_syntax.specs.Sizes.{total};
ghost use Rattle.ny_resolve.specs.Sizes.{size_of_part, size_of_term};
ghost use Rattle.ny_resolve.specs.Builtins.{arity_of, fits};
ghost use Rattle.ny_resolve.specs.Faults.{earliest_after};
ghost use Rattle.ny_resolve.specs.Literals.{bare_in};
ghost use Rattle.ny_resolve.specs.Reading.{reading, is_vector, call_faults, argument_faults, is_counter, is_warp_map, is_repeat, is_warp, first_counter, first_place, first_rate, first_map, second_count, last_part, no_part, repeat_term, rate_or, builtin_term, function_term, global_term};

use crate::builtin::{Builtin, Operator, Order, takes};
use crate::fault::{CheckWhy, Fault, noted_if};
use crate::literals::{bare, count, is_good_map, is_mapped, map_literals, rate};
use crate::names::Called;
use crate::term::{NameId, Part, Term};
use crate::word::Word;
use ny_num::{Fix, Rate};
use ny_syntax::Expr;
use sqlite_items::{Boxed, Items};
use std::alloc::{AllocError, Global};

/// What stands in the place of an expression that is not read.
#[tactic(auto, using(crate::proofs::PartSizes::term_sizes))]
pub(crate) fn no_part(at: u32) -> Part
    ensures part { result ≡ no_part at }
    ensures size { size_of_part result ≡ 1 }
{
    Part {
        at,
        term: Term::Number(Fix::of(0)),
    }
}

fn is_repeat(builtin: Builtin) -> bool
    ensures { result ≡ is_repeat builtin }
{
    matches!(builtin, Builtin::Repeat(_))
}

fn is_warp(builtin: Builtin) -> bool
    ensures { result ≡ is_warp builtin }
{
    matches!(builtin, Builtin::Warp)
}

fn is_vector(builtin: Builtin) -> bool
    ensures { result ≡ is_vector builtin }
{
    match builtin {
        Builtin::Apply(Operator::Vector) => true,
        _ => false,
    }
}

/// The first fault, where a built-in is called with so many arguments.
#[tactic(auto, using(crate::proofs::Earliest::told))]
pub(crate) fn call_noted(
    at: u32,
    builtin: Builtin,
    arguments: usize,
    first: Option<Fault>,
) -> Option<Fault>
    ensures { result ≡ earliest_after first (call_faults at builtin arguments) }
{
    let wrong = !takes(builtin, arguments);
    let first = noted_if(wrong, CheckWhy::Arity, at, first);
    noted_if(
        is_vector(builtin) && 8 < arguments,
        CheckWhy::TooManyChannels,
        at,
        first,
    )
}

/// Whether argument `j` is a name that a repeat binds.
pub(crate) fn is_counter(builtin: Builtin, j: usize, e: &Expr) -> bool
    ensures { result ≡ is_counter builtin j (reading e.now).shape }
{
    j == 0 && is_repeat(builtin) && bare(e).is_some()
}

/// Whether argument `j` is the map of a warp.
pub(crate) fn is_warp_map(builtin: Builtin, j: usize, e: &Expr) -> bool
    ensures { result ≡ is_warp_map builtin j (reading e.now).shape }
{
    j == 0 && is_warp(builtin) && is_mapped(e)
}

/// Whether argument `j` sees the counter of a repeat.
pub(crate) fn sees_counter(builtin: Builtin, j: usize) -> bool
    ensures { result ≡ (nat_eq j 2 && is_repeat builtin) }
{
    j == 2 && is_repeat(builtin)
}

/// The first fault, where argument `j` is no name, literal or map that it should be.
#[tactic(auto, using(crate::proofs::Earliest::told))]
pub(crate) fn argument_noted(
    alloc: Global,
    builtin: Builtin,
    j: usize,
    e: &Expr,
    first: Option<Fault>,
) -> Result<Option<Fault>, AllocError>
    ensures { IfOk result (λ f. f ≡ earliest_after first (argument_faults builtin j (reading e.now))) }
{
    match builtin {
        Builtin::Repeat(_) if j == 0 => Ok(noted_if(
            bare(e).is_none(),
            CheckWhy::Kind,
            e.at,
            first,
        )),
        Builtin::Repeat(_) if j == 1 => Ok(noted_if(
            count(e) == 0,
            CheckWhy::BadCount,
            e.at,
            first,
        )),
        Builtin::Warp if j == 0 => {
            let good = is_good_map(alloc, e)?;
            Ok(noted_if(!good, CheckWhy::BadMap, e.at, first))
        }
        Builtin::Rate(_) if j == 0 => Ok(noted_if(
            rate(e).is_none(),
            CheckWhy::BadRate,
            e.at,
            first,
        )),
        _ => Ok(first),
    }
}

/// The bare name that is the first argument.
pub(crate) fn first_counter<'t>(parts: &'t [Expr]) -> Option<Word<'t>>
    ensures { result ≡ first_counter (map reading parts.now) }
{
    match parts {
        [] => None,
        [first, ..] => bare(first),
    }
}

/// The place of the first argument.
pub(crate) fn first_place(parts: &[Expr]) -> u32
    ensures { result ≡ first_place (map reading parts.now) }
{
    match parts {
        [] => 0,
        [first, ..] => first.at,
    }
}

fn first_rate(parts: &[Expr]) -> Option<Rate>
    ensures { result ≡ first_rate (map reading parts.now) }
{
    match parts {
        [] => None,
        [first, ..] => rate(first),
    }
}

fn first_map(alloc: Global, parts: &[Expr]) -> Result<Items<Fix>, AllocError>
    ensures { IfOk result (λ all. all ≡ first_map (map reading parts.now)) }
{
    match parts {
        [] => Ok(Items::new(alloc)),
        [first, ..] => map_literals(alloc, first),
    }
}

#[tactic(auto, using(crate::proofs::Arguments::second_of))]
fn second_count(parts: &[Expr]) -> u32
    ensures { result ≡ second_count (map reading parts.now) }
{
    if parts.len() < 2 { 0 } else { count(&parts[1]) }
}

#[tactic(auto, using(crate::proofs::Arguments::last_of_parts, crate::proofs::PartSizes::last_small))]
fn last_part(parts: Items<Part>) -> Part
    ensures last { result ≡ last_part (no_part 0) parts }
    ensures small { 1 ≤ length parts → size_of_part result ≤ total (map size_of_part parts) }
{
    let mut parts = parts;
    match parts.pop() {
        Some(last) => last,
        None => no_part(0),
    }
}

#[tactic(auto, using(crate::proofs::PartSizes::term_sizes))]
fn repeat_term(
    alloc: Global,
    order: Order,
    counter: &Option<Word<'_>>,
    at: u32,
    count: u32,
    part: Part,
) -> Result<Term, AllocError>
    ensures term { IfOk result (λ t. t ≡ repeat_term order counter.now at count part) }
    ensures size { IfOk result (λ t. size_of_term t ≡ 1 + size_of_part part) }
{
    let part = Boxed::new(alloc, part)?;
    match counter {
        Some(_) => Ok(Term::Repeat(order, NameId(at), count, part)),
        None => Ok(Term::Nameless(part)),
    }
}

fn rate_or(rate: Option<Rate>) -> Rate
    ensures { result ≡ rate_or rate }
{
    match rate {
        Some(rate) => rate,
        None => Rate::R2205,
    }
}

/// The term of a call of a built-in.
#[tactic(auto, using(crate::proofs::PartSizes::term_sizes))]
pub(crate) fn builtin_term(
    alloc: Global,
    builtin: Builtin,
    arguments: &[Expr],
    parts: Items<Part>,
) -> Result<Term, AllocError>
    ensures term { IfOk result (λ t. t ≡ builtin_term builtin (map reading arguments.now) parts) }
    ensures small { IfOk result (λ t. fits (arity_of builtin) (length parts) ≡ true → size_of_term t ≤ 1 + total (map size_of_part parts)) }
{
    match builtin {
        Builtin::Apply(operator) => Ok(Term::Apply(operator, parts)),
        Builtin::Repeat(order) => {
            let counter = first_counter(arguments);
            let part = last_part(parts);
            repeat_term(
                alloc,
                order,
                &counter,
                first_place(arguments),
                second_count(arguments),
                part,
            )
        }
        Builtin::Warp => {
            let map = first_map(alloc, arguments)?;
            Ok(Term::Warp(map, Boxed::new(alloc, last_part(parts))?))
        }
        Builtin::Rate(rated) => {
            let rate = rate_or(first_rate(arguments));
            Ok(Term::Rate(rated, rate, Boxed::new(alloc, last_part(parts))?))
        }
    }
}

/// The term of a call of a function.
#[tactic(auto, using(crate::proofs::PartSizes::term_sizes))]
pub(crate) fn function_term(called: Option<Called>, parts: Items<Part>) -> Term
    ensures term { result ≡ function_term called parts }
    ensures small { size_of_term result ≤ 1 + total (map size_of_part parts) }
{
    match called {
        Some(f) => Term::Call(f.number, parts),
        None => Term::Number(Fix::of(0)),
    }
}

/// The term of a global variable.
#[tactic(auto, using(crate::proofs::PartSizes::term_sizes))]
pub(crate) fn global_term(number: Option<u32>) -> Term
    ensures term { result ≡ global_term number }
    ensures size { size_of_term result ≡ 1 }
{
    match number {
        Some(number) => Term::Global(number),
        None => Term::Number(Fix::of(0)),
    }
}

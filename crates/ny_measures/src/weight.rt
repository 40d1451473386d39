ghost use Rattle.std.specs.Prelude.{◌≡◌, ◌≤◌, ◌+◌, ◌*◌, ◌^◌, List, ℕ, map, length, IfOk, []};
ghost use Rattle.ny_measures.specs.Counts.{capped, all_capped};
ghost use Rattle.ny_measures.specs.Weight.{weight_of, weight_of_bind, total, weights_after, values_weight, play_weight, text_weight};

use crate::count::{known_of, product, sum, value_count};
use ny_resolve::{Bound, Declared, Part, Term};
use std::alloc::{AllocError, Global};

/// The weight of an expression, of the weights of the declarations before it.
#[cycle(weight)]
#[tactic(auto, using(crate::proofs::Capped::by_form))]
fn weight(known: &[u64], e: &Part) -> u64
    ensures value { (ds : List ℕ) → known.now ≡ all_capped ds → result ≡ capped (weight_of e.now ds) }
{
    match &e.term {
        Term::Number(_) => 1,
        Term::Local(_) => 1,
        Term::Global(_) => 1,
        Term::Call(number, parts) => {
            let arguments = parts_weight(known, parts.as_slice());
            sum(sum(1, arguments), known_of(known, *number as usize))
        }
        Term::Block(binds, value) => {
            let binds = binds_weight(known, binds.as_slice());
            sum(sum(1, binds), weight(known, value.get()))
        }
        Term::Apply(_, parts) => sum(1, parts_weight(known, parts.as_slice())),
        Term::Over(a, _) => sum(2, weight(known, a.get())),
        Term::Repeat(_, _, count, part) => sum(
            1,
            product(u64::from(*count), weight(known, part.get())),
        ),
        Term::Nameless(part) => sum(1, weight(known, part.get())),
        Term::Warp(literals, part) => sum(sum(1, literals.len() as u64), weight(known, part.get())),
        Term::Rate(_, _, part) => sum(2, weight(known, part.get())),
    }
}

#[cycle(weight)]
fn parts_weight(known: &[u64], parts: &[Part]) -> u64
    ensures value { (ds : List ℕ) → known.now ≡ all_capped ds → result ≡ capped (total (map weight_of parts.now) ds) }
{
    let mut total = 0;
    for part in parts {
        total = sum(total, weight(known, part));
    }
    total
}

#[cycle(weight)]
fn binds_weight(known: &[u64], binds: &[Bound]) -> u64
    ensures value { (ds : List ℕ) → known.now ≡ all_capped ds → result ≡ capped (total (map weight_of_bind binds.now) ds) }
{
    let mut total = 0;
    for bind in binds {
        total = sum(total, weight(known, &bind.value));
    }
    total
}

/// The weights of all declarations.
fn weights(alloc: Global, ds: &[Declared]) -> Result<Vec<u64>, AllocError>
    ensures { IfOk result (λ known. known.items ≡ all_capped (weights_after [] ds.now)) }
{
    let mut known = Vec::new(alloc);
    for d in ds {
        let weight = weight(known.as_slice(), &d.body);
        known.push(weight)?;
    }
    Ok(known)
}

fn values_weight(ds: &[Declared], known: &[u64]) -> u64
    ensures { (ws : List ℕ) → known.now ≡ all_capped ws → result ≡ capped (values_weight 0 ds.now ws) }
{
    let mut total = 0;
    for i in 0..ds.len() {
        total = sum(total, value_count(&ds[i], known, i));
    }
    total
}

fn play_weight(play: &Option<Part>, known: &[u64]) -> u64
    ensures { (ws : List ℕ) → known.now ≡ all_capped ws → result ≡ capped (play_weight play.now ws) }
{
    match play {
        None => 0,
        Some(e) => weight(known, e),
    }
}

/// The weight of a text, up to 2^32.
#[tactic(auto, unfolding(crate::specs::Weight::text_weight))]
pub fn text_weight(alloc: Global, ds: &[Declared], play: &Option<Part>) -> Result<u64, AllocError>
    ensures { IfOk result (λ n. n ≡ capped (text_weight ds.now play.now)) }
{
    let known = weights(alloc, ds)?;
    Ok(sum(
        values_weight(ds, known.as_slice()),
        play_weight(play, known.as_slice()),
    ))
}

ghost use Rattle.std.specs.Prelude.{◌≡◌, ◌≤◌, ◌+◌, ◌^◌, ◌++◌, ◌∷◌, max, List, ℕ, map, length, take, IfOk, OnOk, []};
ghost use Rattle.ny_resolve.specs.declared.term.NameId.{NameId as NameOf};
ghost use Rattle.ny_measures.specs.Counts.{capped, all_capped, names_capped};
ghost use Rattle.ny_measures.specs.Depth.{depth_of, depth_of_bind, scope_of, greatest, binds_depth, names_after, value_of, body_depth, depths_after, values_depth, play_depth, text_depth};

use crate::count::{known_of, sum, value_count};
use ny_resolve::{Bound, Declared, NameId, Part, Term};
use ny_scope::Scope;
use std::alloc::{AllocError, Global};

fn value_of(values: &Scope<NameId, u64>, x: NameId) -> u64
    ensures { result ≡ value_of x values.now }
{
    values.find(&x).unwrap_or(0)
}

/// The depth of an expression, of the depths of local names and of the declarations before it.
#[cycle(depth)]
#[tactic(auto, using(crate::proofs::Depths::by_form))]
fn depth(values: &mut Scope<NameId, u64>, known: &[u64], e: &Part) -> Result<u64, AllocError>
    ensures value { (vs : List (NameOf × ℕ)) → (ds : List ℕ) → values.old ≡ names_capped vs → known.now ≡ all_capped ds → IfOk result (λ n. n ≡ capped (depth_of e.now (scope_of vs ds))) }
    ensures same { OnOk result (values.new ≡ values.old) }
{
    match &e.term {
        Term::Number(_) => Ok(1),
        Term::Local(x) => Ok(value_of(values, *x).max(1)),
        Term::Global(_) => Ok(1),
        Term::Call(number, parts) => {
            let arguments = parts_depth(values, known, parts.as_slice())?;
            Ok(sum(sum(1, arguments), known_of(known, *number as usize)))
        }
        Term::Block(binds, value) => {
            let outer = values.len();
            let binds = binds_depth(values, known, binds.as_slice())?;
            let value = depth(values, known, value.get())?;
            values.leave(outer);
            Ok(sum(1, binds.max(value)))
        }
        Term::Apply(_, parts) => {
            let parts = parts_depth(values, known, parts.as_slice())?;
            Ok(sum(1, parts))
        }
        Term::Over(a, _) => {
            let a = depth(values, known, a.get())?;
            Ok(sum(1, a.max(1)))
        }
        Term::Repeat(_, x, _, part) => {
            let outer = values.len();
            values.bind(*x, 0)?;
            let part = depth(values, known, part.get())?;
            values.leave(outer);
            Ok(sum(1, part.max(1)))
        }
        Term::Nameless(part) => {
            let part = depth(values, known, part.get())?;
            Ok(sum(1, part))
        }
        Term::Warp(_, part) => {
            let part = depth(values, known, part.get())?;
            Ok(sum(1, part.max(1)))
        }
        Term::Rate(_, _, part) => {
            let part = depth(values, known, part.get())?;
            Ok(sum(1, part.max(1)))
        }
    }
}

#[cycle(depth)]
fn parts_depth(
    values: &mut Scope<NameId, u64>,
    known: &[u64],
    parts: &[Part],
) -> Result<u64, AllocError>
    ensures value { (vs : List (NameOf × ℕ)) → (ds : List ℕ) → values.old ≡ names_capped vs → known.now ≡ all_capped ds → IfOk result (λ n. n ≡ capped (greatest (map depth_of parts.now) (scope_of vs ds))) }
    ensures same { OnOk result (values.new ≡ values.old) }
{
    let mut most = 0;
    for part in parts {
        let depth = depth(values, known, part)?;
        most = depth.max(most);
    }
    Ok(most)
}

/// The greatest depth of binds, whose names stay bound.
#[cycle(depth)]
fn binds_depth(
    values: &mut Scope<NameId, u64>,
    known: &[u64],
    binds: &[Bound],
) -> Result<u64, AllocError>
    ensures value { (vs : List (NameOf × ℕ)) → (ds : List ℕ) → values.old ≡ names_capped vs → known.now ≡ all_capped ds →
        IfOk result (λ n. (values.new ≡ names_capped (names_after (map depth_of_bind binds.now) (scope_of vs ds))) × (n ≡ capped (binds_depth (map depth_of_bind binds.now) (scope_of vs ds)))) }
    ensures kept { OnOk result (take (length values.old) values.new ≡ values.old) }
{
    let mut most = 0;
    for bind in binds {
        let depth = depth(values, known, &bind.value)?;
        most = depth.max(most);
        values.bind(bind.name, depth)?;
    }
    Ok(most)
}

/// The depths of all declarations.
fn depths(alloc: Global, ds: &[Declared]) -> Result<Vec<u64>, AllocError>
    ensures { IfOk result (λ known. known.items ≡ all_capped (depths_after [] ds.now)) }
{
    let mut values = Scope::new(alloc);
    let mut known = Vec::new(alloc);
    for d in ds {
        let depth = depth(&mut values, known.as_slice(), &d.body)?;
        known.push(depth)?;
    }
    Ok(known)
}

fn values_depth(ds: &[Declared], known: &[u64]) -> u64
    ensures { (ws : List ℕ) → known.now ≡ all_capped ws → result ≡ capped (values_depth 0 ds.now ws) }
{
    let mut most = 0;
    for i in 0..ds.len() {
        most = value_count(&ds[i], known, i).max(most);
    }
    most
}

fn play_depth(alloc: Global, play: &Option<Part>, known: &[u64]) -> Result<u64, AllocError>
    ensures { (ws : List ℕ) → known.now ≡ all_capped ws → IfOk result (λ n. n ≡ capped (play_depth play.now ws)) }
{
    match play {
        None => Ok(0),
        Some(e) => {
            let mut values = Scope::new(alloc);
            depth(&mut values, known, e)
        }
    }
}

/// The depth of a text, up to 2^32.
#[tactic(auto, unfolding(crate::specs::Depth::text_depth))]
pub fn text_depth(alloc: Global, ds: &[Declared], play: &Option<Part>) -> Result<u64, AllocError>
    ensures { IfOk result (λ n. n ≡ capped (text_depth ds.now play.now)) }
{
    let known = depths(alloc, ds)?;
    let play = play_depth(alloc, play, known.as_slice())?;
    Ok(values_depth(ds, known.as_slice()).max(play))
}

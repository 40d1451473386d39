ghost use Rattle.std.specs.Prelude.{◌≡◌, ◌<◌, ◌≤◌, ◌^◌, length, All, IfOk, IfErr, None, get_or};
ghost use Rattle.ny_resolve.specs.declared.term.Declared.{Declared as DeclaredOf};
ghost use Rattle.ny_kinds.specs.Kinds.{kind_of, scope_of};
ghost use Rattle.ny_kinds.specs.Table.{IsRight};
ghost use Rattle.ny_kinds.specs.Whole.{value_row, play_row, is_playable, value_kind, value_fault, values_fault, play_kind, text_kind, channels_in, IsBound};

use crate::judging::{judged, least};
use crate::kind::{Found, Judgement, Kind, Unjudged};
use crate::known::Table;
use crate::resolve::root_kind;
use ny_resolve::{Declared, Part};
use std::alloc::Global;

fn value_row(kind: Option<Kind>) -> Judgement
    ensures { result ≡ value_row kind }
{
    match kind {
        None => Judgement::Silent,
        Some(Kind::Number) => Judgement::Is(Kind::Number),
        Some(_) => Judgement::Refused,
    }
}

fn is_playable(kind: Kind) -> bool
    ensures { result ≡ is_playable kind }
{
    matches!(kind, Kind::Sound | Kind::Channels(_))
}

fn play_row(kind: Option<Kind>) -> Judgement
    ensures { result ≡ play_row kind }
{
    match kind {
        None => Judgement::Silent,
        Some(kind) => {
            if is_playable(kind) {
                Judgement::Is(kind)
            } else {
                Judgement::Refused
            }
        }
    }
}

fn value_kind(
    alloc: Global,
    ds: &[Declared],
    table: &mut Table,
    most: Option<u64>,
    here: u32,
) -> Result<Found, Unjudged>
    requires few { length ds.now < 2 ^ 32 }
    requires here { here < length ds.now }
    requires known { All (IsRight ds.now) table.old.entries.items }
    ensures found { (d : DeclaredOf) → IfOk result (λ f. f ≡ value_kind ds.now here (get_or ds.now here d)) }
    ensures known { All (IsRight ds.now) table.new.entries.items }
    ensures bound { IfErr result (IsBound most) }
{
    let d = &ds[here as usize];
    let found = root_kind(alloc, ds, table, most, here, &d.body)?;
    Ok(judged(d.body.at, value_row(found.kind), found.fault))
}

fn value_fault(
    alloc: Global,
    ds: &[Declared],
    table: &mut Table,
    most: Option<u64>,
    here: u32,
) -> Result<Option<u32>, Unjudged>
    requires few { length ds.now < 2 ^ 32 }
    requires here { here < length ds.now }
    requires known { All (IsRight ds.now) table.old.entries.items }
    ensures fault { (d : DeclaredOf) → IfOk result (λ f. f ≡ value_fault ds.now here (get_or ds.now here d)) }
    ensures known { All (IsRight ds.now) table.new.entries.items }
    ensures bound { IfErr result (IsBound most) }
{
    if ds[here as usize].is_variable {
        Ok(value_kind(alloc, ds, table, most, here)?.fault)
    } else {
        Ok(None)
    }
}

fn values_fault(
    alloc: Global,
    ds: &[Declared],
    table: &mut Table,
    most: Option<u64>,
) -> Result<Option<u32>, Unjudged>
    requires few { length ds.now < 2 ^ 32 }
    requires known { All (IsRight ds.now) table.old.entries.items }
    ensures fault { IfOk result (λ f. f ≡ values_fault ds.now 0 ds.now) }
    ensures known { All (IsRight ds.now) table.new.entries.items }
    ensures bound { IfErr result (IsBound most) }
{
    let mut fault = None;
    for i in 0..ds.len() {
        fault = least(fault, value_fault(alloc, ds, table, most, i as u32)?);
    }
    Ok(fault)
}

fn play_kind(
    alloc: Global,
    ds: &[Declared],
    table: &mut Table,
    most: Option<u64>,
    play: &Option<Part>,
) -> Result<Found, Unjudged>
    requires few { length ds.now < 2 ^ 32 }
    requires known { All (IsRight ds.now) table.old.entries.items }
    ensures found { IfOk result (λ f. f ≡ play_kind ds.now play.now) }
    ensures bound { IfErr result (IsBound most) }
{
    match play {
        None => Ok(Found {
            kind: None,
            fault: None,
        }),
        Some(e) => {
            let found = root_kind(alloc, ds, table, most, ds.len() as u32, e)?;
            Ok(judged(e.at, play_row(found.kind), found.fault))
        }
    }
}

/// The kind of what a text plays, and the least place of a refusal in its global values, in what it plays
/// and in the functions that these reach. At most so many expressions are judged, if a bound is given; with none they are
/// judged whole.
#[tactic(auto, unfolding(crate::specs::Whole::text_kind))]
pub fn text_kind(
    alloc: Global,
    ds: &[Declared],
    play: &Option<Part>,
    most: Option<u64>,
) -> Result<Found, Unjudged>
    requires few { length ds.now < 2 ^ 32 }
    ensures kind { IfOk result (λ f. f ≡ text_kind ds.now play.now) }
    ensures whole { IfErr result (IsBound most) }
{
    let mut table = Table::new(alloc)?;
    let fault = values_fault(alloc, ds, &mut table, most)?;
    let found = play_kind(alloc, ds, &mut table, most, play)?;
    Ok(Found {
        kind: found.kind,
        fault: least(fault, found.fault),
    })
}

/// How many channels what is played has.
pub fn channels(kind: Option<Kind>) -> u32
    ensures value { result ≡ channels_in kind }
    ensures within { (1 ≤ result) × (result ≤ 8) }
{
    match kind {
        Some(Kind::Channels(count)) => count.min(8).max(1) as u32,
        _ => 1,
    }
}

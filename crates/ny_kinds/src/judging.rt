ghost use Rattle.std.specs.Prelude.{◌≡◌, ◌≤◌, ◌<◌, Option, ℕ, get_or, length, take, All, IfOk, IfErr, OnOk, map, None, zip, vec_len};
ghost use Rattle.std.specs.List.{list_any, list_all};
ghost use Rattle.ny_kinds.specs.Rows.{is_value};
ghost use Rattle.ny_kinds.specs.Kinds.{kind_named, least, judged, all_kinds, operands_row, divided_row, sound_row, returned_row, called, is_refused_bind, is_silent_bind, named_kind, block_row, several, several_binds, kind_of, kind_of_bind, some_kinds, behavior, behavior_at, scope_of, seen, nothing};
ghost use Rattle.ny_kinds.specs.Table.{IsRight, IsReason};

use crate::kind::{Found, Judgement, Kind, Reached, Stop, Use};
use crate::known::{Limits, Table, look_up};
use crate::row::{is_value, operator_row};
use ny_resolve::{Bound, Declared, NameId, Operator, Part, Term};
use ny_scope::Scope;
use sqlite_items::Items;
use std::alloc::{AllocError, Global};

/// The kind of what a name stands for.
fn kind_named(values: &Scope<NameId, Option<Kind>>, x: NameId) -> Option<Kind>
    ensures { result ≡ kind_named x values.now }
{
    values.find(&x).flatten()
}

/// The lesser of two places, of which there may be none.
pub(crate) fn least(one: Option<u32>, other: Option<u32>) -> Option<u32>
    ensures { result ≡ least one other }
{
    match one {
        None => other,
        Some(p) => match other {
            None => Some(p),
            Some(q) => Some(p.min(q)),
        },
    }
}

/// What a judgement makes of the expression at this place, in whose parts this is the least place of a refusal.
pub(crate) fn judged(at: u32, row: Judgement, fault: Option<u32>) -> Found
    ensures { result ≡ judged at row fault }
{
    match row {
        Judgement::Is(kind) => Found {
            kind: Some(kind),
            fault,
        },
        Judgement::Refused => Found {
            kind: None,
            fault: least(fault, Some(at)),
        },
        Judgement::Silent => Found { kind: None, fault },
    }
}

/// The kinds, where there are all.
fn all_kinds(alloc: Global, kinds: &[Option<Kind>]) -> Result<Option<Items<Kind>>, AllocError>
    ensures { IfOk result (λ all. all ≡ all_kinds kinds.now) }
{
    let mut all = Items::new(alloc);
    for kind in kinds {
        match kind {
            Some(kind) => all.push(*kind)?,
            None => return Ok(None),
        }
    }
    Ok(Some(all))
}

fn operands_row(operator: Operator, kinds: &Option<Items<Kind>>) -> Judgement
    ensures { result ≡ operands_row operator kinds.now }
{
    match kinds {
        None => Judgement::Silent,
        Some(kinds) => operator_row(operator, kinds.as_slice()),
    }
}

fn divided_row(kind: Option<Kind>) -> Judgement
    ensures { result ≡ divided_row kind }
{
    match kind {
        None => Judgement::Silent,
        Some(Kind::Number) => Judgement::Is(Kind::Number),
        Some(_) => Judgement::Refused,
    }
}

fn sound_row(kind: Option<Kind>) -> Judgement
    ensures { result ≡ sound_row kind }
{
    match kind {
        None => Judgement::Silent,
        Some(Kind::Sound) => Judgement::Is(Kind::Sound),
        Some(_) => Judgement::Refused,
    }
}

fn returned_row(kind: Option<Kind>) -> Judgement
    ensures { result ≡ returned_row kind }
{
    match kind {
        None => Judgement::Silent,
        Some(Kind::Test) => Judgement::Refused,
        Some(kind) => Judgement::Is(kind),
    }
}

fn all_values(kinds: &[Kind]) -> bool
    ensures { result ≡ list_all is_value kinds.now }
{
    kinds.iter().all(|k| is_value(*k))
}

fn is_refused_bind(kind: Option<Kind>) -> bool
    ensures { result ≡ is_refused_bind kind }
{
    match kind {
        None => false,
        Some(kind) => !is_value(kind),
    }
}

fn is_silent_bind(kind: Option<Kind>) -> bool
    ensures { result ≡ is_silent_bind kind }
{
    match kind {
        None => true,
        Some(_) => false,
    }
}

fn has_refused(kinds: &[Option<Kind>]) -> bool
    ensures { result ≡ list_any is_refused_bind kinds.now }
{
    kinds.iter().any(|k| is_refused_bind(*k))
}

fn has_silent(kinds: &[Option<Kind>]) -> bool
    ensures { result ≡ list_any is_silent_bind kinds.now }
{
    kinds.iter().any(|k| is_silent_bind(*k))
}

fn named_kind(kind: Option<Kind>) -> Option<Kind>
    ensures { result ≡ named_kind kind }
{
    match kind {
        None => None,
        Some(value) => { if is_value(value) { kind } else { None } }
    }
}

fn block_row(kinds: &[Option<Kind>], value: Option<Kind>) -> Judgement
    ensures { result ≡ block_row kinds.now value }
{
    if has_refused(kinds) {
        Judgement::Refused
    } else if has_silent(kinds) {
        Judgement::Silent
    } else {
        returned_row(value)
    }
}

/// Each parameter bound to the kind of its argument.
#[tactic(auto, using(crate::proofs::Stack::paired_end))]
fn parameters(
    alloc: Global,
    params: &[NameId],
    kinds: &[Kind],
) -> Result<Scope<NameId, Option<Kind>>, AllocError>
    ensures { IfOk result (λ all. all ≡ zip params.now (some_kinds kinds.now)) }
{
    let mut all = Scope::new(alloc);
    let count = params.len().min(kinds.len());
    for i in 0..count {
        all.bind(params[i], Some(kinds[i]))?;
    }
    Ok(all)
}

/// What is found of a function's body for these kinds, where the function comes before this declaration. What the table
/// lacks is judged in place, unless too many levels are nested already.
#[cycle(judge)]
#[tactic(auto, using(crate::proofs::Declarations::of_declarations))]
fn body_found(
    alloc: Global,
    ds: &[Declared],
    table: &mut Table,
    limits: Limits,
    here: u32,
    number: u32,
    kinds: Items<Kind>,
) -> Result<Found, Stop>
    requires here { here ≤ length ds.now }
    requires known { All (IsRight ds.now) table.old.entries.items }
    ensures found { IfOk result (λ f. f ≡ get_or (seen ds.now here) number nothing kinds) }
    ensures missing { IfErr result (IsReason limits.most here) }
    ensures known { All (IsRight ds.now) table.new.entries.items }
    ensures kept { vec_len table.old.entries ≤ vec_len table.new.entries }
{
    if here <= number {
        return Ok(Found {
            kind: None,
            fault: None,
        });
    }
    if let Some(found) = look_up(ds, table, number, kinds.as_slice()) {
        return Ok(found);
    }
    if limits.levels == 0 {
        return Err(Stop::Missing(Use { number, kinds }, Items::new(alloc)));
    }
    match judge_body(alloc, ds, table, limits, number, kinds.as_slice()) {
        Ok(found) => {
            table.add(ds, Use { number, kinds }, found)?;
            Ok(found)
        }
        Err(stop) => Err(called_from(stop, Use { number, kinds })),
    }
}

/// The same reason, where this function's body called for what is missing.
fn called_from(stop: Stop, caller: Use) -> Stop
    ensures { (most : Option ℕ) → (here : ℕ) → caller.number < here → IsReason most caller.number stop → IsReason most here result }
{
    match stop {
        Stop::Missing(earlier, callers) => {
            let mut callers = callers;
            match callers.push(caller) {
                Ok(_) => Stop::Missing(earlier, callers),
                Err(_) => Stop::OutOfMemory,
            }
        }
        Stop::TooManyNodes => Stop::TooManyNodes,
        Stop::OutOfMemory => Stop::OutOfMemory,
    }
}

/// What a function's body is for these kinds.
#[cycle(judge)]
#[tactic(auto, unfolding(crate::specs::Kinds::behavior))]
pub(crate) fn judge_body(
    alloc: Global,
    ds: &[Declared],
    table: &mut Table,
    limits: Limits,
    number: u32,
    kinds: &[Kind],
) -> Result<Found, Stop>
    requires within { number < length ds.now }
    requires known { All (IsRight ds.now) table.old.entries.items }
    ensures found { IfOk result (λ f. f ≡ behavior_at ds.now number kinds.now) }
    ensures missing { IfErr result (IsReason limits.most number) }
    ensures known { All (IsRight ds.now) table.new.entries.items }
    ensures kept { vec_len table.old.entries ≤ vec_len table.new.entries }
{
    let d = &ds[number as usize];
    let mut values = parameters(alloc, d.params.as_slice(), kinds)?;
    Ok(judge(alloc, ds, table, limits, number, &d.body, &mut values)?)
}

/// What a call says, of the kinds of its arguments.
#[cycle(judge)]
fn called(
    alloc: Global,
    ds: &[Declared],
    table: &mut Table,
    limits: Limits,
    here: u32,
    number: u32,
    kinds: Option<Items<Kind>>,
) -> Result<Reached, Stop>
    requires here { here ≤ length ds.now }
    requires known { All (IsRight ds.now) table.old.entries.items }
    ensures reached { IfOk result (λ r. r ≡ called (get_or (seen ds.now here) number nothing) kinds) }
    ensures missing { IfErr result (IsReason limits.most here) }
    ensures known { All (IsRight ds.now) table.new.entries.items }
    ensures kept { vec_len table.old.entries ≤ vec_len table.new.entries }
{
    match kinds {
        None => Ok(Reached {
            row: Judgement::Silent,
            fault: None,
        }),
        Some(kinds) => {
            if !all_values(kinds.as_slice()) {
                return Ok(Reached {
                    row: Judgement::Refused,
                    fault: None,
                });
            }
            let body = body_found(alloc, ds, table, limits, here, number, kinds)?;
            Ok(Reached {
                row: returned_row(body.kind),
                fault: body.fault,
            })
        }
    }
}

/// The kinds of parts, and the least place of a refusal in them.
#[derive(Drop)]
struct Parts {
    kinds: Vec<Option<Kind>>,
    fault: Option<u32>,
}

/// The kind of an expression, and the least place of a refusal in it; or a function that comes before and is to be judged
/// first. Beyond the limits a function that is missing is put off, or judging stops.
#[cycle(judge)]
#[tactic(auto, using(crate::proofs::Joined::of_names))]
pub(crate) fn judge(
    alloc: Global,
    ds: &[Declared],
    table: &mut Table,
    limits: Limits,
    here: u32,
    e: &Part,
    values: &mut Scope<NameId, Option<Kind>>,
) -> Result<Found, Stop>
    requires here { here ≤ length ds.now }
    requires known { All (IsRight ds.now) table.old.entries.items }
    ensures found { IfOk result (λ f. f ≡ kind_of e.now (scope_of values.old ds.now here)) }
    ensures missing { IfErr result (IsReason limits.most here) }
    ensures known { All (IsRight ds.now) table.new.entries.items }
    ensures same { OnOk result (values.new ≡ values.old) }
    ensures kept { vec_len table.old.entries ≤ vec_len table.new.entries }
{
    let limits = Limits {
        levels: limits.levels.saturating_sub(1),
        most: limits.most,
    };
    if !table.count(limits.most) {
        return Err(Stop::TooManyNodes);
    }
    match &e.term {
        Term::Number(_) => Ok(judged(e.at, Judgement::Is(Kind::Number), None)),
        Term::Local(x) => Ok(Found {
            kind: kind_named(values, *x),
            fault: None,
        }),
        Term::Global(_) => Ok(judged(e.at, Judgement::Is(Kind::Number), None)),
        Term::Call(number, parts) => {
            let parts = judge_parts(alloc, ds, table, limits, here, parts.as_slice(), values)?;
            let kinds = all_kinds(alloc, parts.kinds.as_slice())?;
            let call = called(alloc, ds, table, limits, here, *number, kinds)?;
            Ok(judged(e.at, call.row, least(parts.fault, call.fault)))
        }
        Term::Block(binds, value) => {
            let outer = values.len();
            let binds = judge_binds(alloc, ds, table, limits, here, binds.as_slice(), values)?;
            let value = judge(alloc, ds, table, limits, here, value.get(), values)?;
            values.leave(outer);
            Ok(judged(
                e.at,
                block_row(binds.kinds.as_slice(), value.kind),
                least(binds.fault, value.fault),
            ))
        }
        Term::Apply(operator, parts) => {
            let parts = judge_parts(alloc, ds, table, limits, here, parts.as_slice(), values)?;
            let kinds = all_kinds(alloc, parts.kinds.as_slice())?;
            Ok(judged(e.at, operands_row(*operator, &kinds), parts.fault))
        }
        Term::Over(a, _) => {
            let a = judge(alloc, ds, table, limits, here, a.get(), values)?;
            Ok(judged(e.at, divided_row(a.kind), a.fault))
        }
        Term::Repeat(_, x, _, part) => {
            let outer = values.len();
            values.bind(*x, Some(Kind::Number))?;
            let part = judge(alloc, ds, table, limits, here, part.get(), values)?;
            values.leave(outer);
            Ok(judged(e.at, sound_row(part.kind), part.fault))
        }
        Term::Nameless(part) => {
            let part = judge(alloc, ds, table, limits, here, part.get(), values)?;
            Ok(judged(e.at, Judgement::Silent, part.fault))
        }
        Term::Warp(_, part) => {
            let part = judge(alloc, ds, table, limits, here, part.get(), values)?;
            Ok(judged(e.at, sound_row(part.kind), part.fault))
        }
        Term::Rate(_, _, part) => {
            let part = judge(alloc, ds, table, limits, here, part.get(), values)?;
            Ok(judged(e.at, sound_row(part.kind), part.fault))
        }
    }
}

/// The kinds of parts.
#[cycle(judge)]
fn judge_parts(
    alloc: Global,
    ds: &[Declared],
    table: &mut Table,
    limits: Limits,
    here: u32,
    parts: &[Part],
    values: &mut Scope<NameId, Option<Kind>>,
) -> Result<Parts, Stop>
    requires here { here ≤ length ds.now }
    requires known { All (IsRight ds.now) table.old.entries.items }
    ensures parts { IfOk result (λ p. record { kinds = p.kinds.items; fault = p.fault } ≡ several (map kind_of parts.now) (scope_of values.old ds.now here)) }
    ensures missing { IfErr result (IsReason limits.most here) }
    ensures known { All (IsRight ds.now) table.new.entries.items }
    ensures same { OnOk result (values.new ≡ values.old) }
    ensures kept { vec_len table.old.entries ≤ vec_len table.new.entries }
{
    let mut kinds = Vec::new(alloc);
    let mut fault = None;
    for part in parts {
        let found = judge(alloc, ds, table, limits, here, part, values)?;
        fault = least(fault, found.fault);
        kinds.push(found.kind)?;
    }
    Ok(Parts { kinds, fault })
}

/// The kinds of a block's binds, each seen by those after it. Their names stay bound.
#[cycle(judge)]
#[tactic(auto, using(crate::proofs::Joined::of_names))]
fn judge_binds(
    alloc: Global,
    ds: &[Declared],
    table: &mut Table,
    limits: Limits,
    here: u32,
    binds: &[Bound],
    values: &mut Scope<NameId, Option<Kind>>,
) -> Result<Parts, Stop>
    requires here { here ≤ length ds.now }
    requires known { All (IsRight ds.now) table.old.entries.items }
    ensures binds { IfOk result (λ b. record { values = values.new; kinds = b.kinds.items; fault = b.fault } ≡ several_binds (map kind_of_bind binds.now) (scope_of values.old ds.now here)) }
    ensures missing { IfErr result (IsReason limits.most here) }
    ensures known { All (IsRight ds.now) table.new.entries.items }
    ensures outer { OnOk result (take (length values.old) values.new ≡ values.old) }
    ensures kept { vec_len table.old.entries ≤ vec_len table.new.entries }
{
    let mut kinds = Vec::new(alloc);
    let mut fault = None;
    for bind in binds {
        let found = judge(alloc, ds, table, limits, here, &bind.value, values)?;
        fault = least(fault, found.fault);
        values.bind(bind.name, named_kind(found.kind))?;
        kinds.push(found.kind)?;
    }
    Ok(Parts { kinds, fault })
}

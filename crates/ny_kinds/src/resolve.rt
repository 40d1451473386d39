ghost use Rattle.std.specs.Prelude.{◌≡◌, ◌<◌, ◌≤◌, ◌^◌, ℕ, [], length, All, IfOk, IfErr, OnOk, vec_len};
ghost use Rattle.ny_kinds.specs.Kinds.{kind_of, scope_of};
ghost use Rattle.ny_kinds.specs.Table.{IsRight, IsReason, AreBefore};
ghost use Rattle.ny_kinds.specs.Whole.{IsBound};

use crate::judging::{judge, judge_body};
use crate::kind::{Found, Stop, Unjudged, Use};
use crate::known::{Limits, Table};
use ny_resolve::{Declared, Part};
use ny_scope::Scope;
use sqlite_items::Items;
use std::alloc::{AllocError, Global};

/// So many levels of expressions are judged within one another, through the bodies of functions, before a function that is
/// missing is put off. A body has at most 200 levels of its own, so that the native stack holds about 1,000.
const LEVELS: u32 = 800;

/// Puts functions onto the stack of what is still to be judged, from the last to the first.
fn put_off(stack: &mut Items<Use>, functions: Items<Use>) -> Result<(), AllocError>
    ensures { (n : ℕ) → AreBefore n stack.old → AreBefore n functions → OnOk result (AreBefore n stack.new) }
{
    let mut rest = functions;
    while let Some(function) = rest.pop() {
        stack.push(function)?;
    }
    Ok(())
}

/// Adds entries to the table until it has one for this function and these kinds, and for those that called for it.
fn resolve(
    alloc: Global,
    ds: &[Declared],
    table: &mut Table,
    most: Option<u64>,
    first: Use,
    callers: Items<Use>,
) -> Result<(), Unjudged>
    requires few { length ds.now < 2 ^ 32 }
    requires within { first.number < length ds.now }
    requires callers { AreBefore (length ds.now) callers }
    requires known { All (IsRight ds.now) table.old.entries.items }
    ensures known { All (IsRight ds.now) table.new.entries.items }
    ensures longer { OnOk result (vec_len table.old.entries < vec_len table.new.entries) }
    ensures bound { IfErr result (IsBound most) }
{
    let mut stack = Items::new(alloc);
    put_off(&mut stack, callers)?;
    stack.push(first)?;
    while let Some(next) = stack.pop() {
        let limits = Limits {
            levels: LEVELS,
            most,
        };
        match judge_body(alloc, ds, table, limits, next.number, next.kinds.as_slice()) {
            Ok(found) => table.add(ds, next, found)?,
            Err(Stop::Missing(earlier, callers)) => {
                stack.push(next)?;
                put_off(&mut stack, callers)?;
                stack.push(earlier)?;
            }
            Err(Stop::TooManyNodes) => return Err(Unjudged::TooManyNodes),
            Err(Stop::OutOfMemory) => return Err(Unjudged::OutOfMemory),
        }
    }
    Ok(())
}

/// The kind of an expression that sees no name, or why it is not known yet.
fn judge_alone(
    alloc: Global,
    ds: &[Declared],
    table: &mut Table,
    most: Option<u64>,
    here: u32,
    e: &Part,
) -> Result<Found, Stop>
    requires here { here ≤ length ds.now }
    requires known { All (IsRight ds.now) table.old.entries.items }
    ensures found { IfOk result (λ f. f ≡ kind_of e.now (scope_of [] ds.now here)) }
    ensures missing { IfErr result (IsReason most here) }
    ensures known { All (IsRight ds.now) table.new.entries.items }
    ensures kept { vec_len table.old.entries ≤ vec_len table.new.entries }
{
    let limits = Limits {
        levels: LEVELS,
        most,
    };
    judge(alloc, ds, table, limits, here, e, &mut Scope::new(alloc))
}

/// The kind of an expression after the declarations before this one, and the least place of a refusal in it and in the
/// bodies that it reaches.
pub(crate) fn root_kind(
    alloc: Global,
    ds: &[Declared],
    table: &mut Table,
    most: Option<u64>,
    here: u32,
    e: &Part,
) -> Result<Found, Unjudged>
    requires few { length ds.now < 2 ^ 32 }
    requires here { here ≤ length ds.now }
    requires known { All (IsRight ds.now) table.old.entries.items }
    ensures found { IfOk result (λ f. f ≡ kind_of e.now (scope_of [] ds.now here)) }
    ensures known { All (IsRight ds.now) table.new.entries.items }
    ensures bound { IfErr result (IsBound most) }
{
    loop {
        match judge_alone(alloc, ds, table, most, here, e) {
            Ok(found) => return Ok(found),
            Err(Stop::Missing(earlier, callers)) => {
                resolve(alloc, ds, table, most, earlier, callers)?
            },
            Err(Stop::TooManyNodes) => return Err(Unjudged::TooManyNodes),
            Err(Stop::OutOfMemory) => return Err(Unjudged::OutOfMemory),
        }
    }
}

ghost use Rattle.std.specs.Prelude.{◌≡◌, ◌+◌, ◌<◌, ◌≤◌, ◌^◌, Some, length, map, [], ◌∷◌, ◌++◌, All, IfOk, OnOk};
ghost use Rattle.ny_check.specs.declared.node.ExprId.{ExprId as IdOf};
ghost use Rattle.ny_syntax.specs.Sizes.{total};
ghost use Rattle.ny_resolve.specs.Sizes.{size_of_part, size_of_bound, declared_size, text_size};
ghost use Rattle.ny_check.specs.Code.{BindsBelow, IsBelow};
ghost use Rattle.ny_check.specs.Texts.{IsAccepted};
ghost use Rattle.ny_check.specs.Writing.{Written, WrittenParts, WrittenBinds, writing, writing_of_bind, write_parts, write_binds, global_node, call_node, body_of, is_seq, is_in_turn, kept_names, write_declared, empty, program_of};

use crate::draft::Draft;
use crate::form::{operator_node, quotient_node, warp_node};
use crate::free::kept_names;
use crate::node::{Change, ExprId, Function, FunctionId, Node};
use crate::program::Program;
use ny_num::Fix;
use ny_resolve::{Bound, Declared, NameId, Operator, Order, Part, Term};
use sqlite_items::Items;
use std::alloc::{AllocError, Global};

/// A global variable, or nothing where it is not written.
fn global_node(draft: &Draft, number: u32) -> Node
    ensures value { result ≡ global_node (body_of draft.now.functions number) }
    ensures below { IsBelow draft.now.functions (length draft.now.table.nodes) result }
{
    match draft.body(number) {
        Some(body) => Node::Global(body),
        None => Node::Number(Fix::of(0)),
    }
}

/// A call of a function, or nothing where it is not written.
#[tactic(auto, using(crate::proofs::Wider::all_below))]
fn call_node(draft: &Draft, number: u32, ids: Items<ExprId>) -> Node
    requires { All (λ (id : IdOf). id.0 < length draft.now.table.nodes) ids }
    ensures value { result ≡ call_node number (body_of draft.now.functions number) ids }
    ensures below { IsBelow draft.now.functions (length draft.now.table.nodes) result }
{
    match draft.body(number) {
        Some(_) => Node::Call(FunctionId(number), ids),
        None => Node::Number(Fix::of(0)),
    }
}

fn is_seq(operator: Operator) -> bool
    ensures { result ≡ is_seq operator }
{
    matches!(operator, Operator::Seq)
}

fn is_in_turn(order: Order) -> bool
    ensures { result ≡ is_in_turn order }
{
    matches!(order, Order::InTurn)
}

/// Writes the nodes of an expression after those of the table, and keeps these names of it.
#[cycle(write)]
#[tactic(auto, using(crate::proofs::Wider::binds_wider))]
fn write(
    alloc: Global,
    draft: &mut Draft,
    e: &Part,
    names: Items<NameId>,
) -> Result<ExprId, AllocError>
    requires room { length draft.old.table.nodes + size_of_part e.now ≤ 2 ^ 32 }
    ensures written { IfOk result (λ id. record { table = draft.new.table; id = id } ≡ (writing e.now).write names draft.old.functions draft.old.table) }
    ensures within { IfOk result (λ id. id.0 < length draft.new.table.nodes) }
    ensures grown { OnOk result (length draft.old.table.nodes ≤ length draft.new.table.nodes) }
    ensures counted { OnOk result (length draft.new.table.nodes ≤ length draft.old.table.nodes + size_of_part e.now) }
    ensures functions { OnOk result (draft.new.functions ≡ draft.old.functions) }
{
    match &e.term {
        Term::Number(v) => Ok(draft.put(Node::Number(*v), names)?),
        Term::Local(x) => Ok(draft.put(Node::Local(*x), names)?),
        Term::Global(number) => {
            let node = global_node(draft, *number);
            Ok(draft.put(node, names)?)
        }
        Term::Call(number, parts) => {
            let ids = write_each(alloc, draft, parts.as_slice(), false)?;
            let node = call_node(draft, *number, ids);
            Ok(draft.put(node, names)?)
        }
        Term::Block(binds, value) => {
            let binds = write_each_bind(alloc, draft, binds.as_slice())?;
            let value = write(alloc, draft, value.get(), Items::new(alloc))?;
            Ok(draft.put(Node::Block(binds, value), names)?)
        }
        Term::Apply(operator, parts) => {
            let ids = write_each(alloc, draft, parts.as_slice(), is_seq(*operator))?;
            let node = operator_node(alloc, *operator, ids)?;
            Ok(draft.put(node, names)?)
        }
        Term::Over(a, by) => {
            let a = write(alloc, draft, a.get(), Items::new(alloc))?;
            Ok(draft.put(quotient_node(a, *by), names)?)
        }
        Term::Repeat(order, x, count, part) => {
            let kept = kept_names(alloc, part.get(), is_in_turn(*order))?;
            let part = write(alloc, draft, part.get(), kept)?;
            Ok(draft.put(Node::Repeat(*order, *x, *count, part), names)?)
        }
        Term::Nameless(part) => Ok(write(alloc, draft, part.get(), names)?),
        Term::Warp(literals, part) => {
            let part = write(alloc, draft, part.get(), Items::new(alloc))?;
            let node = warp_node(alloc, literals.as_slice(), part)?;
            Ok(draft.put(node, names)?)
        }
        Term::Rate(rated, rate, part) => {
            let part = write(alloc, draft, part.get(), Items::new(alloc))?;
            let change = Change::Rate(*rated, *rate);
            Ok(draft.put(Node::Change(change, part), names)?)
        }
    }
}

/// Writes parts in order, and keeps the free names of each where `keeps` holds.
#[cycle(write)]
#[tactic(auto, using(crate::proofs::Wider::wider))]
fn write_each(
    alloc: Global,
    draft: &mut Draft,
    parts: &[Part],
    keeps: bool,
) -> Result<Items<ExprId>, AllocError>
    requires room { length draft.old.table.nodes + total (map size_of_part parts.now) ≤ 2 ^ 32 }
    ensures written { IfOk result (λ ids. record { table = draft.new.table; ids = ids } ≡ write_parts keeps (map writing parts.now) draft.old.functions [] draft.old.table) }
    ensures below { IfOk result (λ ids. All (λ (id : IdOf). id.0 < length draft.new.table.nodes) ids) }
    ensures grown { OnOk result (length draft.old.table.nodes ≤ length draft.new.table.nodes) }
    ensures counted { OnOk result (length draft.new.table.nodes ≤ length draft.old.table.nodes + total (map size_of_part parts.now)) }
    ensures functions { OnOk result (draft.new.functions ≡ draft.old.functions) }
{
    let mut ids = Items::new(alloc);
    for part in parts {
        let kept = kept_names(alloc, part, keeps)?;
        let id = write(alloc, draft, part, kept)?;
        ids.push(id)?;
    }
    Ok(ids)
}

#[cycle(write)]
fn write_each_bind(
    alloc: Global,
    draft: &mut Draft,
    binds: &[Bound],
) -> Result<Items<(NameId, ExprId)>, AllocError>
    requires room { length draft.old.table.nodes + total (map size_of_bound binds.now) ≤ 2 ^ 32 }
    ensures written { IfOk result (λ bs. record { table = draft.new.table; binds = bs } ≡ write_binds (map writing_of_bind binds.now) draft.old.functions [] draft.old.table) }
    ensures below { IfOk result (λ bs. BindsBelow (length draft.new.table.nodes) bs) }
    ensures grown { OnOk result (length draft.old.table.nodes ≤ length draft.new.table.nodes) }
    ensures counted { OnOk result (length draft.new.table.nodes ≤ length draft.old.table.nodes + total (map size_of_bound binds.now)) }
    ensures functions { OnOk result (draft.new.functions ≡ draft.old.functions) }
{
    let mut written = Items::new(alloc);
    for bind in binds {
        let id = write(alloc, draft, &bind.value, Items::new(alloc))?;
        written.push((bind.name, id))?;
    }
    Ok(written)
}

/// Writes declarations in order.
fn write_declared(alloc: Global, draft: &mut Draft, ds: &[Declared]) -> Result<(), AllocError>
    requires room { length draft.old.table.nodes + total (map declared_size ds.now) ≤ 2 ^ 32 }
    ensures written { OnOk result (draft.new ≡ write_declared ds.now draft.old) }
    ensures counted { OnOk result (length draft.new.table.nodes ≤ length draft.old.table.nodes + total (map declared_size ds.now)) }
{
    for d in ds {
        let body = write(alloc, draft, &d.body, Items::new(alloc))?;
        let params = Items::from_slice(alloc, d.params.as_slice())?;
        draft.declare(Function { params, body })?;
    }
    Ok(())
}

/// Keeps the value of a global variable, the declaration of this number.
fn keep_value(alloc: Global, p: &mut Program, number: usize) -> Result<(), AllocError>
    ensures { OnOk result (p.new ≡ p.old) }
{
    match p.declared(number) {
        Some(body) => {
            let value = p.global(alloc, body)?;
            p.keep(body, value)
        }
        None => Ok(()),
    }
}

/// Keeps the value of each global variable, in the order of the declarations: each finds those before it
/// kept.
fn keep_values(alloc: Global, p: &mut Program, ds: &[Declared]) -> Result<(), AllocError>
    ensures { OnOk result (p.new ≡ p.old) }
{
    for number in 0..ds.len() {
        if ds[number].is_variable {
            keep_value(alloc, p, number)?;
        }
    }
    Ok(())
}

/// The table of a text that plays this, with so many channels.
#[tactic(auto, unfolding(crate::specs::Writing::program_of, ny_resolve::specs::Sizes::text_size))]
pub(crate) fn program(
    alloc: Global,
    ds: &[Declared],
    play: &Part,
    channels: u32,
) -> Result<Program, AllocError>
    requires channels { (1 ≤ channels) × (channels ≤ 8) }
    requires few { text_size ds.now (Some play.now) < 2 ^ 32 }
    requires accepted { IsAccepted (program_of ds.now play.now channels) }
    ensures { IfOk result (λ p. p ≡ program_of ds.now play.now channels) }
{
    let mut draft = Draft::new(alloc);
    write_declared(alloc, &mut draft, ds)?;
    let play = write(alloc, &mut draft, play, Items::new(alloc))?;
    let mut p = draft.finish(alloc, play, channels);
    keep_values(alloc, &mut p, ds)?;
    Ok(p)
}

ghost use Rattle.std.specs.Prelude.{◌≡◌, ◌≤◌, ◌+◌, IfOk, OnOk, map, [], ◌∷◌, ◌++◌, length, take, ℕ};
ghost use Rattle.ny_syntax.specs.Sizes.{total, size_of, size_of_bind};
ghost use Rattle.ny_resolve.specs.Sizes.{size_of_part, size_of_bound};
ghost use Rattle.ny_resolve.specs.declared.names.Names.{Names as NamesOf};
ghost use Rattle.ny_resolve.specs.Faults.{earliest_after};
ghost use Rattle.ny_resolve.specs.Builtins.{builtin_of};
ghost use Rattle.ny_resolve.specs.Names.{scope_of, local_of, again_faults, seen_after};
ghost use Rattle.ny_resolve.specs.Reading.{reading, reading_of_bind, value_named, with_counter, argument_read, arguments_read, first_counter, first_place, called, read_parts, read_binds, block_read};

use crate::builtin::{Builtin, Operator, built_in, takes};
use crate::calls::{
    argument_noted, call_noted, first_counter, first_place, function_term, global_term, is_counter,
    is_warp_map, no_part, sees_counter,
};
use crate::fault::{CheckWhy, Fault, noted_if};
use crate::literals::{is_zero, value};
use crate::names::{Names, function_named, function_noted, variable_named, variable_noted};
use crate::parts::{
    Read, applied, blocked, divided, is_division, operator_of, prefix_operator, put, term_if,
};
use crate::term::{Bound, NameId, Part, Term};
use crate::word::Word;
use indexmap::IndexMap;
use ny_scope::{Key, Scope};
use ny_syntax::{Bind, Expr, Form, Name};
use sqlite_items::Items;
use std::alloc::{AllocError, Global};

/// Parts that were read, and the first of the faults so far.
#[derive(Drop)]
struct ReadMany {
    parts: Items<Part>,
    first: Option<Fault>,
}

/// Binds a repeat's counter, if it has one, at this place.
#[tactic(auto, using(ny_scope::proofs::Kept::kept_all))]
fn bind_counter<'t>(
    locals: &mut Scope<Word<'t>, NameId>,
    counter: &Option<Word<'t>>,
    at: u32,
) -> Result<(), AllocError>
    ensures bound { (names : NamesOf) → (here : ℕ) → OnOk result (scope_of names here locals.new ≡ with_counter counter.now at (scope_of names here locals.old)) }
    ensures kept { OnOk result (take (length locals.old) locals.new ≡ locals.old) }
{
    if let Some(word) = counter {
        locals.bind(word.copied(), NameId(at))?;
    }
    Ok(())
}

/// A value name.
#[tactic(auto, using(crate::proofs::Earliest::told, crate::proofs::PartSizes::term_sizes))]
fn name_read<'t>(
    names: &Names<'t>,
    here: u32,
    locals: &Scope<Word<'t>, NameId>,
    at: u32,
    x: &'t Name,
    first: Option<Fault>,
) -> Read
    ensures part { result.part ≡ (value_named at x.now.bytes (scope_of names.now here locals.now) (local_of x.now.bytes (scope_of names.now here locals.now))).part }
    ensures first { result.first ≡ earliest_after first (value_named at x.now.bytes (scope_of names.now here locals.now) (local_of x.now.bytes (scope_of names.now here locals.now))).faults }
    ensures size { size_of_part result.part ≡ 1 }
{
    match locals.find(&Word::of(x)) {
        Some(name) => Read {
            part: Part {
                at,
                term: Term::Local(name),
            },
            first,
        },
        None => {
            let number = variable_named(&names.variables, &Word::of(x));
            Read {
                part: Part {
                    at,
                    term: global_term(number),
                },
                first: variable_noted(at, here, number, first),
            }
        }
    }
}

/// Notes a name of a list, and whether the list has it already.
pub(crate) fn note_again<'t>(
    seen: &mut IndexMap<Word<'t>, NameId>,
    word: Word<'t>,
    at: u32,
    first: Option<Fault>,
) -> Result<Option<Fault>, AllocError>
    ensures seen { OnOk result (seen.new.entries ≡ seen_after seen.old.entries word.entry at) }
    ensures first { IfOk result (λ f. f ≡ earliest_after first (again_faults seen.old.entries word.entry at)) }
{
    let before = seen.insert(word, NameId(at))?;
    Ok(noted_if(before.is_some(), CheckWhy::Redefined, at, first))
}

/// The term that an expression is, and the first of the faults before and in it.
#[cycle(read)]
pub(crate) fn read_expr<'t>(
    alloc: Global,
    names: &Names<'t>,
    here: u32,
    locals: &mut Scope<Word<'t>, NameId>,
    e: &'t Expr,
    first: Option<Fault>,
) -> Result<Read, AllocError>
    ensures part { IfOk result (λ r. r.part ≡ ((reading e.now).read (scope_of names.now here locals.old)).part) }
    ensures first { IfOk result (λ r. r.first ≡ earliest_after first ((reading e.now).read (scope_of names.now here locals.old)).faults) }
    ensures same { OnOk result (locals.new ≡ locals.old) }
    ensures small { IfOk result (λ r. size_of_part r.part ≤ size_of e.now) }
{
    let mut operands = Items::new(alloc);
    read_form(alloc, names, here, locals, &mut operands, e, first)
}

/// The same, with an empty list for the operands on the way. No step below has a part of its own that a fault of memory would drop.
#[cycle(read)]
#[tactic(auto, using(crate::proofs::Earliest::told, crate::proofs::PartSizes::term_sizes, crate::proofs::Operands::listed))]
fn read_form<'t>(
    alloc: Global,
    names: &Names<'t>,
    here: u32,
    locals: &mut Scope<Word<'t>, NameId>,
    operands: &mut Items<Part>,
    e: &'t Expr,
    first: Option<Fault>,
) -> Result<Read, AllocError>
    requires { operands.old ≡ [] }
    ensures part { IfOk result (λ r. r.part ≡ ((reading e.now).read (scope_of names.now here locals.old)).part) }
    ensures first { IfOk result (λ r. r.first ≡ earliest_after first ((reading e.now).read (scope_of names.now here locals.old)).faults) }
    ensures same { OnOk result (locals.new ≡ locals.old) }
    ensures small { IfOk result (λ r. size_of_part r.part ≤ size_of e.now) }
{
    match &e.form {
        Form::Number(v) => Ok(Read {
            part: Part {
                at: e.at,
                term: Term::Number(*v),
            },
            first,
        }),
        Form::Name(x) => Ok(name_read(names, here, locals, e.at, x, first)),
        Form::Call(x, parts) => Ok(read_call(
            alloc,
            names,
            here,
            locals,
            e.at,
            x,
            parts.as_slice(),
            first,
        )?),
        Form::If(c, a, b) => {
            let first = read_onto(alloc, names, here, locals, operands, c.get(), first)?;
            let first = read_onto(alloc, names, here, locals, operands, a.get(), first)?;
            let first = read_onto(alloc, names, here, locals, operands, b.get(), first)?;
            Ok(applied(alloc, e.at, Operator::If, operands, first))
        }
        Form::Block(binds, value) => Ok(read_block(
            alloc,
            names,
            here,
            locals,
            e.at,
            binds.as_slice(),
            value.get(),
            first,
        )?),
        Form::Binary(operator, a, b) => {
            if is_division(*operator) {
                let by = value(b.get());
                let first = noted_if(is_zero(by), CheckWhy::ZeroDivisor, e.at, first);
                let a = read_expr(alloc, names, here, locals, a.get(), first)?;
                Ok(divided(alloc, e.at, a, by)?)
            } else {
                let first = read_onto(alloc, names, here, locals, operands, a.get(), first)?;
                let first = read_onto(alloc, names, here, locals, operands, b.get(), first)?;
                Ok(applied(alloc, e.at, operator_of(*operator), operands, first))
            }
        }
        Form::Prefix(operator, a) => {
            let first = read_onto(alloc, names, here, locals, operands, a.get(), first)?;
            Ok(applied(alloc, e.at, prefix_operator(*operator), operands, first))
        }
    }
}

/// Reads one more expression, behind the parts that were read, and gives the first of the faults before and in it.
#[cycle(read)]
fn read_onto<'t>(
    alloc: Global,
    names: &Names<'t>,
    here: u32,
    locals: &mut Scope<Word<'t>, NameId>,
    done: &mut Items<Part>,
    e: &'t Expr,
    first: Option<Fault>,
) -> Result<Option<Fault>, AllocError>
    ensures done { OnOk result (done.new ≡ done.old ++ ((reading e.now).read (scope_of names.now here locals.old)).part ∷ []) }
    ensures first { IfOk result (λ f. f ≡ earliest_after first ((reading e.now).read (scope_of names.now here locals.old)).faults) }
    ensures same { OnOk result (locals.new ≡ locals.old) }
    ensures small { OnOk result (total (map size_of_part done.new) ≤ total (map size_of_part done.old) + size_of e.now) }
{
    let read = read_expr(alloc, names, here, locals, e, first)?;
    put(done, read.part)?;
    Ok(read.first)
}

#[cycle(read)]
#[tactic(auto, using(crate::proofs::Earliest::told, crate::proofs::PartSizes::term_sizes))]
fn read_call<'t>(
    alloc: Global,
    names: &Names<'t>,
    here: u32,
    locals: &mut Scope<Word<'t>, NameId>,
    at: u32,
    x: &'t Name,
    parts: &'t [Expr],
    first: Option<Fault>,
) -> Result<Read, AllocError>
    ensures part { IfOk result (λ r. r.part ≡ (called at x.now.bytes (builtin_of x.now.bytes) (map reading parts.now) (scope_of names.now here locals.old)).part) }
    ensures first { IfOk result (λ r. r.first ≡ earliest_after first (called at x.now.bytes (builtin_of x.now.bytes) (map reading parts.now) (scope_of names.now here locals.old)).faults) }
    ensures same { OnOk result (locals.new ≡ locals.old) }
    ensures small { IfOk result (λ r. size_of_part r.part ≤ 1 + total (map size_of parts.now)) }
{
    match built_in(x.bytes.as_slice()) {
        Some(builtin) => {
            let good = takes(builtin, parts.len());
            let first = call_noted(at, builtin, parts.len(), first);
            let read = read_arguments(alloc, names, here, locals, builtin, parts, first)?;
            let term = term_if(alloc, good, builtin, parts, read.parts)?;
            Ok(Read {
                part: Part { at, term },
                first: read.first,
            })
        }
        None => {
            let called = function_named(&names.functions, &Word::of(x));
            let first = function_noted(at, here, parts.len(), called, first);
            let read = read_each(alloc, names, here, locals, parts, first)?;
            Ok(Read {
                part: Part {
                    at,
                    term: function_term(called, read.parts),
                },
                first: read.first,
            })
        }
    }
}

#[cycle(read)]
#[tactic(auto, using(crate::proofs::Earliest::told))]
fn read_each<'t>(
    alloc: Global,
    names: &Names<'t>,
    here: u32,
    locals: &mut Scope<Word<'t>, NameId>,
    parts: &'t [Expr],
    first: Option<Fault>,
) -> Result<ReadMany, AllocError>
    ensures parts { IfOk result (λ r. r.parts ≡ (read_parts (map reading parts.now) (scope_of names.now here locals.old)).parts) }
    ensures first { IfOk result (λ r. r.first ≡ earliest_after first (read_parts (map reading parts.now) (scope_of names.now here locals.old)).faults) }
    ensures same { OnOk result (locals.new ≡ locals.old) }
    ensures small { IfOk result (λ r. total (map size_of_part r.parts) ≤ total (map size_of parts.now)) }
{
    let mut done = Items::new(alloc);
    let mut first = first;
    for part in parts {
        let read = read_expr(alloc, names, here, locals, part, first)?;
        first = read.first;
        done.push(read.part)?;
    }
    Ok(ReadMany { parts: done, first })
}

/// The faults of the arguments of a call.
#[cycle(read)]
#[tactic(auto, using(crate::proofs::Earliest::told))]
fn read_inside<'t>(
    alloc: Global,
    names: &Names<'t>,
    here: u32,
    locals: &mut Scope<Word<'t>, NameId>,
    e: &'t Expr,
    first: Option<Fault>,
) -> Result<Option<Fault>, AllocError>
    ensures first { IfOk result (λ f. f ≡ earliest_after first ((reading e.now).arguments (scope_of names.now here locals.old))) }
    ensures same { OnOk result (locals.new ≡ locals.old) }
{
    match &e.form {
        Form::Call(_, parts) => {
            let read = read_each(alloc, names, here, locals, parts.as_slice(), first)?;
            Ok(read.first)
        }
        _ => Ok(first),
    }
}

#[cycle(read)]
#[tactic(auto, using(crate::proofs::Earliest::told))]
fn read_argument<'t>(
    alloc: Global,
    names: &Names<'t>,
    here: u32,
    locals: &mut Scope<Word<'t>, NameId>,
    builtin: Builtin,
    counter: &Option<Word<'t>>,
    at: u32,
    j: usize,
    e: &'t Expr,
    first: Option<Fault>,
) -> Result<Read, AllocError>
    ensures part { IfOk result (λ r. r.part ≡ (argument_read builtin counter.now at j (reading e.now) (scope_of names.now here locals.old)).part) }
    ensures first { IfOk result (λ r. r.first ≡ earliest_after first (argument_read builtin counter.now at j (reading e.now) (scope_of names.now here locals.old)).faults) }
    ensures same { OnOk result (locals.new ≡ locals.old) }
    ensures small { IfOk result (λ r. size_of_part r.part ≤ size_of e.now) }
{
    let first = argument_noted(alloc, builtin, j, e, first)?;
    if is_counter(builtin, j, e) {
        return Ok(Read {
            part: no_part(e.at),
            first,
        });
    }
    if is_warp_map(builtin, j, e) {
        let first = read_inside(alloc, names, here, locals, e, first)?;
        return Ok(Read {
            part: no_part(e.at),
            first,
        });
    }
    if sees_counter(builtin, j) {
        let outer = locals.len();
        bind_counter(locals, counter, at)?;
        let read = read_expr(alloc, names, here, locals, e, first)?;
        locals.leave(outer);
        Ok(read)
    } else {
        Ok(read_expr(alloc, names, here, locals, e, first)?)
    }
}

#[cycle(read)]
#[tactic(auto, using(crate::proofs::Earliest::told))]
fn read_arguments<'t>(
    alloc: Global,
    names: &Names<'t>,
    here: u32,
    locals: &mut Scope<Word<'t>, NameId>,
    builtin: Builtin,
    parts: &'t [Expr],
    first: Option<Fault>,
) -> Result<ReadMany, AllocError>
    ensures parts { IfOk result (λ r. r.parts ≡ (arguments_read builtin (first_counter (map reading parts.now)) (first_place (map reading parts.now)) 0 (map reading parts.now) (scope_of names.now here locals.old)).parts) }
    ensures first { IfOk result (λ r. r.first ≡ earliest_after first (arguments_read builtin (first_counter (map reading parts.now)) (first_place (map reading parts.now)) 0 (map reading parts.now) (scope_of names.now here locals.old)).faults) }
    ensures same { OnOk result (locals.new ≡ locals.old) }
    ensures small { IfOk result (λ r. total (map size_of_part r.parts) ≤ total (map size_of parts.now)) }
    ensures count { IfOk result (λ r. length r.parts ≡ length parts.now) }
{
    let counter = first_counter(parts);
    let at = first_place(parts);
    let mut done = Items::new(alloc);
    let mut first = first;
    for j in 0..parts.len() {
        let read = read_argument(
            alloc, names, here, locals, builtin, &counter, at, j, &parts[j], first,
        )?;
        first = read.first;
        done.push(read.part)?;
    }
    Ok(ReadMany { parts: done, first })
}

/// A block, whose names are bound in it alone.
#[cycle(read)]
#[tactic(auto, using(crate::proofs::Earliest::told))]
fn read_block<'t>(
    alloc: Global,
    names: &Names<'t>,
    here: u32,
    locals: &mut Scope<Word<'t>, NameId>,
    at: u32,
    binds: &'t [Bind],
    value: &'t Expr,
    first: Option<Fault>,
) -> Result<Read, AllocError>
    ensures part { IfOk result (λ r. r.part ≡ (block_read at (map reading_of_bind binds.now) (reading value.now) (scope_of names.now here locals.old)).part) }
    ensures first { IfOk result (λ r. r.first ≡ earliest_after first (block_read at (map reading_of_bind binds.now) (reading value.now) (scope_of names.now here locals.old)).faults) }
    ensures same { OnOk result (locals.new ≡ locals.old) }
    ensures small { IfOk result (λ r. size_of_part r.part ≤ 1 + (total (map size_of_bind binds.now) + size_of value.now)) }
{
    let outer = locals.len();
    let mut bound = Items::new(alloc);
    let first = read_binds(alloc, names, here, locals, &mut bound, binds, first)?;
    let value = read_expr(alloc, names, here, locals, value, first)?;
    locals.leave(outer);
    Ok(blocked(alloc, at, bound, value)?)
}

/// Reads the binds of a block into an empty list, and leaves their names bound.
#[cycle(read)]
fn read_binds<'t>(
    alloc: Global,
    names: &Names<'t>,
    here: u32,
    locals: &mut Scope<Word<'t>, NameId>,
    done: &mut Items<Bound>,
    binds: &'t [Bind],
    first: Option<Fault>,
) -> Result<Option<Fault>, AllocError>
    requires { done.old ≡ [] }
    ensures binds { OnOk result (done.new ≡ (read_binds (map reading_of_bind binds.now) [] (scope_of names.now here locals.old)).binds) }
    ensures bound { OnOk result (scope_of names.now here locals.new ≡ (read_binds (map reading_of_bind binds.now) [] (scope_of names.now here locals.old)).scope) }
    ensures first { IfOk result (λ f. f ≡ earliest_after first (read_binds (map reading_of_bind binds.now) [] (scope_of names.now here locals.old)).faults) }
    ensures kept { OnOk result (take (length locals.old) locals.new ≡ locals.old) }
    ensures small { OnOk result (total (map size_of_bound done.new) ≤ total (map size_of_bind binds.now)) }
{
    let mut seen = IndexMap::new(alloc);
    read_each_bind(alloc, names, here, locals, &mut seen, done, binds, first)
}

/// The same, with an empty map for the names that the block has bound so far.
#[cycle(read)]
#[tactic(auto, using(crate::proofs::Earliest::told, ny_scope::proofs::Kept::kept_more))]
fn read_each_bind<'t>(
    alloc: Global,
    names: &Names<'t>,
    here: u32,
    locals: &mut Scope<Word<'t>, NameId>,
    seen: &mut IndexMap<Word<'t>, NameId>,
    done: &mut Items<Bound>,
    binds: &'t [Bind],
    first: Option<Fault>,
) -> Result<Option<Fault>, AllocError>
    requires nothing_seen { seen.old.entries ≡ [] }
    requires nothing_done { done.old ≡ [] }
    ensures binds { OnOk result (done.new ≡ (read_binds (map reading_of_bind binds.now) [] (scope_of names.now here locals.old)).binds) }
    ensures bound { OnOk result (scope_of names.now here locals.new ≡ (read_binds (map reading_of_bind binds.now) [] (scope_of names.now here locals.old)).scope) }
    ensures first { IfOk result (λ f. f ≡ earliest_after first (read_binds (map reading_of_bind binds.now) [] (scope_of names.now here locals.old)).faults) }
    ensures kept { OnOk result (take (length locals.old) locals.new ≡ locals.old) }
    ensures small { OnOk result (total (map size_of_bound done.new) ≤ total (map size_of_bind binds.now)) }
{
    let mut first = first;
    for bind in binds {
        first = note_again(seen, Word::of(&bind.name), bind.at, first)?;
        let read = read_expr(alloc, names, here, locals, &bind.value, first)?;
        first = read.first;
        done.push(Bound {
            name: NameId(bind.at),
            value: read.part,
        })?;
        locals.bind(Word::of(&bind.name), NameId(bind.at))?;
    }
    Ok(first)
}

ghost use Rattle.std.specs.Prelude.{◌≡◌, ◌≤◌, ◌+◌, IfOk, OnOk, map, [], ◌∷◌, ◌++◌, length, pos, if◌then◌else◌};
ghost use Rattle.ny_syntax.specs.Sizes.{total};
ghost use Rattle.ny_resolve.specs.Sizes.{size_of_part, size_of_term, size_of_bound};
ghost use Rattle.ny_resolve.specs.declared.term.Term.TheVariants as term;
ghost use Rattle.ny_resolve.specs.Builtins.{arity_of, fits};
ghost use Rattle.ny_resolve.specs.Reading.{reading, part_at, builtin_term, operator_of, prefix_operator, is_division};

use crate::builtin::{Builtin, Operator, Relation};
use crate::calls::{builtin_term, no_part};
use crate::fault::Fault;
use crate::term::{Bound, Part, Term};
use ny_num::Fix;
use ny_syntax::{BinOp, Expr, PreOp};
use sqlite_items::{Boxed, Items};
use std::alloc::{AllocError, Global};
use std::mem::replace;

/// What was read, and the first of the faults so far.
#[derive(Drop)]
pub struct Read {
    pub part: Part,
    pub first: Option<Fault>,
}

pub(crate) fn operator_of(operator: BinOp) -> Operator
    ensures { result ≡ operator_of operator }
{
    match operator {
        BinOp::Or => Operator::Or,
        BinOp::And => Operator::And,
        BinOp::Eq => Operator::Compare(Relation::Eq),
        BinOp::Ne => Operator::Compare(Relation::Ne),
        BinOp::Lt => Operator::Compare(Relation::Lt),
        BinOp::Gt => Operator::Compare(Relation::Gt),
        BinOp::Le => Operator::Compare(Relation::Le),
        BinOp::Ge => Operator::Compare(Relation::Ge),
        BinOp::Add => Operator::Add,
        BinOp::Sub => Operator::Sub,
        BinOp::Mul => Operator::Mul,
        BinOp::Div => Operator::Mul,
        BinOp::At => Operator::Placed,
        BinOp::Stretch => Operator::Stretched,
    }
}

pub(crate) fn prefix_operator(operator: PreOp) -> Operator
    ensures { result ≡ prefix_operator operator }
{
    match operator {
        PreOp::Minus => Operator::Neg,
        PreOp::Not => Operator::Not,
    }
}

pub(crate) fn is_division(operator: BinOp) -> bool
    ensures { result ≡ is_division operator }
{
    matches!(operator, BinOp::Div)
}

/// Puts one more part behind those that were read.
#[tactic(auto, using(crate::proofs::PartSizes::part_pushed))]
pub(crate) fn put(parts: &mut Items<Part>, part: Part) -> Result<(), AllocError>
    ensures parts { OnOk result (parts.new ≡ parts.old ++ part ∷ []) }
    ensures size { OnOk result (total (map size_of_part parts.new) ≡ total (map size_of_part parts.old) + size_of_part part) }
{
    parts.push(part)?;
    Ok(())
}

/// Takes all parts that were read.
fn taken(alloc: Global, parts: &mut Items<Part>) -> Items<Part>
    ensures { result ≡ parts.old }
{
    replace(parts, Items::new(alloc))
}

/// An operator on the operands that were read.
#[tactic(auto, using(crate::proofs::PartSizes::term_sizes))]
pub(crate) fn applied(
    alloc: Global,
    at: u32,
    operator: Operator,
    operands: &mut Items<Part>,
    first: Option<Fault>,
) -> Read
    ensures part { result.part ≡ part_at at (term.Apply operator operands.old) }
    ensures first { result.first ≡ first }
    ensures size { size_of_part result.part ≡ 1 + total (map size_of_part operands.old) }
{
    Read {
        part: Part {
            at,
            term: Term::Apply(operator, taken(alloc, operands)),
        },
        first,
    }
}

/// A division by a literal.
#[tactic(auto, using(crate::proofs::PartSizes::term_sizes))]
pub(crate) fn divided(alloc: Global, at: u32, a: Read, by: Fix) -> Result<Read, AllocError>
    ensures part { IfOk result (λ r. r.part ≡ part_at at (term.Over a.part by)) }
    ensures first { IfOk result (λ r. r.first ≡ a.first) }
    ensures size { IfOk result (λ r. size_of_part r.part ≡ 1 + size_of_part a.part) }
{
    Ok(Read {
        part: Part {
            at,
            term: Term::Over(Boxed::new(alloc, a.part)?, by),
        },
        first: a.first,
    })
}

/// A block of these binds.
#[tactic(auto, using(crate::proofs::PartSizes::term_sizes, crate::proofs::PartSizes::block_sizes))]
pub(crate) fn blocked(
    alloc: Global,
    at: u32,
    binds: Items<Bound>,
    value: Read,
) -> Result<Read, AllocError>
    ensures part { IfOk result (λ r. r.part ≡ part_at at (term.Block binds value.part)) }
    ensures first { IfOk result (λ r. r.first ≡ value.first) }
    ensures size { IfOk result (λ r. size_of_part r.part ≡ 1 + (total (map size_of_bound binds) + size_of_part value.part)) }
{
    let inside = Boxed::new(alloc, value.part)?;
    Ok(Read {
        part: Part {
            at,
            term: Term::Block(binds, inside),
        },
        first: value.first,
    })
}

/// The term of a call with a right number of arguments.
#[tactic(auto, using(crate::proofs::PartSizes::term_sizes))]
pub(crate) fn term_if(
    alloc: Global,
    good: bool,
    builtin: Builtin,
    arguments: &[Expr],
    parts: Items<Part>,
) -> Result<Term, AllocError>
    requires { good ≡ fits (arity_of builtin) (length parts) }
    ensures term { IfOk result (λ t. t ≡ (if good then builtin_term builtin (map reading arguments.now) parts else term.Number (pos 0))) }
    ensures small { IfOk result (λ t. size_of_term t ≤ 1 + total (map size_of_part parts)) }
{
    if good {
        builtin_term(alloc, builtin, arguments, parts)
    } else {
        Ok(no_part(0).term)
    }
}

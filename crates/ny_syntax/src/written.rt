ghost use Rattle.std.specs.Prelude.{◌≡◌, ◌∷◌, ◌++◌, ◌+◌, [], OnOk, map};
ghost use Rattle.ny_syntax.specs.Levels.{level_of, left_least, right_least};
ghost use Rattle.ny_syntax.specs.Spelled.{onto};
ghost use Rattle.ny_syntax.specs.Canonical.{mark_of, prefix_mark, operator_kind, written, written_bind, bracketed, left_fits, right_fits, left_written, right_written, prefixed_written, with_commas, with_binds, call_written, choice_written, block_written, binary_written, prefix_written};

use crate::spelled::{push_comma, push_if, push_mark, push_name, push_number, push_word};
use crate::token::{Mark, Word};
use crate::tree::{BinOp, Bind, Expr, Form, Name, PreOp};
use std::alloc::AllocError;

const PREFIX_LEVEL: u8 = 7;

const OPERAND_LEVEL: u8 = 8;

/// The sign of an operator.
fn mark_of(op: BinOp) -> Mark
    ensures { result ≡ mark_of op }
{
    match op {
        BinOp::Or => Mark::Or,
        BinOp::And => Mark::And,
        BinOp::Eq => Mark::Equal,
        BinOp::Ne => Mark::NotEqual,
        BinOp::Lt => Mark::Less,
        BinOp::Gt => Mark::Greater,
        BinOp::Le => Mark::LessEqual,
        BinOp::Ge => Mark::GreaterEqual,
        BinOp::Add => Mark::Plus,
        BinOp::Sub => Mark::Minus,
        BinOp::Mul => Mark::Times,
        BinOp::Div => Mark::Over,
        BinOp::At => Mark::At,
        BinOp::Stretch => Mark::Tilde,
    }
}

fn prefix_mark(op: PreOp) -> Mark
    ensures { result ≡ prefix_mark op }
{
    match op {
        PreOp::Minus => Mark::Minus,
        PreOp::Not => Mark::Not,
    }
}

/// How tightly an operator binds.
fn operator_level(op: BinOp) -> u8
    ensures { result ≡ level_of (operator_kind op) }
{
    match op {
        BinOp::Or => 1,
        BinOp::And => 2,
        BinOp::Eq | BinOp::Ne | BinOp::Lt | BinOp::Gt | BinOp::Le | BinOp::Ge => 3,
        BinOp::Add | BinOp::Sub => 4,
        BinOp::Mul | BinOp::Div => 5,
        BinOp::At | BinOp::Stretch => 6,
    }
}

/// The least level of what may stand to an operator's left.
fn left_least(op: BinOp) -> u8
    ensures { result ≡ left_least (operator_kind op) }
{
    match op {
        BinOp::Eq | BinOp::Ne | BinOp::Lt | BinOp::Gt | BinOp::Le | BinOp::Ge => 4,
        _ => operator_level(op),
    }
}

/// How tightly the outermost part of an expression binds.
#[tactic(auto, using(crate::proofs::WrittenEquations::written_forms))]
fn level(e: &Expr) -> u8
    ensures { result ≡ (written e.now).level }
{
    match &e.form {
        Form::Binary(op, _, _) => operator_level(*op),
        Form::Prefix(_, _) => PREFIX_LEVEL,
        _ => OPERAND_LEVEL,
    }
}

#[tactic(auto, using(crate::proofs::WrittenEquations::written_forms))]
fn is_number(e: &Expr) -> bool
    ensures { result ≡ (written e.now).is_number }
{
    matches!(&e.form, Form::Number(_))
}

/// Whether an expression may stand to the left of an operator.
fn left_fits(op: BinOp, e: &Expr) -> bool
    ensures { result ≡ left_fits op (written e.now) }
{
    left_least(op) <= level(e)
}

/// Whether an expression may stand to the right of an operator: a divisor is a number.
fn right_fits(op: BinOp, e: &Expr) -> bool
    ensures { result ≡ right_fits op (written e.now) }
{
    match op {
        BinOp::Div => is_number(e),
        _ => operator_level(op) < level(e),
    }
}

/// Appends an expression, in brackets where it doesn't fit its place.
#[cycle(written)]
#[tactic(auto, using(crate::proofs::WrittenEquations::tokens_after_others))]
fn push_bracketed(out: &mut Vec<u8>, fits: bool, e: &Expr) -> Result<(), AllocError>
    ensures { OnOk result (out.new.items ≡ onto out.old.items (bracketed fits (written e.now)).lexemes) }
{
    if fits {
        return push_expr(out, e);
    }
    push_mark(out, Mark::Open)?;
    push_expr(out, e)?;
    push_mark(out, Mark::Close)
}

/// Appends an operator between its sides.
#[cycle(written)]
#[tactic(auto, using(crate::proofs::WrittenEquations::tokens_after_others))]
fn push_binary(out: &mut Vec<u8>, op: BinOp, a: &Expr, b: &Expr) -> Result<(), AllocError>
    ensures { OnOk result (out.new.items ≡ onto out.old.items (binary_written op (written a.now) (written b.now)).lexemes) }
{
    push_bracketed(out, left_fits(op, a), a)?;
    push_mark(out, mark_of(op))?;
    push_bracketed(out, right_fits(op, b), b)
}

/// Appends an operator and the expression after it.
#[cycle(written)]
#[tactic(auto, using(crate::proofs::WrittenEquations::tokens_after_others))]
fn push_prefix(out: &mut Vec<u8>, op: PreOp, e: &Expr) -> Result<(), AllocError>
    ensures { OnOk result (out.new.items ≡ onto out.old.items (prefix_written op (written e.now)).lexemes) }
{
    push_mark(out, prefix_mark(op))?;
    push_bracketed(out, PREFIX_LEVEL <= level(e), e)
}

/// Appends arguments with a comma between two.
#[cycle(written)]
#[tactic(auto, using(crate::proofs::WrittenEquations::tokens_after_others))]
fn push_arguments(out: &mut Vec<u8>, parts: &[Expr]) -> Result<(), AllocError>
    ensures { OnOk result (out.new.items ≡ onto out.old.items (with_commas (map written parts.now))) }
{
    let mut some = false;
    for part in parts {
        push_comma(out, some)?;
        push_expr(out, part)?;
        some = true;
    }
    Ok(())
}

/// Appends a name and its arguments.
#[cycle(written)]
#[tactic(auto, using(crate::proofs::WrittenEquations::tokens_after_others))]
fn push_call(out: &mut Vec<u8>, called: &Name, parts: &[Expr]) -> Result<(), AllocError>
    ensures { OnOk result (out.new.items ≡ onto out.old.items (call_written called.now (map written parts.now)).lexemes) }
{
    push_name(out, called)?;
    push_mark(out, Mark::Open)?;
    push_arguments(out, parts)?;
    push_mark(out, Mark::Close)
}

/// Appends `#if` with its test and its two parts.
#[cycle(written)]
#[tactic(auto, using(crate::proofs::WrittenEquations::tokens_after_others))]
fn push_choice(out: &mut Vec<u8>, test: &Expr, a: &Expr, b: &Expr) -> Result<(), AllocError>
    ensures { OnOk result (out.new.items ≡ onto out.old.items (choice_written (written test.now) (written a.now) (written b.now)).lexemes) }
{
    push_if(out)?;
    push_mark(out, Mark::Open)?;
    push_expr(out, test)?;
    push_mark(out, Mark::Comma)?;
    push_expr(out, a)?;
    push_mark(out, Mark::Comma)?;
    push_expr(out, b)?;
    push_mark(out, Mark::Close)
}

/// Appends a name that a block gives to a value.
#[cycle(written)]
#[tactic(auto, using(crate::proofs::WrittenEquations::tokens_after_others))]
fn push_bind(out: &mut Vec<u8>, bind: &Bind) -> Result<(), AllocError>
    ensures { OnOk result (out.new.items ≡ onto out.old.items (written_bind bind.now).lexemes) }
{
    push_name(out, &bind.name)?;
    push_mark(out, Mark::Equal)?;
    push_expr(out, &bind.value)
}

/// Appends binds with a comma between two.
#[cycle(written)]
#[tactic(auto, using(crate::proofs::WrittenEquations::tokens_after_others))]
fn push_bind_list(out: &mut Vec<u8>, binds: &[Bind]) -> Result<(), AllocError>
    ensures { OnOk result (out.new.items ≡ onto out.old.items (with_commas (map written_bind binds.now))) }
{
    let mut some = false;
    for bind in binds {
        push_comma(out, some)?;
        push_bind(out, bind)?;
        some = true;
    }
    Ok(())
}

/// Appends `with` and binds, if there are any.
#[cycle(written)]
#[tactic(auto, using(crate::proofs::WrittenEquations::tokens_after_others))]
fn push_binds(out: &mut Vec<u8>, binds: &[Bind]) -> Result<(), AllocError>
    ensures { OnOk result (out.new.items ≡ onto out.old.items (with_binds (map written_bind binds.now))) }
{
    if binds.is_empty() {
        return Ok(());
    }
    push_word(out, Word::With)?;
    push_bind_list(out, binds)
}

/// Appends a block.
#[cycle(written)]
#[tactic(auto, using(crate::proofs::WrittenEquations::tokens_after_others))]
fn push_block(out: &mut Vec<u8>, binds: &[Bind], value: &Expr) -> Result<(), AllocError>
    ensures { OnOk result (out.new.items ≡ onto out.old.items (block_written (map written_bind binds.now) (written value.now)).lexemes) }
{
    push_word(out, Word::Begin)?;
    push_binds(out, binds)?;
    push_word(out, Word::Return)?;
    push_expr(out, value)?;
    push_word(out, Word::End)
}

/// Appends an expression, each of its tokens after a space.
#[cycle(written)]
#[tactic(auto, using(crate::proofs::WrittenEquations::written_forms))]
pub fn push_expr(out: &mut Vec<u8>, e: &Expr) -> Result<(), AllocError>
    ensures { OnOk result (out.new.items ≡ onto out.old.items (written e.now).lexemes) }
{
    match &e.form {
        Form::Number(value) => push_number(out, *value),
        Form::Name(named) => push_name(out, named),
        Form::Call(called, parts) => push_call(out, called, parts.as_slice()),
        Form::If(test, a, b) => push_choice(out, test.get(), a.get(), b.get()),
        Form::Block(binds, value) => push_block(out, binds.as_slice(), value.get()),
        Form::Binary(op, a, b) => push_binary(out, *op, a.get(), b.get()),
        Form::Prefix(op, a) => push_prefix(out, *op, a.get()),
    }
}

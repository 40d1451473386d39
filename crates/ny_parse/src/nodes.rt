ghost use Rattle.std.specs.Prelude.{◌≡◌, ◌≤◌, length, min, IfOk};
ghost use Rattle.ny_syntax.specs.Grammar.{name_of, param_of};
ghost use Rattle.ny_syntax.specs.declared.tree.Form.TheVariants as forms;
ghost use Rattle.ny_parse.specs.Nodes.{label_of, number_of, named_of, grouped_of, prefixed_of, binary_of, call_of, conditional_of, block_of};

use crate::frame::{Label, Measured};
use crate::levels::{self, OPERAND, PREFIX};
use ny_num::Fix;
use ny_syntax::{Bind, Expr, Form, Name, Param, Token};
use sqlite_items::{Boxed, Items};
use std::alloc::{AllocError, Global};

/// No expression of a text is higher (`docs/LANGUAGE.md`, "Grammar").
pub const HEIGHT_LIMIT: u32 = 200;

/// The lesser of two numbers.
pub fn lesser(a: u32, b: u32) -> u32
    ensures { result ≡ min a b }
{
    a.min(b)
}

/// The name that a token of this text is, in lower case.
pub fn name(alloc: Global, text: &[u8], token: Token) -> Result<Name, AllocError>
    requires order { token.from ≤ token.to }
    requires within { token.to ≤ length text.now }
    ensures { IfOk result (λ name. name ≡ name_of text.now token) }
{
    let mut bytes = Vec::from_slice(alloc, &text[token.from as usize..token.to as usize])?;
    bytes.make_ascii_lowercase();
    Ok(Name {
        bytes: Items::from_vec(bytes),
    })
}

pub fn label(alloc: Global, text: &[u8], token: Token) -> Result<Label, AllocError>
    requires order { token.from ≤ token.to }
    requires within { token.to ≤ length text.now }
    ensures { IfOk result (λ label. label ≡ label_of text.now token) }
{
    Ok(Label {
        at: token.from,
        name: name(alloc, text, token)?,
    })
}

pub fn param(alloc: Global, text: &[u8], token: Token) -> Result<Param, AllocError>
    requires order { token.from ≤ token.to }
    requires within { token.to ≤ length text.now }
    ensures { IfOk result (λ param. param ≡ param_of text.now token) }
{
    Ok(Param {
        at: token.from,
        name: name(alloc, text, token)?,
    })
}

/// A bind of a name and its value.
pub fn bound(name: Label, value: Expr) -> Bind
    ensures { result ≡ record { at = name.at; name = name.name; value = value } }
{
    Bind {
        at: name.at,
        name: name.name,
        value,
    }
}

fn operand(at: u32, form: Form, spare: u32) -> Measured
    ensures { result ≡ record { expr = record { at = at; form = form }; spare = spare; level = 8 } }
{
    Measured {
        expr: Expr { at, form },
        spare,
        level: OPERAND,
    }
}

pub fn number(token: Token, value: Fix) -> Measured
    ensures { result ≡ number_of token value }
{
    operand(token.from, Form::Number(value), HEIGHT_LIMIT - 1)
}

pub fn named(label: Label) -> Measured
    ensures { result ≡ named_of label }
{
    operand(label.at, Form::Name(label.name), HEIGHT_LIMIT - 1)
}

pub fn grouped(inner: Measured) -> Measured
    ensures { result ≡ grouped_of inner }
{
    Measured {
        expr: inner.expr,
        spare: inner.spare.saturating_sub(1),
        level: OPERAND,
    }
}

pub fn prefixed(alloc: Global, sign: Token, inner: Measured) -> Result<Measured, AllocError>
    ensures { IfOk result (λ x. x ≡ prefixed_of sign inner) }
{
    let around = inner.spare.saturating_sub(1);
    let inside = Boxed::new(alloc, inner.expr)?;
    Ok(Measured {
        expr: Expr {
            at: sign.from,
            form: Form::Prefix(levels::prefix_of(sign.kind), inside),
        },
        spare: around,
        level: PREFIX,
    })
}

/// Two values on the heap.
fn two_boxed<T: Drop>(alloc: Global, a: T, b: T) -> Result<(Boxed<T>, Boxed<T>), AllocError>
    ensures first { IfOk result (λ boxed. boxed.0 ≡ a) }
    ensures second { IfOk result (λ boxed. boxed.1 ≡ b) }
{
    let a = Boxed::new(alloc, a)?;
    let b = Boxed::new(alloc, b)?;
    Ok((a, b))
}

pub fn binary(
    alloc: Global,
    left: Measured,
    operator: Token,
    right: Measured,
) -> Result<Measured, AllocError>
    ensures { IfOk result (λ x. x ≡ binary_of left operator right) }
{
    let spare = lesser(left.spare, right.spare).saturating_sub(1);
    let sides = two_boxed(alloc, left.expr, right.expr)?;
    Ok(Measured {
        expr: Expr {
            at: operator.from,
            form: Form::Binary(levels::operator_of(operator.kind), sides.0, sides.1),
        },
        spare,
        level: levels::level_of(operator.kind),
    })
}

/// A call, with how many constructs may still enclose its highest argument.
pub fn call(name: Label, arguments: Items<Expr>, spare: u32) -> Measured
    ensures { result ≡ call_of name arguments spare }
{
    let around = lesser(HEIGHT_LIMIT - 2, spare.saturating_sub(1));
    operand(name.at, Form::Call(name.name, arguments), around)
}

/// Three values on the heap.
fn three_boxed<T: Drop>(
    alloc: Global,
    a: T,
    b: T,
    c: T,
) -> Result<(Boxed<T>, Boxed<T>, Boxed<T>), AllocError>
    ensures first { IfOk result (λ boxed. boxed.0 ≡ a) }
    ensures second { IfOk result (λ boxed. boxed.1 ≡ b) }
    ensures third { IfOk result (λ boxed. boxed.2 ≡ c) }
{
    let a = Boxed::new(alloc, a)?;
    let b = Boxed::new(alloc, b)?;
    let c = Boxed::new(alloc, c)?;
    Ok((a, b, c))
}

/// The form of an `#if` of these parts.
fn choice(alloc: Global, test: Expr, chosen: Expr, otherwise: Expr) -> Result<Form, AllocError>
    ensures { IfOk result (λ form. form ≡ forms.If test chosen otherwise) }
{
    let parts = three_boxed(alloc, test, chosen, otherwise)?;
    Ok(Form::If(parts.0, parts.1, parts.2))
}

pub fn conditional(
    alloc: Global,
    start: Token,
    test: Measured,
    chosen: Measured,
    otherwise: Measured,
) -> Result<Measured, AllocError>
    ensures { IfOk result (λ x. x ≡ conditional_of start test chosen otherwise) }
{
    let spare = lesser(test.spare, lesser(chosen.spare, otherwise.spare)).saturating_sub(1);
    let form = choice(alloc, test.expr, chosen.expr, otherwise.expr)?;
    Ok(operand(start.from, form, spare))
}

/// A block, with how many constructs may still enclose its highest bind.
pub fn block(
    alloc: Global,
    start: Token,
    binds: Items<Bind>,
    spare: u32,
    returned: Measured,
) -> Result<Measured, AllocError>
    ensures { IfOk result (λ x. x ≡ block_of start binds spare returned) }
{
    let around = lesser(spare, returned.spare).saturating_sub(1);
    let inside = Boxed::new(alloc, returned.expr)?;
    Ok(operand(start.from, Form::Block(binds, inside), around))
}

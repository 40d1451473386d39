ghost use Rattle.std.specs.Prelude.{◌≡◌, ◌∷◌, ◌++◌, [], ◌≤◌, map, length, IfOk, OnOk};
ghost use Rattle.ny_syntax.specs.Grammar.{height_limit};
ghost use Rattle.ny_syntax.specs.Spelled.{onto, line_text, lines_text, word_text};
ghost use Rattle.ny_syntax.specs.Canonical.{written, param_lexemes, function_lexemes, variable_lexemes, declared_lexemes, declaration_lexemes, play_lexemes, play_lines, canonical_text, canonical_height};

use crate::spelled::{push_comma, push_first, push_mark, push_name, push_word};
use crate::token::{Mark, Word};
use crate::tree::{Decl, Expr, Name, Param, Tree};
use crate::written::push_expr;
use std::alloc::{AllocError, Global};

/// Appends parameters with a comma between two.
#[tactic(auto, using(crate::proofs::WrittenEquations::tokens_after_others))]
fn push_params(out: &mut Vec<u8>, params: &[Param]) -> Result<(), AllocError>
    ensures { OnOk result (out.new.items ≡ onto out.old.items (param_lexemes params.now)) }
{
    let mut some = false;
    for param in params {
        push_comma(out, some)?;
        push_name(out, &param.name)?;
        some = true;
    }
    Ok(())
}

/// Appends a declared name, its parameters and its body.
#[tactic(auto, using(crate::proofs::WrittenEquations::tokens_after_others))]
fn push_function(
    out: &mut Vec<u8>,
    declared: &Name,
    params: &[Param],
    body: &Expr,
) -> Result<(), AllocError>
    ensures { OnOk result (out.new.items ≡ onto out.old.items (function_lexemes declared.now params.now body.now)) }
{
    push_word(out, Word::Function)?;
    push_name(out, declared)?;
    push_mark(out, Mark::Open)?;
    push_params(out, params)?;
    push_mark(out, Mark::Close)?;
    push_word(out, Word::Return)?;
    push_expr(out, body)
}

/// Appends a declared name and its value.
#[tactic(auto, using(crate::proofs::WrittenEquations::tokens_after_others))]
fn push_variable(out: &mut Vec<u8>, declared: &Name, value: &Expr) -> Result<(), AllocError>
    ensures { OnOk result (out.new.items ≡ onto out.old.items (variable_lexemes declared.now value.now)) }
{
    push_word(out, Word::Variable)?;
    push_name(out, declared)?;
    push_mark(out, Mark::Equal)?;
    push_expr(out, value)
}

/// Appends what stands after `define`.
fn push_declared(out: &mut Vec<u8>, decl: &Decl) -> Result<(), AllocError>
    ensures { OnOk result (out.new.items ≡ onto out.old.items (declared_lexemes decl.now)) }
{
    match decl {
        Decl::Function {
            name,
            params,
            body,
            ..
        } => push_function(out, name, params.as_slice(), body),
        Decl::Variable { name, value, .. } => push_variable(out, name, value),
    }
}

/// Appends the line feed that ends a line.
fn end_line(out: &mut Vec<u8>) -> Result<(), AllocError>
    ensures { OnOk result (out.new.items ≡ out.old.items ++ 10 ∷ []) }
{
    out.push(b'\n')?;
    Ok(())
}

/// Appends the line of a declaration.
#[tactic(auto, using(crate::proofs::WholeLines::whole_line))]
fn push_declaration(out: &mut Vec<u8>, decl: &Decl) -> Result<(), AllocError>
    ensures { OnOk result (out.new.items ≡ out.old.items ++ line_text (declaration_lexemes decl.now)) }
{
    push_first(out, Word::Define)?;
    push_declared(out, decl)?;
    end_line(out)
}

/// Appends the line of what is played.
#[tactic(auto, using(crate::proofs::WholeLines::whole_line))]
fn push_play(out: &mut Vec<u8>, e: &Expr) -> Result<(), AllocError>
    ensures { OnOk result (out.new.items ≡ out.old.items ++ line_text (play_lexemes e.now)) }
{
    push_first(out, Word::Play)?;
    push_expr(out, e)?;
    end_line(out)
}

/// Appends the line of what is played, if anything is.
fn push_played(out: &mut Vec<u8>, played: &Option<Expr>) -> Result<(), AllocError>
    ensures { OnOk result (out.new.items ≡ out.old.items ++ lines_text (play_lines played.now)) }
{
    match played {
        Some(e) => push_play(out, e),
        None => Ok(()),
    }
}

/// Appends the lines of declarations.
fn push_declarations(out: &mut Vec<u8>, decls: &[Decl]) -> Result<(), AllocError>
    ensures { OnOk result (out.new.items ≡ out.old.items ++ lines_text (map declaration_lexemes decls.now)) }
{
    for decl in decls {
        push_declaration(out, decl)?;
    }
    Ok(())
}

/// The canonical text of a tree (`docs/LANGUAGE.md`, "Canonical text"): lexed and parsed, it is
/// this tree again with other places.
///
/// The tree is no higher than a text's may be, as each tree is that was parsed. The time is linear
/// in the text's length, and the depth of the calls in the tree's height.
#[tactic(auto, using(crate::proofs::WholeLines::more_lines), unfolding(crate::specs::Canonical::canonical_text))]
pub fn canonical(alloc: Global, tree: &Tree) -> Result<Vec<u8>, AllocError>
    requires within { canonical_height tree.now ≤ height_limit }
    ensures text { IfOk result (λ bytes. bytes.items ≡ canonical_text tree.now) }
{
    let mut out = Vec::new(alloc);
    push_declarations(&mut out, tree.decls.as_slice())?;
    push_played(&mut out, &tree.play)?;
    Ok(out)
}

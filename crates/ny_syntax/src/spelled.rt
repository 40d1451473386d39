ghost use Rattle.std.specs.Prelude.{◌≡◌, ◌∷◌, ◌++◌, [], OnOk};
ghost use Rattle.ny_syntax.specs.Canonical.{comma_after};
ghost use Rattle.ny_syntax.specs.Spelled.{mark_text, word_text, onto, lexeme, sign, reserved, hash_if, number, name};

use crate::token::{Mark, Word};
use crate::tree::Name;
use ny_num::{Fix, push_decimal};
use std::alloc::AllocError;

/// The bytes of a sign.
fn mark_text(mark: Mark) -> &'static str
    ensures { result.now ≡ mark_text mark }
{
    match mark {
        Mark::Open => "(",
        Mark::Close => ")",
        Mark::Comma => ",",
        Mark::Plus => "+",
        Mark::Minus => "-",
        Mark::Times => "*",
        Mark::Over => "/",
        Mark::At => "@",
        Mark::Tilde => "~",
        Mark::Equal => "=",
        Mark::NotEqual => "!=",
        Mark::Less => "<",
        Mark::Greater => ">",
        Mark::LessEqual => "<=",
        Mark::GreaterEqual => ">=",
        Mark::And => "&",
        Mark::Or => "|",
        Mark::Not => "!",
    }
}

/// The bytes of a reserved word.
fn word_text(word: Word) -> &'static str
    ensures { result.now ≡ word_text word }
{
    match word {
        Word::Define => "define",
        Word::Function => "function",
        Word::Variable => "variable",
        Word::Begin => "begin",
        Word::With => "with",
        Word::End => "end",
        Word::Return => "return",
        Word::Play => "play",
    }
}

/// Appends the reserved word that a line begins with.
pub fn push_first(out: &mut Vec<u8>, word: Word) -> Result<(), AllocError>
    ensures { OnOk result (out.new.items ≡ out.old.items ++ word_text word) }
{
    out.extend_from_slice(word_text(word).as_bytes())
}

/// Appends the space between two tokens.
fn push_space(out: &mut Vec<u8>) -> Result<(), AllocError>
    ensures { OnOk result (out.new.items ≡ out.old.items ++ 32 ∷ []) }
{
    out.push(b' ')?;
    Ok(())
}

/// Appends a space and the bytes of a token.
fn push_spaced(out: &mut Vec<u8>, bytes: &[u8]) -> Result<(), AllocError>
    ensures { OnOk result (out.new.items ≡ out.old.items ++ 32 ∷ bytes.now) }
{
    push_space(out)?;
    out.extend_from_slice(bytes)
}

/// Appends a sign after a space.
pub fn push_mark(out: &mut Vec<u8>, mark: Mark) -> Result<(), AllocError>
    ensures { OnOk result (out.new.items ≡ onto out.old.items (sign mark ∷ [])) }
{
    push_spaced(out, mark_text(mark).as_bytes())
}

/// Appends a comma where something stands before.
pub fn push_comma(out: &mut Vec<u8>, some: bool) -> Result<(), AllocError>
    ensures { OnOk result (out.new.items ≡ onto out.old.items (comma_after some)) }
{
    if some {
        return push_mark(out, Mark::Comma);
    }
    Ok(())
}

/// Appends a reserved word after a space.
pub fn push_word(out: &mut Vec<u8>, word: Word) -> Result<(), AllocError>
    ensures { OnOk result (out.new.items ≡ onto out.old.items (reserved word ∷ [])) }
{
    push_spaced(out, word_text(word).as_bytes())
}

/// Appends `#if` after a space.
pub fn push_if(out: &mut Vec<u8>) -> Result<(), AllocError>
    ensures { OnOk result (out.new.items ≡ onto out.old.items (hash_if ∷ [])) }
{
    push_spaced(out, b"#if")
}

/// Appends a name after a space.
pub fn push_name(out: &mut Vec<u8>, named: &Name) -> Result<(), AllocError>
    ensures { OnOk result (out.new.items ≡ onto out.old.items (name named.now ∷ [])) }
{
    push_spaced(out, named.bytes.as_slice())
}

/// Appends a number after a space.
pub fn push_number(out: &mut Vec<u8>, value: Fix) -> Result<(), AllocError>
    ensures { OnOk result (out.new.items ≡ onto out.old.items (number value ∷ [])) }
{
    push_space(out)?;
    push_decimal(out, value)
}

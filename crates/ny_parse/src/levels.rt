ghost use Rattle.std.specs.Prelude.{◌≡◌, ◌≤◌};
ghost use Rattle.ny_syntax.specs.Levels.{level_of, left_least, right_least, operator_of, prefix_of};

use ny_syntax::{BinOp, Mark, PreOp, TokenKind};

/// How tightly numbers, names, calls, `#if`, blocks and brackets bind.
pub const OPERAND: u8 = 8;

/// How tightly an expression with `-` or `!` before it binds.
pub const PREFIX: u8 = 7;

/// How tightly an operator between two expressions binds, and 0 of any other token (`docs/LANGUAGE.md`,
/// "Grammar").
pub fn level_of(kind: TokenKind) -> u8
    ensures value { result ≡ level_of kind }
    ensures bound { result ≤ 6 }
{
    match kind {
        TokenKind::Sign(Mark::Or) => 1,
        TokenKind::Sign(Mark::And) => 2,
        TokenKind::Sign(
            Mark::Equal
            | Mark::NotEqual
            | Mark::Less
            | Mark::Greater
            | Mark::LessEqual
            | Mark::GreaterEqual,
        ) => 3,
        TokenKind::Sign(Mark::Plus | Mark::Minus) => 4,
        TokenKind::Sign(Mark::Times | Mark::Over) => 5,
        TokenKind::Sign(Mark::At | Mark::Tilde) => 6,
        _ => 0,
    }
}

/// How tightly the left side of an operator must bind: a comparison has no other one for its side.
pub fn left_least(kind: TokenKind) -> u8
    ensures { result ≡ left_least kind }
{
    match kind {
        TokenKind::Sign(
            Mark::Equal
            | Mark::NotEqual
            | Mark::Less
            | Mark::Greater
            | Mark::LessEqual
            | Mark::GreaterEqual,
        ) => 4,
        _ => level_of(kind),
    }
}

/// How tightly the right side of an operator must bind.
pub fn right_least(kind: TokenKind) -> u8
    ensures { result ≡ right_least kind }
{
    1 + level_of(kind)
}

/// The operator that a token between two expressions is.
pub fn operator_of(kind: TokenKind) -> BinOp
    ensures { result ≡ operator_of kind }
{
    match kind {
        TokenKind::Sign(Mark::Or) => BinOp::Or,
        TokenKind::Sign(Mark::And) => BinOp::And,
        TokenKind::Sign(Mark::Equal) => BinOp::Eq,
        TokenKind::Sign(Mark::NotEqual) => BinOp::Ne,
        TokenKind::Sign(Mark::Less) => BinOp::Lt,
        TokenKind::Sign(Mark::Greater) => BinOp::Gt,
        TokenKind::Sign(Mark::LessEqual) => BinOp::Le,
        TokenKind::Sign(Mark::GreaterEqual) => BinOp::Ge,
        TokenKind::Sign(Mark::Plus) => BinOp::Add,
        TokenKind::Sign(Mark::Minus) => BinOp::Sub,
        TokenKind::Sign(Mark::Times) => BinOp::Mul,
        TokenKind::Sign(Mark::Over) => BinOp::Div,
        TokenKind::Sign(Mark::At) => BinOp::At,
        _ => BinOp::Stretch,
    }
}

/// The operator that a sign before an expression is.
pub fn prefix_of(kind: TokenKind) -> PreOp
    ensures { result ≡ prefix_of kind }
{
    match kind {
        TokenKind::Sign(Mark::Minus) => PreOp::Minus,
        _ => PreOp::Not,
    }
}

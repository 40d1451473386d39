use ny_num::Fix;

/// A reserved word (`docs/LANGUAGE.md`, "Tokens").
#[derive(Clone, Copy)]
pub enum Word {
    Define,
    Function,
    Variable,
    Begin,
    With,
    End,
    Return,
    Play,
}

/// A sign (`docs/LANGUAGE.md`, "Tokens").
#[derive(Clone, Copy)]
pub enum Mark {
    /// `(`
    Open,
    /// `)`
    Close,
    /// `,`
    Comma,
    /// `+`
    Plus,
    /// `-`
    Minus,
    /// `*`
    Times,
    /// `/`
    Over,
    /// `@`
    At,
    /// `~`
    Tilde,
    /// `=`
    Equal,
    /// `!=`
    NotEqual,
    /// `<`
    Less,
    /// `>`
    Greater,
    /// `<=`
    LessEqual,
    /// `>=`
    GreaterEqual,
    /// `&`
    And,
    /// `|`
    Or,
    /// `!`
    Not,
}

/// What a token is. A name's bytes are those of the text from `from` to `to`, folded to lower case.
#[derive(Clone, Copy)]
pub enum TokenKind {
    Name,
    Number(Fix),
    Reserved(Word),
    Sign(Mark),
    /// `#if`
    If,
}

/// A token: what it is, the place of its first byte, and the place past its last.
#[derive(Clone, Copy)]
pub struct Token {
    pub kind: TokenKind,
    pub from: u32,
    pub to: u32,
}

use ny_syntax::{Bind, Expr, Name, Param, Token};
use sqlite_items::Items;

/// A name and its place.
#[derive(Drop)]
pub struct Label {
    pub at: u32,
    pub name: Name,
}

/// An expression that was read, how many constructs may still enclose it within the greatest height, and
/// how tightly its outermost part binds (`docs/LANGUAGE.md`, "Grammar").
#[derive(Drop)]
pub struct Measured {
    pub expr: Expr,
    pub spare: u32,
    pub level: u8,
}

/// What has begun and goes on after the expression that is read next.
#[derive(Drop)]
pub enum Frame {
    /// `define variable NAME =`
    Variable {
        name: Label,
    },
    /// `define function NAME ( params ) return`
    Function {
        name: Label,
        params: Items<Param>,
    },
    /// `define function NAME ( params )`, before a block
    BlockFunction {
        name: Label,
        params: Items<Param>,
    },
    /// `play`
    Play {
        start: Token,
    },
    /// `(`
    Group,
    /// `-` or `!`
    Prefix {
        sign: Token,
    },
    /// A left side and its operator.
    Right {
        left: Measured,
        operator: Token,
    },
    /// A called name, `(`, and the arguments before this one.
    Argument {
        name: Label,
        before: Items<Expr>,
        spare: u32,
    },
    /// `#if (`
    Test {
        start: Token,
    },
    /// `#if ( test ,`
    Chosen {
        start: Token,
        test: Measured,
    },
    /// `#if ( test , chosen ,`
    Otherwise {
        start: Token,
        test: Measured,
        chosen: Measured,
    },
    /// `begin with`, the binds before this one, and `NAME =`
    Value {
        start: Token,
        before: Items<Bind>,
        spare: u32,
        name: Label,
    },
    /// `begin`, its binds if any, and `return`
    Returned {
        start: Token,
        binds: Items<Bind>,
        spare: u32,
    },
}

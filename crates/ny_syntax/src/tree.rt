use ny_num::Fix;
use sqlite_items::{Boxed, Items};

/// A name by its bytes, folded to lower case.
#[derive(Drop)]
pub struct Name {
    pub bytes: Items<u8>,
}

/// An operator between two expressions.
#[derive(Clone, Copy)]
pub enum BinOp {
    Or,
    And,
    Eq,
    Ne,
    Lt,
    Gt,
    Le,
    Ge,
    Add,
    Sub,
    Mul,
    /// Division; its right side is a literal.
    Div,
    At,
    Stretch,
}

/// An operator before an expression.
#[derive(Clone, Copy)]
pub enum PreOp {
    Minus,
    Not,
}

/// An expression and its place: the operator's byte of a binary expression, else the first byte of
/// its first token. An expression in brackets has its place inside them.
#[cycle(tree)]
#[derive(Drop)]
pub struct Expr {
    pub at: u32,
    pub form: Form,
}

/// What an expression is made of.
#[cycle(tree)]
#[derive(Drop)]
pub enum Form {
    Number(Fix),
    Name(Name),
    Call(Name, Items<Expr>),
    If(Boxed<Expr>, Boxed<Expr>, Boxed<Expr>),
    Block(Items<Bind>, Boxed<Expr>),
    Binary(BinOp, Boxed<Expr>, Boxed<Expr>),
    Prefix(PreOp, Boxed<Expr>),
}

/// A name that a block gives to a value, at the name's place.
#[cycle(tree)]
#[derive(Drop)]
pub struct Bind {
    pub at: u32,
    pub name: Name,
    pub value: Expr,
}

/// A name that a function gives to an argument, at the name's place.
#[derive(Drop)]
pub struct Param {
    pub at: u32,
    pub name: Name,
}

/// A declaration, at its name's place.
#[derive(Drop)]
pub enum Decl {
    Function {
        at: u32,
        name: Name,
        params: Items<Param>,
        body: Expr,
    },
    Variable {
        at: u32,
        name: Name,
        value: Expr,
    },
}

/// A whole text: its declarations, what it plays, the place of `play` (the text's length where there
/// is none) and the text's length.
#[derive(Drop)]
pub struct Tree {
    pub decls: Items<Decl>,
    pub play: Option<Expr>,
    pub play_at: u32,
    pub end: u32,
}

use crate::builtin::{Operator, Order, Rated};
use ny_num::{Fix, Rate};
use ny_scope::Key;
use sqlite_items::{Boxed, Items};

/// A local name, by the byte where it is bound: each parameter, bind and counter has its own.
#[derive(Clone, Copy, PartialEq, Eq, Hash)]
pub struct NameId(pub u32);

impl Key for NameId {
    fn copied(&self) -> NameId {
        *self
    }
}

/// An expression that was read, at its place in the text.
#[cycle(term)]
#[derive(Drop)]
pub struct Part {
    pub at: u32,
    pub term: Term,
}

/// What an expression is, each name told by what it stands for. Declarations are told by their numbers, from 0.
#[cycle(term)]
#[derive(Drop)]
pub enum Term {
    Number(Fix),
    /// A parameter, a bind or a counter.
    Local(NameId),
    /// A global variable, by the number of its declaration.
    Global(u32),
    /// A call of a function, by the number of its declaration.
    Call(u32, Items<Part>),
    Block(Items<Bound>, Boxed<Part>),
    Apply(Operator, Items<Part>),
    /// A division by a literal.
    Over(Boxed<Part>, Fix),
    /// `simrep` and `seqrep`: how often, and the part with its counter.
    Repeat(Order, NameId, u32, Boxed<Part>),
    /// The part of a repeat whose first argument is no bare name, which is a fault.
    Nameless(Boxed<Part>),
    /// `warp`: the literals of the map, and what is warped.
    Warp(Items<Fix>, Boxed<Part>),
    Rate(Rated, Rate, Boxed<Part>),
}

/// A name that a block gives to a value.
#[cycle(term)]
#[derive(Drop)]
pub struct Bound {
    pub name: NameId,
    pub value: Part,
}

/// A declaration that was read. A variable has no parameters, and its body is its value.
#[derive(Drop)]
pub struct Declared {
    pub params: Items<NameId>,
    pub body: Part,
    pub is_variable: bool,
}

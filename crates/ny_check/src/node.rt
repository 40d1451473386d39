use ny_kernels::Op;
use ny_num::{Fix, Rate};
use ny_resolve::{NameId, Order, Rated, Relation};
use ny_warp::Map;
use sqlite_items::Items;

/// An expression, by its place in a program's table.
#[derive(Clone, Copy, PartialEq, Eq)]
pub struct ExprId(pub u32);

/// A function, by the number of its declaration among all declarations of the text.
#[derive(Clone, Copy, PartialEq, Eq)]
pub struct FunctionId(pub u32);

/// What makes a sound of numbers alone.
#[derive(Clone, Copy, PartialEq, Eq)]
pub enum Generator {
    Const,
    Osc,
    HzOsc,
    Lfo,
    Noise,
    Rest,
    Ramp,
    Pwl,
}

/// What makes a sound of one sound, at its own rate, and of numbers.
#[derive(Clone, Copy, PartialEq, Eq)]
pub enum Effect {
    Abs,
    OnePole,
    Biquad,
    Comb,
}

/// What changes an environment by a number.
#[derive(Clone, Copy, PartialEq, Eq)]
pub enum Transformation {
    At,
    Stretch,
    Loud,
    Sustain,
    Transpose,
}

/// How the environment of an expression is changed.
#[derive(Drop)]
pub enum Change {
    By(Transformation, ExprId),
    Warp(Map),
    Rate(Rated, Rate),
}

/// An expression of an accepted text, by its family (`docs/DEFINITIONS.md`, "Programs"): what the
/// operators of a family share stands in the variant, and the operator is data. The operands stand in the
/// order of the arguments (`docs/LANGUAGE.md`, "Kinds"), a change before what it changes; literal counts,
/// divisors, rates and maps are read.
#[derive(Drop)]
pub enum Node {
    Number(Fix),
    /// A parameter, a bind or a counter.
    Local(NameId),
    /// The value of a global variable.
    Global(ExprId),
    Call(FunctionId, Items<ExprId>),
    Block(Items<(NameId, ExprId)>, ExprId),
    /// Two numbers or sounds by one operation.
    Pair(Op, ExprId, ExprId),
    /// Division by a literal above 0.
    Div(ExprId, Fix),
    Neg(ExprId),
    Compare(Relation, ExprId, ExprId),
    And(ExprId, ExprId),
    Or(ExprId, ExprId),
    Not(ExprId),
    If(ExprId, ExprId, ExprId),
    /// A sound that is made of these numbers.
    Leaf(Generator, Items<ExprId>),
    /// A sound, and the numbers after it.
    Effect(Effect, ExprId, Items<ExprId>),
    Cue(ExprId),
    /// `sim` and `seq`.
    Mix(Order, Items<ExprId>),
    /// `simrep` and `seqrep`: the counter, how often, and the part.
    Repeat(Order, NameId, u32, ExprId),
    /// An expression in another environment.
    Change(Change, ExprId),
    Vector(Items<ExprId>),
}

/// A declaration: its parameters and its body. A global variable has no parameters, and its body is its
/// value.
#[derive(Drop)]
pub struct Function {
    pub params: Items<NameId>,
    pub body: ExprId,
}

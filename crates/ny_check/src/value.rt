use crate::node::ExprId;
use ny_num::Fix;
use ny_resolve::NameId;
use sqlite_items::Items;

/// What a name stands for.
#[derive(Drop)]
pub enum Value<S> {
    Number(Fix),
    Sound(S),
}

/// What local names stand for; the last pair of a name counts.
#[derive(Drop)]
pub struct Binds<S> {
    pub names: Items<(NameId, Value<S>)>,
}

/// What an expression is, with its value where it is no sound.
#[derive(Clone, Copy, PartialEq, Eq)]
pub enum Scalar {
    Number(Fix),
    Test(bool),
    Sound,
}

/// The value of a global variable, which stands at this place of the table.
#[derive(Clone, Copy, PartialEq, Eq)]
pub(crate) struct GlobalValue {
    pub(crate) at: ExprId,
    pub(crate) value: Scalar,
}

use crate::frame::{Label, Measured};
use ny_syntax::{Bind, Param, Token};
use sqlite_items::Items;

/// What was read last, and so what may come next.
#[derive(Drop)]
pub enum State {
    /// Nothing, or a whole declaration.
    Between,
    /// `define`
    Define,
    /// `define function`
    FunctionWord,
    /// `define function NAME`
    FunctionName {
        name: Label,
    },
    /// `define function NAME (`
    ParamsOpen {
        name: Label,
    },
    /// A parameter and a comma.
    ParamsComma {
        name: Label,
        params: Items<Param>,
    },
    /// A parameter.
    ParamsName {
        name: Label,
        params: Items<Param>,
    },
    /// `define function NAME ( params )`
    ParamsClose {
        name: Label,
        params: Items<Param>,
    },
    /// `define variable`
    VariableWord,
    /// `define variable NAME`
    VariableName {
        name: Label,
    },
    /// What an expression follows.
    Before,
    /// A name in an expression.
    Named {
        name: Label,
    },
    /// An expression.
    Whole {
        whole: Measured,
    },
    /// An expression and `/`
    Divided {
        left: Measured,
        operator: Token,
    },
    /// A called name and `(`
    CallOpen {
        name: Label,
    },
    /// `#if`
    If {
        start: Token,
    },
    /// `begin`
    Begin {
        start: Token,
    },
    /// `begin with`, or a bind and a comma.
    Binds {
        start: Token,
        before: Items<Bind>,
        spare: u32,
    },
    /// The name of a bind.
    BindName {
        start: Token,
        before: Items<Bind>,
        spare: u32,
        name: Label,
    },
}

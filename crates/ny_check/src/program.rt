ghost use Rattle.std.specs.Prelude.{◌≡◌, ◌<◌, ◌≤◌, length, get_or, [], Contains, IfSome, OnOk};
ghost use Rattle.ny_check.specs.Code.{Code, node_at, function_at, IsBelow, IsOrdered};
ghost use Rattle.ny_check.specs.Texts.{IsAccepted};
ghost use Rattle.ny_check.specs.Values.{scalar_of};

use crate::node::{ExprId, Function, FunctionId, Node};
use crate::value::{GlobalValue, Scalar};
use ny_resolve::NameId;
use sqlite_items::Items;
use std::alloc::{AllocError, Global};
use std::marker::Model;

/// An accepted text: a table of nodes, each of which names only nodes before it
/// (`docs/DEFINITIONS.md`, "Programs").
#[derive(Drop)]
pub struct Program {
    nodes: Vec<Node>,
    functions: Vec<Function>,
    play: ExprId,
    channels: u32,
    free: Vec<Items<NameId>>,
    /// The values of global variables that are known, in the order of the table.
    globals: Vec<GlobalValue>,
}

impl Model for Program {
    ghost use Rattle.std.specs.Prelude.{All};
    ghost use Rattle.ny_check.specs.Code.{Code, IsOrdered};
    ghost use Rattle.ny_check.specs.Globals.{IsKept};
    ghost use Rattle.ny_check.specs.Texts.{IsAccepted};

    ghost Value = { Code };

    ghost view = { λ p. record { nodes = p.nodes.items; functions = p.functions.items; play = p.play; channels = p.channels; free = p.free.items } };

    ghost invariant = { λ p. IsOrdered (record { nodes = p.nodes.items; functions = p.functions.items; play = p.play; channels = p.channels; free = p.free.items }) × IsAccepted (record { nodes = p.nodes.items; functions = p.functions.items; play = p.play; channels = p.channels; free = p.free.items }) × All (IsKept (record { nodes = p.nodes.items; functions = p.functions.items; play = p.play; channels = p.channels; free = p.free.items })) p.globals.items };
}

/// The value of the global variable at a place of the table, by binary search; none where it is not kept.
fn value_among(values: &[GlobalValue], e: ExprId) -> Option<Scalar>
    ensures { IfSome result (λ value. Contains values.now (record { at = e; value = value })) }
{
    let id = e.0;
    let place = values.partition_point(|kept: &GlobalValue| -> bool { kept.at.0 < id });
    let kept = values.get(place)?;
    if kept.at.0 == id {
        Some(kept.value)
    } else {
        None
    }
}

impl Program {
    /// A table of which no value is known yet.
    pub(crate) fn of(
        alloc: Global,
        nodes: Vec<Node>,
        functions: Vec<Function>,
        play: ExprId,
        channels: u32,
        free: Vec<Items<NameId>>,
    ) -> Program
        requires ordered { IsOrdered (record { nodes = nodes.items; functions = functions.items; play = play; channels = channels; free = free.items }) }
        requires accepted { IsAccepted (record { nodes = nodes.items; functions = functions.items; play = play; channels = channels; free = free.items }) }
        ensures { result ≡ record { nodes = nodes.items; functions = functions.items; play = play; channels = channels; free = free.items } }
    {
        Program {
            nodes,
            functions,
            play,
            channels,
            free,
            globals: Vec::new(alloc),
        }
    }

    /// The law of a table's order (`docs/DEFINITIONS.md`, "Programs").
    pub fn order_law(&self)
        ensures ordered { IsOrdered self.now }
    {
        let _ = &self.nodes;
    }

    /// The law of texts: each program is that of an accepted text (`docs/DEFINITIONS.md`, "Programs").
    pub fn text_law(&self)
        ensures accepted { IsAccepted self.now }
    {
        let _ = &self.nodes;
    }

    /// A node of the table. The nodes that it names stand before it.
    pub fn node(&self, e: ExprId) -> &Node
        requires { e.0 < length self.now.nodes }
        ensures value { result.now ≡ node_at self.now e.0 }
        ensures ordered { IsBelow self.now.functions e.0 result.now }
    {
        &self.nodes[e.0 as usize]
    }

    /// What is played.
    pub fn play(&self) -> ExprId
        ensures value { result ≡ self.now.play }
        ensures within { result.0 < length self.now.nodes }
    {
        self.play
    }

    /// How many channels are played, from 1 to 8.
    pub fn channels(&self) -> u32
        ensures value { result ≡ self.now.channels }
        ensures within { (1 ≤ result) × (result ≤ 8) }
    {
        self.channels
    }

    /// The body of a function.
    pub fn body(&self, f: FunctionId) -> ExprId
        requires { f.0 < length self.now.functions }
        ensures value { result ≡ (function_at self.now f.0).body }
        ensures within { result.0 < length self.now.nodes }
    {
        self.functions[f.0 as usize].body
    }

    /// The parameters of a function, in order.
    pub fn params(&self, f: FunctionId) -> &[NameId]
        requires { f.0 < length self.now.functions }
        ensures { result.now ≡ (function_at self.now f.0).params }
    {
        self.functions[f.0 as usize].params.as_slice()
    }

    /// The free names of a part of `seq` or of the body of a `seqrep`, in the order of their first use; of
    /// any other node none.
    pub fn free(&self, e: ExprId) -> &[NameId]
        requires { e.0 < length self.now.nodes }
        ensures { result.now ≡ get_or self.now.free e.0 [] }
    {
        self.free[e.0 as usize].as_slice()
    }

    /// The body of the declaration of this number.
    pub(crate) fn declared(&self, number: usize) -> Option<ExprId>
        ensures { IfSome result (λ body. body.0 < length self.now.nodes) }
    {
        match self.functions.get(number) {
            Some(function) => Some(function.body),
            None => None,
        }
    }

    /// Keeps the value of a global variable that stands behind all whose values are kept.
    pub(crate) fn keep(&mut self, at: ExprId, value: Scalar) -> Result<(), AllocError>
        requires { value ≡ scalar_of self.old at.0 [] }
        ensures { OnOk result (self.new ≡ self.old) }
    {
        self.globals.push(GlobalValue { at, value })?;
        Ok(())
    }

    /// The value of a global variable, where it is kept.
    pub(crate) fn kept(&self, e: ExprId) -> Option<Scalar>
        ensures { IfSome result (λ value. value ≡ scalar_of self.now e.0 []) }
    {
        value_among(self.globals.as_slice(), e)
    }
}

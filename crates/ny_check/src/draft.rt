ghost use Rattle.std.specs.Prelude.{◌≡◌, ◌+◌, ◌<◌, ◌≤◌, ◌^◌, ◌++◌, ◌∷◌, [], length, IfOk, OnOk, IfSome, get_or};
ghost use Rattle.ny_check.specs.Code.{IsBelow, no_function};
ghost use Rattle.ny_check.specs.Texts.{IsAccepted};
ghost use Rattle.ny_check.specs.Writing.{Draft_of, put, body_of, empty};

use crate::node::{ExprId, Function, Node};
use crate::program::Program;
use ny_resolve::NameId;
use sqlite_items::Items;
use std::alloc::{AllocError, Global};
use std::marker::Model;

/// A program that is being written: each node names only nodes before it, and each body stands.
#[derive(Drop)]
pub(crate) struct Draft {
    nodes: Vec<Node>,
    free: Vec<Items<NameId>>,
    functions: Vec<Function>,
}

impl Model for Draft {
    ghost use Rattle.ny_check.specs.Code.{AllOrdered, HasBodies};
    ghost use Rattle.ny_check.specs.Writing.{Draft_of};

    ghost Value = { Draft_of };

    ghost view = { λ d. record { table = record { nodes = d.nodes.items; free = d.free.items }; functions = d.functions.items } };

    ghost use Rattle.std.specs.Prelude.{◌≤◌, length};

    ghost invariant = { λ d. AllOrdered d.nodes.items d.functions.items × HasBodies d.nodes.items d.functions.items × (length d.nodes.items ≤ length d.free.items) };
}

impl Draft {
    pub(crate) fn new(alloc: Global) -> Draft
        ensures { result ≡ empty }
    {
        Draft {
            nodes: Vec::new(alloc),
            free: Vec::new(alloc),
            functions: Vec::new(alloc),
        }
    }

    /// Adds a node that names only nodes before it, and the free names that are kept of it.
    #[tactic(auto, using(crate::proofs::Grown::pushed_node))]
    pub(crate) fn put(&mut self, node: Node, names: Items<NameId>) -> Result<ExprId, AllocError>
        requires below { IsBelow self.old.functions (length self.old.table.nodes) node }
        requires room { length self.old.table.nodes < 2 ^ 32 }
        ensures written { IfOk result (λ id. record { table = self.new.table; id = id } ≡ put node names self.old.table) }
        ensures within { IfOk result (λ id. id.0 < length self.new.table.nodes) }
        ensures grown { OnOk result (length self.new.table.nodes ≡ length self.old.table.nodes + 1) }
        ensures functions { OnOk result (self.new.functions ≡ self.old.functions) }
    {
        let id = ExprId(self.nodes.len() as u32);
        self.free.push(names)?;
        self.nodes.push(node)?;
        Ok(id)
    }

    /// Adds a declaration, whose body stands already.
    #[tactic(auto, using(crate::proofs::Grown::pushed_function))]
    pub(crate) fn declare(&mut self, function: Function) -> Result<(), AllocError>
        requires { function.body.0 < length self.old.table.nodes }
        ensures table { OnOk result (self.new.table ≡ self.old.table) }
        ensures functions { OnOk result (self.new.functions ≡ self.old.functions ++ function ∷ []) }
    {
        self.functions.push(function)?;
        Ok(())
    }

    /// The declaration of this number, as far as it is written.
    pub(crate) fn body(&self, number: u32) -> Option<ExprId>
        ensures value { result ≡ body_of self.now.functions number }
        ensures within { IfSome result (λ id. id.0 < length self.now.table.nodes) }
        ensures callable { IfSome result (λ id. (number < length self.now.functions) × ((get_or self.now.functions number no_function).body.0 < length self.now.table.nodes)) }
    {
        match self.functions.get(number as usize) {
            Some(function) => Some(function.body),
            None => None,
        }
    }

    /// The program that plays this.
    pub(crate) fn finish(self, alloc: Global, play: ExprId, channels: u32) -> Program
        requires play { play.0 < length self.table.nodes }
        requires channels { (1 ≤ channels) × (channels ≤ 8) }
        requires accepted { IsAccepted (record { nodes = self.table.nodes; functions = self.functions; play = play; channels = channels; free = self.table.free }) }
        ensures { result ≡ record { nodes = self.table.nodes; functions = self.functions; play = play; channels = channels; free = self.table.free } }
    {
        let Draft {
            nodes,
            free,
            functions,
        } = self;
        Program::of(alloc, nodes, functions, play, channels, free)
    }
}

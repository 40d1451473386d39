ghost use Rattle.std.specs.Prelude.{◌≡◌, ◌≤◌, ◌++◌, ◌∷◌, [], length, Option, None, IfOk, IfErr};
ghost use Rattle.ny_syntax.specs.Grammar.{HasTree};
ghost use Rattle.ny_syntax.specs.Places.{AreInOrder};
ghost use Rattle.ny_parse.specs.Reading.{AreSlices};
ghost use Rattle.ny_syntax.specs.declared.tree.Tree.{Tree};
ghost use Rattle.ny_parse.specs.Prefix.{HasNone, IsPlace};
ghost use Rattle.ny_parse.specs.declared.state.State.TheVariants.{Between};
ghost use Rattle.ny_parse.specs.Reading.{Answers, Tells, reading, finish, whole_end, settled_end, ended, tree};

use crate::fault::ParseFault;
use crate::frame::{Frame, Label, Measured};
use crate::nodes::named;
use crate::reader::Reader;
use crate::stack::Stack;
use crate::state::State;
use ny_syntax::{Decl, Expr, Param, Token, Tree};
use sqlite_items::Items;
use std::alloc::{AllocError, Global};

/// The fault of a text that ends too early, with all that was read and is given up with it.
fn ends_early<T: Drop>(text: &[u8], _read: T) -> ParseFault
    requires { length text.now ≤ 1048576 }
    ensures { result ≡ ParseFault.At (length text.now) }
{
    ParseFault::At {
        at: text.len() as u32,
    }
}

impl Reader {
    fn new(alloc: Global) -> Reader
        ensures { result ≡ record { stack = []; decls = [] } }
    {
        Reader {
            stack: Stack::new(alloc),
            decls: Items::new(alloc),
        }
    }

    /// The tree of declarations and no `play`.
    fn silent(self, text: &[u8]) -> Tree
        requires { length text.now ≤ 1048576 }
        ensures { result ≡ tree text.now self.decls None (length text.now) }
    {
        let end = text.len() as u32;
        Tree {
            decls: self.decls,
            play: None,
            play_at: end,
            end,
        }
    }

    /// The tree, where the text ends after the whole expression inside this construct.
    #[tactic(auto, unfolding(crate::specs::Reading::ended))]
    fn ended(self, text: &[u8], whole: Measured, frame: Frame) -> Result<Tree, ParseFault>
        requires { length text.now ≤ 1048576 }
        ensures { Tells result (length text.now) (ended text.now frame whole self.decls) }
    {
        let mut reader = self;
        let end = text.len() as u32;
        match frame {
            Frame::Variable { name } => {
                reader.decls.push(Decl::Variable {
                    at: name.at,
                    name: name.name,
                    value: whole.expr,
                })?;
                Ok(reader.silent(text))
            }
            Frame::Function { name, params } => {
                reader.decls.push(Decl::Function {
                    at: name.at,
                    name: name.name,
                    params,
                    body: whole.expr,
                })?;
                Ok(reader.silent(text))
            }
            Frame::Play { start } => Ok(Tree {
                decls: reader.decls,
                play: Some(whole.expr),
                play_at: start.from,
                end,
            }),
            _ => Err(ParseFault::At { at: end }),
        }
    }

    /// The tree, where the text ends after an expression that is part of no other.
    #[tactic(auto, unfolding(crate::specs::Reading::settled_end))]
    fn settled_end(self, text: &[u8], whole: Measured) -> Result<Tree, ParseFault>
        requires { length text.now ≤ 1048576 }
        ensures { Tells result (length text.now) (settled_end text.now whole self.stack self.decls) }
    {
        let mut reader = self;
        match reader.stack.pop() {
            Some(frame) => reader.ended(text, whole, frame),
            None => Err(ends_early(text, (reader, whole))),
        }
    }

    /// The tree, where an expression ends the text.
    #[tactic(auto, unfolding(crate::specs::Reading::whole_end))]
    fn whole_end(self, alloc: Global, text: &[u8], whole: Measured) -> Result<Tree, ParseFault>
        requires { length text.now ≤ 1048576 }
        ensures { Tells result (length text.now) (whole_end text.now whole self.stack self.decls) }
    {
        let mut reader = self;
        let settled = reader.settle(alloc, 0, whole)?;
        reader.settled_end(text, settled)
    }

    /// The tree, where the text ends after what was read last.
    #[tactic(auto, unfolding(crate::specs::Reading::finish))]
    fn finish(self, alloc: Global, text: &[u8], state: State) -> Result<Tree, ParseFault>
        requires { length text.now ≤ 1048576 }
        ensures { Tells result (length text.now) (finish text.now state self.stack self.decls) }
    {
        match state {
            State::Between => Ok(self.silent(text)),
            State::Named { name } => self.whole_end(alloc, text, named(name)),
            State::Whole { whole } => self.whole_end(alloc, text, whole),
            state => Err(ends_early(text, (self, state))),
        }
    }
}

/// What the reader answers on all the tokens.
#[tactic(auto, unfolding(crate::specs::Reading::reading))]
fn read(alloc: Global, text: &[u8], tokens: &[Token]) -> Result<Tree, ParseFault>
    requires size { length text.now ≤ 1048576 }
    requires slices { AreSlices text.now tokens.now }
    ensures { Answers text.now result (reading text.now tokens.now Between [] []) }
{
    let mut reader = Reader::new(alloc);
    let mut state = State::Between;
    for token in tokens {
        state = reader.step(alloc, text, *token, state)?;
    }
    reader.finish(alloc, text, state)
}

/// The tree of a text's tokens (`docs/LANGUAGE.md`, "Grammar"), where no expression is higher than 200.
/// The tokens are those of `lex`: slices of the text, in order.
///
/// # Errors
/// `At` exactly where the tokens have no such tree: at the first byte of the first token that no accepted
/// text goes on with, or at the text's length where all the tokens begin one. `OutOfMemory` where memory ran
/// out.
pub fn parse(alloc: Global, text: &[u8], tokens: &[Token]) -> Result<Tree, ParseFault>
    requires size { length text.now ≤ 1048576 }
    requires in_order { AreInOrder 0 tokens.now (length text.now) }
    ensures tree { IfOk result (λ made. HasTree text.now tokens.now made) }
    ensures only { IfOk result (λ made. (other : Tree) → HasTree text.now tokens.now other → other ≡ made) }
    ensures none { IfErr result (λ fault. HasNone text.now tokens.now fault) }
    ensures place { IfErr result (λ fault. IsPlace text.now tokens.now fault) }
{
    read(alloc, text, tokens)
}

ghost use Rattle.std.specs.Prelude.{◌≡◌, ◌∷◌, ◌++◌, [], min, IfOk, OnOk, Some};
ghost use Rattle.ny_syntax.specs.declared.tree.Decl.TheVariants as decl;
ghost use Rattle.ny_parse.specs.Reading.{Goes, outside, whole_next, named_next, operator_next, settled, group_next, argument_next, test_next, chosen_next, otherwise_next, value_next, block_next, returned_next, closed, close_next};

use crate::declarations::{refused, unexpected};
use crate::fault::ParseFault;
use crate::frame::{Frame, Label, Measured};
use crate::levels::{left_least, level_of, right_least};
use crate::nodes::{binary, block, bound, call, conditional, grouped, lesser, named, prefixed};
use crate::reader::Reader;
use crate::state::State;
use ny_syntax::{Bind, Decl, Expr, Mark, Param, Token, TokenKind, Word};
use sqlite_items::Items;
use std::alloc::{AllocError, Global};

impl Reader {
    /// After the expression inside brackets.
    #[tactic(auto, unfolding(crate::specs::Reading::group_next))]
    fn after_group(&mut self, token: Token, inner: Measured) -> Result<State, ParseFault>
        ensures { Goes result token.from self.new (group_next token.kind inner self.old.stack self.old.decls) }
    {
        match token.kind {
            TokenKind::Sign(Mark::Close) => Ok(State::Whole {
                whole: grouped(inner),
            }),
            _ => Err(refused(token, inner)),
        }
    }

    /// After an argument, with those before it and how many constructs may still enclose the highest of them.
    #[tactic(auto, unfolding(crate::specs::Reading::argument_next))]
    fn after_argument(
        &mut self,
        token: Token,
        name: Label,
        before: Items<Expr>,
        spare: u32,
        whole: Measured,
    ) -> Result<State, ParseFault>
        ensures { Goes result token.from self.new (argument_next token.kind name (before ++ whole.expr ∷ []) (min spare whole.spare) self.old.stack self.old.decls) }
    {
        let spare = lesser(spare, whole.spare);
        let mut arguments = before;
        arguments.push(whole.expr)?;
        match token.kind {
            TokenKind::Sign(Mark::Comma) => {
                self.stack.push(Frame::Argument {
                    name,
                    before: arguments,
                    spare,
                })?;
                Ok(State::Before)
            }
            TokenKind::Sign(Mark::Close) => Ok(State::Whole {
                whole: call(name, arguments, spare),
            }),
            _ => Err(unexpected(token)),
        }
    }

    /// After the test of an `#if`.
    #[tactic(auto, unfolding(crate::specs::Reading::test_next))]
    fn after_test(
        &mut self,
        token: Token,
        start: Token,
        test: Measured,
    ) -> Result<State, ParseFault>
        ensures { Goes result token.from self.new (test_next token.kind start test self.old.stack self.old.decls) }
    {
        match token.kind {
            TokenKind::Sign(Mark::Comma) => {
                self.stack.push(Frame::Chosen { start, test })?;
                Ok(State::Before)
            }
            _ => Err(refused(token, test)),
        }
    }

    /// After the second part of an `#if`.
    #[tactic(auto, unfolding(crate::specs::Reading::chosen_next))]
    fn after_chosen(
        &mut self,
        token: Token,
        start: Token,
        test: Measured,
        chosen: Measured,
    ) -> Result<State, ParseFault>
        ensures { Goes result token.from self.new (chosen_next token.kind start test chosen self.old.stack self.old.decls) }
    {
        match token.kind {
            TokenKind::Sign(Mark::Comma) => {
                self.stack.push(Frame::Otherwise {
                    start,
                    test,
                    chosen,
                })?;
                Ok(State::Before)
            }
            _ => Err(refused(token, (test, chosen))),
        }
    }

    /// After a bind, with those before it and how many constructs may still enclose the highest of them.
    #[tactic(auto, unfolding(crate::specs::Reading::value_next))]
    fn after_value(
        &mut self,
        token: Token,
        start: Token,
        before: Items<Bind>,
        spare: u32,
        bind: Bind,
    ) -> Result<State, ParseFault>
        ensures { Goes result token.from self.new (value_next token.kind start (before ++ bind ∷ []) spare self.old.stack self.old.decls) }
    {
        let mut binds = before;
        binds.push(bind)?;
        match token.kind {
            TokenKind::Sign(Mark::Comma) => Ok(State::Binds {
                start,
                before: binds,
                spare,
            }),
            TokenKind::Reserved(Word::Return) => {
                self.stack.push(Frame::Returned {
                    start,
                    binds,
                    spare,
                })?;
                Ok(State::Before)
            }
            _ => Err(refused(token, binds)),
        }
    }

    /// Goes on with what was read, where the construct round it does not end with it.
    fn put_back<T: Drop>(&mut self, frame: Frame, read: T) -> Result<T, AllocError>
        ensures read { IfOk result (λ x. x ≡ read) }
        ensures stack { OnOk result (self.new.stack ≡ frame ∷ self.old.stack) }
        ensures decls { self.new.decls ≡ self.old.decls }
    {
        self.stack.push(frame)?;
        Ok(read)
    }

    /// A whole block is a function's body, or an expression.
    #[tactic(auto, unfolding(crate::specs::Reading::block_next))]
    fn after_block(&mut self, whole: Measured) -> Result<State, AllocError>
        ensures { IfOk result (λ state. block_next whole self.old.stack self.old.decls ≡ Some (state, self.new)) }
    {
        match self.stack.pop() {
            Some(Frame::BlockFunction { name, params }) => {
                self.decls.push(Decl::Function {
                    at: name.at,
                    name: name.name,
                    params,
                    body: whole.expr,
                })?;
                Ok(State::Between)
            }
            Some(frame) => {
                let whole = self.put_back(frame, whole)?;
                Ok(State::Whole { whole })
            }
            None => Ok(State::Whole { whole }),
        }
    }

    /// After the last part of an `#if`.
    #[tactic(auto, unfolding(crate::specs::Reading::otherwise_next))]
    fn after_otherwise(
        &mut self,
        alloc: Global,
        token: Token,
        start: Token,
        test: Measured,
        chosen: Measured,
        otherwise: Measured,
    ) -> Result<State, ParseFault>
        ensures { Goes result token.from self.new (otherwise_next token.kind start test chosen otherwise self.old.stack self.old.decls) }
    {
        match token.kind {
            TokenKind::Sign(Mark::Close) => Ok(State::Whole {
                whole: conditional(alloc, start, test, chosen, otherwise)?,
            }),
            _ => Err(refused(token, (test, chosen, otherwise))),
        }
    }

    /// After the value of a variable.
    fn after_variable(
        &mut self,
        token: Token,
        name: Label,
        value: Expr,
    ) -> Result<State, ParseFault>
        ensures { Goes result token.from self.new (outside token.kind token self.old.stack (self.old.decls ++ decl.Variable name.at name.name value ∷ [])) }
    {
        self.decls.push(Decl::Variable {
            at: name.at,
            name: name.name,
            value,
        })?;
        self.outside(token)
    }

    /// After the expression that a function returns.
    fn after_function(
        &mut self,
        token: Token,
        name: Label,
        params: Items<Param>,
        body: Expr,
    ) -> Result<State, ParseFault>
        ensures { Goes result token.from self.new (outside token.kind token self.old.stack (self.old.decls ++ decl.Function name.at name.name params body ∷ [])) }
    {
        self.decls.push(Decl::Function {
            at: name.at,
            name: name.name,
            params,
            body,
        })?;
        self.outside(token)
    }

    /// After a block's expression.
    #[tactic(auto, unfolding(crate::specs::Reading::returned_next))]
    fn after_returned(&mut self, token: Token, whole: Measured) -> Result<State, ParseFault>
        ensures { Goes result token.from self.new (returned_next token.kind whole self.old.stack self.old.decls) }
    {
        match token.kind {
            TokenKind::Reserved(Word::End) => Ok(self.after_block(whole)?),
            _ => Err(refused(token, whole)),
        }
    }

    /// A token that is no operator, after the whole expression inside this construct.
    #[tactic(auto, unfolding(crate::specs::Reading::closed))]
    fn close(
        &mut self,
        alloc: Global,
        token: Token,
        whole: Measured,
        frame: Frame,
    ) -> Result<State, ParseFault>
        ensures { Goes result token.from self.new (closed frame token.kind token whole self.old.stack self.old.decls) }
    {
        match frame {
            Frame::Variable { name } => self.after_variable(token, name, whole.expr),
            Frame::Function { name, params } => self.after_function(
                token, name, params, whole.expr,
            ),
            Frame::Group => self.after_group(token, whole),
            Frame::Argument {
                name,
                before,
                spare,
            } => { self.after_argument(token, name, before, spare, whole) }
            Frame::Test { start } => self.after_test(token, start, whole),
            Frame::Chosen { start, test } => self.after_chosen(token, start, test, whole),
            Frame::Otherwise {
                start,
                test,
                chosen,
            } => { self.after_otherwise(alloc, token, start, test, chosen, whole) }
            Frame::Value {
                start,
                before,
                spare,
                name,
            } => {
                let around = lesser(spare, whole.spare);
                self.after_value(token, start, before, around, bound(name, whole.expr))
            }
            Frame::Returned {
                start,
                binds,
                spare,
            } => {
                let made = block(alloc, start, binds, spare, whole)?;
                self.after_returned(token, made)
            }
            frame => Err(refused(token, (whole, frame))),
        }
    }

    /// A token that is no operator, after a whole expression.
    #[tactic(auto, unfolding(crate::specs::Reading::close_next))]
    fn after_settled(
        &mut self,
        alloc: Global,
        token: Token,
        whole: Measured,
    ) -> Result<State, ParseFault>
        ensures { Goes result token.from self.new (close_next token whole self.old.stack self.old.decls) }
    {
        match self.stack.pop() {
            Some(frame) => self.close(alloc, token, whole, frame),
            None => Err(refused(token, whole)),
        }
    }

    /// An operator after an expression, where it binds as tightly as the operator needs and is not too high.
    #[tactic(auto, unfolding(crate::specs::Reading::operator_next))]
    fn after_operator(&mut self, token: Token, left: Measured) -> Result<State, ParseFault>
        ensures { Goes result token.from self.new (operator_next token left self.old.stack self.old.decls) }
    {
        if left_least(token.kind) > left.level || self.stack.len() > left.spare as usize {
            return Err(unexpected(token));
        }
        match token.kind {
            TokenKind::Sign(Mark::Over) => Ok(State::Divided {
                left,
                operator: token,
            }),
            _ => {
                self.stack.push(Frame::Right {
                    left,
                    operator: token,
                })?;
                Ok(State::Before)
            }
        }
    }

    /// Makes an expression part of those round it, up to the one that an operator of this level goes into.
    #[tactic(auto, unfolding(crate::specs::Reading::settled))]
    pub fn settle(
        &mut self,
        alloc: Global,
        next: u8,
        first: Measured,
    ) -> Result<Measured, AllocError>
        ensures value { IfOk result (λ x. (x, self.new.stack) ≡ settled next first self.old.stack) }
        ensures decls { self.new.decls ≡ self.old.decls }
    {
        let mut whole = first;
        loop {
            match self.stack.pop() {
                Some(Frame::Right { left, operator }) => {
                    if next >= right_least(operator.kind) {
                        return Ok(self.put_back(Frame::Right { left, operator }, whole)?);
                    }
                    whole = binary(alloc, left, operator, whole)?;
                }
                Some(Frame::Prefix { sign }) => {
                    whole = prefixed(alloc, sign, whole)?;
                }
                Some(frame) => {
                    return Ok(self.put_back(frame, whole)?);
                }
                None => return Ok(whole),
            }
        }
    }

    /// After a whole expression.
    #[tactic(auto, unfolding(crate::specs::Reading::whole_next))]
    pub fn after_whole(
        &mut self,
        alloc: Global,
        token: Token,
        whole: Measured,
    ) -> Result<State, ParseFault>
        ensures { Goes result token.from self.new (whole_next token whole self.old.stack self.old.decls) }
    {
        let level = level_of(token.kind);
        let settled = self.settle(alloc, level, whole)?;
        if level > 0 {
            self.after_operator(token, settled)
        } else {
            self.after_settled(alloc, token, settled)
        }
    }

    /// After a name in an expression.
    #[tactic(auto, unfolding(crate::specs::Reading::named_next))]
    pub fn after_named(
        &mut self,
        alloc: Global,
        token: Token,
        name: Label,
    ) -> Result<State, ParseFault>
        ensures { Goes result token.from self.new (named_next token.kind token name self.old.stack self.old.decls) }
    {
        match token.kind {
            TokenKind::Sign(Mark::Open) => self.begin_with(token, State::CallOpen { name }),
            _ => self.after_whole(alloc, token, named(name)),
        }
    }
}

ghost use Rattle.std.specs.Prelude.{◌≡◌, ◌≤◌, length};
ghost use Rattle.ny_parse.specs.Reading.{Goes, Tells, outside, define_next, function_word_next, function_name_next, params_open_next, params_comma_next, params_name_next, params_close_next, variable_word_next, variable_name_next};

use crate::fault::ParseFault;
use crate::frame::{Frame, Label};
use crate::nodes::{label, param};
use crate::reader::Reader;
use crate::state::State;
use ny_syntax::{Mark, Param, Token, TokenKind, Word};
use sqlite_items::Items;
use std::alloc::Global;

/// The fault of a token that may not come.
pub fn unexpected(token: Token) -> ParseFault
    ensures { result ≡ ParseFault.At token.from }
{
    ParseFault::At { at: token.from }
}

/// The same, with all that was read before the token and is given up with it.
pub fn refused<T: Drop>(token: Token, _read: T) -> ParseFault
    ensures { result ≡ ParseFault.At token.from }
{
    unexpected(token)
}

/// After `define`.
#[tactic(auto, unfolding(crate::specs::Reading::define_next))]
pub fn after_define(token: Token) -> Result<State, ParseFault>
    ensures { Tells result token.from (define_next token.kind) }
{
    match token.kind {
        TokenKind::Reserved(Word::Function) => Ok(State::FunctionWord),
        TokenKind::Reserved(Word::Variable) => Ok(State::VariableWord),
        _ => Err(unexpected(token)),
    }
}

/// After `define function`.
#[tactic(auto, unfolding(crate::specs::Reading::function_word_next))]
pub fn after_function_word(alloc: Global, text: &[u8], token: Token) -> Result<State, ParseFault>
    requires order { token.from ≤ token.to }
    requires within { token.to ≤ length text.now }
    ensures { Tells result token.from (function_word_next text.now token.kind token) }
{
    match token.kind {
        TokenKind::Name => Ok(State::FunctionName {
            name: label(alloc, text, token)?,
        }),
        _ => Err(unexpected(token)),
    }
}

/// After `define function NAME`.
#[tactic(auto, unfolding(crate::specs::Reading::function_name_next))]
pub fn after_function_name(token: Token, name: Label) -> Result<State, ParseFault>
    ensures { Tells result token.from (function_name_next token.kind name) }
{
    match token.kind {
        TokenKind::Sign(Mark::Open) => Ok(State::ParamsOpen { name }),
        _ => Err(unexpected(token)),
    }
}

/// After `define function NAME (`.
#[tactic(auto, unfolding(crate::specs::Reading::params_open_next))]
pub fn after_params_open(
    alloc: Global,
    text: &[u8],
    token: Token,
    name: Label,
) -> Result<State, ParseFault>
    requires order { token.from ≤ token.to }
    requires within { token.to ≤ length text.now }
    ensures { Tells result token.from (params_open_next text.now token.kind token name) }
{
    let mut params = Items::new(alloc);
    match token.kind {
        TokenKind::Name => {
            params.push(param(alloc, text, token)?)?;
            Ok(State::ParamsName { name, params })
        }
        TokenKind::Sign(Mark::Close) => Ok(State::ParamsClose { name, params }),
        _ => Err(refused(token, (name, params))),
    }
}

/// After a parameter and a comma.
#[tactic(auto, unfolding(crate::specs::Reading::params_comma_next))]
pub fn after_params_comma(
    alloc: Global,
    text: &[u8],
    token: Token,
    name: Label,
    before: Items<Param>,
) -> Result<State, ParseFault>
    requires order { token.from ≤ token.to }
    requires within { token.to ≤ length text.now }
    ensures { Tells result token.from (params_comma_next text.now token.kind token name before) }
{
    let mut params = before;
    match token.kind {
        TokenKind::Name => {
            params.push(param(alloc, text, token)?)?;
            Ok(State::ParamsName { name, params })
        }
        _ => Err(refused(token, (name, params))),
    }
}

/// After a parameter.
#[tactic(auto, unfolding(crate::specs::Reading::params_name_next))]
pub fn after_params_name(
    token: Token,
    name: Label,
    params: Items<Param>,
) -> Result<State, ParseFault>
    ensures { Tells result token.from (params_name_next token.kind name params) }
{
    match token.kind {
        TokenKind::Sign(Mark::Comma) => Ok(State::ParamsComma { name, params }),
        TokenKind::Sign(Mark::Close) => Ok(State::ParamsClose { name, params }),
        _ => Err(unexpected(token)),
    }
}

/// After `define variable`.
#[tactic(auto, unfolding(crate::specs::Reading::variable_word_next))]
pub fn after_variable_word(alloc: Global, text: &[u8], token: Token) -> Result<State, ParseFault>
    requires order { token.from ≤ token.to }
    requires within { token.to ≤ length text.now }
    ensures { Tells result token.from (variable_word_next text.now token.kind token) }
{
    match token.kind {
        TokenKind::Name => Ok(State::VariableName {
            name: label(alloc, text, token)?,
        }),
        _ => Err(unexpected(token)),
    }
}

impl Reader {
    /// Before the first declaration, or after a whole one.
    #[tactic(auto, unfolding(crate::specs::Reading::outside))]
    pub fn outside(&mut self, token: Token) -> Result<State, ParseFault>
        ensures { Goes result token.from self.new (outside token.kind token self.old.stack self.old.decls) }
    {
        match token.kind {
            TokenKind::Reserved(Word::Define) => Ok(State::Define),
            TokenKind::Reserved(Word::Play) => {
                self.stack.push(Frame::Play { start: token })?;
                Ok(State::Before)
            }
            _ => Err(unexpected(token)),
        }
    }

    /// After `define function NAME ( params )`.
    #[tactic(auto, unfolding(crate::specs::Reading::params_close_next))]
    pub fn after_params_close(
        &mut self,
        token: Token,
        name: Label,
        params: Items<Param>,
    ) -> Result<State, ParseFault>
        ensures { Goes result token.from self.new (params_close_next token.kind token name params self.old.stack self.old.decls) }
    {
        match token.kind {
            TokenKind::Reserved(Word::Return) => {
                self.stack.push(Frame::Function { name, params })?;
                Ok(State::Before)
            }
            TokenKind::Reserved(Word::Begin) => {
                self.stack.push(Frame::BlockFunction { name, params })?;
                Ok(State::Begin { start: token })
            }
            _ => Err(unexpected(token)),
        }
    }

    /// After `define variable NAME`.
    #[tactic(auto, unfolding(crate::specs::Reading::variable_name_next))]
    pub fn after_variable_name(&mut self, token: Token, name: Label) -> Result<State, ParseFault>
        ensures { Goes result token.from self.new (variable_name_next token.kind name self.old.stack self.old.decls) }
    {
        match token.kind {
            TokenKind::Sign(Mark::Equal) => {
                self.stack.push(Frame::Variable { name })?;
                Ok(State::Before)
            }
            _ => Err(unexpected(token)),
        }
    }
}

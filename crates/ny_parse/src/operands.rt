ghost use Rattle.std.specs.Prelude.{◌≡◌, ◌≤◌, ◌∷◌, length};
ghost use Rattle.ny_syntax.specs.Grammar.{height_limit};
ghost use Rattle.ny_parse.specs.Reading.{Goes, Tells, goes, deeper, is_full, opening_next, operand_next, call_open_next, if_next, begin_next, binds_next, bind_name_next, divided_next};
ghost use Rattle.ny_parse.specs.declared.state.State.TheVariants.{Before};

use crate::declarations::{refused, unexpected};
use crate::fault::ParseFault;
use crate::frame::{Frame, Label, Measured};
use crate::nodes::{HEIGHT_LIMIT, binary, call, label, number};
use crate::reader::Reader;
use crate::state::State;
use ny_syntax::{Bind, Mark, Token, TokenKind, Word};
use sqlite_items::Items;
use std::alloc::Global;

/// After `begin with`, or after a bind and a comma.
#[tactic(auto, unfolding(crate::specs::Reading::binds_next))]
pub fn after_binds(
    alloc: Global,
    text: &[u8],
    token: Token,
    start: Token,
    before: Items<Bind>,
    spare: u32,
) -> Result<State, ParseFault>
    requires order { token.from ≤ token.to }
    requires within { token.to ≤ length text.now }
    ensures { Tells result token.from (binds_next text.now token.kind token start before spare) }
{
    match token.kind {
        TokenKind::Name => Ok(State::BindName {
            start,
            before,
            spare,
            name: label(alloc, text, token)?,
        }),
        _ => Err(unexpected(token)),
    }
}

/// After an expression and `/`: the divisor is a number.
#[tactic(auto, unfolding(crate::specs::Reading::divided_next))]
pub fn after_divided(
    alloc: Global,
    token: Token,
    left: Measured,
    operator: Token,
) -> Result<State, ParseFault>
    ensures { Tells result token.from (divided_next token.kind token left operator) }
{
    let kind = token.kind;
    match kind {
        TokenKind::Number(value) => Ok(State::Whole {
            whole: binary(alloc, left, operator, number(token, value))?,
        }),
        _ => Err(refused(token, left)),
    }
}

impl Reader {
    /// Whether as much is open as the greatest height, so that only a number or a name fits.
    fn is_full(&self) -> bool
        ensures { result ≡ is_full self.now.stack }
    {
        self.stack.len() >= HEIGHT_LIMIT as usize
    }

    /// Goes into a construct whose height is 2 or more, where there is room for it.
    fn go_into(&mut self, token: Token, frame: Frame) -> Result<State, ParseFault>
        ensures { Goes result token.from self.new (deeper self.old.stack (goes Before (frame ∷ self.old.stack) self.old.decls)) }
    {
        if self.is_full() {
            return Err(refused(token, frame));
        }
        self.stack.push(frame)?;
        Ok(State::Before)
    }

    /// The state after a token that begins a construct whose height is 2 or more, where there is room for it.
    pub fn begin_with(&mut self, token: Token, state: State) -> Result<State, ParseFault>
        ensures { Goes result token.from self.new (deeper self.old.stack (goes state self.old.stack self.old.decls)) }
    {
        if self.is_full() {
            return Err(refused(token, state));
        }
        Ok(state)
    }

    /// What an expression begins with, but for a number.
    #[tactic(auto, unfolding(crate::specs::Reading::opening_next))]
    fn opening(&mut self, alloc: Global, text: &[u8], token: Token) -> Result<State, ParseFault>
        requires order { token.from ≤ token.to }
        requires within { token.to ≤ length text.now }
        ensures { Goes result token.from self.new (opening_next text.now token.kind token self.old.stack self.old.decls) }
    {
        match token.kind {
            TokenKind::Name => Ok(State::Named {
                name: label(alloc, text, token)?,
            }),
            TokenKind::Sign(Mark::Open) => self.go_into(token, Frame::Group),
            TokenKind::Sign(Mark::Minus) => self.go_into(token, Frame::Prefix { sign: token }),
            TokenKind::Sign(Mark::Not) => self.go_into(token, Frame::Prefix { sign: token }),
            TokenKind::If => self.begin_with(token, State::If { start: token }),
            TokenKind::Reserved(Word::Begin) => {
                self.begin_with(token, State::Begin { start: token })
            }
            _ => Err(unexpected(token)),
        }
    }

    /// Where an expression begins.
    #[tactic(auto, unfolding(crate::specs::Reading::operand_next))]
    pub fn operand(&mut self, alloc: Global, text: &[u8], token: Token) -> Result<State, ParseFault>
        requires order { token.from ≤ token.to }
        requires within { token.to ≤ length text.now }
        ensures { Goes result token.from self.new (operand_next text.now token.kind token self.old.stack self.old.decls) }
    {
        let kind = token.kind;
        match kind {
            TokenKind::Number(value) => Ok(State::Whole {
                whole: number(token, value),
            }),
            _ => self.opening(alloc, text, token),
        }
    }

    /// After a called name and `(`.
    #[tactic(auto, unfolding(crate::specs::Reading::call_open_next))]
    pub fn after_call_open(
        &mut self,
        alloc: Global,
        text: &[u8],
        token: Token,
        name: Label,
    ) -> Result<State, ParseFault>
        requires order { token.from ≤ token.to }
        requires within { token.to ≤ length text.now }
        ensures { Goes result token.from self.new (call_open_next text.now token.kind token name self.old.stack self.old.decls) }
    {
        let before = Items::new(alloc);
        match token.kind {
            TokenKind::Sign(Mark::Close) => Ok(State::Whole {
                whole: call(name, before, HEIGHT_LIMIT),
            }),
            _ => {
                self.stack.push(Frame::Argument {
                    name,
                    before,
                    spare: HEIGHT_LIMIT,
                })?;
                self.operand(alloc, text, token)
            }
        }
    }

    /// After `#if`.
    #[tactic(auto, unfolding(crate::specs::Reading::if_next))]
    pub fn after_if(&mut self, token: Token, start: Token) -> Result<State, ParseFault>
        ensures { Goes result token.from self.new (if_next token.kind start self.old.stack self.old.decls) }
    {
        match token.kind {
            TokenKind::Sign(Mark::Open) => {
                self.stack.push(Frame::Test { start })?;
                Ok(State::Before)
            }
            _ => Err(unexpected(token)),
        }
    }

    /// After `begin`.
    #[tactic(auto, unfolding(crate::specs::Reading::begin_next))]
    pub fn after_begin(
        &mut self,
        alloc: Global,
        token: Token,
        start: Token,
    ) -> Result<State, ParseFault>
        ensures { Goes result token.from self.new (begin_next token.kind start self.old.stack self.old.decls) }
    {
        let none = Items::new(alloc);
        match token.kind {
            TokenKind::Reserved(Word::With) => Ok(State::Binds {
                start,
                before: none,
                spare: HEIGHT_LIMIT,
            }),
            TokenKind::Reserved(Word::Return) => {
                self.stack.push(Frame::Returned {
                    start,
                    binds: none,
                    spare: HEIGHT_LIMIT,
                })?;
                Ok(State::Before)
            }
            _ => Err(unexpected(token)),
        }
    }

    /// After the name of a bind.
    #[tactic(auto, unfolding(crate::specs::Reading::bind_name_next))]
    pub fn after_bind_name(
        &mut self,
        token: Token,
        start: Token,
        before: Items<Bind>,
        spare: u32,
        name: Label,
    ) -> Result<State, ParseFault>
        ensures { Goes result token.from self.new (bind_name_next token.kind start before spare name self.old.stack self.old.decls) }
    {
        match token.kind {
            TokenKind::Sign(Mark::Equal) => {
                self.stack.push(Frame::Value {
                    start,
                    before,
                    spare,
                    name,
                })?;
                Ok(State::Before)
            }
            _ => Err(unexpected(token)),
        }
    }
}

ghost use Rattle.std.specs.Prelude.{◌≡◌, ◌≤◌, length};
ghost use Rattle.ny_parse.specs.Reading.{Goes, step};

use crate::declarations::{
    after_define, after_function_name, after_function_word, after_params_comma, after_params_name,
    after_params_open, after_variable_word,
};
use crate::fault::ParseFault;
use crate::frame::Frame;
use crate::operands::{after_binds, after_divided};
use crate::stack::Stack;
use crate::state::State;
use ny_syntax::{Decl, Token};
use sqlite_items::Items;
use std::alloc::Global;

/// What has begun and is not finished, and the declarations before it.
#[derive(Drop)]
pub struct Reader {
    pub stack: Stack<Frame>,
    pub decls: Items<Decl>,
}

impl Reader {
    /// What one token does, after what was read last.
    #[tactic(auto, unfolding(crate::specs::Reading::step))]
    pub fn step(
        &mut self,
        alloc: Global,
        text: &[u8],
        token: Token,
        state: State,
    ) -> Result<State, ParseFault>
        requires order { token.from ≤ token.to }
        requires within { token.to ≤ length text.now }
        ensures { Goes result token.from self.new (step text.now token state self.old.stack self.old.decls) }
    {
        match state {
            State::Between => self.outside(token),
            State::Define => after_define(token),
            State::FunctionWord => after_function_word(alloc, text, token),
            State::FunctionName { name } => after_function_name(token, name),
            State::ParamsOpen { name } => after_params_open(alloc, text, token, name),
            State::ParamsComma { name, params } => {
                after_params_comma(alloc, text, token, name, params)
            }
            State::ParamsName { name, params } => after_params_name(token, name, params),
            State::ParamsClose { name, params } => self.after_params_close(token, name, params),
            State::VariableWord => after_variable_word(alloc, text, token),
            State::VariableName { name } => self.after_variable_name(token, name),
            State::Before => self.operand(alloc, text, token),
            State::Named { name } => self.after_named(alloc, token, name),
            State::Whole { whole } => self.after_whole(alloc, token, whole),
            State::Divided { left, operator } => after_divided(alloc, token, left, operator),
            State::CallOpen { name } => self.after_call_open(alloc, text, token, name),
            State::If { start } => self.after_if(token, start),
            State::Begin { start } => self.after_begin(alloc, token, start),
            State::Binds {
                start,
                before,
                spare,
            } => after_binds(alloc, text, token, start, before, spare),
            State::BindName {
                start,
                before,
                spare,
                name,
            } => self.after_bind_name(token, start, before, spare, name),
        }
    }
}

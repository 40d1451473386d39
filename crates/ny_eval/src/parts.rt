//! The parts of a mix.

ghost use Rattle.std.specs.Prelude.{◌≡◌, ◌*◌, ◌<◌, length, get_or, pos};
ghost use Rattle.ny_check.specs.declared.node.ExprId.{ExprId as Expr};
ghost use Rattle.ny_check.specs.declared.value.Value.TheVariants.{Number};
ghost use Rattle.ny_eval.specs.Parts.{count_in};

use ny_check::{ExprId, NameId, Value};
use ny_heap::Sound;
use ny_num::Fix;

/// The parts of a mix: several expressions in the same names, or one expression so many times, in which a name stands for
/// 0, 1, and so on.
#[derive(Clone, Copy)]
pub(crate) enum Parts<'a> {
    Listed(&'a [ExprId]),
    Counted(NameId, u32, ExprId),
}

impl<'a> Parts<'a> {
    /// How many parts they are.
    pub(crate) fn count(&self) -> usize
        ensures { result ≡ count_in self.now }
    {
        match self {
            Parts::Listed(parts) => parts.len(),
            Parts::Counted(_, count, _) => *count as usize,
        }
    }
}

/// The expression at a place.
pub(crate) fn expr_at(listed: &[ExprId], k: usize) -> ExprId
    requires { k < length listed.now }
    ensures { (other : Expr) → result ≡ get_or listed.now k other }
{
    listed[k]
}

/// What the name stands for in part `k` of so many.
#[tactic(auto, unfolding(ny_num::specs::Numbers::sat))]
pub(crate) fn turn_number(k: usize, count: u32) -> Value<Sound>
    requires { k < count }
    ensures { result ≡ Number (pos (k * 1000000)) }
{
    Value::Number(Fix::of(k as i64 * 1_000_000))
}

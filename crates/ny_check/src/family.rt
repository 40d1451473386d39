ghost use Rattle.std.specs.Prelude.{◌≡◌};
ghost use Rattle.ny_check.specs.Writing.{family_of};

use crate::node::{Effect, Generator, Transformation};
use ny_kernels::Op;
use ny_resolve::{Operator, Order, Relation};

/// The family of an operator, with the operator in it.
#[derive(Clone, Copy, PartialEq, Eq)]
pub(crate) enum Family {
    Pair(Op),
    Neg,
    Compare(Relation),
    And,
    Or,
    Not,
    If,
    Leaf(Generator),
    Effect(Effect),
    Cue,
    Mix(Order),
    /// A change by the first operand.
    Change(Transformation),
    /// A change by the last operand.
    ChangeAfter(Transformation),
    Vector,
}

/// The family of each operator.
pub(crate) fn family_of(operator: Operator) -> Family
    ensures { result ≡ family_of operator }
{
    match operator {
        Operator::Add => Family::Pair(Op::Add),
        Operator::Sub => Family::Pair(Op::Sub),
        Operator::Mul | Operator::Scale => Family::Pair(Op::Mul),
        Operator::Max => Family::Pair(Op::Max),
        Operator::Min => Family::Pair(Op::Min),
        Operator::Neg => Family::Neg,
        Operator::Compare(relation) => Family::Compare(relation),
        Operator::And => Family::And,
        Operator::Or => Family::Or,
        Operator::Not => Family::Not,
        Operator::If => Family::If,
        Operator::Const => Family::Leaf(Generator::Const),
        Operator::Osc => Family::Leaf(Generator::Osc),
        Operator::HzOsc => Family::Leaf(Generator::HzOsc),
        Operator::Lfo => Family::Leaf(Generator::Lfo),
        Operator::Noise => Family::Leaf(Generator::Noise),
        Operator::Rest => Family::Leaf(Generator::Rest),
        Operator::Ramp => Family::Leaf(Generator::Ramp),
        Operator::Pwl => Family::Leaf(Generator::Pwl),
        Operator::Abs => Family::Effect(Effect::Abs),
        Operator::OnePole => Family::Effect(Effect::OnePole),
        Operator::Biquad => Family::Effect(Effect::Biquad),
        Operator::Comb => Family::Effect(Effect::Comb),
        Operator::Cue => Family::Cue,
        Operator::Sim => Family::Mix(Order::Together),
        Operator::Seq => Family::Mix(Order::InTurn),
        Operator::At => Family::Change(Transformation::At),
        Operator::Stretch => Family::Change(Transformation::Stretch),
        Operator::Loud => Family::Change(Transformation::Loud),
        Operator::Sustain => Family::Change(Transformation::Sustain),
        Operator::Transpose => Family::Change(Transformation::Transpose),
        Operator::Placed => Family::ChangeAfter(Transformation::At),
        Operator::Stretched => Family::ChangeAfter(Transformation::Stretch),
        Operator::Vector => Family::Vector,
    }
}

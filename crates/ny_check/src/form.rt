ghost use Rattle.std.specs.Prelude.{◌≡◌, ◌<◌, ℕ, List, All, IfOk};
ghost use Rattle.ny_check.specs.declared.node.ExprId.{ExprId as IdOf};
ghost use Rattle.ny_check.specs.declared.node.Function.{Function as FunctionOf};
ghost use Rattle.ny_check.specs.Code.{IsBelow, no_node};
ghost use Rattle.ny_check.specs.Writing.{one_node, two_node, three_node, counted_node, effect_node, operator_node, quotient_node, points_of, warp_node};

use crate::family::{Family, family_of};
use crate::node::{Change, Effect, ExprId, Node};
use ny_num::{Fix, ticks_of};
use ny_resolve::Operator;
use ny_warp::{Map, MapFault, Point};
use sqlite_items::Items;
use std::alloc::{AllocError, Global};

fn no_node() -> Node
    ensures { result ≡ no_node }
{
    Node::Number(Fix::of(0))
}

fn one_node(family: Family, a: ExprId) -> Node
    ensures value { result ≡ one_node family a }
    ensures below { (fs : List FunctionOf) → (n : ℕ) → a.0 < n → IsBelow fs n result }
{
    match family {
        Family::Neg => Node::Neg(a),
        Family::Not => Node::Not(a),
        Family::Cue => Node::Cue(a),
        _ => no_node(),
    }
}

fn two_node(family: Family, a: ExprId, b: ExprId) -> Node
    ensures value { result ≡ two_node family a b }
    ensures below { (fs : List FunctionOf) → (n : ℕ) → a.0 < n → b.0 < n → IsBelow fs n result }
{
    match family {
        Family::Pair(op) => Node::Pair(op, a, b),
        Family::Compare(relation) => Node::Compare(relation, a, b),
        Family::And => Node::And(a, b),
        Family::Or => Node::Or(a, b),
        Family::Change(by) => Node::Change(Change::By(by, a), b),
        Family::ChangeAfter(by) => Node::Change(Change::By(by, b), a),
        _ => no_node(),
    }
}

fn three_node(family: Family, a: ExprId, b: ExprId, c: ExprId) -> Node
    ensures value { result ≡ three_node family a b c }
    ensures below { (fs : List FunctionOf) → (n : ℕ) → a.0 < n → b.0 < n → c.0 < n → IsBelow fs n result }
{
    match family {
        Family::If => Node::If(a, b, c),
        _ => no_node(),
    }
}

/// The node of a family whose operands are counted.
#[tactic(auto, using(crate::proofs::Wider::all_below))]
fn counted_node(family: Family, ids: &[ExprId]) -> Node
    ensures value { result ≡ counted_node family ids.now }
    ensures below { (fs : List FunctionOf) → (n : ℕ) → All (λ (id : IdOf). id.0 < n) ids.now → IsBelow fs n result }
{
    match ids {
        [a] => one_node(family, *a),
        [a, b] => two_node(family, *a, *b),
        [a, b, c] => three_node(family, *a, *b, *c),
        _ => no_node(),
    }
}

/// The node of an effect: its sound comes first.
fn effect_node(alloc: Global, effect: Effect, ids: &[ExprId]) -> Result<Node, AllocError>
    ensures value { IfOk result (λ at. at ≡ effect_node effect ids.now) }
    ensures below { (fs : List FunctionOf) → (n : ℕ) → All (λ (id : IdOf). id.0 < n) ids.now → IfOk result (λ at. IsBelow fs n at) }
{
    match ids {
        [sound, numbers @ ..] => {
            let numbers = Items::from_slice(alloc, numbers)?;
            Ok(Node::Effect(effect, *sound, numbers))
        }
        [] => Ok(no_node()),
    }
}

/// The node of an operator.
#[tactic(auto, using(crate::proofs::Wider::all_below))]
pub(crate) fn operator_node(
    alloc: Global,
    operator: Operator,
    ids: Items<ExprId>,
) -> Result<Node, AllocError>
    ensures value { IfOk result (λ at. at ≡ operator_node operator ids) }
    ensures below { (fs : List FunctionOf) → (n : ℕ) → All (λ (id : IdOf). id.0 < n) ids → IfOk result (λ at. IsBelow fs n at) }
{
    match family_of(operator) {
        Family::Leaf(generator) => Ok(Node::Leaf(generator, ids)),
        Family::Mix(order) => Ok(Node::Mix(order, ids)),
        Family::Vector => Ok(Node::Vector(ids)),
        Family::Effect(effect) => Ok(effect_node(alloc, effect, ids.as_slice())?),
        family => Ok(counted_node(family, ids.as_slice())),
    }
}

/// The node of a division by a literal.
pub(crate) fn quotient_node(a: ExprId, by: Fix) -> Node
    ensures value { result ≡ quotient_node a by }
    ensures below { (fs : List FunctionOf) → (n : ℕ) → a.0 < n → IsBelow fs n result }
{
    if 0 < by.micro() {
        Node::Div(a, by)
    } else {
        no_node()
    }
}

/// The points that the literals of a map are, in pairs.
fn points_of(alloc: Global, literals: &[Fix]) -> Result<Vec<Point>, AllocError>
    ensures { IfOk result (λ points. points.items ≡ points_of literals.now) }
{
    let mut points = Vec::new(alloc);
    let mut waiting = None;
    for v in literals {
        match waiting {
            None => waiting = Some(*v),
            Some(x) => {
                points.push(Point {
                    x: ticks_of(x),
                    y: ticks_of(*v),
                })?;
                waiting = None;
            }
        }
    }
    Ok(points)
}

/// The node of a warp.
pub(crate) fn warp_node(alloc: Global, literals: &[Fix], e: ExprId) -> Result<Node, AllocError>
    ensures value { IfOk result (λ at. at ≡ warp_node literals.now e) }
    ensures below { (fs : List FunctionOf) → (n : ℕ) → e.0 < n → IfOk result (λ at. IsBelow fs n at) }
{
    let points = points_of(alloc, literals)?;
    match Map::of(alloc, points.as_slice()) {
        Ok(map) => Ok(Node::Change(Change::Warp(map), e)),
        Err(MapFault::NotRising) => Ok(no_node()),
        Err(MapFault::OutOfMemory) => Err(AllocError),
    }
}

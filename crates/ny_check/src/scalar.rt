ghost use Rattle.std.specs.Prelude.{◌≡◌, ◌<◌, ◌≤◌, length, take, IfOk, OnOk, OnErr, map, zip, [], ◌∷◌, ◌++◌, ℕ};
ghost use Rattle.ny_check.specs.Code.{AllBelow, BindsBelow};
ghost use Rattle.ny_check.specs.Values.{Scalars, scalar_named, scalar_in, scalars_of, scalar_of, scalars_after, argument, number_of, test_of};

use crate::node::{ExprId, Node};
use crate::operations::{
    and, combined, compare, holds, negated, not, number_in, or, passed, quotient,
};
use crate::program::Program;
use crate::value::{Binds, Scalar, Value};
use ny_num::Fix;
use ny_resolve::NameId;
use ny_scope::Scope;
use std::alloc::{AllocError, Global};

fn scalar_named(x: NameId, names: &Scope<NameId, Scalar>) -> Scalar
    ensures { result ≡ scalar_named x names.now }
{
    names.find(&x).unwrap_or(Scalar::Sound)
}

/// Each parameter with its argument.
#[tactic(auto, using(crate::proofs::Pairs::paired_end))]
fn paired(
    alloc: Global,
    params: &[NameId],
    arguments: &[Scalar],
) -> Result<Scope<NameId, Scalar>, AllocError>
    ensures { IfOk result (λ names. names ≡ zip params.now arguments.now) }
{
    let mut names = Scope::new(alloc);
    let count = params.len().min(arguments.len());
    for i in 0..count {
        names.bind(params[i], arguments[i])?;
    }
    Ok(names)
}

/// What an expression is, where it is a number or a test.
#[cycle(scalar)]
#[tactic(auto, using(crate::proofs::ScalarEquation::by_node))]
fn scalar(
    alloc: Global,
    p: &Program,
    e: ExprId,
    names: &mut Scope<NameId, Scalar>,
) -> Result<Scalar, AllocError>
    requires { e.0 < length p.now.nodes }
    ensures value { IfOk result (λ s. s ≡ scalar_of p.now e.0 names.old) }
    ensures same { OnOk result (names.new ≡ names.old) }
    ensures kept { OnErr result (take (length names.old) names.new ≡ names.old) }
{
    match p.node(e) {
        Node::Number(v) => Ok(Scalar::Number(*v)),
        Node::Local(x) => Ok(scalar_named(*x, names)),
        Node::Global(value) => Ok(global_scalar(alloc, p, *value)?),
        Node::Call(f, parts) => {
            let arguments = argument_scalars(alloc, p, e, parts.as_slice(), names)?;
            let body = p.body(*f);
            Ok(called_scalar(alloc, p, p.params(*f), body, arguments.as_slice())?)
        }
        Node::Block(binds, value) => {
            let outer = names.len();
            bind_scalars(alloc, p, e, binds.as_slice(), names)?;
            let value = scalar(alloc, p, *value, names)?;
            names.leave(outer);
            Ok(value)
        }
        Node::Pair(op, a, b) => {
            let a = scalar(alloc, p, *a, names)?;
            let b = scalar(alloc, p, *b, names)?;
            Ok(combined(*op, a, b))
        }
        Node::Div(a, by) => {
            let a = scalar(alloc, p, *a, names)?;
            Ok(quotient(a, *by))
        }
        Node::Neg(a) => {
            let a = scalar(alloc, p, *a, names)?;
            Ok(negated(a))
        }
        Node::Compare(relation, a, b) => {
            let a = scalar(alloc, p, *a, names)?;
            let b = scalar(alloc, p, *b, names)?;
            Ok(compare(*relation, a, b))
        }
        Node::And(a, b) => {
            let a = scalar(alloc, p, *a, names)?;
            let b = scalar(alloc, p, *b, names)?;
            Ok(and(a, b))
        }
        Node::Or(a, b) => {
            let a = scalar(alloc, p, *a, names)?;
            let b = scalar(alloc, p, *b, names)?;
            Ok(or(a, b))
        }
        Node::Not(a) => {
            let a = scalar(alloc, p, *a, names)?;
            Ok(not(a))
        }
        Node::If(c, a, b) => {
            let chosen = holds(scalar(alloc, p, *c, names)?);
            if chosen {
                scalar(alloc, p, *a, names)
            } else {
                scalar(alloc, p, *b, names)
            }
        }
        _ => Ok(Scalar::Sound),
    }
}

/// What the body of a function is, where its parameters stand for these arguments.
#[cycle(scalar)]
fn called_scalar(
    alloc: Global,
    p: &Program,
    params: &[NameId],
    body: ExprId,
    arguments: &[Scalar],
) -> Result<Scalar, AllocError>
    requires { body.0 < length p.now.nodes }
    ensures { IfOk result (λ s. s ≡ scalar_of p.now body.0 (zip params.now arguments.now)) }
{
    let mut inner = paired(alloc, params, arguments)?;
    scalar(alloc, p, body, &mut inner)
}

/// The value of a global variable, as it is kept, or computed where it is not.
#[cycle(scalar)]
fn global_scalar(alloc: Global, p: &Program, value: ExprId) -> Result<Scalar, AllocError>
    requires { value.0 < length p.now.nodes }
    ensures { IfOk result (λ s. s ≡ scalar_of p.now value.0 []) }
{
    match p.kept(value) {
        Some(kept) => Ok(kept),
        None => {
            let mut nothing = Scope::new(alloc);
            scalar(alloc, p, value, &mut nothing)
        }
    }
}

#[cycle(scalar)]
fn argument_scalars(
    alloc: Global,
    p: &Program,
    call: ExprId,
    arguments: &[ExprId],
    names: &mut Scope<NameId, Scalar>,
) -> Result<Vec<Scalar>, AllocError>
    requires call { call.0 ≤ length p.now.nodes }
    requires below { AllBelow call.0 arguments.now }
    ensures values { IfOk result (λ scalars. scalars.items ≡ map (argument (scalar_of p.now) names.old) arguments.now) }
    ensures same { OnOk result (names.new ≡ names.old) }
    ensures kept { OnErr result (take (length names.old) names.new ≡ names.old) }
{
    let mut scalars = Vec::new(alloc);
    for argument in arguments {
        scalars.push(passed(scalar(alloc, p, *argument, names)?))?;
    }
    Ok(scalars)
}

/// Binds the names of a block to what they are.
#[cycle(scalar)]
#[tactic(auto, using(ny_scope::proofs::Kept::kept_more))]
fn bind_scalars(
    alloc: Global,
    p: &Program,
    block: ExprId,
    binds: &[(NameId, ExprId)],
    names: &mut Scope<NameId, Scalar>,
) -> Result<(), AllocError>
    requires block { block.0 ≤ length p.now.nodes }
    requires below { BindsBelow block.0 binds.now }
    ensures bound { OnOk result (names.new ≡ scalars_after (scalar_of p.now) binds.now names.old) }
    ensures kept { take (length names.old) names.new ≡ names.old }
{
    for (name, value) in binds {
        let scalar = scalar(alloc, p, *value, names)?;
        names.bind(*name, passed(scalar))?;
    }
    Ok(())
}

fn scalar_in<S>(value: &Value<S>) -> Scalar
    ensures { result ≡ scalar_in value.now }
{
    match value {
        Value::Number(v) => Scalar::Number(*v),
        Value::Sound(_) => Scalar::Sound,
    }
}

/// What names stand for, as far as it is a number or a test.
fn scalars<S>(
    alloc: Global,
    names: &[(NameId, Value<S>)],
) -> Result<Scope<NameId, Scalar>, AllocError>
    ensures { IfOk result (λ scalars. scalars ≡ scalars_of names.now) }
{
    let mut scalars = Scope::new(alloc);
    for (name, value) in names {
        scalars.bind(*name, scalar_in(value))?;
    }
    Ok(scalars)
}

impl Program {
    /// The value of a global variable, which sees no local name (`docs/DEFINITIONS.md`, "Values"). It is
    /// looked up.
    pub fn global(&self, alloc: Global, value: ExprId) -> Result<Scalar, AllocError>
        requires { value.0 < length self.now.nodes }
        ensures { IfOk result (λ s. s ≡ scalar_of self.now value.0 []) }
    {
        global_scalar(alloc, self, value)
    }

    /// What an expression is under these names, with its value where it is a number or a test
    /// (`docs/DEFINITIONS.md`, "Values"). What it binds meanwhile stands after them.
    ///
    /// # Errors
    /// `AllocError` where memory is missing. The names are still there, and others may stand after them.
    pub fn scalar_under(
        &self,
        alloc: Global,
        e: ExprId,
        names: &mut Scope<NameId, Scalar>,
    ) -> Result<Scalar, AllocError>
        requires { e.0 < length self.now.nodes }
        ensures value { IfOk result (λ s. s ≡ scalar_of self.now e.0 names.old) }
        ensures same { OnOk result (names.new ≡ names.old) }
        ensures kept { OnErr result (take (length names.old) names.new ≡ names.old) }
    {
        scalar(alloc, self, e, names)
    }

    /// What an expression is under these binds, with its value where it is a number or a test
    /// (`docs/DEFINITIONS.md`, "Values").
    pub fn scalar<S>(
        &self,
        alloc: Global,
        e: ExprId,
        binds: &Binds<S>,
    ) -> Result<Scalar, AllocError>
        requires { e.0 < length self.now.nodes }
        ensures { IfOk result (λ s. s ≡ scalar_of self.now e.0 (scalars_of binds.now.names)) }
    {
        let mut names = scalars(alloc, binds.names.as_slice())?;
        scalar(alloc, self, e, &mut names)
    }

    /// The number that an expression is under these binds; 0 where it is none.
    #[tactic(auto, unfolding(crate::specs::Values::number_of))]
    pub fn number<S>(&self, alloc: Global, e: ExprId, binds: &Binds<S>) -> Result<Fix, AllocError>
        requires { e.0 < length self.now.nodes }
        ensures { IfOk result (λ v. v ≡ number_of self.now e (scalars_of binds.now.names)) }
    {
        let scalar = self.scalar(alloc, e, binds)?;
        Ok(number_in(scalar))
    }

    /// Whether an expression holds under these binds; false where it is no test.
    #[tactic(auto, unfolding(crate::specs::Values::test_of))]
    pub fn test<S>(&self, alloc: Global, e: ExprId, binds: &Binds<S>) -> Result<bool, AllocError>
        requires { e.0 < length self.now.nodes }
        ensures { IfOk result (λ b. b ≡ test_of self.now e (scalars_of binds.now.names)) }
    {
        let scalar = self.scalar(alloc, e, binds)?;
        Ok(holds(scalar))
    }
}

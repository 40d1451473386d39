ghost use Rattle.std.specs.Prelude.{◌≡◌, IfOk, OnOk, map, [], length, take};
ghost use Rattle.std.specs.Map.{keys_of};
ghost use Rattle.ny_check.specs.Writing.{writing, writing_of_bind, use_of, uses_in, uses_in_binds, bound_after, kept_names};

use indexmap::IndexSet;
use ny_resolve::{Bound, NameId, Part, Term};
use ny_scope::Scope;
use sqlite_items::Items;
use std::alloc::{AllocError, Global};

/// Names that are bound, to nothing in particular.
type BoundNames = Scope<NameId, bool>;

/// Adds a use of a name that is not bound, the first time.
#[tactic(auto, using(crate::proofs::Uses::use_laws))]
fn add_use(name: NameId, bound: &BoundNames, found: &mut IndexSet<NameId>) -> Result<(), AllocError>
    ensures { OnOk result (found.new.keys ≡ use_of name (keys_of bound.now) found.old.keys) }
{
    if bound.find(&name).is_none() {
        found.insert(name)?;
    }
    Ok(())
}

/// Adds the free names of an expression to those found before.
#[cycle(free)]
#[tactic(auto, using(crate::proofs::Uses::bound_one))]
fn add_uses(
    bound: &mut BoundNames,
    found: &mut IndexSet<NameId>,
    e: &Part,
) -> Result<(), AllocError>
    ensures found { OnOk result (found.new.keys ≡ (writing e.now).uses (keys_of bound.old) found.old.keys) }
    ensures same { OnOk result (bound.new ≡ bound.old) }
{
    match &e.term {
        Term::Number(_) => Ok(()),
        Term::Local(x) => Ok(add_use(*x, bound, found)?),
        Term::Global(_) => Ok(()),
        Term::Call(_, parts) => Ok(add_uses_in(bound, found, parts.as_slice())?),
        Term::Block(binds, value) => {
            let outer = bound.len();
            add_uses_in_binds(bound, found, binds.as_slice())?;
            add_uses(bound, found, value.get())?;
            bound.leave(outer);
            Ok(())
        }
        Term::Apply(_, parts) => Ok(add_uses_in(bound, found, parts.as_slice())?),
        Term::Over(a, _) => Ok(add_uses(bound, found, a.get())?),
        Term::Repeat(_, x, _, part) => {
            let outer = bound.len();
            bound.bind(*x, true)?;
            add_uses(bound, found, part.get())?;
            bound.leave(outer);
            Ok(())
        }
        Term::Nameless(part) => Ok(add_uses(bound, found, part.get())?),
        Term::Warp(_, part) => Ok(add_uses(bound, found, part.get())?),
        Term::Rate(_, _, part) => Ok(add_uses(bound, found, part.get())?),
    }
}

#[cycle(free)]
fn add_uses_in(
    bound: &mut BoundNames,
    found: &mut IndexSet<NameId>,
    parts: &[Part],
) -> Result<(), AllocError>
    ensures found { OnOk result (found.new.keys ≡ uses_in (map writing parts.now) (keys_of bound.old) found.old.keys) }
    ensures same { OnOk result (bound.new ≡ bound.old) }
{
    for part in parts {
        add_uses(bound, found, part)?;
    }
    Ok(())
}

/// Adds the free names of binds, whose names stay bound.
#[cycle(free)]
#[tactic(auto, using(crate::proofs::Uses::bound_more))]
fn add_uses_in_binds(
    bound: &mut BoundNames,
    found: &mut IndexSet<NameId>,
    binds: &[Bound],
) -> Result<(), AllocError>
    ensures found { OnOk result (found.new.keys ≡ uses_in_binds (map writing_of_bind binds.now) (keys_of bound.old) found.old.keys) }
    ensures bound { OnOk result (keys_of bound.new ≡ bound_after (map writing_of_bind binds.now) (keys_of bound.old)) }
    ensures kept { OnOk result (take (length bound.old) bound.new ≡ bound.old) }
{
    for bind in binds {
        add_uses(bound, found, &bind.value)?;
        bound.bind(bind.name, true)?;
    }
    Ok(())
}

/// The names that are kept of an expression: its free names in the order of their first use, or none.
pub(crate) fn kept_names(alloc: Global, e: &Part, keeps: bool) -> Result<Items<NameId>, AllocError>
    ensures { IfOk result (λ names. names ≡ kept_names keeps (writing e.now).uses) }
{
    if !keeps {
        return Ok(Items::new(alloc));
    }
    let mut bound = Scope::new(alloc);
    let mut found = IndexSet::new(alloc);
    add_uses(&mut bound, &mut found, e)?;
    Items::from_slice(alloc, found.as_slice())
}

ghost use Rattle.std.specs.Prelude.{◌≡◌, Some, None};
ghost use Rattle.ny_syntax.specs.declared.tree.Tree.{Tree as TreeOf};
ghost use Rattle.ny_resolve.specs.declared.fault.Fault.{Fault as FaultOf};
ghost use Rattle.ny_check.specs.Acceptance.{fault_of};
ghost use Rattle.ny_check.specs.Occurrence.{Occurs, IsFirst};

use ny_kinds::refusal_laws;

/// Laws of acceptance: the fault that `check` tells of a text occurs in it, and no fault of an earlier kind occurs, nor one
/// of its kind at a lesser place; and in a text that is accepted none occurs.
pub fn acceptance_laws()
    ensures first { (tree : TreeOf) → (f : FaultOf) → fault_of tree ≡ Some f → IsFirst tree f }
    ensures none { (tree : TreeOf) → (f : FaultOf) → fault_of tree ≡ None → Occurs tree f → ⊥ }
{
    refusal_laws();
}

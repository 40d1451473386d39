ghost use Rattle.ny_laws.specs.Kinds.{KindsHold};

use ny_check::Program;

/// The law of kinds (`docs/DEFINITIONS.md`, "Kinds in a program"): whatever is of a kind by the rules is what its kind says, under all
/// names that are of theirs.
pub fn kinds_law(program: &Program)
    ensures { KindsHold program.now }
{
    program.order_law();
}

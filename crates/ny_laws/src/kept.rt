ghost use Rattle.ny_check.specs.KeptNames.{KeepsFree, RepeatsKeepFree};
ghost use Rattle.ny_laws.specs.UsedNames.{PartsHaveFree, KeepsOnlyUsed};

use ny_check::Program;

/// Laws of the names that a program keeps (`docs/DEFINITIONS.md`, "Free names"): a part of a sequence that is evaluated later means the
/// same where nothing is kept but what its free names stand for; each of these is kept; and of no node is a name kept that is not used in it,
/// or one twice.
pub fn kept_name_laws(program: &Program)
    ensures sequences { KeepsFree program.now }
    ensures repeats { RepeatsKeepFree program.now }
    ensures all { PartsHaveFree program.now }
    ensures only { KeepsOnlyUsed program.now }
{
    program.order_law();
    program.text_law();
}

ghost use Rattle.ny_check.specs.Code.{IsOrdered};
ghost use Rattle.ny_laws.specs.Complete.{NodesAreWhole};
ghost use Rattle.ny_trace.specs.Laws.{KeepsFree};

use ny_check::Program;
use ny_laws::{kept_name_laws, whole_law};

/// What evaluation knows of each program: its table has parts before what they are parts of, and leaves nothing out; and a part of a
/// sequence means the same where nothing is kept but what its free names stand for.
pub(crate) fn program_laws(p: &Program)
    ensures ordered { IsOrdered p.now }
    ensures free { KeepsFree p.now }
    ensures whole { NodesAreWhole p.now }
{
    p.order_law();
    kept_name_laws(p);
    whole_law(p);
}

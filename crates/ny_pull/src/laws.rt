ghost use Rattle.ny_check.specs.Code.{IsOrdered};
ghost use Rattle.ny_check.specs.Heights.{height_of, IsTall};
ghost use Rattle.ny_trace.specs.Laws.{KeepsFree};
ghost use Rattle.ny_match.specs.Keeps.{KeepsMade};

use ny_check::Program;
use ny_laws::kept_name_laws;
use ny_match::keep_law;

/// What each accepted program promises: its nodes are in order, each stands as high as it needs, and a part that waits keeps all that it asks
/// for.
pub(crate) fn program_laws(program: &Program)
    ensures ordered { IsOrdered program.now }
    ensures free { KeepsFree program.now }
    ensures made { KeepsMade program.now }
    ensures tall { IsTall program.now (height_of program.now) }
{
    program.order_law();
    program.height_law();
    kept_name_laws(program);
    keep_law(program);
}

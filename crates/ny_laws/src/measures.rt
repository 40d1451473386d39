ghost use Rattle.std.specs.Prelude.{◌≤◌, []};
ghost use Rattle.ny_check.specs.Heights.{height_of};
ghost use Rattle.ny_laws.specs.Measures.{depth_at, weight_at, HeightsAreWithin, IsMeasured};

use ny_check::Program;

/// The law of measures (`docs/DEFINITIONS.md`, "Depth and weight on the table"): what a program plays is at most 256 deep and weighs at most
/// 1,000,000, where each call is replaced by the body of the function; and so do the values of its global variables with it. No expression
/// makes units that stand higher one on another than two for each node.
pub fn measure_law(program: &Program)
    ensures depth { depth_at program.now program.now.play.0 [] ≤ 256 }
    ensures weight { weight_at program.now program.now.play.0 ≤ 1000000 }
    ensures text { IsMeasured program.now }
    ensures heights { HeightsAreWithin program.now }
    ensures height { height_of program.now program.now.play.0 ≤ 2000000 }
{
    program.order_law();
    program.text_law();
}

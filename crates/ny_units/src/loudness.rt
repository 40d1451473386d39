ghost use Rattle.std.specs.Prelude.{◌≡◌, map, All};
ghost use Rattle.ny_num.specs.Numbers.{IsSample};
ghost use Rattle.ny_num.specs.Leaves.{louder_value};

use ny_num::Sample;

const ONE: i32 = 1_000_000;

/// Brings samples to a loudness. At loudness 1 they stay as they are, and nothing is done.
pub(crate) fn at_loudness(loud: Sample, out: &mut [Sample])
    requires { All IsSample out.old }
    ensures { out.new ≡ map (louder_value loud) out.old }
{
    if loud.micro() == ONE {
        return;
    }
    for sample in out.iter_mut() {
        *sample = loud.mul(*sample);
    }
}

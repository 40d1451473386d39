ghost use Rattle.std.specs.Prelude.{◌≡◌, length, map};
ghost use Rattle.std.specs.List.{range_with_len};
ghost use Rattle.ny_num.specs.Leaves.{wave_value};

use ny_num::Sample;
use ny_wave::Wave;

/// The wave of a table at a phase increment, from sample `from` on.
pub(crate) fn fill_wave<const N: usize>(wave: &Wave<N>, inc: u32, from: u32, out: &mut [Sample])
    ensures { out.new ≡ map (wave_value N inc) (range_with_len from (length out.old)) }
{
    let mut phase = from.wrapping_mul(inc);
    for k in 0..out.len() {
        out[k] = wave.at(phase);
        phase = phase.wrapping_add(inc);
    }
}

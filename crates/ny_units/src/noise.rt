ghost use Rattle.std.specs.Prelude.{◌≡◌, length, map};
ghost use Rattle.std.specs.List.{range_with_len};
ghost use Rattle.ny_num.specs.Leaves.{noise_state, noise_step, noise_level, noise_value};

use ny_num::Sample;

#[tactic(auto, unfolding(ny_num::specs::Leaves::noise_step))]
fn next_state(x: u32) -> u32
    ensures { result ≡ noise_step x }
{
    x.wrapping_mul(1_664_525).wrapping_add(1_013_904_223)
}

// The upper 24 bits of a state, spread from -1 to 1.
#[tactic(auto, unfolding(ny_num::specs::Leaves::noise_level))]
fn level_of(x: u32) -> Sample
    ensures { result ≡ noise_level x }
{
    let spread = u64::from(x / 256) * 2_000_000 / (1 << 24);
    Sample::of(spread as i64 - 1_000_000)
}

/// The noise that follows a state. Answers the state after the last sample.
pub(crate) fn fill_noise(x: u32, out: &mut [Sample]) -> u32
    ensures state { result ≡ noise_state x (length out.old) }
    ensures samples { out.new ≡ map (noise_value x) (range_with_len 0 (length out.old)) }
{
    let mut state = x;
    for k in 0..out.len() {
        state = next_state(state);
        out[k] = level_of(state);
    }
    state
}

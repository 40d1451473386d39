ghost use Rattle.std.specs.Prelude.{◌≡◌, ℕ, ◌+◌, ◌*◌, ◌/◌, ◌<◌, ◌≤◌, pos, map};
ghost use Rattle.std.specs.List.{range_with_len};
ghost use Rattle.ny_num.specs.Numbers.{IsSample};
ghost use Rattle.ny_num.specs.Leaves.{arch, wave_entry, entry_at_phase};
ghost use Rattle.ny_wave.specs.Tables.{entries, IsTableSize};

use ny_num::Sample;
use std::marker::Model;

/// One period of a sine-like wave in `N` samples (`docs/DEFINITIONS.md`, "Leaves").
#[derive(Drop)]
pub struct Wave<const N: usize> {
    samples: [Sample; N],
}

// A wave is seen as its samples, which are those of the formula.
impl<const N: usize> Model for Wave<N> {
    ghost use Rattle.std.specs.Prelude.{◌≡◌, ℤ, List};
    ghost use Rattle.ny_wave.specs.Tables.{entries, IsTableSize};

    ghost Value = { List ℤ };

    ghost view = { λ w. w.samples };

    ghost invariant = { λ w. IsTableSize N × (w.samples ≡ entries N) };
}

// Entry `k` of half a period of `half` entries, in millionths.
#[tactic(auto, using(crate::proofs::Arches::arch_small), unfolding(ny_num::specs::Leaves::arch))]
fn arch_at(half: u64, k: u64) -> u64
    requires few { half ≤ 2048 }
    requires within { k < half }
    ensures value { result ≡ arch half k }
    ensures within { result ≤ 16000000 }
{
    let product = k * (half - k);
    1_000_000 * (16 * product) / (5 * (half * half) - 4 * product)
}

// Entry `k` of a table of so many entries.
#[tactic(auto, unfolding(ny_num::specs::Leaves::wave_entry))]
fn entry(entries: u64, k: u64) -> Sample
    requires few { entries ≤ 4096 }
    requires within { k < entries / 2 * 2 }
    ensures { result ≡ wave_entry entries k }
{
    let half = entries / 2;
    if k < half {
        Sample::of(arch_at(half, k) as i64)
    } else {
        Sample::of(-(arch_at(half, k - half) as i64))
    }
}

impl<const N: usize> Wave<N> {
    /// The table of `N` entries, which are 256, 1024 or 4096.
    pub fn bhaskara() -> Wave<N>
        requires { IsTableSize N }
        ensures { result ≡ entries N }
    {
        let mut samples = [Sample::ZERO; N];
        for k in 0..N {
            samples[k] = entry(N as u64, k as u64);
        }
        Wave { samples }
    }

    /// The entry at a phase, where 2^32 is one period.
    #[tactic(auto, using(crate::proofs::Steps::some_entries, crate::proofs::Steps::some_phases, crate::proofs::Steps::step_within), unfolding(ny_num::specs::Leaves::entry_at_phase))]
    pub fn at(&self, phase: u32) -> Sample
        ensures value { result ≡ entry_at_phase N phase }
        ensures within { IsSample result }
    {
        let samples = &self.samples;
        let step = (1u64 << 32) / N as u64;
        samples[(u64::from(phase) / step) as usize]
    }
}

/// The tables of all waves: `low` for slow ones at the control rate, `middle` for keys, and `high`
/// for frequencies.
#[derive(Drop)]
pub struct Waves {
    pub low: Wave<256>,
    pub middle: Wave<1024>,
    pub high: Wave<4096>,
}

impl Waves {
    /// The three tables.
    pub fn all() -> Waves
        ensures low { result.low ≡ entries 256 }
        ensures middle { result.middle ≡ entries 1024 }
        ensures high { result.high ≡ entries 4096 }
    {
        Waves {
            low: Wave::bhaskara(),
            middle: Wave::bhaskara(),
            high: Wave::bhaskara(),
        }
    }
}

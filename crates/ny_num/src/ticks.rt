ghost use Rattle.std.specs.Prelude.{◌≡◌, ◌≤◌, ◌*◌, min};
ghost use Rattle.ny_num.specs.Grid.{horizon, hz_of, last_index, ticks_of_micro, index_at, tick_at};

use crate::fix::Fix;
use crate::rate::Rate;
use std::marker::Model;

const HORIZON: u64 = 2_540_160_000_000;

/// A time in ticks, 705600000 to the second, from 0 to the horizon of an hour
/// (`docs/DEFINITIONS.md`, "Time").
#[derive(Clone, Copy, Debug, PartialEq, Eq)]
pub struct Ticks {
    count: u64,
}

impl Model for Ticks {
    ghost use Rattle.std.specs.Prelude.{ℕ, ◌≤◌};
    ghost use Rattle.ny_num.specs.Grid.{horizon};

    ghost Value = { ℕ };

    ghost view = { λ t. t.count };

    ghost invariant = { λ t. t.count ≤ horizon };

    ghost inverse = { λ n. record { count = n } };
}

impl Ticks {
    /// The time of so many ticks, and the horizon past it.
    pub fn of(t: u64) -> Ticks
        ensures { result ≡ min t horizon }
    {
        Ticks {
            count: t.min(HORIZON),
        }
    }

    /// The time in ticks.
    pub fn get(self) -> u64
        ensures value { result ≡ self }
        ensures within { result ≤ horizon }
    {
        self.count
    }
}

/// The time of so many seconds, no earlier than 0 and no later than the horizon.
#[tactic(auto, unfolding(crate::specs::Grid::ticks_of_micro, crate::specs::Grid::clamp_ticks))]
pub fn ticks_of(v: Fix) -> Ticks
    ensures { result ≡ ticks_of_micro v }
{
    let scaled = i128::from(v.micro()) * 7056;
    let ticks = scaled.div_euclid(10).clamp(0, i128::from(HORIZON));
    Ticks {
        count: ticks as u64,
    }
}

/// The sample nearest to a time, the later one where it lies halfway.
#[tactic(auto, unfolding(crate::specs::Grid::index_at))]
pub fn index(t: Ticks, r: Rate) -> u32
    ensures value { result ≡ index_at t r }
    ensures within { result ≤ last_index r }
{
    let grid = r.grid();
    ((t.count + grid / 2) / grid) as u32
}

/// The time of the sample at an index, which is at most the horizon's.
#[tactic(auto, unfolding(crate::specs::Grid::tick_at))]
pub fn tick_of_index(n: u32, r: Rate) -> Ticks
    requires { n ≤ last_index r }
    ensures value { result ≡ tick_at n r }
    ensures within { result ≤ horizon }
{
    Ticks {
        count: u64::from(n) * r.grid(),
    }
}

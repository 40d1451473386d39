ghost use Rattle.std.specs.Prelude.{◌≡◌, ◌≢◌, ◌≤◌, IfSome, IfNone};
ghost use Rattle.ny_num.specs.Grid.{hz_of, grid_of};
ghost use Rattle.ny_num.specs.declared.rate.Rate.{Rate as Rates};

/// One of the nine sample rates (`docs/DEFINITIONS.md`, "Time").
#[derive(Clone, Copy, Debug, PartialEq, Eq)]
pub enum Rate {
    R2205,
    R4410,
    R8000,
    R11025,
    R16000,
    R22050,
    R32000,
    R44100,
    R48000,
}

impl Rate {
    /// The rate of so many samples a second; none where it is not one of the nine.
    pub fn of(hz: u32) -> Option<Rate>
        ensures is { IfSome result (λ rate. hz_of rate ≡ hz) }
        ensures none { IfNone result ((rate : Rates) → hz_of rate ≢ hz) }
    {
        match hz {
            2205 => Some(Rate::R2205),
            4410 => Some(Rate::R4410),
            8000 => Some(Rate::R8000),
            11025 => Some(Rate::R11025),
            16000 => Some(Rate::R16000),
            22050 => Some(Rate::R22050),
            32000 => Some(Rate::R32000),
            44100 => Some(Rate::R44100),
            48000 => Some(Rate::R48000),
            _ => None,
        }
    }

    /// Samples a second.
    pub fn hz(self) -> u32
        ensures value { result ≡ hz_of self }
    {
        match self {
            Rate::R2205 => 2205,
            Rate::R4410 => 4410,
            Rate::R8000 => 8000,
            Rate::R11025 => 11025,
            Rate::R16000 => 16000,
            Rate::R22050 => 22050,
            Rate::R32000 => 32000,
            Rate::R44100 => 44100,
            Rate::R48000 => 48000,
        }
    }

    /// Ticks a sample.
    pub fn grid(self) -> u64
        ensures value { result ≡ grid_of self }
    {
        match self {
            Rate::R2205 => 320_000,
            Rate::R4410 => 160_000,
            Rate::R8000 => 88_200,
            Rate::R11025 => 64_000,
            Rate::R16000 => 44_100,
            Rate::R22050 => 32_000,
            Rate::R32000 => 22_050,
            Rate::R44100 => 16_000,
            Rate::R48000 => 14_700,
        }
    }
}

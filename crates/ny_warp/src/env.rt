ghost use Rattle.std.specs.Prelude.{◌≡◌, ◌≤◌, ◌≤ℤ◌, ℤ, IfOk, OnOk, OnErr};
ghost use Rattle.ny_warp.specs.Environment.{opening, global_time, least_local, shifted, stretched, warped, louder, sustained, transposed, at_sound_rate, at_control_rate, from_stop};

use crate::map::Map;
use crate::step::{Step, Steps, placed};
use ny_num::{Fix, Rate, Ticks, ticks_of};
use std::alloc::{AllocError, Global};

/// One, in millionths.
const UNIT: i64 = 1_000_000;

/// What a sound expression is evaluated in (`docs/DEFINITIONS.md`, "The environment"): local time
/// times `s` after the offset `d`, and then the steps of all warps around it, which are seen as
/// their list, the outermost first.
#[derive(Debug, Drop)]
pub struct Env {
    pub d: Ticks,
    pub s: Fix,
    pub loud: Fix,
    pub sustain: Fix,
    pub transpose: Fix,
    pub sound_rate: Rate,
    pub control_rate: Rate,
    steps: Steps,
}

impl Env {
    /// The opening environment at a sound rate.
    #[tactic(auto, unfolding(crate::specs::Environment::opening, ny_num::specs::Numbers::sat))]
    pub fn open(alloc: Global, rate: Rate) -> Result<Env, AllocError>
        ensures { IfOk result (λ env. env ≡ opening rate) }
    {
        Ok(Env {
            d: Ticks::of(0),
            s: Fix::of(UNIT),
            loud: Fix::of(UNIT),
            sustain: Fix::of(UNIT),
            transpose: Fix::of(0),
            sound_rate: rate,
            control_rate: Rate::R2205,
            steps: Steps::new(alloc)?,
        })
    }

    /// The same environment once more. Its steps are shared.
    pub fn copy(&self, _alloc: Global) -> Result<Env, AllocError>
        ensures { IfOk result (λ env. env ≡ self.now) }
    {
        Ok(Env {
            d: self.d,
            s: self.s,
            loud: self.loud,
            sustain: self.sustain,
            transpose: self.transpose,
            sound_rate: self.sound_rate,
            control_rate: self.control_rate,
            steps: self.steps.copy()?,
        })
    }

    /// The global time of a local time in seconds.
    #[tactic(auto, unfolding(crate::specs::Environment::global_time))]
    pub fn apply(&self, v: Fix) -> Ticks
        ensures { result ≡ global_time self.now v }
    {
        self.steps.through(placed(self.d, self.s, ticks_of(v)))
    }

    /// The law that a later local time has no earlier global time.
    #[tactic(auto, using(crate::proofs::NeverFalls::never_falling))]
    pub fn never_falls(&self)
        ensures { (v w : ℤ) → v ≤ℤ w → global_time self.now v ≤ global_time self.now w }
    {
        self.steps.never_falls();
    }

    /// The least time that all steps together take to the global time `t` or later, or the horizon
    /// where there is none.
    pub fn least_inverse(&self, t: Ticks) -> Ticks
        ensures { result ≡ least_local self.now t }
    {
        self.steps.least_inverse(t)
    }

    /// Moves the offset to local time `t`, in seconds.
    #[tactic(auto, unfolding(crate::specs::Environment::shifted))]
    pub fn at(&mut self, t: Fix)
        ensures { self.new ≡ shifted self.old t }
    {
        self.d = placed(self.d, self.s, ticks_of(t));
    }

    /// Multiplies the factor by `k`, or by 0 where `k` is below 0.
    #[tactic(auto, unfolding(crate::specs::Environment::stretched, ny_num::specs::Numbers::sat))]
    pub fn stretch(&mut self, k: Fix)
        ensures { self.new ≡ stretched self.old k }
    {
        let factor = if k.micro() < 0 { Fix::of(0) } else { k };
        self.s = self.s.mul(factor);
    }

    /// Adds offset, factor and map as the innermost step, after which there is neither offset nor
    /// factor. Where memory is wanted, the environment is as before.
    #[tactic(auto, unfolding(crate::specs::Environment::warped, ny_num::specs::Numbers::sat))]
    pub fn warp(&mut self, alloc: Global, m: &Map) -> Result<(), AllocError>
        ensures ok { OnOk result (self.new ≡ warped self.old m.now) }
        ensures err { OnErr result (self.new ≡ self.old) }
    {
        let step = Step {
            d: self.d,
            s: self.s,
            map: m.clone()?,
        };
        self.steps.push(alloc, step)?;
        self.d = Ticks::of(0);
        self.s = Fix::of(UNIT);
        Ok(())
    }

    /// Multiplies the loudness by `k`.
    #[tactic(auto, unfolding(crate::specs::Environment::louder))]
    pub fn loud(&mut self, k: Fix)
        ensures { self.new ≡ louder self.old k }
    {
        self.loud = self.loud.mul(k);
    }

    /// Multiplies the sustain by `k`.
    #[tactic(auto, unfolding(crate::specs::Environment::sustained))]
    pub fn sustain(&mut self, k: Fix)
        ensures { self.new ≡ sustained self.old k }
    {
        self.sustain = self.sustain.mul(k);
    }

    /// Adds `k` keys to the transposition.
    #[tactic(auto, unfolding(crate::specs::Environment::transposed))]
    pub fn transpose(&mut self, k: Fix)
        ensures { self.new ≡ transposed self.old k }
    {
        self.transpose = self.transpose.add(k);
    }

    /// Sets the sound rate.
    #[tactic(auto, unfolding(crate::specs::Environment::at_sound_rate))]
    pub fn sound_rate(&mut self, r: Rate)
        ensures { self.new ≡ at_sound_rate self.old r }
    {
        self.sound_rate = r;
    }

    /// Sets the control rate.
    #[tactic(auto, unfolding(crate::specs::Environment::at_control_rate))]
    pub fn control_rate(&mut self, r: Rate)
        ensures { self.new ≡ at_control_rate self.old r }
    {
        self.control_rate = r;
    }

    /// Moves the offset to the local time at which all steps together reach the stop `t`; factor
    /// and steps stay.
    #[tactic(auto, unfolding(crate::specs::Environment::from_stop))]
    pub fn at_stop(&mut self, t: Ticks)
        ensures { self.new ≡ from_stop self.old t }
    {
        self.d = self.least_inverse(t);
    }
}

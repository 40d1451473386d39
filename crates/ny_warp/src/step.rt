ghost use Rattle.std.specs.Prelude.{◌≡◌, ℕ, ◌+◌, ◌*◌, ◌<◌, ◌≤◌, ◌≤ℤ◌, ◌*ℤ◌, pos, [], ◌∷◌, ◌++◌, IfSome, IfNone, IfOk, OnOk, OnErr, MatchOption};
ghost use Rattle.std.specs.Int.{div_ceil};
ghost use Rattle.ny_num.specs.Grid.{horizon};
ghost use Rattle.ny_warp.specs.Maps.{IsThreshold};
ghost use Rattle.ny_warp.specs.Warp.{scaled, placed_at, step_value, through, least_inverse};

use crate::map::{HORIZON, Map};
use ny_num::{Fix, Ticks};
use std::alloc::{AllocError, Global};
use std::marker::Model;
use std::rc::RcSlice;

/// The exact product, which 64 bits cannot hold.
fn product(a: i64, b: u64) -> i128
    ensures { result ≡ a *ℤ pos b }
{
    i128::from(a) * i128::from(b)
}

/// A factor times a time.
#[tactic(auto, unfolding(crate::specs::Warp::scaled, ny_num::specs::Grid::clamp_ticks))]
fn scale(s: Fix, x: Ticks) -> Ticks
    ensures { result ≡ scaled s x }
{
    let exact = product(s.micro(), x.get()).div_euclid(1_000_000);
    let ticks = exact.clamp(0, i128::from(HORIZON));
    Ticks::of(ticks as u64)
}

/// An offset, and a factor times a time.
pub(crate) fn placed(d: Ticks, s: Fix, x: Ticks) -> Ticks
    ensures { result ≡ placed_at d s x }
{
    Ticks::of(d.get() + scale(s, x).get())
}

/// The factor, where it is above 0.
fn positive(s: Fix) -> Option<u64>
    ensures { MatchOption result (s ≤ℤ pos 0) (λ k. (pos k ≡ s) × (0 < k)) }
{
    let factor = s.micro();
    if factor <= 0 {
        return None;
    }
    Some(factor as u64)
}

/// The least number that a factor of so many millionths takes to `rise` or more.
fn first_scaled(factor: u64, rise: u64) -> u128
    requires { 0 < factor }
    ensures { result ≡ div_ceil (rise * 1000000) factor }
{
    (u128::from(rise) * 1_000_000).div_ceil(u128::from(factor))
}

/// The least time that an offset before `t` and a factor above 0 take to `t` or later; none past
/// the horizon.
#[tactic(auto, using(crate::proofs::PlacedThreshold::placing))]
fn first_with(factor: u64, d: Ticks, t: Ticks) -> Option<Ticks>
    requires factor { 0 < factor }
    requires later { d < t }
    ensures first { IfSome result (λ x. IsThreshold (placed_at d (pos factor)) t x) }
    ensures none { IfNone result ((v : ℕ) → v ≤ horizon → placed_at d (pos factor) v < t) }
{
    let first = first_scaled(factor, t.get() - d.get());
    if first > u128::from(HORIZON) {
        return None;
    }
    Some(Ticks::of(first as u64))
}

/// The least time that an offset and a factor take to `t` or later; none where no time is taken
/// there.
fn first_placed(d: Ticks, s: Fix, t: Ticks) -> Option<Ticks>
    ensures first { IfSome result (λ x. IsThreshold (placed_at d s) t x) }
    ensures none { IfNone result ((v : ℕ) → v ≤ horizon → placed_at d s v < t) }
{
    if t.get() <= d.get() {
        return Some(Ticks::of(0));
    }
    match positive(s) {
        Some(factor) => first_with(factor, d, t),
        None => None,
    }
}

/// One step of a warp: the time that its map gives, times `s`, after the offset `d`
/// (`docs/DEFINITIONS.md`, "The warp").
#[derive(Debug, Drop)]
pub struct Step {
    pub d: Ticks,
    pub s: Fix,
    pub map: Map,
}

impl Step {
    fn copy(&self) -> Result<Step, AllocError>
        ensures { IfOk result (λ step. step ≡ self.now) }
    {
        Ok(Step {
            d: self.d,
            s: self.s,
            map: self.map.clone()?,
        })
    }

    /// The law that a later time has no earlier value.
    #[tactic(auto, using(crate::proofs::NeverFalls::never_falling))]
    fn never_falls(&self)
        ensures { (v w : ℕ) → v ≤ w → step_value self.now v ≤ step_value self.now w }
    {
        self.map.never_falls();
    }

    fn value(&self, x: Ticks) -> Ticks
        ensures { result ≡ step_value self.now x }
    {
        placed(self.d, self.s, self.map.value(x))
    }

    /// The least time that this step takes to `t` or later; none where it takes no time there.
    fn first(&self, t: Ticks) -> Option<Ticks>
        ensures first { IfSome result (λ x. IsThreshold (step_value self.now) t x) }
        ensures none { IfNone result ((v : ℕ) → v ≤ horizon → step_value self.now v < t) }
    {
        match first_placed(self.d, self.s, t) {
            Some(value) => self.map.least(value),
            None => {
                self.map.values_are_times();
                None
            }
        }
    }
}

/// The steps of a warp, the outermost first. They are seen as their list, which copies share.
#[derive(Debug, Drop)]
pub(crate) struct Steps {
    items: RcSlice<Step>,
}

impl Model for Steps {
    ghost use Rattle.std.specs.Prelude.{List};
    ghost use Rattle.std.specs.Rc.{rc_slice_items};
    ghost use Rattle.ny_warp.specs.declared.step.Step.{Step};

    ghost Value = { List Step };

    ghost view = { λ s. rc_slice_items s.items };
}

impl Steps {
    pub(crate) fn new(alloc: Global) -> Result<Steps, AllocError>
        ensures { IfOk result (λ steps. steps ≡ []) }
    {
        let items = RcSlice::from_vec(Vec::new(alloc))?;
        Ok(Steps { items })
    }

    fn steps(&self) -> &[Step]
        ensures { result.now ≡ self.now }
    {
        self.items.as_slice()
    }

    // The same steps in a list of their own.
    fn own(&self, alloc: Global) -> Result<Vec<Step>, AllocError>
        ensures { IfOk result (λ steps. steps.items ≡ self.now) }
    {
        let steps = self.steps();
        let mut items = Vec::with_capacity(alloc, steps.len() + 1)?;
        for step in steps {
            items.push(step.copy()?)?;
        }
        Ok(items)
    }

    /// Adds the innermost step. Copies that share the steps before it do not have it.
    pub(crate) fn push(&mut self, alloc: Global, step: Step) -> Result<(), AllocError>
        ensures ok { OnOk result (self.new ≡ self.old ++ (step ∷ [])) }
        ensures err { OnErr result (self.new ≡ self.old) }
    {
        let mut items = self.own(alloc)?;
        items.push(step)?;
        self.items = RcSlice::from_vec(items)?;
        Ok(())
    }

    /// The same steps once more, at the same cost however many there are.
    pub(crate) fn copy(&self) -> Result<Steps, AllocError>
        ensures { IfOk result (λ steps. steps ≡ self.now) }
    {
        let items = self.items.clone()?;
        Ok(Steps { items })
    }

    /// The law that no later time is taken to an earlier one.
    pub(crate) fn never_falls(&self)
        ensures { (v w : ℕ) → v ≤ w → through self.now v ≤ through self.now w }
    {
        for step in self.steps() {
            step.never_falls();
        }
    }

    /// A time taken through all steps.
    pub(crate) fn through(&self, x: Ticks) -> Ticks
        ensures { result ≡ through self.now x }
    {
        let steps = self.steps();
        let mut at = x;
        for i in (0..steps.len()).rev() {
            at = steps[i].value(at);
        }
        at
    }

    /// The least time that the steps take to `t` or later, or the horizon where there is none. It
    /// goes back through one step at a time.
    pub(crate) fn least_inverse(&self, t: Ticks) -> Ticks
        ensures { result ≡ least_inverse self.now t }
    {
        let mut least = t;
        for step in self.steps() {
            match step.first(least) {
                Some(first) => least = first,
                None => return Ticks::of(HORIZON),
            }
        }
        least
    }
}

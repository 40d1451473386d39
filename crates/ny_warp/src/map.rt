ghost use Rattle.std.specs.Prelude.{◌≡◌, ◌↔◌, ℕ, ◌+◌, ◌-◌, ◌*◌, ◌/◌, ◌<◌, ◌≤◌, min, nat_le, nat_lt, false, true, length, IfOk, OnOk, IfSome, IfNone};
ghost use Rattle.std.specs.Bool.{OnTrue};
ghost use Rattle.std.specs.Int.{div_ceil};
ghost use Rattle.std.specs.Option.{SomeIff};
ghost use Rattle.std.specs.List.Sorted.{IsPartitionPoint};
ghost use Rattle.ny_num.specs.Grid.{horizon};
ghost use Rattle.ny_warp.specs.Maps.{is_rising, RisesFrom, map_value, IsThreshold, origin, corner_from};

use ny_num::Ticks;
use std::alloc::{AllocError, Global};
use std::marker::Model;
use std::rc::RcSlice;

/// A corner of the line that a map draws: local time `x` becomes `y`.
#[derive(Clone, Copy, Debug, PartialEq, Eq)]
pub struct Point {
    pub x: Ticks,
    pub y: Ticks,
}

/// Why points make no map (`docs/LANGUAGE.md`, "Time").
#[derive(Clone, Copy, Debug, PartialEq, Eq)]
pub enum MapFault {
    /// There is no point, or after (0, 0) they do not rise strictly in both coordinates.
    NotRising,
    /// No memory was left.
    OutOfMemory,
}

/// A map of times: the line from (0, 0) through points that rise, and past the last one at the
/// slope 1 (`docs/DEFINITIONS.md`, "The warp"). It is seen as the list of its points, which its
/// clones share.
#[derive(Debug, Drop)]
pub struct Map {
    points: RcSlice<Point>,
}

impl Model for Map {
    ghost use Rattle.std.specs.Prelude.{List};
    ghost use Rattle.std.specs.Rc.{rc_slice_items};
    ghost use Rattle.ny_warp.specs.declared.map.Point.{Point};

    ghost Value = { List Point };

    ghost use Rattle.ny_warp.specs.Maps.{RisesFrom};

    ghost view = { λ m. rc_slice_items m.points };

    ghost invariant = { λ m. RisesFrom 0 0 (rc_slice_items m.points) };
}

impl Clone for Map {
    ghost is_clone = { λ m copy. copy ≡ m };

    fn clone(&self) -> Result<Map, AllocError> {
        Ok(Map {
            points: self.points.clone()?,
        })
    }
}

/// An hour, in ticks.
pub(crate) const HORIZON: u64 = 2_540_160_000_000;

/// Where the line begins.
fn start_of_line() -> Point
    ensures { result ≡ origin }
{
    Point {
        x: Ticks::of(0),
        y: Ticks::of(0),
    }
}

/// Whether there is a point, and after (0, 0) they rise strictly in both coordinates.
fn is_rising(points: &[Point]) -> bool
    ensures value { result ≡ is_rising points.now }
    ensures kept { OnTrue result (RisesFrom 0 0 points.now) }
{
    let mut last = start_of_line();
    for point in points {
        if point.x.get() <= last.x.get() || point.y.get() <= last.y.get() {
            return false;
        }
        last = *point;
    }
    !points.is_empty()
}

/// How many points lie at or before a time.
fn count_up_to(points: &[Point], x: Ticks) -> usize
    requires { RisesFrom 0 0 points.now }
    ensures within { result ≤ length points.now }
    ensures parts { IsPartitionPoint (λ p. p.x ≤ x) (λ p. x < p.x) points.now result }
{
    let time = x.get();
    points.partition_point(
        |p: &Point| -> bool
            ensures { result ≡ nat_le p.now.x time }
        { p.x.get() <= time },
    )
}

/// How many points lie below a value.
fn count_below(points: &[Point], y: Ticks) -> usize
    requires { RisesFrom 0 0 points.now }
    ensures within { result ≤ length points.now }
    ensures parts { IsPartitionPoint (λ p. p.y < y) (λ p. y ≤ p.y) points.now result }
{
    let value = y.get();
    points.partition_point(
        |p: &Point| -> bool
            ensures { result ≡ nat_lt p.now.y value }
        { p.y.get() < value },
    )
}

/// Where the segment begins that ends at the point with this index, or past the last one.
fn corner(points: &[Point], index: usize) -> Point
    requires { index ≤ length points.now }
    ensures { result ≡ corner_from origin points.now index }
{
    match index.checked_sub(1) {
        Some(before) => points[before],
        None => start_of_line(),
    }
}

/// The part of a height that belongs to the first `along` of `width`, rounded down.
#[tactic(auto, using(crate::proofs::Quotients::parts))]
fn part_of(height: u64, along: u64, width: u64) -> u64
    requires { along < width }
    ensures value { result ≡ along * height / width }
    ensures within { result ≤ height }
{
    (u128::from(along) * u128::from(height) / u128::from(width)) as u64
}

/// The value at a time of a segment.
fn on_segment(start: Point, end: Point, x: Ticks) -> Ticks
    requires begun { start.x ≤ x }
    requires open { x < end.x }
    requires rises { start.y ≤ end.y }
    ensures { result ≡ start.y + (x - start.x) * (end.y - start.y) / (end.x - start.x) }
{
    let base = start.y.get();
    let left = start.x.get();
    Ticks::of(base + part_of(end.y.get() - base, x.get() - left, end.x.get() - left))
}

/// The value at a time past the last point.
fn past_end(last: Point, x: Ticks) -> Ticks
    requires { last.x ≤ x }
    ensures { result ≡ min (last.y + (x - last.x)) horizon }
{
    Ticks::of(last.y.get() + (x.get() - last.x.get()))
}

/// The least part of `width` over which a line to `height` rises by `rise`.
#[tactic(auto, using(crate::proofs::Quotients::ceilings))]
fn first_along(rise: u64, width: u64, height: u64) -> u64
    requires rise { rise ≤ height }
    requires height { 0 < height }
    ensures value { result ≡ div_ceil (rise * width) height }
    ensures within { result ≤ width }
{
    (u128::from(rise) * u128::from(width)).div_ceil(u128::from(height)) as u64
}

/// The least time at which a segment reaches a value.
fn first_on_segment(start: Point, end: Point, y: Ticks) -> Ticks
    requires begun { start.y ≤ y }
    requires reached { y ≤ end.y }
    requires right { start.x ≤ end.x }
    requires rises { start.y < end.y }
    ensures { result ≡ start.x + div_ceil ((y - start.y) * (end.x - start.x)) (end.y - start.y) }
{
    let base = start.y.get();
    let left = start.x.get();
    Ticks::of(left + first_along(y.get() - base, end.x.get() - left, end.y.get() - base))
}

/// The least time past the last point at which the line reaches a value; none past the horizon.
fn first_past_end(last: Point, y: Ticks) -> Option<Ticks>
    requires { last.y ≤ y }
    ensures time { SomeIff result (last.x + (y - last.y) ≤ horizon) (last.x + (y - last.y)) }
    ensures value { y ≤ horizon }
{
    let time = last.x.get() + (y.get() - last.y.get());
    (time <= HORIZON).then_some(Ticks::of(time))
}

impl Map {
    /// The map through these points. It is `NotRising` where there is none, or where after (0, 0)
    /// they do not rise strictly in both coordinates.
    pub fn of(alloc: Global, points: &[Point]) -> Result<Map, MapFault>
        ensures points { IfOk result (λ m. m ≡ points.now) }
        ensures rising { OnOk result (is_rising points.now ≡ true) }
        ensures not_rising { (result ≡ Err MapFault.NotRising) ↔ (is_rising points.now ≡ false) }
    {
        if !is_rising(points) {
            return Err(MapFault::NotRising);
        }
        match RcSlice::from_slice(alloc, points) {
            Ok(points) => Ok(Map { points }),
            Err(_) => Err(MapFault::OutOfMemory),
        }
    }

    fn points(&self) -> &[Point]
        ensures same { result.now ≡ self.now }
        ensures rising { RisesFrom 0 0 result.now }
    {
        self.points.as_slice()
    }

    /// The law that each value of a map is a time.
    #[tactic(auto, using(crate::proofs::Segments::within_horizon))]
    pub(crate) fn values_are_times(&self)
        ensures { (v : ℕ) → map_value self.now v ≤ horizon }
    {
        let _points = &self.points;
    }

    /// The law that a later time has no earlier value.
    #[tactic(auto, using(crate::proofs::NeverFalls::never_falling))]
    pub(crate) fn never_falls(&self)
        ensures { (v w : ℕ) → v ≤ w → map_value self.now v ≤ map_value self.now w }
    {
        let _points = &self.points;
    }

    /// The value at a time (`docs/DEFINITIONS.md`, "The warp").
    pub fn value(&self, x: Ticks) -> Ticks
        ensures { result ≡ map_value self.now x }
    {
        let points = self.points();
        let next = count_up_to(points, x);
        let start = corner(points, next);
        match points.get(next) {
            Some(end) => on_segment(start, *end, x),
            None => past_end(start, x),
        }
    }

    /// The least time with a value of at least `y`; none where no time up to the horizon has one.
    pub fn least(&self, y: Ticks) -> Option<Ticks>
        ensures least { IfSome result (λ x. IsThreshold (map_value self.now) y x) }
        ensures within { IfSome result (λ x. x ≤ horizon) }
        ensures none { IfNone result ((v : ℕ) → v ≤ horizon → map_value self.now v < y) }
    {
        let points = self.points();
        let next = count_below(points, y);
        let start = corner(points, next);
        match points.get(next) {
            Some(end) => Some(first_on_segment(start, *end, y)),
            None => first_past_end(start, y),
        }
    }
}

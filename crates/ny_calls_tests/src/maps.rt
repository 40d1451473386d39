use ny_num::{Fix, Rate, Ticks};
use ny_warp::{Env, Map, MapFault, Point};
use std::alloc::Global;
use std::test::Fail;

fn point(x: u64, y: u64) -> Point {
    Point {
        x: Ticks::of(x),
        y: Ticks::of(y),
    }
}

/// Through 0.001 s at 0.002 s and 0.002 s at 0.003 s.
fn steep(alloc: Global) -> Result<Map, MapFault> {
    Map::of(
        alloc,
        &[point(705_600, 1_411_200), point(1_411_200, 2_116_800)],
    )
}

/// The least time with a value.
fn least(map: &Map, value: u64) -> Option<u64> {
    Some(map.least(Ticks::of(value))?.get())
}

// The least times of values, and a value that no time has.
#[test]
fn least_times(rt: HostRuntime) -> Result<(), Fail> {
    let map = steep(rt.alloc())?;
    assert_eq!(rt; least(&map, 1_411_200), Some(705_600));
    assert_eq!(rt; least(&map, 1_411_199), Some(705_600));
    let below = Map::of(rt.alloc(), &[point(1_411_200, 705_600)])?;
    assert_eq!(rt; least(&below, 1), Some(2));
    assert_eq!(rt; least(&below, 2_540_159_294_401), None);
    Ok(())
}

#[test]
fn points_that_do_not_rise(rt: HostRuntime) {
    let map = Map::of(rt.alloc(), &[point(5, 5), point(5, 6)]);
    assert_eq!(rt; map.err(), Some(MapFault::NotRising));
}

// Two parts of a millisecond under the map: 0 to 0.002, and 0.002 to 0.003.
#[test]
fn parts_under_a_map(rt: HostRuntime) -> Result<(), Fail> {
    let map = steep(rt.alloc())?;
    let mut env = Env::open(rt.alloc(), Rate::R8000)?;
    env.warp(rt.alloc(), &map)?;
    let part = Fix::of(1_000);
    let stop = env.apply(part);
    assert_eq!(rt; stop.get(), 1_411_200);
    let mut next = env.copy(rt.alloc())?;
    next.at_stop(stop);
    assert_eq!(rt; next.d.get(), 705_600);
    assert_eq!(rt; next.apply(part).get(), 2_116_800);
    assert_eq!(rt; env.d.get(), 0);
    Ok(())
}

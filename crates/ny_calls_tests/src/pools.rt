use ny_pool::{Pool, Slots};
use std::test::Fail;

// A pool of two blocks of 16 items.
#[test]
fn pool_of_two(rt: HostRuntime) -> Result<(), Fail> {
    let mut pool = Pool::open(rt.alloc(), 2, 16, 0u32)?;
    assert_eq!(rt; pool.free(), 2);
    let first = pool.take().ok_or("no first block")?;
    let second = pool.take().ok_or("no second block")?;
    assert_ne!(rt; first, second);
    assert_eq!(rt; pool.free(), 0);
    assert_eq!(rt; pool.take(), None);
    pool.give(first);
    assert_eq!(rt; pool.free(), 1);
    let again = pool.take().ok_or("no block after one was given back")?;
    pool.put(again, 15, 7);
    assert_eq!(rt; pool.get(again, 15), 7);
    let mut out = [0u32; 16];
    pool.copy_to(again, &mut out);
    assert_eq!(rt; out[15], 7);
    Ok(())
}

// Three values in reserved slots.
#[test]
fn three_values_in_slots(rt: HostRuntime) -> Result<(), Fail> {
    let mut slots = Slots::open(rt.alloc())?;
    slots.reserve(rt.alloc(), 3)?;
    let a = slots.insert(5u32);
    let b = slots.insert(6);
    let c = slots.insert(7);
    assert_eq!(rt; [*slots.get(a), *slots.get(b), *slots.get(c)], [5, 6, 7]);
    *slots.get_mut(b) = 8;
    assert_eq!(rt; slots.remove(a), 5);
    assert_eq!(rt; slots.remove(b), 8);
    assert_eq!(rt; slots.spare(), 2);
    Ok(())
}

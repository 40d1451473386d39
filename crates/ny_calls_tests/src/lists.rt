ghost use Rattle.std.specs.Prelude.{◌≡◌, ℕ, ◌+◌, ◌<◌, ◌≤◌, IfOk, OnOk, length};
ghost use Rattle.ny_calls_tests.specs.Lists.{Plays};

use ny_list::{Cursor, List, Store};
use ny_num::Sample;
use std::alloc::Global;
use std::test::Fail;

/// A list of 20 samples in blocks of 16, and a cursor of it.
#[derive(Drop)]
struct Piece {
    store: Store,
    list: List,
    cursor: Cursor,
}

/// The list over two blocks, of which none is filled.
fn open(alloc: Global) -> Result<Piece, Fail>
    ensures plays { IfOk result (λ p. Plays p.store p.list p.cursor 0) }
    ensures begins { IfOk result (λ p. p.cursor.place ≡ 0) }
    ensures seen { IfOk result (λ p. p.cursor.visible ≡ 20) }
{
    let mut store = Store::open(alloc, 2, 16)?;
    store.reserve_list(alloc)?;
    let (list, cursor) = store.new_list(20, 7);
    Ok(Piece {
        store,
        list,
        cursor,
    })
}

/// Samples that go up by `step` from `first`.
fn block(first: i64, step: i64) -> [Sample; 16] {
    let mut samples = [Sample::ZERO; 16];
    let mut value = first;
    for sample in samples.iter_mut() {
        *sample = Sample::of(value);
        value = value.saturating_add(step);
    }
    samples
}

/// Fills the next block with samples that go up by `step` from `first`.
fn fill(piece: &mut Piece, first: i64, step: i64) -> Result<(), Fail>
    requires plays { (n : ℕ) × (n < 2) × Plays piece.old.store piece.old.list piece.old.cursor n }
    ensures filled { (n : ℕ) → Plays piece.old.store piece.old.list piece.old.cursor n → OnOk result (Plays piece.new.store piece.new.list piece.new.cursor (n + 1)) }
    ensures same { piece.new.cursor ≡ piece.old.cursor }
{
    let b = piece.store.take().ok_or("no block")?;
    let samples = block(first, step);
    piece.store.write(b, &samples);
    piece.store.append_block(&mut piece.list, b);
    Ok(())
}

/// Passes the next `n` samples.
fn pass(piece: &mut Piece, n: u32)
    requires plays { Plays piece.old.store piece.old.list piece.old.cursor 2 }
    requires within { piece.old.cursor.place + n ≤ 20 }
    ensures plays { Plays piece.new.store piece.new.list piece.new.cursor 2 }
    ensures passed { piece.new.cursor.place ≡ piece.old.cursor.place + n }
{
    piece.store.advance(&mut piece.cursor, n);
}

/// How many samples are read next, and the first of them in millionths.
fn next(piece: &Piece) -> (usize, i32)
    requires plays { Plays piece.now.store piece.now.list piece.now.cursor 2 }
{
    let run = piece.store.read_run(&piece.cursor);
    match run.first() {
        Some(sample) => (run.len(), sample.micro()),
        None => (0, 0),
    }
}

// Two blocks are filled, read and given back.
#[test]
fn a_list_of_twenty(rt: HostRuntime) -> Result<(), Fail> {
    let mut piece = open(rt.alloc())?;
    fill(&mut piece, 100, 1)?;
    fill(&mut piece, 200, 1)?;
    assert_eq!(rt; piece.store.free(), 0);
    assert_eq!(rt; next(&piece), (16, 100));
    pass(&mut piece, 10);
    assert_eq!(rt; next(&piece), (6, 110));
    assert_eq!(rt; piece.store.free(), 0);
    pass(&mut piece, 6);
    assert_eq!(rt; next(&piece), (4, 200));
    assert_eq!(rt; piece.store.free(), 1);
    pass(&mut piece, 4);
    assert_eq!(rt; next(&piece), (0, 0));
    assert_eq!(rt; piece.store.free(), 2);
    assert_eq!(rt; piece.store.position(&piece.cursor), 20);
    assert_eq!(rt; piece.cursor.tag(), 7);
    Ok(())
}

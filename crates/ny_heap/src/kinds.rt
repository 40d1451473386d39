ghost use Rattle.std.specs.Prelude.{◌≡◌, ◌+◌, ◌<◌, [], length};
ghost use Rattle.ny_heap.specs.Work.{kind_of};
ghost use Rattle.ny_heap.specs.Kinds.{place_of_kind, kind_of_op, kind_of_leaf, unit_kind};
ghost use Rattle.ny_heap.specs.Table.{IsTable};
ghost use Rattle.ny_heap.specs.Counting.{kept_below};

use crate::table::Table;
use crate::work::Work;
use ny_kernels::Op;
use ny_units::{LeafKind, LeafUnit};

// The place of the kind of a leaf.
fn place_of_leaf(unit: &LeafUnit) -> usize
    ensures { result ≡ place_of_kind (kind_of_leaf unit.now.leaf) }
{
    match unit.kind() {
        LeafKind::Const => 0,
        LeafKind::Ramp => 1,
        LeafKind::Osc => 2,
        LeafKind::HzOsc => 3,
        LeafKind::Lfo => 4,
        LeafKind::Noise => 5,
        LeafKind::Pwl => 6,
    }
}

// The place of the kind of an operation.
fn place_of_op(op: Op) -> usize
    ensures { result ≡ place_of_kind (kind_of_op op) }
{
    match op {
        Op::Add => 9,
        Op::Sub => 10,
        Op::Mul => 11,
        Op::Max => 12,
        Op::Min => 13,
    }
}

// The place of the kind of what does this work.
fn place_of_work(work: &Work) -> usize
    ensures { result ≡ place_of_kind (unit_kind (kind_of work.now)) }
{
    match work {
        Work::Leaf(unit) => place_of_leaf(unit),
        Work::Pair(unit, _, _) => place_of_op(unit.op()),
        Work::Abs(_) => 8,
        Work::Resample(_) => 14,
        Work::Filter(_, _) => 15,
        Work::Mix(_) => 16,
        Work::Channel(_) => 17,
    }
}

// Adds the blocks that the list of unit `v` keeps to those of its kind, where that unit is there.
fn count_kept(counts: &mut [u32], table: &Table, v: usize)
    requires table { IsTable table.now [] }
    requires inside { v < length table.now.units.items }
    requires counts { counts.old ≡ kept_below table.now v }
    ensures { counts.new ≡ kept_below table.now (v + 1) }
{
    if let Some(unit) = &table.units[v] {
        let place = place_of_work(&unit.work);
        counts[place] += table.store.kept(&unit.list);
    }
}

/// How many blocks the lists of all units keep, by the places of their kinds.
pub(crate) fn kept_by_kind(table: &Table) -> [u32; 18]
    requires table { IsTable table.now [] }
    ensures { result ≡ kept_below table.now (length table.now.units.items) }
{
    let mut counts = [0; 18];
    for v in 0..table.units.as_slice().len() {
        count_kept(&mut counts, table, v);
    }
    counts
}

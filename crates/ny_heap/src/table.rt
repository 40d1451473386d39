ghost use Rattle.std.specs.Prelude.{◌≡◌, ◌*◌, ◌^◌, ◌<◌, ◌≤◌, min, Some, IsSome};
ghost use Rattle.std.specs.Option.{ForSome};
ghost use Rattle.ny_heap.specs.Work.{inputs_in};
ghost use Rattle.ny_heap.specs.Table.{unit_at, IsThere, computed_in, computed_next_in, is_open_in};

use crate::work::Work;
use ny_list::{List, Store};
use ny_num::Timing;

/// A unit with the end of its list.
#[derive(Drop)]
pub(crate) struct Unit {
    pub(crate) work: Work,
    pub(crate) timing: Timing,
    /// When what it reads is heard.
    pub(crate) inputs: Vec<Timing>,
    pub(crate) list: List,
    /// How many parts were handed out and are still to be attached.
    pub(crate) pending: usize,
}

/// The units, each by the number of its list, and the lists.
#[derive(Drop)]
pub(crate) struct Table {
    pub(crate) store: Store,
    pub(crate) units: Vec<Option<Unit>>,
    pub(crate) block: u32,
}

/// A unit that is there.
pub(crate) fn unit_of(table: &Table, v: u32) -> &Unit
    requires { IsSome (unit_at table.now v) }
    ensures { unit_at table.now v ≡ Some result.now }
{
    match &table.units[v as usize] {
        Some(unit) => unit,
        None => unreachable!(),
    }
}

/// How many inputs a unit has.
pub(crate) fn inputs_of(table: &Table, u: u32) -> u32
    requires { IsSome (unit_at table.now u) }
    ensures { ForSome (unit_at table.now u) (λ x. result ≡ inputs_in x.work) }
{
    unit_of(table, u).work.inputs()
}

// How many samples of this length there are in so many blocks.
fn samples_in(block: u32, len: u32, blocks: u64) -> u32
    requires { blocks ≤ 2 ^ 32 }
    ensures { result ≡ min (blocks * block) len }
{
    (blocks * u64::from(block)).min(u64::from(len)) as u32
}

/// How many samples of a unit are computed.
pub(crate) fn computed(table: &Table, v: u32) -> u32
    requires { IsThere table.now v }
    ensures { result ≡ computed_in table.now v }
{
    let unit = unit_of(table, v);
    let filled = u64::from(table.store.filled(&unit.list));
    samples_in(table.block, unit.timing.len, filled)
}

/// How many samples of a unit are computed once its next block is.
pub(crate) fn computed_next(table: &Table, v: u32) -> u32
    requires { IsThere table.now v }
    ensures { result ≡ computed_next_in table.now v }
{
    let unit = unit_of(table, v);
    let filled = u64::from(table.store.filled(&unit.list));
    samples_in(table.block, unit.timing.len, filled + 1)
}

/// Whether a block of a unit's list is not filled.
pub(crate) fn is_unfilled(table: &Table, u: u32) -> bool
    requires positive { 0 < table.now.block }
    requires there { IsThere table.now u }
    ensures { result ≡ is_open_in table.now u }
{
    let unit = unit_of(table, u);
    // A block is left where the filled ones do not reach the end. So nothing is divided.
    let filled = u64::from(table.store.filled(&unit.list));
    filled * u64::from(table.block) < u64::from(unit.timing.len)
}

ghost use Rattle.std.specs.Prelude.{◌≡◌, ◌<◌, [], IfSome};
ghost use Rattle.std.specs.Option.{ForSome, option_map};
ghost use Rattle.ny_heap.specs.Work.{inputs_in, cursor_at};
ghost use Rattle.ny_heap.specs.Table.{unit_at, IsTable, IsThere, computed_next_in, lacks_in, lacking_from, NoneBefore};

use crate::table::{Table, Unit, computed, computed_next, unit_of};

// The list that an input reads.
fn work_list(unit: &Unit, i: u32) -> Option<u32>
    requires { i < inputs_in unit.now.work }
    ensures { result ≡ option_map (λ c. c.list) (cursor_at unit.now.work i) }
{
    unit.work.cursor(i).map(|c| c.list())
}

// The list of an input of a unit that is to have `done` samples, where it is not computed as far as
// that asks.
fn lacking(table: &Table, unit: &Unit, i: u32, done: u32) -> Option<u32>
    requires inside { i < inputs_in unit.now.work }
    requires there { ForSome (cursor_at unit.now.work i) (λ c. IsThere table.now c.list) }
    ensures { result ≡ lacks_in table.now unit.now done (cursor_at unit.now.work i) i }
{
    let v = work_list(unit, i)?;
    if computed(table, v) < unit.work.need(i, done) {
        Some(v)
    } else {
        None
    }
}

/// An input that is not computed far enough: the list that it reads, and its place among its unit's inputs.
#[derive(Clone, Copy)]
pub(crate) struct Missing {
    pub(crate) list: u32,
    pub(crate) place: u32,
}

/// The first input that is not computed far enough for a unit's next block, where none before place `from` is that. Inputs at the front
/// that read nothing any more are passed over.
pub(crate) fn first_lacking(table: &Table, u: u32, from: u32) -> Option<Missing>
    requires table { IsTable table.now [] }
    requires there { IsThere table.now u }
    requires before { ForSome (unit_at table.now u) (λ x. NoneBefore table.now x (computed_next_in table.now u) from) }
    ensures first { ForSome (unit_at table.now u) (λ x. option_map (λ w. w.list) result ≡ lacking_from table.now x (computed_next_in table.now u) 0 (inputs_in x.work)) }
    ensures before { IfSome result (λ w. ForSome (unit_at table.now u) (λ x. NoneBefore table.now x (computed_next_in table.now u) w.place)) }
{
    let unit = unit_of(table, u);
    let done = computed_next(table, u);
    let count = unit.work.inputs();
    let begin = from.max(unit.work.over()).min(count);
    for i in begin..count {
        if let Some(list) = lacking(table, unit, i, done) {
            return Some(Missing { list, place: i });
        }
    }
    None
}

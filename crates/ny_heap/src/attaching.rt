ghost use Rattle.std.specs.Prelude.{◌≡◌, ◌+◌, ◌*◌, ◌<◌, nat_lt, [], ◌∷◌, length, IsSome, IsSomeAnd};
ghost use Rattle.std.specs.List.{list_any};
ghost use Rattle.std.specs.Option.{ForSome};
ghost use Rattle.ny_num.specs.Grid.{index_at};
ghost use Rattle.ny_heap.specs.Work.{waits_in};
ghost use Rattle.ny_heap.specs.Table.{unit_at, IsTable, IsThere};
ghost use Rattle.ny_heap.specs.View.{last_stop_in, filled_in};
ghost use Rattle.ny_heap.specs.Attaching.{HasRoomIn, with_part_in, has_waits, TakesPart, GetsPart};

use crate::sound::{Sound, same_timing};
use crate::table::{Table, Unit, unit_of};
use crate::task::attach_sound;
use crate::work::Work;
use ny_num::{Rate, Ticks, Timing, index};

/// How many parts of a unit wait.
pub(crate) fn waiting_at(table: &Table, u: u32) -> usize
    requires { IsSome (unit_at table.now u) }
    ensures { ForSome (unit_at table.now u) (λ x. result ≡ length (waits_in x.work)) }
{
    unit_of(table, u).work.waiting()
}

// Whether a part waits in a place for a unit.
fn waits(unit: &Option<Unit>) -> bool
    ensures { result ≡ has_waits unit.now }
{
    match unit {
        Some(unit) => unit.work.waiting() > 0,
        None => false,
    }
}

/// Whether a part of some unit waits.
pub(crate) fn any_waits(table: &Table) -> bool
    ensures { result ≡ list_any has_waits table.now.units.items }
{
    table.units.iter().any(|unit| waits(unit))
}

/// The stop of the input that a unit was given last.
pub(crate) fn last_stop_of(table: &Table, u: u32) -> Ticks
    requires { IsSomeAnd (unit_at table.now u) (λ x. 0 < length x.inputs.items) }
    ensures { ForSome (unit_at table.now u) (λ x. result ≡ last_stop_in 0 x.inputs.items) }
{
    let inputs = unit_of(table, u).inputs.as_slice();
    inputs[inputs.len() - 1].stop
}

// The index of the stop of the last of these, or 0 where there is none.
fn index_after(inputs: &[Timing], rate: Rate) -> u32
    ensures { result ≡ index_at (last_stop_in 0 inputs.now) rate }
{
    match inputs.last() {
        Some(timing) => index(timing.stop, rate),
        None => 0,
    }
}

// The index after one block more than so many, counted from a start.
fn index_past(start: u32, block: u32, blocks: u32) -> u64
    ensures { result ≡ start + (blocks + 1) * block }
{
    u64::from(start) + (u64::from(blocks) + 1) * u64::from(block)
}

/// Whether a unit needs its next part in its next block.
pub(crate) fn needs_part(table: &Table, u: u32) -> bool
    requires { IsThere table.now u }
    ensures { ForSome (unit_at table.now u) (λ x. result ≡ nat_lt (index_at (last_stop_in 0 x.inputs.items) x.timing.rate) (x.timing.start + (filled_in table.now.store u + 1) * table.now.block)) }
{
    let unit = unit_of(table, u);
    let filled = table.store.filled(&unit.list);
    let end = index_past(unit.timing.start, table.block, filled);
    u64::from(index_after(unit.inputs.as_slice(), unit.timing.rate)) < end
}

/// Takes out what the first part of a unit that waits keeps. That part is still to be attached.
pub(crate) fn hand_out(table: &mut Table, u: u32) -> Vec<Sound>
    requires table { IsTable table.old [] }
    requires waits { IsSomeAnd (unit_at table.old u) (λ x. 0 < length (waits_in x.work)) }
    ensures { TakesPart table.old table.new u result.items }
{
    let unit = table.units[u as usize].as_mut().unwrap();
    unit.pending += 1;
    unit.work.next_waiting().unwrap()
}

// A sound as one more part of a mix. Other work has none.
fn attach_to(work: &mut Work, part: Sound)
    requires { HasRoomIn work.old }
    ensures { work.new ≡ with_part_in work.old part }
{
    match work {
        Work::Leaf(_) => {}
        Work::Pair(_, _, _) => {}
        Work::Abs(_) => {}
        Work::Resample(_) => {}
        Work::Filter(_, _) => {}
        Work::Mix(mix) => attach_sound(mix, part),
        Work::Channel(_) => {}
    }
}

/// A sound as one more input of a unit, which was promised one.
pub(crate) fn attach_part(table: &mut Table, u: u32, part: Sound)
    requires table { IsTable table.old (part.reader ∷ []) }
    requires promised { IsSomeAnd (unit_at table.old u) (λ x. 0 < x.pending) }
    ensures { GetsPart table.old table.new u part }
{
    let unit = table.units[u as usize].as_mut().unwrap();
    unit.pending -= 1;
    unit.inputs.push_reserved(same_timing(&part.timing));
    attach_to(&mut unit.work, part);
}

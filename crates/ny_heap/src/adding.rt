ghost use Rattle.std.specs.Prelude.{◌≡◌, ℕ, ◌+◌, ◌^◌, ◌<◌, ◌≤◌, [], ◌++◌, map, length, slice_index_or, vec_capacity, IfOk, OnOk};
ghost use Rattle.std.specs.Option.{ForSome};
ghost use Rattle.std.specs.VecDeque.{deque_items};
ghost use Rattle.ny_list.specs.Laws.{StoreLaws};
ghost use Rattle.ny_heap.specs.Work.{flat, cursors_of_sounds};
ghost use Rattle.ny_heap.specs.Table.{IsTable, Drops};
ghost use Rattle.ny_heap.specs.Making.{More, Grows, HasRoom, Places, first_cursor, IsMade};
ghost use Rattle.ny_heap.specs.Tasks.{IsTask, IsReady, IsCount, kind_of_task, waits_of_task, cursors_left};

use crate::blocks::{drop_all, drop_reader};
use crate::sound::{Sound, same_timing};
use crate::table::{Table, Unit};
use crate::task::{Task, Unused, begin_work, waiting_in, waits_of};
use crate::work::Work;
use ny_list::Cursor;
use ny_num::Timing;
use std::alloc::{AllocError, Global};
use std::collections::VecDeque;

// When these sounds are heard.
fn timings_of(alloc: Global, sounds: &[Sound]) -> Result<Vec<Timing>, AllocError>
    ensures { IfOk result (λ v. v.items ≡ map (λ s. s.timing) sounds.now) }
{
    sounds
        .iter()
        .map(|sound| same_timing(&sound.timing))
        .collect(alloc)
}

// At least so many places for units.
fn grow(units: &mut Vec<Option<Unit>>, places: usize) -> Result<(), AllocError>
    ensures more { More units.old.items units.new.items }
    ensures places { OnOk result (places ≤ length units.new.items) }
{
    while units.len() < places {
        units.push(None)?;
    }
    Ok(())
}

// Room for one more unit.
fn make_room(table: &mut Table, alloc: Global) -> Result<(), AllocError>
    requires { StoreLaws table.old.store }
    ensures grows { Grows table.old table.new }
    ensures room { OnOk result (HasRoom table.new) }
{
    table.store.reserve_list(alloc)?;
    let places = table.store.numbers() as usize;
    grow(&mut table.units, places)
}

// At least so many places for what parts that wait are evaluated from, one for each unit.
fn grow_branches<B>(
    branches: &mut Vec<VecDeque<B>>,
    alloc: Global,
    places: usize,
) -> Result<(), AllocError>
    ensures same { (v : ℕ) → slice_index_or (map deque_items branches.new.items) v [] ≡ slice_index_or (map deque_items branches.old.items) v [] }
    ensures places { OnOk result (places ≤ length branches.new.items) }
{
    branches.reserve(places.saturating_sub(branches.len()))?;
    while branches.len() < places {
        branches.push_reserved(VecDeque::new(alloc));
    }
    Ok(())
}

// Room for one more unit over these sounds, and for so many parts that wait. Answers when the sounds are heard.
fn prepare<B>(
    table: &mut Table,
    branches: &mut Vec<VecDeque<B>>,
    alloc: Global,
    sounds: &[Sound],
    waiting: usize,
) -> Result<Vec<Timing>, AllocError>
    requires { StoreLaws table.old.store }
    ensures grows { Grows table.old table.new }
    ensures room { OnOk result (HasRoom table.new) }
    ensures timings { IfOk result (λ v. v.items ≡ map (λ s. s.timing) sounds.now) }
    ensures places { IfOk result (λ v. length v.items + waiting ≤ vec_capacity v) }
    ensures same { (v : ℕ) → slice_index_or (map deque_items branches.new.items) v [] ≡ slice_index_or (map deque_items branches.old.items) v [] }
    ensures branches { OnOk result (length table.new.units.items ≤ length branches.new.items) }
{
    let mut timings = timings_of(alloc, sounds)?;
    timings.reserve(waiting)?;
    make_room(table, alloc)?;
    grow_branches(branches, alloc, table.units.as_slice().len())?;
    Ok(timings)
}

// Adds a unit that does this work. Answers a cursor at its beginning.
fn add_unit(table: &mut Table, inputs: Vec<Timing>, work: Work, timing: Timing) -> Cursor
    requires { HasRoom table.old }
    ensures places { Places table.old table.new result.list work timing inputs }
    ensures cursor { result ≡ first_cursor result.list timing.len }
{
    let (list, cursor) = table.store.new_list(timing.len, 0);
    let n = list.number();
    table.units[n as usize] = Some(Unit {
        work,
        timing,
        inputs,
        list,
        pending: 0,
    });
    cursor
}

// Spends what is left of a task's sounds.
fn drop_unused(table: &mut Table, unused: Unused)
    requires { IsTable table.old (cursors_left unused) }
    ensures { Drops table.old table.new (cursors_left unused) [] }
{
    match unused {
        Unused::One(cursor) => drop_reader(table, cursor),
        Unused::All(sounds, waits) => drop_all(table, sounds, waits),
    }
}

/// Adds a unit for this task over these sounds, where it has a sample. Where it has none there is
/// no unit, and the sounds are dropped, with those that parts were to keep, as they are where memory
/// is missing. Answers a cursor at its beginning. The unit has a place in `branches`.
pub(crate) fn make_unit<B>(
    table: &mut Table,
    branches: &mut Vec<VecDeque<B>>,
    alloc: Global,
    task: Task,
    sounds: Vec<Sound>,
    timing: Timing,
) -> Result<Option<Cursor>, AllocError>
    requires table { IsTable table.old (cursors_of_sounds (sounds.items ++ flat (waits_of_task task))) }
    requires early { timing.start + timing.len < 2 ^ 32 }
    requires count { IsCount task (length sounds.items) }
    requires task { 0 < timing.len → IsTask task timing.len }
    requires ready { 0 < timing.len → IsReady task sounds.items timing }
    ensures made { IsMade table.old table.new (kind_of_task task) timing sounds.items (waits_of_task task) result }
    ensures same { (v : ℕ) → slice_index_or (map deque_items branches.new.items) v [] ≡ slice_index_or (map deque_items branches.old.items) v [] }
    ensures room { IfOk result (λ o. ForSome o (λ c. c.list < length branches.new.items)) }
{
    if timing.len == 0 {
        drop_all(table, sounds, waits_of(alloc, task));
        return Ok(None);
    }
    match prepare(table, branches, alloc, sounds.as_slice(), waiting_in(&task)) {
        Err(e) => {
            drop_all(table, sounds, waits_of(alloc, task));
            Err(e)
        }
        Ok(inputs) => match begin_work(alloc, task, sounds, &timing) {
            Ok(work) => Ok(Some(add_unit(table, inputs, work, timing))),
            Err(unused) => {
                drop_unused(table, unused);
                Err(AllocError)
            }
        },
    }
}

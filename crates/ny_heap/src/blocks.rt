//! What takes blocks and gives them back: a list has a block more, a cursor passes samples, a cursor is dropped.

ghost use Rattle.std.specs.Prelude.{◌≡◌, ◌+◌, ◌<◌, ◌≤◌, ◌↔◌, min, List as ListOf, [], ◌∷◌, ◌++◌, take, drop, length, IsTrue, Some, ℤ};
ghost use Rattle.std.specs.Option.{ForSome};
ghost use Rattle.ny_list.specs.Store.{list_at, cursors_of, free_of};
ghost use Rattle.ny_list.specs.Laws.{StoreLaws};
ghost use Rattle.ny_list.specs.Reading.{Shows};
ghost use Rattle.ny_list.specs.Steps.{with_move};
ghost use Rattle.ny_units.specs.Inputs.{IsReader};
ghost use Rattle.ny_heap.specs.Steps.{run_of};
ghost use Rattle.ny_heap.specs.Work.{source_at, cursor_at, without_cursor_at, with_cursor_at, flat, kept_in, cursors_of_sounds};
ghost use Rattle.ny_heap.specs.Tasks.{lists_of};
ghost use Rattle.ny_heap.specs.declared.settling.Next.TheVariants.{Pass};
ghost use Rattle.ny_heap.specs.Table.{unit_at, computed_in, is_open_in, IsTable, IsThere, Removes, Drops};
ghost use Rattle.ny_heap.specs.Filling.{Appends, Reworks, HasInput, IsNextOf, Settling, Settles};

use crate::sound::Sound;
use crate::table::{Table, Unit, unit_of};
use crate::work::Work;
use ny_list::Cursor;
use ny_num::Sample;
use std::collections::VecDeque;

/// Adds a block with these samples to a unit's list.
pub(crate) fn append(table: &mut Table, u: u32, samples: &[Sample])
    requires there { IsThere table.old u }
    requires unfilled { IsTrue (is_open_in table.old u) }
    requires block { table.old.store.block ≡ table.old.block }
    requires whole { length samples.now ≡ table.old.block }
    requires free { 0 < free_of table.old.store }
    ensures { Appends table.old table.new u samples.now }
{
    let b = table.store.take().unwrap();
    table.store.write(b, samples);
    let unit = table.units[u as usize].as_mut().unwrap();
    table.store.append_block(&mut unit.list, b);
}

// Copies samples to the front of `out`, as many as there is room for. Answers how many.
fn copy_front(run: &[Sample], out: &mut [Sample]) -> usize
    ensures count { result ≡ min (length run.now) (length out.old) }
    ensures copied { out.new ≡ take result run.now ++ drop result out.old }
{
    let count = run.len().min(out.len());
    out[..count].copy_from_slice(&run[..count]);
    count
}

/// Copies the next samples of a list, of the first `visible`, to the front of `out`, and passes
/// them: no more than there is room for, to the end of the block. Answers how many.
pub(crate) fn read_next(
    table: &mut Table,
    c: &mut Cursor,
    visible: u32,
    out: &mut [Sample],
) -> usize
    requires table { IsTable table.old (Some c.old ∷ []) }
    requires computed { c.old.place ≤ computed_in table.old c.old.list }
    ensures count { result ≡ run_of table.old.block (computed_in table.old c.old.list) visible c.old.place (length out.old) }
    ensures passed { c.new ≡ record c.old { place = c.old.place + result; visible = visible } }
    ensures moved { table.new ≡ record table.old { store = with_move table.old.store c.old (c.old.place + result) } }
    ensures laws { StoreLaws table.new.store }
    ensures samples { (xs : ListOf ℤ) → Shows table.old.store c.old.list xs → out.new ≡ take result (drop c.old.place (take visible xs)) ++ drop result out.old }
{
    c.see(visible);
    let count = copy_front(table.store.read_run(c), out);
    table.store.advance(c, count as u32);
    count
}

/// Takes the cursor of an input.
pub(crate) fn take_input(table: &mut Table, u: u32, i: u32) -> Option<Cursor>
    requires inside { HasInput table.old u i }
    ensures cursor { ForSome (unit_at table.old u) (λ x. result ≡ cursor_at x.work i) }
    ensures taken { ForSome (unit_at table.old u) (λ x. Reworks table.old table.new u x (without_cursor_at x.work i)) }
{
    let unit = table.units[u as usize].as_mut().unwrap();
    unit.work.take_cursor(i)
}

// Puts the cursor of an input back.
fn put_input(table: &mut Table, u: u32, i: u32, c: Cursor)
    requires inside { HasInput table.old u i }
    requires reader { ForSome (unit_at table.old u) (λ x. IsReader (source_at x.work i)) }
    ensures { ForSome (unit_at table.old u) (λ x. Reworks table.old table.new u x (with_cursor_at x.work i c)) }
{
    let unit = table.units[u as usize].as_mut().unwrap();
    unit.work.put_cursor(i, c);
}

/// An input passes so many samples.
pub(crate) fn pass(table: &mut Table, u: u32, i: u32, n: u32)
    requires settling { Settling table.old u i }
    requires inside { HasInput table.old u i }
    requires passes { ForSome (unit_at table.old u) (λ x. IsNextOf table.old u i x (Pass n)) }
    ensures settling { Settling table.new u (i + 1) }
    ensures settles { Settles table.old table.new u i (i + 1) }
{
    let mut c = take_input(table, u, i).unwrap();
    table.store.advance(&mut c, n);
    put_input(table, u, i, c);
}

// Takes a unit out that nobody reads, and closes its list. Answers what it computed, with the
// cursors of what it read.
fn remove_unit(table: &mut Table, v: u32) -> Work
    requires there { IsThere table.old v }
    requires unread { ForSome (list_at table.old.store v) (λ l. cursors_of l ≡ 0) }
    ensures { Removes table.old table.new v result }
{
    let Unit { work, list, .. } = table.units[v as usize].take().unwrap();
    table.store.close(list);
    work
}

// Whether somebody reads a unit.
fn is_read(table: &Table, v: u32) -> bool
    requires { IsThere table.now v }
    ensures { ForSome (list_at table.now.store v) (λ l. IsTrue result ↔ (0 < cursors_of l)) }
{
    table.store.held(&unit_of(table, v).list)
}

/// Spends a reader. Where nobody reads its unit any more that is removed, and what only it read.
#[cycle(drop)]
pub(crate) fn drop_reader(table: &mut Table, c: Cursor)
    requires { IsTable table.old (Some c ∷ []) }
    ensures { Drops table.old table.new (Some c ∷ []) [] }
{
    let v = c.list();
    table.store.drop_cursor(c);
    if is_read(table, v) {
        return;
    }
    let mut work = remove_unit(table, v);
    let count = work.inputs();
    for i in 0..count {
        if let Some(input) = work.take_cursor(i) {
            drop_reader(table, input);
        }
    }
    drop_kept(table, work);
}

// Spends what the parts of this work that wait keep.
#[cycle(drop)]
fn drop_kept(table: &mut Table, mut work: Work)
    requires { IsTable table.old (cursors_of_sounds (kept_in work)) }
    ensures { Drops table.old table.new (cursors_of_sounds (kept_in work)) [] }
{
    while let Some(kept) = work.next_waiting() {
        drop_sounds(table, kept);
    }
}

// Spends a sound.
#[cycle(drop)]
fn drop_sound(table: &mut Table, sound: Sound)
    requires { IsTable table.old (sound.reader ∷ []) }
    ensures { Drops table.old table.new (sound.reader ∷ []) [] }
{
    let Sound { reader, .. } = sound;
    if let Some(c) = reader {
        drop_reader(table, c);
    }
}

/// Spends these sounds, from the last one on.
#[cycle(drop)]
pub(crate) fn drop_sounds(table: &mut Table, mut sounds: Vec<Sound>)
    requires { IsTable table.old (cursors_of_sounds sounds.items) }
    ensures { Drops table.old table.new (cursors_of_sounds sounds.items) [] }
{
    while let Some(sound) = sounds.pop() {
        drop_sound(table, sound);
    }
}

// Spends all of these sounds.
fn drop_waits(table: &mut Table, waits: Vec<Vec<Sound>>)
    requires { IsTable table.old (cursors_of_sounds (flat (lists_of waits.items))) }
    ensures { Drops table.old table.new (cursors_of_sounds (flat (lists_of waits.items))) [] }
{
    let mut queue = VecDeque::from(waits);
    while let Some(sounds) = queue.pop_front() {
        drop_sounds(table, sounds);
    }
}

/// Spends these sounds, and those that parts were to keep.
pub(crate) fn drop_all(table: &mut Table, sounds: Vec<Sound>, waits: Vec<Vec<Sound>>)
    requires { IsTable table.old (cursors_of_sounds (sounds.items ++ flat (lists_of waits.items))) }
    ensures { Drops table.old table.new (cursors_of_sounds (sounds.items ++ flat (lists_of waits.items))) [] }
{
    drop_sounds(table, sounds);
    drop_waits(table, waits);
}

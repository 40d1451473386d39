ghost use Rattle.std.specs.Prelude.{◌≡◌, ◌+◌, [], ◌∷◌, IsSome, MatchOption};
ghost use Rattle.std.specs.Option.{ForSome};
ghost use Rattle.ny_heap.specs.Work.{inputs_in, waits_in, without_first};
ghost use Rattle.ny_heap.specs.declared.settling.Next.TheVariants.{Drop};
ghost use Rattle.ny_heap.specs.Table.{unit_at, IsTable, IsRead};
ghost use Rattle.ny_heap.specs.Filling.{Reworks, HasInput, IsNextOf, Settling, Settles, Forgetting, WaitsStill};

use crate::blocks::{drop_reader, drop_sounds, pass, take_input};
use crate::sound::Sound;
use crate::table::{Table, computed, inputs_of, is_unfilled, unit_of};

/// What is to be done about an input once its unit has one block more.
pub(crate) enum Next {
    Stay,
    /// To drop its cursor.
    Drop,
    /// To pass so many samples.
    Pass(u32),
}

// What is to be done about an input.
fn next_of(table: &Table, u: u32, i: u32) -> Next
    requires settling { Settling table.now u i }
    requires inside { HasInput table.now u i }
    ensures { ForSome (unit_at table.now u) (λ x. IsNextOf table.now u i x result) }
{
    let work = &unit_of(table, u).work;
    let Some(c) = work.cursor(i) else {
        return Next::Stay;
    };
    let need = work.need(i, computed(table, u));
    if !is_unfilled(table, u) || need >= c.visible() {
        return Next::Drop;
    }
    Next::Pass(need - table.store.position(c))
}

// An input has nothing more to read.
fn forget(table: &mut Table, u: u32, i: u32)
    requires settling { Settling table.old u i }
    requires inside { HasInput table.old u i }
    requires drops { ForSome (unit_at table.old u) (λ x. IsNextOf table.old u i x Drop) }
    ensures settling { Settling table.new u (i + 1) }
    ensures settles { Settles table.old table.new u i (i + 1) }
{
    let c = take_input(table, u, i).unwrap();
    drop_reader(table, c);
}

// Gives back what an input has passed. Where its unit has done with it, its cursor is dropped.
fn settle(table: &mut Table, u: u32, i: u32)
    requires settling { Settling table.old u i }
    requires inside { HasInput table.old u i }
    ensures settling { Settling table.new u (i + 1) }
    ensures settles { Settles table.old table.new u i (i + 1) }
{
    match next_of(table, u, i) {
        Next::Stay => {}
        Next::Drop => forget(table, u, i),
        Next::Pass(n) => pass(table, u, i, n),
    }
}

// Gives back what a unit's inputs have passed, and drops the cursors of those with which it has done.
fn settle_inputs(table: &mut Table, u: u32)
    requires settling { Settling table.old u 0 }
    ensures settles { ForSome (unit_at table.old u) (λ x. Settles table.old table.new u 0 (inputs_in x.work)) }
    ensures table { IsTable table.new [] }
    ensures read { IsRead table.new }
{
    let first = unit_of(table, u).work.over();
    for i in first..inputs_of(table, u) {
        settle(table, u, i);
    }
}

// Takes out what the first part of a unit that waits keeps.
fn take_waiting(table: &mut Table, u: u32) -> Option<Vec<Sound>>
    requires there { IsSome (unit_at table.old u) }
    ensures first { ForSome (unit_at table.old u) (λ x. MatchOption result (waits_in x.work ≡ []) (λ kept. waits_in x.work ≡ kept.items ∷ waits_in (without_first x.work))) }
    ensures taken { ForSome (unit_at table.old u) (λ x. Reworks table.old table.new u x (without_first x.work)) }
{
    let unit = table.units[u as usize].as_mut().unwrap();
    unit.work.next_waiting()
}

// A unit that has filled its last block waits for nothing: what its parts keep is dropped.
fn forget_waiting(table: &mut Table, u: u32)
    requires forgetting { Forgetting table.old table.old u }
    ensures forgetting { Forgetting table.old table.new u }
    ensures none { ForSome (unit_at table.new u) (λ x. waits_in x.work ≡ []) }
{
    while let Some(kept) = take_waiting(table, u) {
        drop_sounds(table, kept);
    }
}

/// Gives back what a unit's inputs have passed, and drops the cursors of those with which it has done. Once its last block
/// is filled it waits for nothing.
pub(crate) fn settle_all(table: &mut Table, u: u32)
    requires settling { Settling table.old u 0 }
    ensures settles { ForSome (unit_at table.old u) (λ x. Settles table.old table.new u 0 (inputs_in x.work)) }
    ensures waits { WaitsStill table.old table.new u }
    ensures table { IsTable table.new [] }
    ensures read { IsRead table.new }
{
    settle_inputs(table, u);
    if is_unfilled(table, u) {
        return;
    }
    forget_waiting(table, u);
}

ghost use Rattle.std.specs.Prelude.{◌≡◌, ◌≢◌, ℕ, ◌+◌, ◌-◌, ◌<◌, ◌≤◌, ◌^◌, ◌==◌, ◌*◌, length, Some, None, IsSome, IsTrue, is_some, slice_index_or, slice_set, nat_lt, take, drop, ◌/◌};
ghost use Rattle.std.specs.Option.{ForSome};
ghost use Rattle.ny_pool.specs.Blocks.{in_block, IsTaken};
ghost use Rattle.ny_list.specs.Store.{ListState, StoreState, blocks_of, stands_in};
ghost use Rattle.ny_list.specs.Steps.{entered, left, settled, blank_below, filled_with};
ghost use Rattle.ny_list.specs.Chain.{home_at, next_at};
ghost use Rattle.ny_list.specs.Table.{entry_at, IsTable, CanStand, HasBlock, Enters, Leaves, Gives, Settles, Appends, CanAppend, Moves, Drops, Adds, mark_of, IsIdle, run_of_list};

use crate::chain::{Link, Span, extended, find, lead, next_of};
use ny_num::Sample;
use ny_pool::{BlockId, Pool, SlotId, Slots};

/// What a store knows of a list.
#[derive(Clone, Copy)]
pub(crate) struct Entry {
    pub(crate) span: Span,
    pub(crate) tag: u32,
    // How many cursors stand past the last filled block.
    pub(crate) waiting: u32,
    // How many cursors there are.
    pub(crate) cursors: u32,
}

/// The lists, and the blocks that hold their samples.
#[derive(Drop)]
pub(crate) struct Table {
    pub(crate) pool: Pool<Sample>,
    // For each block of the pool where it stands in a list, and how many cursors stand in it.
    pub(crate) links: Vec<Option<Link>>,
    pub(crate) counts: Vec<u32>,
    pub(crate) lists: Slots<Entry>,
    pub(crate) block: u32,
}

/// How many blocks a length has.
pub(crate) fn blocks_in(block: u32, len: u32) -> u64
    requires { 0 < block }
    ensures { result ≡ blocks_of block len }
{
    (u64::from(len) + (u64::from(block) - 1)) / u64::from(block)
}

/// The block in which a cursor stands at this place of a list of this length.
pub(crate) fn stand_in(block: u32, len: u32, place: u32) -> u64
    requires { 0 < block }
    ensures { result ≡ stands_in block len place }
{
    if place == len {
        return blocks_in(block, len);
    }
    u64::from(place / block)
}

/// The block of its list in which a cursor stands that has passed so many samples.
pub(crate) fn stand_at(table: &Table, list: u32, place: u32) -> u32
    requires table { IsTable table.now }
    requires there { IsSome (entry_at table.now list) }
    ensures { ForSome (entry_at table.now list) (λ x. result ≡ stands_in table.now.block x.span.len place) }
{
    let len = table.lists.get(SlotId(list)).span.len;
    stand_in(table.block, len, place) as u32
}

/// One cursor more stands in block `number` of a list. Answers a block of the pool near which it is found.
pub(crate) fn enter(table: &mut Table, list: u32, near: u32, number: u32) -> u32
    requires table { IsTable table.old }
    requires can { CanStand table.old list number }
    requires few { ForSome (entry_at table.old list) (λ x. x.cursors + 1 < 2 ^ 32) }
    ensures { Enters table.old table.new list number }
{
    let span = table.lists.get(SlotId(list)).span;
    if number == span.filled {
        let entry = table.lists.get_mut(SlotId(list));
        entry.waiting += 1;
        entry.cursors += 1;
        return span.last;
    }
    let at = find(table, list, near, number);
    table.counts[at as usize] += 1;
    table.lists.get_mut(SlotId(list)).cursors += 1;
    at
}

/// One cursor less stands in block `number` of a list.
pub(crate) fn leave(table: &mut Table, list: u32, near: u32, number: u32)
    requires table { IsTable table.old }
    requires can { CanStand table.old list number }
    requires stands { ForSome (entry_at table.old list) (λ x. 0 < mark_of table.old list x number) }
    ensures { Leaves table.old table.new list number }
{
    let span = table.lists.get(SlotId(list)).span;
    if number == span.filled {
        let entry = table.lists.get_mut(SlotId(list));
        entry.waiting -= 1;
        entry.cursors -= 1;
        return;
    }
    let at = find(table, list, near, number);
    table.counts[at as usize] -= 1;
    table.lists.get_mut(SlotId(list)).cursors -= 1;
}

// Whether a list keeps a block in which no cursor stands, before all that are read.
fn is_idle(table: &Table, list: u32) -> bool
    requires table { IsTable table.now }
    requires there { IsSome (entry_at table.now list) }
    ensures { ForSome (entry_at table.now list) (λ x. IsIdle table.now list x result) }
{
    let span = table.lists.get(SlotId(list)).span;
    span.gone < span.filled && table.counts[span.first as usize] == 0
}

// Gives back the first block that a list keeps.
fn give_first(table: &mut Table, list: u32)
    requires table { IsTable table.old }
    requires idle { ForSome (entry_at table.old list) (λ x. (x.span.gone < x.span.filled) × (mark_of table.old list x x.span.gone ≡ 0)) }
    requires there { IsSome (entry_at table.old list) }
    ensures { Gives table.old table.new list }
{
    let entry = table.lists.get_mut(SlotId(list));
    let first = entry.span.first;
    let next = next_of(table.links.as_slice(), first);
    entry.span.gone += 1;
    entry.span.first = next;
    table.links[first as usize] = None;
    table.pool.give(BlockId(first));
}

/// Gives back the blocks of a list before every cursor.
pub(crate) fn settle(table: &mut Table, list: u32)
    requires table { IsTable table.old }
    requires there { IsSome (entry_at table.old list) }
    ensures { Settles table.old table.new list }
{
    while is_idle(table, list) {
        give_first(table, list);
    }
}

/// Makes a block that is in no list the next one of a list. The cursors past the last one stand in it from then on.
pub(crate) fn append(table: &mut Table, list: u32, b: u32)
    requires table { IsTable table.old }
    requires can { CanAppend table.old list b }
    ensures { Appends table.old table.new list b }
{
    let entry = table.lists.get_mut(SlotId(list));
    let span = entry.span;
    let waiting = entry.waiting;
    entry.span = extended(&span, b);
    entry.waiting = 0;
    lead(table.links.as_mut_slice(), &span, b);
    table.links[b as usize] = Some(Link {
        list,
        number: span.filled,
        next: b,
    });
    table.counts[b as usize] = waiting;
}

/// A cursor goes from one block of a list to a later one, or stays. What nobody reads any more is given back. Answers a
/// block of the pool near which it is found.
pub(crate) fn move_cursor(table: &mut Table, list: u32, near: u32, from: u32, to: u32) -> u32
    requires table { IsTable table.old }
    requires from { CanStand table.old list from }
    requires stands { ForSome (entry_at table.old list) (λ x. 0 < mark_of table.old list x from) }
    requires to { CanStand table.old list to }
    ensures { Moves table.old table.new list from to }
{
    leave(table, list, near, from);
    let near = enter(table, list, near, to);
    settle(table, list);
    near
}

/// A cursor leaves a list. What nobody reads any more is given back.
pub(crate) fn remove_cursor(table: &mut Table, list: u32, near: u32, from: u32)
    requires table { IsTable table.old }
    requires from { CanStand table.old list from }
    requires stands { ForSome (entry_at table.old list) (λ x. 0 < mark_of table.old list x from) }
    ensures { Drops table.old table.new list from }
{
    leave(table, list, near, from);
    settle(table, list);
}

/// Appends a block to a list, and gives it back where nobody reads the list.
pub(crate) fn add_block(table: &mut Table, list: u32, b: u32)
    requires table { IsTable table.old }
    requires can { CanAppend table.old list b }
    ensures { Adds table.old table.new list b }
{
    append(table, list, b);
    settle(table, list);
}

// The samples of a block from place `from` in it on: no more than `visible`, of the first `len`.
fn part(samples: &[Sample], from: usize, len: usize, visible: usize) -> &[Sample]
    ensures { result.now ≡ take visible (drop from (take len samples.now)) }
{
    let whole = &samples[..len.min(samples.len())];
    let rest = &whole[from.min(whole.len())..];
    &rest[..visible.min(rest.len())]
}

/// The samples of a list from place `from` to the end of its block, none from place `visible` on. The search for the
/// block begins near a block of the pool.
pub(crate) fn run_in(table: &Table, list: u32, near: u32, from: u32, visible: u32) -> &[Sample]
    requires table { IsTable table.now }
    requires there { IsSome (entry_at table.now list) }
    requires kept { ForSome (entry_at table.now list) (λ x. from < x.span.len → x.span.gone ≤ from / table.now.block) }
    ensures { ForSome (entry_at table.now list) (λ x. result.now ≡ run_of_list table.now list x from visible) }
{
    let span = table.lists.get(SlotId(list)).span;
    let number = from / table.block;
    if number >= span.filled {
        return &[];
    }
    // Where a cursor that has passed the whole list stands, its last block may be given back.
    if from >= span.len {
        return &[];
    }
    let at = find(table, list, near, number);
    part(
        table.pool.slice(BlockId(at)),
        (from % table.block) as usize,
        (span.len - number * table.block) as usize,
        visible.saturating_sub(from) as usize,
    )
}

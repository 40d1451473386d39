ghost use Rattle.std.specs.Prelude.{◌≡◌, ◌≢◌, ℕ, ◌+◌, ◌-◌, ◌<◌, ◌≤◌, ◌↔◌, ◌^◌, ◌++◌, min, [], length, Some, None, IsSome, IsSomeAnd, IsNone, IsTrue, IfSome, IfNone, IfOk, OnOk, OnErr, replicate};
ghost use Rattle.std.specs.Option.{ForSome};
ghost use Rattle.ny_list.specs.Store.{list_at, loose_at, spare_of, mark_at, cursors_of, kept_of, free_of, run_of, blocks_of};
ghost use Rattle.ny_list.specs.Laws.{StoreLaws};
ghost use Rattle.ny_list.specs.Steps.{Takes, Begins, IsComputed, IsUnfilled, with_cursor, without_cursor, with_move, with_block, with_loose, with_list};

use crate::chain::Span;
use crate::cursor::{Cursor, List};
use crate::reads::Reads;
use crate::table::{Entry, Table, add_block, enter, move_cursor, remove_cursor, run_in, stand_at};
use ny_num::Sample;
use ny_pool::{BlockId, Pool, Slots};
use std::alloc::{AllocError, Global};
use std::marker::Model;

/// Lists of blocks that many can read, over a pool of fixed size.
///
/// A block is taken exactly where it lies at or after the least cursor of its list, or was taken and is not yet
/// appended. Only `open` and `reserve_list` take memory. Places, lengths and visible lengths are in samples. The rules
/// stand in `docs/DEFINITIONS.md`, "Block lists".
#[derive(Drop)]
pub struct Store {
    table: Table,
}

impl Model for Store {
    ghost use Rattle.ny_list.specs.Store.{StoreState, store_code};

    ghost Value = { StoreState };

    ghost coded = { store_code };

    ghost use Rattle.ny_list.specs.Table.{state_of, IsStore};

    ghost view = { λ s. state_of s.table };

    ghost invariant = { λ s. IsStore s.table };
}

impl Store {
    /// A store without lists, over a pool of `blocks` blocks of `len` samples each.
    ///
    /// # Errors
    /// `AllocError` where memory is missing.
    pub fn open(alloc: Global, blocks: u32, len: u32) -> Result<Self, AllocError>
        requires some_blocks { 1 ≤ blocks }
        requires some_samples { 1 ≤ len }
        ensures opened { IfOk result (λ s. s ≡ record { block = len; lists = []; loose = replicate blocks None }) }
        ensures laws { IfOk result StoreLaws }
    {
        let table = Table {
            pool: Pool::open(alloc, blocks, len, Sample::ZERO)?,
            links: vec![in alloc; None; blocks as usize]?,
            counts: vec![in alloc; 0; blocks as usize]?,
            lists: Slots::open(alloc)?,
            block: len,
        };
        Ok(Store { table })
    }

    /// Makes room for one more list.
    ///
    /// # Errors
    /// `AllocError` where memory is missing, and then all is as before.
    pub fn reserve_list(&mut self, alloc: Global) -> Result<(), AllocError>
        ensures room { OnOk result (0 < spare_of self.new) }
        ensures more { OnOk result ((more : ℕ) × (self.new ≡ record self.old { lists = self.old.lists ++ replicate more None })) }
        ensures refused { OnErr result (self.new ≡ self.old) }
        ensures laws { StoreLaws self.new }
    {
        self.table.lists.reserve(alloc, 1)
    }

    /// How many numbers lists have: each list's is below this one.
    pub fn numbers(&self) -> u32
        ensures { result ≡ length self.now.lists }
    {
        self.table.lists.slots()
    }

    /// A new list that is to have `len` samples, and a cursor at its beginning, which sees all of them. The tag is the
    /// caller's, and each cursor of the list tells it.
    pub fn new_list(&mut self, len: u32, tag: u32) -> (List, Cursor)
        requires room { 0 < spare_of self.old }
        ensures begins { Begins self.old self.new result.0 len tag result.1 }
        ensures laws { StoreLaws self.new }
    {
        let slot = self.table.lists.insert(Entry {
            span: Span {
                len,
                gone: 0,
                filled: 0,
                first: 0,
                last: 0,
            },
            tag,
            waiting: 1,
            cursors: 1,
        });
        let cursor = Cursor {
            list: slot,
            place: 0,
            visible: len,
            tag,
            near: 0,
        };
        (List { slot }, cursor)
    }

    /// Another cursor at the same place, which sees as much.
    pub fn share(&mut self, c: &Cursor) -> Cursor
        requires stands { 0 < mark_at self.old c.now }
        requires few { ForSome (list_at self.old c.now.list) (λ x. cursors_of x + 1 < 2 ^ 32) }
        ensures same { result ≡ c.now }
        ensures shared { self.new ≡ with_cursor self.old c.now }
        ensures laws { StoreLaws self.new }
    {
        let number = stand_at(&self.table, c.list.0, c.place);
        let near = enter(&mut self.table, c.list.0, c.near, number);
        Cursor {
            list: c.list,
            place: c.place,
            visible: c.visible,
            tag: c.tag,
            near,
        }
    }

    /// The cursor sees no more than `visible` samples of its list from then on.
    pub fn limit(&mut self, c: &mut Cursor, visible: u32)
        requires passed { c.old.place ≤ visible }
        ensures limited { c.new ≡ record c.old { visible = min c.old.visible visible } }
        ensures unchanged { self.new ≡ self.old }
    {
        c.visible = c.visible.min(visible);
    }

    /// Spends a cursor. The blocks that only it kept are given back.
    pub fn drop_cursor(&mut self, c: Cursor)
        requires stands { 0 < mark_at self.old c }
        ensures dropped { self.new ≡ without_cursor self.old c }
        ensures laws { StoreLaws self.new }
    {
        let number = stand_at(&self.table, c.list.0, c.place);
        remove_cursor(&mut self.table, c.list.0, c.near, number);
    }

    /// Takes a block that was free; None exactly where none is. It holds some samples, and is in no list.
    pub fn take(&mut self) -> Option<BlockId>
        ensures none { IsNone result ↔ (free_of self.old ≡ 0) }
        ensures taken { IfSome result (λ b. Takes self.old self.new b.0) }
        ensures unchanged { IfNone result (self.new ≡ self.old) }
        ensures laws { StoreLaws self.new }
    {
        self.table.pool.take()
    }

    /// Writes over all samples of a block that was taken and not yet appended. `from` has a block's length.
    pub fn write(&mut self, b: BlockId, from: &[Sample])
        requires loose { IsSome (loose_at self.old b.0) }
        requires whole { length from.now ≡ self.old.block }
        ensures written { self.new ≡ with_loose self.old b.0 (Some from.now) }
        ensures laws { StoreLaws self.new }
    {
        self.table.pool.copy_from(b, from);
    }

    /// What the lists hold, to be read while nothing changes.
    pub fn reads(&self) -> Reads<'_>
        ensures same { result ≡ self.now }
    {
        Reads::of(self)
    }

    // The samples of a run that begins at a place.
    pub(crate) fn run_from(&self, c: &Cursor, from: u32) -> &[Sample]
        requires stands { 0 < mark_at self.now c.now }
        requires ahead { c.now.place ≤ from }
        ensures samples { result.now ≡ run_of self.now c.now from }
        ensures laws { StoreLaws self.now }
    {
        run_in(&self.table, c.list.0, c.near, from, c.visible)
    }

    /// The computed samples from the cursor's place to the end of the block in which it stands, and no further than it
    /// sees.
    pub fn read_run(&self, c: &Cursor) -> &[Sample]
        requires stands { 0 < mark_at self.now c.now }
        ensures samples { result.now ≡ run_of self.now c.now c.now.place }
    {
        self.run_from(c, c.place)
    }

    /// Appends a block to a list that is not wholly filled. Of the last block the list has no more samples than its
    /// length asks for. The block is given back at once where nobody reads the list.
    pub fn append_block(&mut self, l: &mut List, b: BlockId)
        requires loose { IsSome (loose_at self.old b.0) }
        requires unfilled { IsUnfilled self.old l.old }
        ensures appended { ForSome (loose_at self.old b.0) (λ samples. self.new ≡ with_block self.old l.old b.0 samples) }
        ensures laws { StoreLaws self.new }
        ensures same { l.new ≡ l.old }
    {
        add_block(&mut self.table, l.slot.0, b.0);
    }

    /// The cursor passes the next `n` samples, which are computed. The blocks that only it kept are given back.
    pub fn advance(&mut self, c: &mut Cursor, n: u32)
        requires stands { 0 < mark_at self.old c.old }
        requires computed { IsComputed self.old c.old n }
        ensures passed { c.new ≡ record c.old { place = c.old.place + n } }
        ensures moved { self.new ≡ with_move self.old c.old (c.old.place + n) }
        ensures laws { StoreLaws self.new }
    {
        let from = stand_at(&self.table, c.list.0, c.place);
        let place = c.place + n;
        let to = stand_at(&self.table, c.list.0, place);
        c.near = move_cursor(&mut self.table, c.list.0, c.near, from, to);
        c.place = place;
    }

    /// Spends the end of a list that nobody reads. The list is no more.
    pub fn close(&mut self, l: List)
        requires there { IsSome (list_at self.old l) }
        requires unread { ForSome (list_at self.old l) (λ x. cursors_of x ≡ 0) }
        ensures closed { self.new ≡ with_list self.old l None }
        ensures laws { StoreLaws self.new }
    {
        self.table.lists.remove(l.slot);
    }

    /// How many samples the cursor has passed.
    pub fn position(&self, c: &Cursor) -> u32
        ensures place { result ≡ c.now.place }
    {
        c.place
    }

    /// Whether a list has a cursor.
    pub fn held(&self, l: &List) -> bool
        requires there { IsSome (list_at self.now l.now) }
        ensures held { ForSome (list_at self.now l.now) (λ x. IsTrue result ↔ (0 < cursors_of x)) }
    {
        self.table.lists.get(l.slot).cursors > 0
    }

    /// How many cursors a list has.
    pub fn cursors(&self, l: &List) -> u32
        requires there { IsSome (list_at self.now l.now) }
        ensures cursors { ForSome (list_at self.now l.now) (λ x. result ≡ cursors_of x) }
    {
        self.table.lists.get(l.slot).cursors
    }

    /// How many blocks of a list are filled.
    pub fn filled(&self, l: &List) -> u32
        requires there { IsSome (list_at self.now l.now) }
        ensures filled { ForSome (list_at self.now l.now) (λ x. result ≡ length x.values) }
    {
        self.table.lists.get(l.slot).span.filled
    }

    /// How many blocks of a list are kept: those filled, from the least cursor's on.
    pub fn kept(&self, l: &List) -> u32
        requires there { IsSome (list_at self.now l.now) }
        ensures kept { ForSome (list_at self.now l.now) (λ x. result ≡ kept_of x) }
    {
        let span = self.table.lists.get(l.slot).span;
        span.filled - span.gone
    }

    /// How many blocks are free.
    pub fn free(&self) -> u32
        ensures free { result ≡ free_of self.now }
        ensures laws { StoreLaws self.now }
    {
        self.table.pool.free()
    }
}

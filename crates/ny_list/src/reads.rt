ghost use Rattle.std.specs.Prelude.{◌≡◌, ◌+◌, ◌-◌, ◌<◌, ◌≤◌, ℤ, List, length, take, drop};
ghost use Rattle.ny_list.specs.Store.{mark_at, run_of};
ghost use Rattle.ny_list.specs.Steps.{IsComputed};
ghost use Rattle.ny_list.specs.Reading.{Shows};

use crate::cursor::Cursor;
use crate::store::Store;
use ny_num::Sample;
use std::marker::Model;

/// What the lists of a store hold, for those that read while nothing changes.
#[derive(Drop)]
pub struct Reads<'a> {
    store: &'a Store,
}

impl<'a> Model for Reads<'a> {
    ghost use Rattle.ny_list.specs.Store.{StoreState, store_code};

    ghost Value = { StoreState };

    ghost coded = { store_code };

    ghost view = { λ r. r.store.now };
}

impl<'a> Reads<'a> {
    // What this store holds.
    pub(crate) fn of(store: &'a Store) -> Reads<'a>
        ensures { result ≡ store.now }
    {
        Reads { store }
    }

    /// The computed samples of a cursor's list from place `from`, counted in samples from the list's beginning, to the
    /// end of the block in which it lies, and no further than the cursor sees. There is one at least where the sample at
    /// `from` is computed and seen.
    pub fn run(&self, c: &Cursor, from: u32) -> &[Sample]
        requires stands { 0 < mark_at self.now c.now }
        requires ahead { c.now.place ≤ from }
        ensures samples { result.now ≡ run_of self.now c.now from }
        ensures some { IsComputed self.now c.now (from - c.now.place + 1) → from < c.now.visible → 0 < length result.now }
        ensures seen { length result.now ≤ c.now.visible - from }
        ensures shown { (xs : List ℤ) → Shows self.now c.now.list xs → result.now ≡ take (length result.now) (drop from xs) }
    {
        self.store.run_from(c, from)
    }
}

ghost use Rattle.std.specs.Prelude.{◌≡◌};

use ny_pool::SlotId;
use std::marker::Model;

/// The end of a list, where its owner appends blocks.
///
/// It is spent by [`Store::close`](crate::Store::close). One that is merely dropped leaves its list in the store.
#[derive(Drop)]
pub struct List {
    pub(crate) slot: SlotId,
}

impl Model for List {
    ghost use Rattle.std.specs.Prelude.{ℕ};
    ghost use Rattle.std.specs.Coded.{coded_ℕ};

    ghost Value = { ℕ };

    ghost coded = { coded_ℕ };

    ghost view = { λ l. l.slot.0 };
}

/// A reader of a list: how many samples it has passed, how many of the list it sees, and the list's tag.
///
/// It is spent by [`Store::drop_cursor`](crate::Store::drop_cursor). One that is merely dropped stays counted and keeps
/// its blocks.
#[derive(Drop)]
pub struct Cursor {
    pub(crate) list: SlotId,
    pub(crate) place: u32,
    pub(crate) visible: u32,
    pub(crate) tag: u32,
    // A block of the pool that was of the list when the cursor came to where it stands: that block, or the one before
    // it where it was not filled then. It may be another list's by now.
    pub(crate) near: u32,
}

impl Model for Cursor {
    ghost use Rattle.ny_list.specs.Store.{CursorState, cursor_code};

    ghost Value = { CursorState };

    ghost coded = { cursor_code };

    ghost view = { λ c. record { list = c.list.0; place = c.place; visible = c.visible; tag = c.tag } };
}

impl List {
    /// Its number in the store.
    pub fn number(&self) -> u32
        ensures { result ≡ self.now }
    {
        self.slot.0
    }
}

impl Cursor {
    /// The number of its list in the store.
    pub fn list(&self) -> u32
        ensures { result ≡ self.now.list }
    {
        self.list.0
    }

    /// It sees so many samples of its list from then on.
    pub fn see(&mut self, visible: u32)
        ensures { self.new ≡ record self.old { visible = visible } }
    {
        self.visible = visible;
    }

    /// How many samples of its list it sees, in samples.
    pub fn visible(&self) -> u32
        ensures { result ≡ self.now.visible }
    {
        self.visible
    }

    /// The tag that its list's maker gave.
    pub fn tag(&self) -> u32
        ensures { result ≡ self.now.tag }
    {
        self.tag
    }
}

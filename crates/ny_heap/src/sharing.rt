ghost use Rattle.std.specs.Prelude.{◌≡◌, ◌+◌, ◌<◌, ◌^◌, [], ◌∷◌, Some};
ghost use Rattle.std.specs.Option.{ForSome};
ghost use Rattle.ny_list.specs.Laws.{StoreLaws};
ghost use Rattle.ny_list.specs.Store.{list_at, cursors_of};
ghost use Rattle.ny_list.specs.Steps.{with_cursor};
ghost use Rattle.ny_num.specs.Sound.{cut_len};
ghost use Rattle.ny_num.specs.Grid.{last_index};
ghost use Rattle.ny_heap.specs.Sharing.{moved_to};
ghost use Rattle.ny_heap.specs.Table.{IsTable, IsThere};

use crate::table::{Table, unit_of};
use ny_list::Cursor;
use ny_num::{Rate, Ticks, Timing};

/// How many readers a unit has.
pub(crate) fn readers(table: &Table, v: u32) -> u32
    requires { IsThere table.now v }
    ensures { ForSome (list_at table.now.store v) (λ l. result ≡ cursors_of l) }
{
    table.store.cursors(&unit_of(table, v).list)
}

/// Another reader where this one stands.
pub(crate) fn share_reader(table: &mut Table, c: &Cursor) -> Cursor
    requires table { IsTable table.old (Some c.now ∷ []) }
    requires few { ForSome (list_at table.old.store c.now.list) (λ l. cursors_of l + 1 < 2 ^ 32) }
    ensures same { result ≡ c.now }
    ensures shared { table.new ≡ record table.old { store = with_cursor table.old.store c.now } }
    ensures laws { StoreLaws table.new.store }
{
    table.store.share(c)
}

// What is left of a length from a start on, before the horizon.
#[tactic(auto, unfolding(ny_num::specs::Sound::cut_len))]
fn cut(rate: Rate, start: u32, len: u32) -> u32
    ensures { result ≡ cut_len rate start len }
{
    len.min((3600 * rate.hz()).saturating_sub(start))
}

/// When a sound is heard that is moved to another start and stop.
pub(crate) fn moved(timing: &Timing, start: u32, stop: Ticks) -> Timing
    ensures { result ≡ moved_to start stop timing.now }
{
    Timing {
        rate: timing.rate,
        start,
        len: cut(timing.rate, start, timing.len),
        stop,
    }
}

ghost use Rattle.std.specs.Prelude.{◌≡◌, ◌≢◌, ℕ, ◌+◌, ◌*◌, ◌<◌, ◌&&◌, nat_lt, [], ◌∷◌, map, length, slice_get, slice_index_or, option_copied};
ghost use Rattle.std.specs.Option.{ForSome};
ghost use Rattle.std.specs.VecDeque.{deque_items};
ghost use Rattle.ny_num.specs.Grid.{index_at};
ghost use Rattle.ny_heap.specs.Work.{waits_in};
ghost use Rattle.ny_heap.specs.Table.{unit_at, IsThere};
ghost use Rattle.ny_heap.specs.View.{last_stop_in, filled_in};

use crate::attaching::{needs_part, waiting_at};
use crate::table::Table;
use std::collections::VecDeque;

/// Whether a part of a unit waits that is needed in the unit's next block.
pub(crate) fn is_due(table: &Table, u: u32) -> bool
    requires { IsThere table.now u }
    ensures { ForSome (unit_at table.now u) (λ x. result ≡ (nat_lt 0 (length (waits_in x.work)) && nat_lt (index_at (last_stop_in 0 x.inputs.items) x.timing.rate) (x.timing.start + (filled_in table.now.store u + 1) * table.now.block))) }
{
    waiting_at(table, u) > 0 && needs_part(table, u)
}

/// What the first part of a unit that waits is evaluated from.
pub(crate) fn first_branch<B>(branches: &[VecDeque<B>], u: u32) -> Option<&B>
    requires { u < length branches.now }
    ensures { option_copied result ≡ slice_get (slice_index_or (map deque_items branches.now) u []) 0 }
{
    branches[u as usize].front()
}

/// The same, taken out.
pub(crate) fn take_branch<B>(branches: &mut Vec<VecDeque<B>>, u: u32) -> B
    requires { 0 < length (slice_index_or (map deque_items branches.old.items) u []) }
    ensures first { slice_index_or (map deque_items branches.old.items) u [] ≡ result ∷ slice_index_or (map deque_items branches.new.items) u [] }
    ensures others { (v : ℕ) → v ≢ u → slice_index_or (map deque_items branches.new.items) v [] ≡ slice_index_or (map deque_items branches.old.items) v [] }
{
    branches[u as usize].pop_front().unwrap()
}

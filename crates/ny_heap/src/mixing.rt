ghost use Rattle.std.specs.Prelude.{◌≡◌, ◌+◌, ◌<◌, ◌≤◌, ◌++◌, [], map, length, slice_set, vec_capacity, MatchResult};
ghost use Rattle.std.specs.Option.{ForSome, option_map_or};
ghost use Rattle.std.specs.VecDeque.{deque_items};
ghost use Rattle.ny_heap.specs.Work.{flat, cursors_of_sounds};
ghost use Rattle.ny_heap.specs.Table.{IsTable, Drops};
ghost use Rattle.ny_heap.specs.Mixing.{branches_in, lists_in, kept_by};

use crate::blocks::drop_sounds;
use crate::sound::Sound;
use crate::table::Table;
use ny_list::Cursor;
use std::alloc::Global;
use std::collections::VecDeque;

/// The parts of a mix that wait: what each is evaluated from, and the sounds that each keeps.
#[derive(Drop)]
pub(crate) struct Halves<B> {
    pub(crate) branches: Vec<B>,
    pub(crate) kept: Vec<Vec<Sound>>,
}

// Puts the halves of these parts behind those that are there.
fn split_all<B: Drop>(
    waiting: Vec<(B, Vec<Sound>)>,
    branches: &mut Vec<B>,
    kept: &mut Vec<Vec<Sound>>,
)
    requires branches { length branches.old.items + length waiting.items ≤ vec_capacity branches.old }
    requires kept { length kept.old.items + length waiting.items ≤ vec_capacity kept.old }
    ensures branches { branches.new.items ≡ branches.old.items ++ branches_in waiting.items }
    ensures kept { kept.new.items ≡ kept.old.items ++ lists_in waiting.items }
{
    let mut queue = VecDeque::from(waiting);
    while let Some(part) = queue.pop_front() {
        let (branch, sounds) = part;
        branches.push_reserved(branch);
        kept.push_reserved(sounds);
    }
}

/// Takes parts that are to wait apart.
///
/// # Errors
/// Hands them back where memory is missing.
pub(crate) fn split<B: Drop>(
    alloc: Global,
    waiting: Vec<(B, Vec<Sound>)>,
) -> Result<Halves<B>, Vec<(B, Vec<Sound>)>>
    ensures { MatchResult result (λ h. (h.branches.items ≡ branches_in waiting.items) × (h.kept.items ≡ lists_in waiting.items)) (λ back. back ≡ waiting) }
{
    let Ok(mut branches) = Vec::with_capacity(alloc, waiting.len()) else {
        return Err(waiting);
    };
    let Ok(mut kept) = Vec::with_capacity(alloc, waiting.len()) else {
        return Err(waiting);
    };
    split_all(waiting, &mut branches, &mut kept);
    Ok(Halves { branches, kept })
}

// Spends what these parts were to keep.
fn drop_waiting<B: Drop>(table: &mut Table, waiting: Vec<(B, Vec<Sound>)>)
    requires { IsTable table.old (cursors_of_sounds (flat (kept_by waiting.items))) }
    ensures { Drops table.old table.new (cursors_of_sounds (flat (kept_by waiting.items))) [] }
{
    let mut queue = VecDeque::from(waiting);
    while let Some(part) = queue.pop_front() {
        let (_, sounds) = part;
        drop_sounds(table, sounds);
    }
}

/// Spends the sounds of a mix, and what its parts that wait were to keep.
pub(crate) fn drop_parts<B: Drop>(
    table: &mut Table,
    sounds: Vec<Sound>,
    waiting: Vec<(B, Vec<Sound>)>,
)
    requires { IsTable table.old (cursors_of_sounds (sounds.items ++ flat (kept_by waiting.items))) }
    ensures { Drops table.old table.new (cursors_of_sounds (sounds.items ++ flat (kept_by waiting.items))) [] }
{
    drop_sounds(table, sounds);
    drop_waiting(table, waiting);
}

/// What the parts that wait of a new unit are evaluated from, at its place. Without a unit nothing is
/// changed.
pub(crate) fn place_branches<B: Drop>(
    places: &mut Vec<VecDeque<B>>,
    made: &Option<Cursor>,
    branches: Vec<B>,
)
    requires { ForSome made.now (λ c. c.list < length places.old.items) }
    ensures { map deque_items places.new.items ≡ option_map_or (λ c. slice_set (map deque_items places.old.items) c.list branches.items) made.now (map deque_items places.old.items) }
{
    if let Some(c) = made {
        places[c.list() as usize] = VecDeque::from(branches);
    }
}

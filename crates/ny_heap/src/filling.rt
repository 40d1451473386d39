ghost use Rattle.std.specs.Prelude.{◌≡◌, ◌<◌, length};
ghost use Rattle.ny_list.specs.Store.{free_of};
ghost use Rattle.ny_heap.specs.Filling.{CanFill, Computes, FillsBlock};

use crate::blocks::append;
use crate::settling::settle_all;
use crate::table::{Table, computed, computed_next};
use ny_num::Sample;
use ny_wave::Waves;

// Computes the samples of a unit's next block, in `out`. What keeps a place or samples moves on.
fn compute(table: &mut Table, waves: &Waves, u: u32, out: &mut [Sample])
    requires ready { CanFill table.old u }
    requires whole { length out.old ≡ table.old.block }
    ensures computes { Computes table.old table.new u out.new }
    ensures len { length out.new ≡ length out.old }
{
    let from = computed(table, u);
    let end = computed_next(table, u);
    let reads = table.store.reads();
    let unit = table.units[u as usize].as_mut().unwrap();
    unit.work
        .fill(&reads, waves, from, &mut out[..(end - from) as usize]);
}

/// Computes and adds a unit's next block, and gives back what its inputs have passed.
pub(crate) fn fill_block(table: &mut Table, waves: &Waves, u: u32, out: &mut [Sample])
    requires ready { CanFill table.old u }
    requires whole { length out.old ≡ table.old.block }
    requires free { 0 < free_of table.old.store }
    ensures fills { FillsBlock table.old table.new u out.new }
    ensures len { length out.new ≡ length out.old }
{
    compute(table, waves, u, out);
    append(table, u, out);
    settle_all(table, u);
}

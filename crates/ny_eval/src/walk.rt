ghost use Rattle.std.specs.Prelude.{◌≡◌, ◌↔◌, ℕ, List, IsTrue, IsSomeAnd, IfErr, OnOk, is_err};
ghost use Rattle.ny_check.specs.Heights.{height_of};
ghost use Rattle.ny_heap.specs.Heap.{HeapState, node_at, is_open, free_of};
ghost use Rattle.ny_heap.specs.Reach.{HeapLaws};
ghost use Rattle.ny_hands.specs.declared.branch.Branch.{Branch as BranchOf};
ghost use Rattle.ny_walk.specs.Walk.{Walks};
ghost use Rattle.ny_walk.specs.Stops.{StopsAtFull, RunsOut, FindsNoneFree, NoneWaits};
ghost use Rattle.ny_walk.specs.Below.{IsSettled, Walked, Stopped};
ghost use Rattle.ny_walk.specs.Heard.{StaysHeard};
ghost use Rattle.ny_eval.specs.declared.walk.DriveFault.TheVariants.{PoolFull, OutOfMemory};
ghost use Rattle.ny_eval.specs.Driven.{IsDriven};
ghost use Rattle.ny_eval.specs.Ready.{IsReady};

use crate::laws::program_laws;
use crate::reveal::reveal_due;
use ny_check::Program;
use ny_hands::Branch;
use ny_heap::{Heap, UnitId};
use std::alloc::Global;

/// Why a unit did not get its next block.
#[derive(Clone, Copy, Debug, PartialEq, Eq)]
pub enum DriveFault {
    /// A fill found no block free.
    PoolFull,
    /// Memory was missing for a part that fell due.
    OutOfMemory,
}

/// Fills the next block of `u`, and before it what it needs: the inputs that it wants, the first one
/// first. Then the parts that are due are revealed.
///
/// # Errors
/// `PoolFull` where a fill finds no free block. The fills before it stay done. `OutOfMemory` where memory
/// is missing for a part.
fn drive_within(
    alloc: Global,
    p: &Program,
    heap: &mut Heap<Branch>,
    u: UnitId,
) -> Result<(), DriveFault>
    requires laws { HeapLaws heap.old }
    requires open { IsSomeAnd (node_at heap.old u.0.0) (λ x. IsTrue (is_open heap.old.block x)) }
    requires settled { IsSettled heap.old }
    requires ready { IsReady p.now heap.old }
    ensures laws { HeapLaws heap.new }
    ensures size { (heap.new.pool ≡ heap.old.pool) × (heap.new.block ≡ heap.old.block) }
    ensures driven { IsDriven p.now heap.old u.0.0 heap.new result }
{
    program_laws(p);
    p.height_law();
    // Inputs that are computed far enough stay so: the search goes on from the one that was filled last.
    let mut place = 0;
    while let Some(v) = heap.want_from(u, place) {
        match drive_within(alloc, p, heap, v.unit) {
            Ok(()) => place = v.place,
            Err(fault) => return Err(fault),
        }
    }
    match heap.fill(u) {
        Ok(()) => match reveal_due(alloc, p, heap, u) {
            Ok(()) => Ok(()),
            Err(_) => Err(DriveFault::OutOfMemory),
        },
        Err(_) => Err(DriveFault::PoolFull),
    }
}

/// Fills the next block of `u`, and before it what it needs: the inputs that it wants, the first one first. After each
/// fill the parts that are due are revealed.
///
/// # Errors
/// `PoolFull` where a fill finds no free block; the fills before it stay done. `OutOfMemory` where memory is missing for a
/// part that fell due, and only where a part waits.
pub fn drive(
    alloc: Global,
    p: &Program,
    heap: &mut Heap<Branch>,
    u: UnitId,
) -> Result<(), DriveFault>
    requires laws { HeapLaws heap.old }
    requires open { IsSomeAnd (node_at heap.old u.0.0) (λ x. IsTrue (is_open heap.old.block x)) }
    requires settled { IsSettled heap.old }
    requires ready { IsReady p.now heap.old }
    ensures laws { HeapLaws heap.new }
    ensures size { (heap.new.pool ≡ heap.old.pool) × (heap.new.block ≡ heap.old.block) }
    ensures walks { OnOk result ((deep : ℕ) × (us : List ℕ) × Walks p.now deep heap.old u.0.0 us heap.new) }
    ensures walked { OnOk result (Walked p.now (height_of p.now) heap.old heap.new u.0.0) }
    ensures hears { OnOk result (StaysHeard p.now heap.old heap.new) }
    ensures ready { OnOk result (IsReady p.now heap.new) }
    ensures stops { IfErr result (λ f. f ≡ PoolFull → (deep : ℕ) × (us : List ℕ) × StopsAtFull p.now deep heap.old u.0.0 us heap.new) }
    ensures stopped { IfErr result (λ f. f ≡ PoolFull → Stopped p.now (height_of p.now) heap.old heap.new u.0.0) }
    ensures heard { IfErr result (λ f. f ≡ PoolFull → StaysHeard p.now heap.old heap.new) }
    ensures ready_still { IfErr result (λ f. f ≡ PoolFull → IsReady p.now heap.new) }
    ensures full { IfErr result (λ f. f ≡ PoolFull → free_of heap.new ≡ 0) }
    ensures lacks { IfErr result (λ f. f ≡ OutOfMemory → (deep : ℕ) × (us : List ℕ) × (last : HeapState BranchOf) × RunsOut p.now deep heap.old u.0.0 us last) }
    ensures enough { NoneWaits heap.old → IfErr result (λ f. f ≡ PoolFull) }
    ensures quiet { NoneWaits heap.old → OnOk result (NoneWaits heap.new) }
    ensures exact { NoneWaits heap.old → (IsTrue (is_err result) ↔ FindsNoneFree p.now heap.old u.0.0) }
{
    program_laws(p);
    p.height_law();
    drive_within(alloc, p, heap, u)
}

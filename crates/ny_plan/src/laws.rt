//! Laws over the definitions, each the contract of a function with nothing to do.

ghost use Rattle.std.specs.Prelude.{◌≡◌, ℕ, ◌+◌, ◌<◌, ◌≤◌, Bool, true, false, List, map, Some, length, slice_get, slice_index, sum};
ghost use Rattle.std.specs.List.{AllByRecursion};
ghost use Rattle.ny_num.specs.declared.rate.Rate.{Rate};
ghost use Rattle.ny_check.specs.Code.{Code};
ghost use Rattle.ny_check.specs.Channels.{channels};
ghost use Rattle.ny_heap.specs.Heap.{live_of};
ghost use Rattle.ny_heap.specs.Kinds.{UnitKind, kept_of_kinds, live_by_kind};
ghost use Rattle.ny_plan.specs.Rows.{RowSound, Input, Row, row_at, beginning, whole_at};
ghost use Rattle.ny_plan.specs.Plan.{plan};
ghost use Rattle.ny_plan.specs.Need.{Filled, need, has_come};
ghost use Rattle.ny_plan.specs.Fills.{Pulls, Fills, has_ended, counts, fills};
ghost use Rattle.ny_plan.specs.Lines.{no_pulls, pulled};
ghost use Rattle.ny_plan.specs.Lines as lines;
ghost use Rattle.ny_plan.specs.Liveness.{live, live_of_kinds};
ghost use Rattle.ny_plan.specs.Peak.{nothing_filled};
ghost use Rattle.ny_plan.specs.Order.{IsBelow, AllRows};
ghost use Rattle.ny_plan.specs.StandsFor.{Matches};
ghost use Rattle.ny_plan.specs.Demand.{IsEnough};

use ny_heap::Heap;

/// The plan law: the whole sounds of a plan's channels, each computed of the rows alone, are the channels of the strict meaning
/// (`channels`). Each row names rows before it alone, and a part comes no later than it is heard (`ordered`); each channel is one of
/// the rows, or has no sample (`rows`).
pub fn plan_law()
    ensures channels { (code : Code) (rate : Rate) → map (beginning (whole_at rate (plan code rate).rows)) (plan code rate).channels ≡ channels code rate }
    ensures ordered { (code : Code) (rate : Rate) → AllRows (plan code rate).rows }
    ensures rows { (code : Code) (rate : Rate) → AllByRecursion (IsBelow (length (plan code rate).rows)) (plan code rate).channels }
{}

/// The need law: what a row needs of an input never falls as its blocks are filled (`rises`), and an input of which the next block needs
/// more has come (`come`).
pub fn need_law()
    ensures rises { (block : ℕ) (x : Row) (i : Input) (j : ℕ) → need block x i j ≤ need block x i (j + 1) }
    ensures come { (block : ℕ) (code : Code) (rate : Rate) (n k : ℕ) (i : Input) (j : ℕ) → 0 < block → slice_get (row_at (plan code rate).rows n).inputs k ≡ Some i → need block (row_at (plan code rate).rows n) i j < need block (row_at (plan code rate).rows n) i (j + 1) → has_come block j i ≡ true }
{}

/// The order law: before any pull nothing is filled (`starts`), and what a pull of a channel that has not ended fills leads from the counts
/// to those with one pull more (`leads`). So the counts after any list of pulls depend on how often each channel was pulled, and on
/// nothing else, and each fill adds one block to them (`adds`). They are a count for each row (`size`), as many as each row that names it needs (`enough`), and of a channel as many as it
/// was pulled (`pulled`).
pub fn order_law()
    ensures starts { (block : ℕ) (code : Code) (rate : Rate) → 0 < block → counts block (plan code rate) (no_pulls (plan code rate)) ≡ nothing_filled (plan code rate).rows }
    ensures leads { (block : ℕ) (code : Code) (rate : Rate) (pulls : Pulls) (c : ℕ) → 0 < block → length pulls ≡ length (plan code rate).channels → has_ended block (plan code rate) (counts block (plan code rate) pulls) c ≡ false → Fills.filled (fills block (plan code rate) (counts block (plan code rate) pulls) c) ≡ counts block (plan code rate) (pulled c pulls) }
    ensures adds { (block : ℕ) (code : Code) (rate : Rate) (pulls : Pulls) (c : ℕ) → 0 < block → length pulls ≡ length (plan code rate).channels → has_ended block (plan code rate) (counts block (plan code rate) pulls) c ≡ false → sum (counts block (plan code rate) (pulled c pulls)) ≡ sum (counts block (plan code rate) pulls) + length (Fills.order (fills block (plan code rate) (counts block (plan code rate) pulls) c)) }
    ensures size { (block : ℕ) (code : Code) (rate : Rate) (pulls : Pulls) → length (counts block (plan code rate) pulls) ≡ length (plan code rate).rows }
    ensures enough { (block : ℕ) (code : Code) (rate : Rate) (pulls : Pulls) → 0 < block → IsEnough block (plan code rate).rows (counts block (plan code rate) pulls) }
    ensures pulled { (block : ℕ) (code : Code) (rate : Rate) (pulls : Pulls) (c x : ℕ) (s : RowSound) → length pulls ≡ length (plan code rate).channels → slice_get (plan code rate).channels c ≡ Some s → s.row ≡ Some x → slice_index (counts block (plan code rate) pulls) x ≡ slice_index pulls c }
{}

/// Kept blocks are live blocks: a heap whose units are those of a table of rows has as many blocks taken as are live (`all`), and as many
/// of the units of some kinds as are live of the rows of these kinds (`by_kind`). So the counts of all kinds are those that the lines of a
/// run tell (`kinds`).
pub fn live_law<B>(heap: &Heap<B>)
    ensures all { (rows : List Row) (filled : Filled) (row : ℕ → ℕ) → AllRows rows → Matches heap.now.block rows filled heap.now row → live_of heap.now ≡ live heap.now.block rows filled }
    ensures by_kind { (kinds : UnitKind → Bool) (rows : List Row) (filled : Filled) (row : ℕ → ℕ) → AllRows rows → Matches heap.now.block rows filled heap.now row → kept_of_kinds kinds heap.now 0 heap.now.nodes ≡ live_of_kinds kinds heap.now.block rows filled }
    ensures kinds { (rows : List Row) (filled : Filled) (row : ℕ → ℕ) → AllRows rows → Matches heap.now.block rows filled heap.now row →
        live_by_kind heap.now ≡ lines.live_by_kind heap.now.block rows filled }
{
    let _free = heap.free();
}

ghost use Rattle.std.specs.Prelude.{◌≡◌, ◌<◌, ◌≤◌, ℕ, suc, List, [], ◌∷◌, None, length, slice_index, IfErr, OnOk, OnErr};
ghost use Rattle.std.specs.Io.KnownBytes.{append_known};
ghost use Rattle.ny_io.specs.Faults.{Rose};
ghost use Rattle.ny_io.specs.Host.{HostState, NoneFell, SameCounts, SameOutput, SameInput};
ghost use Rattle.ny_plan.specs.Plan.{plan};
ghost use Rattle.ny_plan.specs.Lines.{live_by_kind};
ghost use Rattle.ny_pull.specs.Engine.{EngineState, SamePiece};
ghost use Rattle.ny_pull.specs.Planned.{filled_of};
ghost use Rattle.ny_pull.specs.Ordered.{HasPulled};
ghost use Rattle.ny_live.specs.Told.{kinds_told, text_of, texts_of, last_line, pull_lines, order_in, IsReady, IsTold, EndsTurns, EndsLine};

use crate::fault::LiveFault;
use ny_io::{Host, print_all};
use ny_num::Sample;
use ny_pull::{Engine, PullFault};
use ny_report::pull_line;
use std::alloc::Global;

/// How many blocks are taken of each kind, where a line tells it.
fn kinds_of(engine: &Engine, kinds: bool) -> Option<[u32; 18]>
    requires unspent { engine.now.spent ≡ None }
    ensures { result ≡ kinds_told kinds (live_by_kind engine.now.heap.block (plan engine.now.code engine.now.rate).rows (filled_of engine.now)) }
{
    if kinds {
        Some(engine.live_by_kind())
    } else {
        None
    }
}

/// Prints the line of the pull that was just made, of channel `c`.
fn tell_pull<H: Host>(
    alloc: Global,
    host: &mut H,
    engine: &Engine,
    c: u32,
    kinds: bool,
) -> Result<(), LiveFault>
    requires unspent { engine.now.spent ≡ None }
    ensures counts { NoneFell (H.state host.old) (H.state host.new) }
    ensures quiet { OnOk result (SameCounts (H.state host.old) (H.state host.new)) }
    ensures output { SameOutput (H.state host.old) (H.state host.new) }
    ensures files { (H.state host.new).files ≡ (H.state host.old).files }
    ensures told { OnOk result ((H.state host.new).printed ≡ append_known (H.state host.old).printed (text_of kinds (last_line engine.now c))) }
    ensures fault { IfErr result (λ fault. EndsLine (text_of kinds (last_line engine.now c)) (H.state host.old) (H.state host.new) fault) }
{
    let by_kind = kinds_of(engine, kinds);
    let line = pull_line(
        alloc,
        engine.pulls(),
        c,
        engine.live(),
        engine.fills(),
        by_kind,
    );
    match line {
        Ok(line) => match print_all(host, &line) {
            Ok(()) => Ok(()),
            Err(_) => Err(LiveFault::Write),
        },
        Err(_) => Err(LiveFault::OutOfMemory),
    }
}

/// A turn of channel `c`: its next block is pulled, with a line; nothing where it has ended. `out` has the block's length.
fn pull_turn<H: Host>(
    alloc: Global,
    host: &mut H,
    engine: &mut Engine,
    c: u32,
    kinds: bool,
    out: &mut [Sample],
) -> Result<(), LiveFault>
    requires channel { c < length engine.old.channels }
    requires room { length out.old ≡ engine.old.heap.block }
    requires ready { IsReady engine.old }
    ensures counts { NoneFell (H.state host.old) (H.state host.new) }
    ensures quiet { OnOk result (SameCounts (H.state host.old) (H.state host.new)) }
    ensures output { SameOutput (H.state host.old) (H.state host.new) }
    ensures files { (H.state host.new).files ≡ (H.state host.old).files }
    ensures same { SamePiece engine.old engine.new }
    ensures room { length out.new ≡ length out.old }
    ensures ready { OnOk result (IsReady engine.new) }
    ensures told { (turns rest : List ℕ) (n : ℕ) (start : EngineState) (old : HostState) → IsTold kinds turns (c ∷ rest) n start engine.old old (H.state host.old)
        → OnOk result (IsTold kinds turns rest n start engine.new old (H.state host.new)) }
    ensures fault { (turns rest : List ℕ) (n : ℕ) (start : EngineState) (old : HostState) → SameCounts old (H.state host.old) → IsTold kinds turns (c ∷ rest) n start engine.old old (H.state host.old)
        → IfErr result (λ fault. EndsTurns kinds turns start engine.new old (H.state host.new) fault) }
{
    match engine.pull(alloc, c, out) {
        Ok(0) => Ok(()),
        Ok(_) => tell_pull(alloc, host, engine, c, kinds),
        Err(PullFault::PoolFull { pulls, .. }) => Err(LiveFault::PoolFull { pulls }),
        Err(PullFault::OutOfMemory) => Err(LiveFault::OutOfMemory),
    }
}

/// The turns, each once.
fn pull_round<H: Host>(
    alloc: Global,
    host: &mut H,
    engine: &mut Engine,
    turns: &[u32],
    kinds: bool,
    out: &mut [Sample],
) -> Result<(), LiveFault>
    requires channels { (i : ℕ) → i < length turns.now → slice_index turns.now i < length engine.old.channels }
    requires room { length out.old ≡ engine.old.heap.block }
    requires ready { IsReady engine.old }
    ensures counts { NoneFell (H.state host.old) (H.state host.new) }
    ensures quiet { OnOk result (SameCounts (H.state host.old) (H.state host.new)) }
    ensures output { SameOutput (H.state host.old) (H.state host.new) }
    ensures files { (H.state host.new).files ≡ (H.state host.old).files }
    ensures same { SamePiece engine.old engine.new }
    ensures room { length out.new ≡ length out.old }
    ensures ready { OnOk result (IsReady engine.new) }
    ensures told { (n : ℕ) (start : EngineState) (old : HostState) → IsTold kinds turns.now [] (suc n) start engine.old old (H.state host.old)
        → OnOk result (IsTold kinds turns.now [] n start engine.new old (H.state host.new)) }
    ensures fault { (n : ℕ) (start : EngineState) (old : HostState) → SameCounts old (H.state host.old) → IsTold kinds turns.now [] (suc n) start engine.old old (H.state host.old)
        → IfErr result (λ fault. EndsTurns kinds turns.now start engine.new old (H.state host.new) fault) }
{
    for i in 0..turns.len() {
        pull_turn(alloc, host, engine, turns[i], kinds, out)?;
    }
    Ok(())
}

/// Pulls an engine that was just opened to the ends of its channels, in turns that come again, and prints a line after each pull that gives
/// samples. A turn whose channel has ended is passed over. `out` has the block's length.
///
/// # Errors
/// `PoolFull` exactly where a pull of the order finds all blocks of the pool live at a fill. `Write` where a line can't be printed. `OutOfMemory`
/// where memory is missing for a line, or for a part that falls due.
pub fn pull_turns<H: Host>(
    alloc: Global,
    host: &mut H,
    engine: &mut Engine,
    turns: &[u32],
    kinds: bool,
    out: &mut [Sample],
) -> Result<(), LiveFault>
    requires channels { (i : ℕ) → i < length turns.now → slice_index turns.now i < length engine.old.channels }
    requires room { length out.old ≡ engine.old.heap.block }
    requires ready { IsReady engine.old }
    requires unpulled { HasPulled [] engine.old }
    ensures counts { NoneFell (H.state host.old) (H.state host.new) }
    ensures quiet { OnOk result (SameCounts (H.state host.old) (H.state host.new)) }
    ensures output { SameOutput (H.state host.old) (H.state host.new) }
    ensures files { (H.state host.new).files ≡ (H.state host.old).files }
    ensures same { SamePiece engine.old engine.new }
    ensures ready { OnOk result (IsReady engine.new) }
    ensures pulled { OnOk result (HasPulled (order_in turns.now engine.old) engine.new) }
    ensures told { OnOk result ((H.state host.new).printed ≡ append_known (H.state host.old).printed (texts_of kinds (pull_lines engine.old (order_in turns.now engine.old)))) }
    ensures fault { IfErr result (λ fault. EndsTurns kinds turns.now engine.old engine.new (H.state host.old) (H.state host.new) fault) }
{
    let count = (engine.frames() as usize).div_ceil(out.len());
    for n in 0..count {
        pull_round(alloc, host, engine, turns, kinds, out)?;
    }
    Ok(())
}

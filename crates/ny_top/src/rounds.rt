ghost use Rattle.std.specs.Prelude.{◌≡◌, ◌*◌, ◌+◌, ◌<◌, ◌≤◌, ◌++◌, ℕ, suc, [], Some, length, map, pos, IfErr, OnOk, OnErr};
ghost use Rattle.std.specs.List.{range_with_len};
ghost use Rattle.ny_io.specs.Host.{NoneFell, SameCounts};
ghost use Rattle.ny_check.specs.Channels.{channels, longest};
ghost use Rattle.ny_pull.specs.Engine.{EngineState, SamePiece};
ghost use Rattle.ny_pull.specs.Ordered.{HasPulled};
ghost use Rattle.ny_top.specs.Frames.{HasRoom, IsBlock, AreBlocks, gathered_in};
ghost use Rattle.ny_top.specs.Rounds.{IsUnderway, IsAtRound, IsAtTurn, IsPulledOut, IsPullFault, IsRoundFault, EndsRounds, Wrote, WrotePart, Gathered, all_bytes, bytes_of_round};

use crate::frames::{Buffers, flush, write_frames};
use ny_io::Host;
use ny_num::Sample;
use ny_pull::{Engine, PullFault};
use std::alloc::Global;

/// Why rounds over an engine ended before its channels did.
#[derive(Clone, Copy)]
pub(crate) enum RoundFault {
    Write,
    /// The pool was full, after so many pulls that gave samples.
    PoolFull { pulls: u64 },
    /// Memory was missing for a part that fell due.
    OutOfMemory,
}

/// Silence.
fn silence(out: &mut [Sample])
    ensures { out.new ≡ map (λ n. pos 0) (range_with_len 0 (length out.old)) }
{
    for n in 0..out.len() {
        out[n] = Sample::ZERO;
    }
}

/// The next block of a channel in its turn of a round: its next samples, and then silence. Nothing is pulled of
/// a channel that has ended.
fn pull_channel(
    alloc: Global,
    engine: &mut Engine,
    c: u32,
    out: &mut [Sample],
) -> Result<(), RoundFault>
    requires channel { c < length engine.old.channels }
    requires room { length out.old ≡ engine.old.heap.block }
    ensures same { SamePiece engine.old engine.new }
    ensures underway { (rounds : ℕ) → IsUnderway rounds c engine.old → OnOk result (IsUnderway rounds (c + 1) engine.new) }
    ensures samples { (rounds : ℕ) → IsUnderway rounds c engine.old → OnOk result (IsBlock engine.old rounds c out.new) }
    ensures turn { (rounds n : ℕ) → IsUnderway rounds c engine.old → IsAtTurn c n engine.old → OnOk result (IsAtTurn (c + 1) n engine.new) }
    ensures fault { (rounds n : ℕ) → IsUnderway rounds c engine.old → IsAtTurn c n engine.old → IfErr result (λ fault. IsPullFault engine.old engine.new rounds fault) }
    ensures size { length out.new ≡ length out.old }
{
    match engine.pull(alloc, c, out) {
        Ok(count) => {
            silence(&mut out[count..]);
            Ok(())
        }
        Err(PullFault::PoolFull { pulls, .. }) => Err(RoundFault::PoolFull { pulls }),
        Err(PullFault::OutOfMemory) => Err(RoundFault::OutOfMemory),
    }
}

/// The pulls of a round: each channel that has not ended is pulled once, channel 0 first.
fn pull_channels(
    alloc: Global,
    engine: &mut Engine,
    block: usize,
    samples: &mut [Sample],
) -> Result<(), RoundFault>
    requires block { block ≡ engine.old.heap.block }
    requires room { length samples.old ≡ length engine.old.channels * block }
    ensures same { SamePiece engine.old engine.new }
    ensures underway { (rounds : ℕ) → IsUnderway rounds 0 engine.old → OnOk result (IsUnderway (rounds + 1) 0 engine.new) }
    ensures samples { (rounds : ℕ) → IsUnderway rounds 0 engine.old → OnOk result (AreBlocks engine.old rounds samples.new) }
    ensures turns { (rounds n : ℕ) → IsUnderway rounds 0 engine.old → IsAtRound (suc n) engine.old → OnOk result (IsAtRound n engine.new) }
    ensures fault { (rounds n : ℕ) → IsUnderway rounds 0 engine.old → IsAtRound (suc n) engine.old → IfErr result (λ fault. IsPullFault engine.old engine.new rounds fault) }
    ensures size { length samples.new ≡ length samples.old }
{
    for c in 0..engine.channels() {
        let from = c as usize * block;
        pull_channel(alloc, engine, c, &mut samples[from..from + block])?;
    }
    Ok(())
}

/// The fault that a round ends with, which a pull gave: what is gathered is written first, and where that fails it is the write's.
fn end_round<H: Host>(
    host: &mut H,
    file: u32,
    buffers: &mut Buffers,
    fault: RoundFault,
) -> RoundFault
    requires open { (H.state host.old).output ≡ Some file }
    requires room { buffers.old.gathered ≤ length buffers.old.bytes.items }
    ensures counts { NoneFell (H.state host.old) (H.state host.new) }
    ensures fault { (start e : EngineState) (rounds : ℕ) → IsPullFault start e rounds fault →
        IsRoundFault start e rounds buffers.old (H.state host.old) (H.state host.new) result }
    ensures part { WrotePart (gathered_in buffers.old) (H.state host.old) (H.state host.new) }
    ensures files { (H.state host.new).files ≡ (H.state host.old).files }
    ensures printed { (H.state host.new).printed ≡ (H.state host.old).printed }
{
    match flush(host, file, buffers) {
        Ok(()) => fault,
        Err(_) => RoundFault::Write,
    }
}

/// One round: each channel that has not ended is pulled once, and as many frames are gathered as the longest
/// of these blocks has. At a fault of a pull what was gathered before is written.
fn round<H: Host>(
    alloc: Global,
    host: &mut H,
    file: u32,
    engine: &mut Engine,
    buffers: &mut Buffers,
    round: u32,
) -> Result<(), RoundFault>
    requires open { (H.state host.old).output ≡ Some file }
    requires underway { IsUnderway round 0 engine.old }
    requires order { (n : ℕ) × IsAtRound (suc n) engine.old }
    requires left { round * engine.old.heap.block < longest (channels engine.old.code engine.old.rate) }
    requires room { HasRoom (length engine.old.channels) engine.old.heap.block buffers.old }
    ensures counts { NoneFell (H.state host.old) (H.state host.new) }
    ensures quiet { OnOk result (SameCounts (H.state host.old) (H.state host.new)) }
    ensures same { SamePiece engine.old engine.new }
    ensures underway { OnOk result (IsUnderway (round + 1) 0 engine.new) }
    ensures order { OnOk result ((n : ℕ) → IsAtRound (suc n) engine.old → IsAtRound n engine.new) }
    ensures whole { OnOk result (Gathered (gathered_in buffers.old ++ bytes_of_round engine.old round) buffers.new (H.state host.old) (H.state host.new)) }
    ensures fault { IfErr result (λ fault. IsRoundFault engine.old engine.new round buffers.old (H.state host.old) (H.state host.new) fault) }
    ensures part { OnErr result (WrotePart (gathered_in buffers.old ++ bytes_of_round engine.old round) (H.state host.old) (H.state host.new)) }
    ensures output { OnOk result ((H.state host.new).output ≡ (H.state host.old).output) }
    ensures files { (H.state host.new).files ≡ (H.state host.old).files }
    ensures printed { (H.state host.new).printed ≡ (H.state host.old).printed }
    ensures room { OnOk result (HasRoom (length engine.old.channels) engine.old.heap.block buffers.new) }
{
    let block = buffers.block;
    let count = (engine.frames() as usize - round as usize * block).min(block);
    match pull_channels(alloc, engine, block, buffers.samples.as_mut_slice()) {
        Ok(()) => {}
        Err(fault) => return Err(end_round(host, file, buffers, fault)),
    }
    match write_frames(host, file, engine.channels() as usize, count, buffers) {
        Ok(()) => Ok(()),
        Err(_) => Err(RoundFault::Write),
    }
}

/// Pulls an engine's channels to their ends, in rounds, and writes their frames, of as many rounds by one call as the
/// buffer of bytes has room for. Memory is taken for the parts that fall due, and for nothing else.
pub(crate) fn rounds<H: Host>(
    alloc: Global,
    host: &mut H,
    file: u32,
    engine: &mut Engine,
    buffers: &mut Buffers,
) -> Result<(), RoundFault>
    requires open { (H.state host.old).output ≡ Some file }
    requires underway { IsUnderway 0 0 engine.old }
    requires order { HasPulled [] engine.old }
    requires block { (16 ≤ engine.old.heap.block) × (engine.old.heap.block ≤ 4096) }
    requires room { HasRoom (length engine.old.channels) engine.old.heap.block buffers.old }
    ensures counts { NoneFell (H.state host.old) (H.state host.new) }
    ensures quiet { OnOk result (SameCounts (H.state host.old) (H.state host.new)) }
    ensures played { OnOk result (IsPulledOut engine.old engine.new) }
    ensures whole { OnOk result (Wrote (all_bytes engine.old) (H.state host.old) (H.state host.new)) }
    ensures fault { IfErr result (λ fault. EndsRounds engine.old engine.new (H.state host.old) (H.state host.new) fault) }
    ensures part { OnErr result (WrotePart (all_bytes engine.old) (H.state host.old) (H.state host.new)) }
    ensures files { (H.state host.new).files ≡ (H.state host.old).files }
    ensures printed { (H.state host.new).printed ≡ (H.state host.old).printed }
{
    buffers.gathered = 0;
    let count = engine.frames().div_ceil(buffers.block as u32);
    for n in 0..count {
        round(alloc, host, file, engine, buffers, n)?;
    }
    match flush(host, file, buffers) {
        Ok(()) => Ok(()),
        Err(_) => Err(RoundFault::Write),
    }
}

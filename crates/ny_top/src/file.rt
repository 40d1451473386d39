ghost use Rattle.std.specs.Prelude.{◌≡◌, ◌≢◌, ◌≤◌, ◌⊎◌, [], Some, length, IfErr, OnOk, OnErr, IsTrue};
ghost use Rattle.std.specs.Io.KnownBytes.{append_known};
ghost use Rattle.ny_io.specs.Faults.{Rose};
ghost use Rattle.ny_io.specs.Host.{NoneFell, SameCounts, SameOutput};
ghost use Rattle.ny_top.specs.Channel.{file_of};
ghost use Rattle.ny_top.specs.Frames.{HasRoom};
ghost use Rattle.ny_top.specs.Outcome.{create_line, HasPlayOutcome};
ghost use Rattle.ny_top.specs.Playing.{IsNew, IsPoolFull};
ghost use Rattle.ny_top.specs.Rounds.{IsPulledOut, EndsFile, Wrote, WrotePart};
ghost use Rattle.ny_top.specs.Ends.{FaultTold, ToldAs, EndsAs, MadePart, CutsFile, is_whole, is_unfailed, is_early};
ghost use Rattle.ny_words.specs.Views.{render_view};

use crate::ends::{OutputLines, end_at, end_full, tell_fault};
use crate::frames::Buffers;
use crate::rounds::{RoundFault, rounds};
use crate::status::Status;
use ny_io::{Host, write_all};
use ny_pull::Engine;
use ny_wav::header;
use ny_words::Render;
use std::alloc::Global;

/// Writes the header of the whole file by one call, and then the rounds.
fn write_parts<H: Host>(
    alloc: Global,
    host: &mut H,
    file: u32,
    render: Render,
    engine: &mut Engine,
    buffers: &mut Buffers,
) -> Result<(), RoundFault>
    requires open { (H.state host.old).output ≡ Some file }
    requires new { IsNew (render_view render) engine.old }
    requires block { (16 ≤ render.block) × (render.block ≤ 4096) }
    requires room { HasRoom (length engine.old.channels) render.block buffers.old }
    ensures counts { NoneFell (H.state host.old) (H.state host.new) }
    ensures quiet { OnOk result (SameCounts (H.state host.old) (H.state host.new)) }
    ensures played { OnOk result (IsPulledOut engine.old engine.new) }
    ensures whole { OnOk result (Wrote (file_of render.entry.rate engine.old.code) (H.state host.old) (H.state host.new)) }
    ensures fault { IfErr result (λ fault. EndsFile engine.old engine.new (H.state host.old) (H.state host.new) fault) }
    ensures part { OnErr result (WrotePart (file_of render.entry.rate engine.old.code) (H.state host.old) (H.state host.new)) }
    ensures files { (H.state host.new).files ≡ (H.state host.old).files }
    ensures printed { (H.state host.new).printed ≡ (H.state host.old).printed }
{
    let head = header(engine.channels(), render.rate, 16, engine.frames());
    match write_all(host, file, &head) {
        Ok(()) => rounds(alloc, host, file, engine, buffers),
        Err(_) => Err(RoundFault::Write),
    }
}

/// Creates the output and plays an engine into it that was just opened. From here on no memory is
/// taken but for the parts that fall due.
pub(crate) fn write_file<H: Host>(
    alloc: Global,
    host: &mut H,
    render: Render,
    engine: &mut Engine,
    buffers: &mut Buffers,
    lines: OutputLines,
) -> Status
    requires new { IsNew (render_view render) engine.old }
    requires block { (16 ≤ render.block) × (render.block ≤ 4096) }
    requires room { HasRoom (length engine.old.channels) render.block buffers.old }
    requires line { lines.create.items ≡ create_line render.output.now }
    ensures counts { NoneFell (H.state host.old) (H.state host.new) }
    ensures files { (H.state host.new).files ≡ (H.state host.old).files }
    ensures status { (result ≢ Status.Usage) × (result ≢ Status.ReadFault) × (result ≢ Status.Refused) }
    ensures unfailed { IsTrue (is_unfailed result) → SameCounts (H.state host.old) (H.state host.new) }
    ensures whole { IsTrue (is_whole result) → EndsAs (HasPlayOutcome (render_view render.entry) engine.old.code engine.new) result (H.state host.old) (H.state host.new) }
    ensures pool_full { result ≡ Status.PoolFull → IsPoolFull (render_view render.entry) engine.new }
    ensures create { result ≡ Status.OpenFault → Rose ((H.state host.old).creates render.entry.output.now) ((H.state host.new).creates render.entry.output.now)
        × ((H.state host.new).printed ≡ append_known (H.state host.old).printed (create_line render.entry.output.now)) }
    ensures write { result ≡ Status.WriteFault → Rose (H.state host.old).writes (H.state host.new).writes }
    ensures told { result ≡ Status.WriteFault → FaultTold [] (H.state host.old) (H.state host.new)
        ⊎ ToldAs (HasPlayOutcome (render_view render.entry) engine.old.code engine.new) (H.state host.old) (H.state host.new)
        ⊎ (Rose ((H.state host.old).creates render.entry.output.now) ((H.state host.new).creates render.entry.output.now) × FaultTold (create_line render.entry.output.now) (H.state host.old) (H.state host.new)) }
    ensures memory { result ≡ Status.OutOfMemory → CutsFile (render_view render.entry) engine.old.code engine.new (H.state host.old) (H.state host.new) }
    ensures unprinted { result ≡ Status.OutOfMemory → (H.state host.new).printed ≡ (H.state host.old).printed }
    ensures early { IsTrue (is_early result) → SameOutput (H.state host.old) (H.state host.new) }
    ensures part { MadePart render.entry.output.now (file_of render.entry.rate engine.old.code) (H.state host.old) (H.state host.new) }
{
    let file = match host.create(render.output) {
        Ok(file) => file,
        Err(_) => return end_at(host, Status::OpenFault, lines.create),
    };
    match write_parts(alloc, host, file, render, engine, buffers) {
        Ok(()) => Status::Ok,
        Err(RoundFault::Write) => {
            tell_fault(host);
            Status::WriteFault
        }
        Err(RoundFault::PoolFull { pulls }) => end_full(host, lines.full, pulls),
        Err(RoundFault::OutOfMemory) => Status::OutOfMemory,
    }
}

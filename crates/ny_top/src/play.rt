ghost use Rattle.std.specs.Prelude.{◌≡◌, ◌≢◌, ◌⊎◌, [], None, Some, IsTrue};
ghost use Rattle.std.specs.Io.KnownBytes.{append_known};
ghost use Rattle.ny_io.specs.Faults.{Rose};
ghost use Rattle.ny_io.specs.Host.{NoneFell, SameCounts, SameOutput};
ghost use Rattle.ny_check.specs.Acceptance.{program_in};
ghost use Rattle.ny_top.specs.Outcome.{HasTreeOutcome};
ghost use Rattle.ny_top.specs.Ends.{FaultTold, ToldAs, EndsAs, MadeTree, CutsTree, CreateCause, CreateTold, TaskPoolFull, is_whole, is_unfailed, is_early};
ghost use Rattle.ny_words.specs.Views.{task_view};
ghost use Rattle.ny_words.specs.Commands.{IsInRange};
ghost use Rattle.ny_words.specs.declared.command.Task.TheVariants.{Render as Plays};

use crate::file::write_file;
use crate::reading::Accepted;
use crate::song::{Song, open_song};
use crate::status::Status;
use ny_io::Host;
use ny_pull::Engine;
use ny_words::Render;
use std::alloc::Global;

/// Plays an accepted text into a file, and leaves the engine that was pulled. All memory is taken before
/// the file is created, but for the parts that fall due.
pub(crate) fn play<H: Host>(
    alloc: Global,
    host: &mut H,
    render: Render,
    accepted: Accepted,
    left: &mut Option<Engine>,
) -> Status
    requires asked { IsInRange (task_view (Plays render)) }
    requires program { program_in accepted.tree ≡ Some accepted.program }
    requires left { left.old ≡ None }
    ensures counts { NoneFell (H.state host.old) (H.state host.new) }
    ensures files { (H.state host.new).files ≡ (H.state host.old).files }
    ensures status { (result ≢ Status.Usage) × (result ≢ Status.ReadFault) × (result ≢ Status.Refused) }
    ensures unfailed { IsTrue (is_unfailed result) → SameCounts (H.state host.old) (H.state host.new) }
    ensures whole { IsTrue (is_whole result) → EndsAs (HasTreeOutcome (task_view (Plays render.entry)) accepted.tree left.new) result (H.state host.old) (H.state host.new) }
    ensures pool_full { result ≡ Status.PoolFull → TaskPoolFull (task_view (Plays render.entry)) left.new }
    ensures create { result ≡ Status.OpenFault → CreateCause (task_view (Plays render.entry)) (H.state host.old) (H.state host.new) }
    ensures write { result ≡ Status.WriteFault → Rose (H.state host.old).writes (H.state host.new).writes }
    ensures told { result ≡ Status.WriteFault → FaultTold [] (H.state host.old) (H.state host.new)
        ⊎ ToldAs (HasTreeOutcome (task_view (Plays render.entry)) accepted.tree left.new) (H.state host.old) (H.state host.new)
        ⊎ CreateTold (task_view (Plays render.entry)) (H.state host.old) (H.state host.new) }
    ensures memory { result ≡ Status.OutOfMemory → (H.state host.new).printed ≡ (H.state host.old).printed }
    ensures cut { result ≡ Status.OutOfMemory → CutsTree (task_view (Plays render.entry)) accepted.tree left.new (H.state host.old) (H.state host.new) }
    ensures early { IsTrue (is_early result) → SameOutput (H.state host.old) (H.state host.new) }
    ensures part { MadeTree (task_view (Plays render.entry)) accepted.tree (H.state host.old) (H.state host.new) }
{
    match open_song(alloc, render, accepted.program) {
        Ok(song) => {
            let Song {
                mut engine,
                mut buffers,
                lines,
            } = song;
            let status = write_file(alloc, host, render, &mut engine, &mut buffers, lines);
            *left = Some(engine);
            status
        }
        Err(_) => Status::OutOfMemory,
    }
}

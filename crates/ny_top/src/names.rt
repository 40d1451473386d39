ghost use Rattle.std.specs.Prelude.{◌≡◌, ◌≢◌, None, IsTrue, IfSome};
ghost use Rattle.std.specs.Io.KnownBytes.{append_known};
ghost use Rattle.ny_io.specs.Faults.{Rose};
ghost use Rattle.ny_io.specs.Host.{NoneFell, SameCounts, SameOutput, bytes_under};
ghost use Rattle.ny_top.specs.Outcome.{HasTextOutcome};
ghost use Rattle.ny_top.specs.Ends.{WriteTold, Makes, CutsShort, OpenCause, ReadCause, EndsAs, TaskPoolFull, is_whole, is_unfailed, is_early};
ghost use Rattle.ny_words.specs.Views.{command_view};
ghost use Rattle.ny_words.specs.Commands.{IsInRange};

use crate::ends::{end_at, finish, input_lines};
use crate::status::Status;
use crate::text::run_text;
use ny_io::{Host, LoadFault, read_all};
use ny_pull::Engine;
use ny_words::Command;
use std::alloc::Global;

/// The most bytes of a text.
const MOST: u32 = 1_048_576;

/// Reads the text and does what is asked for with it.
pub(crate) fn run_names<H: Host>(
    alloc: Global,
    host: &mut H,
    command: Command,
    left: &mut Option<Engine>,
) -> Status
    requires asked { IsInRange (command_view command).task }
    requires left { left.old ≡ None }
    ensures counts { NoneFell (H.state host.old) (H.state host.new) }
    ensures files { (H.state host.new).files ≡ (H.state host.old).files }
    ensures status { result ≢ Status.Usage }
    ensures unfailed { IsTrue (is_unfailed result) → SameCounts (H.state host.old) (H.state host.new) }
    ensures whole { IsTrue (is_whole result) → IfSome (H.state host.old).files (λ files.
        EndsAs (HasTextOutcome (command_view command.entry).task (bytes_under (command_view command.entry).from files) left.new) result (H.state host.old) (H.state host.new)) }
    ensures pool_full { result ≡ Status.PoolFull → TaskPoolFull (command_view command.entry).task left.new }
    ensures open { result ≡ Status.OpenFault → OpenCause (command_view command.entry) (H.state host.old) (H.state host.new) }
    ensures read { result ≡ Status.ReadFault → ReadCause (command_view command.entry) (H.state host.old) (H.state host.new) }
    ensures write { result ≡ Status.WriteFault → Rose (H.state host.old).writes (H.state host.new).writes }
    ensures told { result ≡ Status.WriteFault → WriteTold (command_view command.entry) left.new (H.state host.old) (H.state host.new) }
    ensures memory { result ≡ Status.OutOfMemory → (H.state host.new).printed ≡ (H.state host.old).printed }
    ensures cut { result ≡ Status.OutOfMemory → CutsShort (command_view command.entry) left.new (H.state host.old) (H.state host.new) }
    ensures early { IsTrue (is_early result) → SameOutput (H.state host.old) (H.state host.new) }
    ensures part { Makes (command_view command.entry) (H.state host.old) (H.state host.new) }
{
    let from = command.input;
    let Ok(lines) = input_lines(alloc, from) else {
        return Status::OutOfMemory;
    };
    match read_all(alloc, host, from, MOST) {
        Ok(text) => run_text(alloc, host, command.task, &text, left),
        Err(LoadFault::Open) => end_at(host, Status::OpenFault, lines.open),
        Err(LoadFault::Read) => end_at(host, Status::ReadFault, lines.read),
        Err(LoadFault::TooLong) => finish(host, Status::Refused, b"refused: too long\n"),
        Err(LoadFault::OutOfMemory) => Status::OutOfMemory,
    }
}

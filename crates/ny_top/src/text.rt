ghost use Rattle.std.specs.Prelude.{◌≡◌, ◌≢◌, ◌≤◌, ◌⊎◌, [], length, None, Some, IsTrue};
ghost use Rattle.std.specs.Io.KnownBytes.{append_known};
ghost use Rattle.ny_io.specs.Faults.{Rose};
ghost use Rattle.ny_io.specs.Host.{NoneFell, SameCounts, SameOutput};
ghost use Rattle.ny_syntax.specs.Grammar.{height_limit};
ghost use Rattle.ny_syntax.specs.Canonical.{canonical_height, canonical_text};
ghost use Rattle.ny_check.specs.Acceptance.{program_in};
ghost use Rattle.ny_top.specs.Reading.{refusal_text};
ghost use Rattle.ny_top.specs.Outcome.{HasReadOutcome, HasTreeOutcome, refused};
ghost use Rattle.ny_top.specs.Ends.{FaultTold, ToldAs, EndsAs, HasPiece, MadeTree, MadeText, CutsTree, CutsText, CreateCause, CreateTold, TaskPoolFull, IsOutcome, is_whole, is_unfailed, is_early};
ghost use Rattle.ny_words.specs.Views.{task_view};
ghost use Rattle.ny_words.specs.Commands.{IsInRange};

use crate::ends::finish;
use crate::play::play;
use crate::reading::{Accepted, Refusal, TextFault, line_of, read_text};
use crate::status::Status;
use ny_io::Host;
use ny_pull::Engine;
use ny_syntax::{Tree, canonical};
use ny_words::Task;
use std::alloc::Global;

/// Ends a run with the line of a refusal.
fn refuse<H: Host>(alloc: Global, host: &mut H, refusal: Refusal) -> Status
    ensures counts { NoneFell (H.state host.old) (H.state host.new) }
    ensures output { SameOutput (H.state host.old) (H.state host.new) }
    ensures files { (H.state host.new).files ≡ (H.state host.old).files }
    ensures status { (result ≡ Status.Refused) ⊎ (result ≡ Status.WriteFault) ⊎ (result ≡ Status.OutOfMemory) }
    ensures unfailed { IsTrue (is_unfailed result) → SameCounts (H.state host.old) (H.state host.new) }
    ensures whole { IsTrue (is_whole result) → IsOutcome (refused (refusal_text refusal)) result (H.state host.old) (H.state host.new) }
    ensures rose { result ≡ Status.WriteFault → Rose (H.state host.old).writes (H.state host.new).writes }
    ensures fault { result ≡ Status.WriteFault → FaultTold (refusal_text refusal) (H.state host.old) (H.state host.new) }
    ensures memory { result ≡ Status.OutOfMemory → (H.state host.new).printed ≡ (H.state host.old).printed }
{
    match line_of(alloc, refusal) {
        Ok(line) => finish(host, Status::Refused, &line),
        Err(_) => Status::OutOfMemory,
    }
}

/// Prints the canonical text of a tree.
fn print_canonical<H: Host>(alloc: Global, host: &mut H, tree: &Tree) -> Status
    requires { canonical_height tree.now ≤ height_limit }
    ensures counts { NoneFell (H.state host.old) (H.state host.new) }
    ensures output { SameOutput (H.state host.old) (H.state host.new) }
    ensures files { (H.state host.new).files ≡ (H.state host.old).files }
    ensures status { (result ≡ Status.Ok) ⊎ (result ≡ Status.WriteFault) ⊎ (result ≡ Status.OutOfMemory) }
    ensures unfailed { IsTrue (is_unfailed result) → SameCounts (H.state host.old) (H.state host.new) }
    ensures whole { result ≡ Status.Ok → (H.state host.new).printed ≡ append_known (H.state host.old).printed (canonical_text tree.now) }
    ensures rose { result ≡ Status.WriteFault → Rose (H.state host.old).writes (H.state host.new).writes }
    ensures fault { result ≡ Status.WriteFault → FaultTold (canonical_text tree.now) (H.state host.old) (H.state host.new) }
    ensures memory { result ≡ Status.OutOfMemory → (H.state host.new).printed ≡ (H.state host.old).printed }
{
    match canonical(alloc, tree) {
        Ok(text) => finish(host, Status::Ok, &text),
        Err(_) => Status::OutOfMemory,
    }
}

/// Does what is asked for with an accepted text.
fn run_accepted<H: Host>(
    alloc: Global,
    host: &mut H,
    task: Task,
    accepted: Accepted,
    left: &mut Option<Engine>,
) -> Status
    requires asked { IsInRange (task_view task) }
    requires left { left.old ≡ None }
    requires height { canonical_height accepted.tree ≤ height_limit }
    requires program { program_in accepted.tree ≡ Some accepted.program }
    ensures counts { NoneFell (H.state host.old) (H.state host.new) }
    ensures files { (H.state host.new).files ≡ (H.state host.old).files }
    ensures status { (result ≢ Status.Usage) × (result ≢ Status.ReadFault) }
    ensures unfailed { IsTrue (is_unfailed result) → SameCounts (H.state host.old) (H.state host.new) }
    ensures whole { IsTrue (is_whole result) → EndsAs (HasTreeOutcome (task_view task.entry) accepted.tree left.new) result (H.state host.old) (H.state host.new) }
    ensures pool_full { result ≡ Status.PoolFull → TaskPoolFull (task_view task.entry) left.new }
    ensures create { result ≡ Status.OpenFault → CreateCause (task_view task.entry) (H.state host.old) (H.state host.new) }
    ensures write { result ≡ Status.WriteFault → Rose (H.state host.old).writes (H.state host.new).writes }
    ensures told { result ≡ Status.WriteFault → FaultTold [] (H.state host.old) (H.state host.new)
        ⊎ ToldAs (HasTreeOutcome (task_view task.entry) accepted.tree left.new) (H.state host.old) (H.state host.new)
        ⊎ CreateTold (task_view task.entry) (H.state host.old) (H.state host.new) }
    ensures memory { result ≡ Status.OutOfMemory → (H.state host.new).printed ≡ (H.state host.old).printed }
    ensures cut { result ≡ Status.OutOfMemory → CutsTree (task_view task.entry) accepted.tree left.new (H.state host.old) (H.state host.new) }
    ensures early { IsTrue (is_early result) → SameOutput (H.state host.old) (H.state host.new) }
    ensures part { MadeTree (task_view task.entry) accepted.tree (H.state host.old) (H.state host.new) }
{
    match task {
        Task::Render(render) => play(alloc, host, render, accepted, left),
        Task::Check => print_canonical(alloc, host, &accepted.tree),
    }
}

/// Does what is asked for with a text that was read whole.
pub(crate) fn run_text<H: Host>(
    alloc: Global,
    host: &mut H,
    task: Task,
    text: &[u8],
    left: &mut Option<Engine>,
) -> Status
    requires short { length text.now ≤ 1048576 }
    requires asked { IsInRange (task_view task) }
    requires left { left.old ≡ None }
    ensures counts { NoneFell (H.state host.old) (H.state host.new) }
    ensures files { (H.state host.new).files ≡ (H.state host.old).files }
    ensures status { (result ≢ Status.Usage) × (result ≢ Status.ReadFault) }
    ensures unfailed { IsTrue (is_unfailed result) → SameCounts (H.state host.old) (H.state host.new) }
    ensures whole { IsTrue (is_whole result) → EndsAs (HasReadOutcome (task_view task.entry) text.now left.new) result (H.state host.old) (H.state host.new) }
    ensures pool_full { result ≡ Status.PoolFull → TaskPoolFull (task_view task.entry) left.new }
    ensures piece { result ≡ Status.OpenFault → HasPiece text.now }
    ensures create { result ≡ Status.OpenFault → CreateCause (task_view task.entry) (H.state host.old) (H.state host.new) }
    ensures write { result ≡ Status.WriteFault → Rose (H.state host.old).writes (H.state host.new).writes }
    ensures told { result ≡ Status.WriteFault → FaultTold [] (H.state host.old) (H.state host.new)
        ⊎ ToldAs (HasReadOutcome (task_view task.entry) text.now left.new) (H.state host.old) (H.state host.new)
        ⊎ CreateTold (task_view task.entry) (H.state host.old) (H.state host.new) }
    ensures memory { result ≡ Status.OutOfMemory → (H.state host.new).printed ≡ (H.state host.old).printed }
    ensures cut { result ≡ Status.OutOfMemory → CutsText (task_view task.entry) text.now left.new (H.state host.old) (H.state host.new) }
    ensures early { IsTrue (is_early result) → SameOutput (H.state host.old) (H.state host.new) }
    ensures part { MadeText (task_view task.entry) text.now (H.state host.old) (H.state host.new) }
{
    match read_text(alloc, text) {
        Ok(accepted) => run_accepted(alloc, host, task, accepted, left),
        Err(TextFault::Refused(refusal)) => refuse(alloc, host, refusal),
        Err(TextFault::OutOfMemory) => Status::OutOfMemory,
    }
}

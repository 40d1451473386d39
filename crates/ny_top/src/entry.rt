ghost use Rattle.std.specs.Prelude.{◌≡◌, ◌≢◌, ◌⊎◌, List, Option, None, map, string_bytes, IsTrue, IfSome, IsSomeAnd};
ghost use Rattle.std.specs.Io.KnownBytes.{append_known};
ghost use Rattle.ny_io.specs.Faults.{Rose};
ghost use Rattle.ny_io.specs.Host.{NoneFell, SameCounts, SameOutput, Named};
ghost use Rattle.ny_pull.specs.Engine.{EngineState};
ghost use Rattle.ny_top.specs.Outcome.{Outcome, HasOutcome, usage_line, IsRefused, IsUnrefused};
ghost use Rattle.ny_words.specs.Words.{read_words};
ghost use Rattle.ny_top.specs.Ends.{OpenCause, ReadCause, NoneRose, RunWriteTold, RunMakes, RunCutsShort, EndsAs, TaskPoolFull, is_whole, is_unfailed, is_early};

use crate::ends::finish;
use crate::names::run_names;
use crate::status::Status;
use ny_io::Host;
use ny_pull::Engine;
use ny_words::{WordsFault, read_command};
use std::alloc::Global;

/// Runs the command of the words, without the program's name, over a host
/// (`docs/LANGUAGE.md`, "The command line"; `docs/DEFINITIONS.md`, "The outcome of a run").
///
/// `left` keeps the engine that was pulled, from its opening on; it is none at entry. It tells how far
/// the piece was played: to its end, to a full pool, or to a part for which memory was missing.
pub fn run<H: Host>(
    alloc: Global,
    words: &[String],
    host: &mut H,
    left: &mut Option<Engine>,
) -> Status
    requires { left.old ≡ None }

    // Where no fault was counted, the run ends as its outcome says, or for want of memory.
    ensures outcome { NoneRose (read_words (map string_bytes words.now)) (H.state host.old) (H.state host.new) → result ≢ Status.OutOfMemory
        → IfSome (H.state host.old).files (λ files. EndsAs (HasOutcome (map string_bytes words.now) files left.new) result (H.state host.old) (H.state host.new)) }

    // A status that no fault brings is the outcome's, whatever failed.
    ensures whole { IsTrue (is_whole result)
        → IfSome (H.state host.old).files (λ files. EndsAs (HasOutcome (map string_bytes words.now) files left.new) result (H.state host.old) (H.state host.new)) }

    // Each answer has its cause; the line of a file's fault is printed whole.
    ensures cause_usage { result ≡ Status.Usage → read_words (map string_bytes words.now) ≡ None }
    ensures cause_no_command { read_words (map string_bytes words.now) ≡ None → (result ≡ Status.Usage) ⊎ (result ≡ Status.WriteFault) ⊎ (result ≡ Status.OutOfMemory) }
    ensures cause_open { result ≡ Status.OpenFault → IsSomeAnd (read_words (map string_bytes words.now)) (λ command. OpenCause command (H.state host.old) (H.state host.new)) }
    ensures cause_read { result ≡ Status.ReadFault → IsSomeAnd (read_words (map string_bytes words.now)) (λ command. ReadCause command (H.state host.old) (H.state host.new)) }
    ensures cause_write { result ≡ Status.WriteFault → Rose (H.state host.old).writes (H.state host.new).writes }
    ensures cause_refused { result ≡ Status.Refused
        → IfSome (H.state host.old).files (λ files. IsRefused (read_words (map string_bytes words.now)) files) }
    // The pool that the words ask for is full only where all its blocks are taken and a fill found none free.
    ensures cause_pool_full { result ≡ Status.PoolFull
        → IsSomeAnd (read_words (map string_bytes words.now)) (λ command. TaskPoolFull command.task left.new) }

    // A count of faults changed only where the answer is a fault: none is told as want of memory, or as
    // anything else, and none is passed over.
    ensures unfailed { IsTrue (is_unfailed result) → SameCounts (H.state host.old) (H.state host.new) }
    // An output is created only where the piece is played: at Ok, at a full pool, at a failed write, and where memory was missing for a
    // part of it that fell due.
    ensures early { IsTrue (is_early result) → SameOutput (H.state host.old) (H.state host.new) }
    // Where memory was missing no output was created; or it holds the header of the whole file and the frames of all blocks before the
    // pull at which a part fell due that memory was missing for. That part waited when the pull began, and the engine left tells so.
    ensures cut_short { result ≡ Status.OutOfMemory → RunCutsShort (read_words (map string_bytes words.now)) left.new (H.state host.old) (H.state host.new) }

    // At most one file is created, for a command alone, and it holds a first part of the one WAV file.
    ensures prefix { RunMakes (read_words (map string_bytes words.now)) (H.state host.old) (H.state host.new) }

    // What is printed at usage also where the host tells no files, where a write failed, and where memory was wanting.
    ensures printed_usage { result ≡ Status.Usage → (H.state host.new).printed ≡ append_known (H.state host.old).printed usage_line }
    ensures printed_fault { result ≡ Status.WriteFault → RunWriteTold (read_words (map string_bytes words.now)) left.new (H.state host.old) (H.state host.new) }
    ensures printed_memory { result ≡ Status.OutOfMemory → (H.state host.new).printed ≡ (H.state host.old).printed }

    // Where no refusal applies and no fault was counted, the answer is Ok, want of memory, or a full pool with its cause.
    ensures complete { NoneRose (read_words (map string_bytes words.now)) (H.state host.old) (H.state host.new)
        → IfSome (H.state host.old).files (λ files. IsUnrefused (read_words (map string_bytes words.now)) files
        → (result ≡ Status.Ok) ⊎ (result ≡ Status.OutOfMemory)
        ⊎ ((result ≡ Status.PoolFull) × IsSomeAnd (read_words (map string_bytes words.now)) (λ command. TaskPoolFull command.task left.new))) }

    // Words have one outcome at most over the same files, whatever engine is left: the files and the words decide at which pull a pool is full.
    ensures one_outcome { (files : List Named) (e f : Option EngineState) (o other : Outcome)
        → HasOutcome (map string_bytes words.now) files e o → HasOutcome (map string_bytes words.now) files f other → other ≡ o }

    ensures counts { NoneFell (H.state host.old) (H.state host.new) }
    ensures files { (H.state host.new).files ≡ (H.state host.old).files }
{
    match read_command(alloc, words) {
        Ok(command) => run_names(alloc, host, command, left),
        Err(WordsFault::Usage) => finish(host, Status::Usage, b"fault: usage\n"),
        Err(WordsFault::OutOfMemory) => Status::OutOfMemory,
    }
}

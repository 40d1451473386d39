ghost use Rattle.std.specs.Prelude.{◌≡◌, ◌≢◌, None, map, string_bytes};
ghost use Rattle.ny_io.specs.NeverFails.{files_of};
ghost use Rattle.ny_top.specs.Outcome.{Outcome, HasOutcome};

use crate::entry::run;
use crate::status::Status;
use ny_io::NeverFail;
use ny_pull::Engine;
use std::alloc::Global;

/// Runs a command over a host of which no call fails: the answer is no fault, and where memory is not
/// wanting it is the outcome's. `left` is as for [`run`].
pub fn run_unfailing(
    alloc: Global,
    words: &[String],
    host: &mut NeverFail,
    left: &mut Option<Engine>,
) -> Status
    requires { left.old ≡ None }
    ensures faults { (result ≢ Status.OpenFault) × (result ≢ Status.ReadFault) × (result ≢ Status.WriteFault) }
    ensures outcome { result ≢ Status.OutOfMemory
        → (o : Outcome) × HasOutcome (map string_bytes words.now) (files_of host.old) left.new o × (result ≡ o.status) }
{
    run(alloc, words, host, left)
}

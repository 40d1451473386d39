//! `nyq`: a short text in, a WAV file out.
#![tactic(auto)]

use std::process::ExitCode;

fn main(rt: HostRuntime) -> ExitCode {
    ny_process::start(rt)
}

//! `nyq` once more, whose stored run has a word that is no UTF-8: it prints a line and ends with 2.
#![tactic(auto)]

use std::process::ExitCode;

fn main(rt: HostRuntime) -> ExitCode {
    ny_process::start(rt)
}

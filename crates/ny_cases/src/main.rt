//! Runs the commands of two lists, and prints what each did (`CASES.md`).
#![tactic(auto)]

mod case;
mod checksum;
mod files;
mod hosts;
mod short_calls;
mod shown;

use crate::case::cases_of;
use crate::files::run_on_files;
use crate::hosts::run_on_hosts;
use std::{fs, io};

fn main(rt: HostRuntime) -> io::Result<()> {
    let alloc = rt.alloc();
    for case in &cases_of(alloc, &fs::read(&rt, "cases.txt")?)? {
        run_on_files(&rt, case)?;
    }
    for case in &cases_of(alloc, &fs::read(&rt, "hosts.txt")?)? {
        run_on_hosts(&rt, case)?;
    }
    Ok(())
}

use crate::ended::exit_code;
use ny_io::RealHost;
use ny_top::Status;
use std::alloc::AllocError;
use std::process::ExitCode;
use std::rt::{Env, Files};
use std::{env, io};

/// The words after the program's name. Where one of them is no UTF-8 there are none, since no command
/// has such a word, and none has no words.
fn words<R: Env + AllocGlobal>(rt: &R) -> Result<Vec<String>, AllocError> {
    let mut words = Vec::new(rt.alloc());
    match env::args(rt) {
        Ok(args) => {
            for word in args.skip(1) {
                words.push(word)?;
            }
        }
        Err(fault) if fault.kind() == io::ErrorKind::InvalidData => {}
        Err(_) => return Err(AllocError),
    }
    Ok(words)
}

/// Runs the command that the process was started with, over the real files and the standard output.
pub fn start<R: Env + Files + Print + AllocGlobal + Drop>(rt: R) -> ExitCode {
    let alloc = rt.alloc();
    let code = match words(&rt) {
        Ok(words) => exit_code(alloc, &words, &mut RealHost::new(rt)),
        Err(_) => Status::OutOfMemory.code(),
    };
    ExitCode::from(code)
}

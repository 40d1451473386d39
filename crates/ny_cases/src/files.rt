use crate::case::{Case, INPUT};
use crate::shown::file_shown;
use ny_io::{Host, RealHost};
use ny_top::run;
use std::rt::Runtime;
use std::{fs, io};

/// The name that the words give to the created file.
const OUTPUT: &str = "out.wav";

/// Runs a case over the real files and the standard output.
pub fn run_on_files<R: Runtime + AllocGlobal>(rt: &R, case: &Case<'_>) -> io::Result<()> {
    rt.write_all(&case.heading(rt.alloc())?)?;
    print_run(rt, case, &mut RealHost::new(rt.clone()?))
}

/// Runs a case over a host whose files are those of the runtime. Below what the run itself prints, it
/// prints the status, and the file that stands on the disk afterwards.
pub fn print_run<R: Runtime + AllocGlobal, H: Host>(
    rt: &R,
    case: &Case<'_>,
    host: &mut H,
) -> io::Result<()> {
    lay_out(rt, case)?;
    let mut left = None;
    let code = run(rt.alloc(), case.words(), host, &mut left).code();
    println!(rt; "status {code}")?;
    let created = created(rt)?;
    rt.println(file_shown(rt.alloc(), created.as_deref())?)
}

/// Has the input of a case on the disk, if its line has a text, and no file of an earlier case.
fn lay_out<R: Runtime>(rt: &R, case: &Case<'_>) -> io::Result<()> {
    remove(rt, INPUT)?;
    remove(rt, OUTPUT)?;
    match case.text() {
        Some(text) => fs::write(rt, INPUT, text),
        None => Ok(()),
    }
}

/// Removes a file, if it is there.
fn remove<R: Runtime>(rt: &R, name: &str) -> io::Result<()> {
    match fs::remove_file(rt, name) {
        Err(fault) if fault.kind() != io::ErrorKind::NotFound => Err(fault),
        _ => Ok(()),
    }
}

/// The bytes of the created file as the disk has them, if it is there.
fn created<R: Runtime + AllocGlobal>(rt: &R) -> io::Result<Option<Vec<u8>>> {
    match fs::read(rt, OUTPUT) {
        Ok(bytes) => Ok(Some(bytes)),
        Err(fault) if fault.kind() == io::ErrorKind::NotFound => Ok(None),
        Err(fault) => Err(fault),
    }
}

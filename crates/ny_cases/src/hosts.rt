ghost use Rattle.std.specs.Prelude.{◌≤◌};

use crate::case::{Case, INPUT};
use crate::files::print_run;
use crate::short_calls::ShortCalls;
use crate::shown::{file_shown, printed_shown};
use ny_io::{Fails, MemHost, NeverFail, RealHost};
use ny_top::{run, run_unfailing};
use std::alloc::{AllocError, Global};
use std::rt::Runtime;
use std::{fmt, io};

/// The most bytes of a created file with its name, and of what is printed.
const ROOM: usize = 1_048_576;

/// A kind of call of a host.
#[derive(Clone, Copy, PartialEq, Eq)]
enum Call {
    Open,
    Read,
    Create,
    Write,
    Print,
}

impl fmt::Display for Call {
    fn fmt<W: fmt::Write>(&self, f: &mut fmt::Formatter<W>) -> fmt::Result {
        f.write_str(match self {
            Call::Open => "open",
            Call::Read => "read",
            Call::Create => "create",
            Call::Write => "write",
            Call::Print => "print",
        })
    }
}

/// The call that is to fail: its kind, and its number among those of its kind, from 1.
#[derive(Clone, Copy)]
struct Failing {
    call: Call,
    number: u64,
}

/// Runs a case over hosts in memory, which move one byte with each call, a few, or many, over one of
/// which no call fails, and then over the real files by calls that move a few bytes.
pub fn run_on_hosts<R: Runtime + AllocGlobal>(rt: &R, case: &Case<'_>) -> io::Result<()> {
    rt.write_all(&case.heading(rt.alloc())?)?;
    run_by_steps(rt, case, 1)?;
    run_by_steps(rt, case, 7)?;
    run_by_steps(rt, case, 1_000_000)?;
    rt.println(unfailing_shown(rt.alloc(), case)?)?;
    rt.println("short calls")?;
    print_run(rt, case, &mut RealHost::new(ShortCalls(rt.clone()?)))
}

/// Runs a case over hosts that move so many bytes with each call: one of which none fails, and those
/// of which one call does.
fn run_by_steps<R: Print + AllocGlobal>(rt: &R, case: &Case<'_>, step: usize) -> io::Result<()>
    requires { 1 ≤ step }
{
    let alloc = rt.alloc();
    rt.println(run_shown(alloc, case, step, None)?)?;
    for call in [
        Call::Open,
        Call::Read,
        Call::Create,
        Call::Write,
        Call::Print,
    ] {
        for number in 1..=2 {
            let failing = Some(Failing { call, number });
            rt.println(run_shown(alloc, case, step, failing)?)?;
        }
    }
    Ok(())
}

/// How a case ends over a host.
fn run_shown(
    alloc: Global,
    case: &Case<'_>,
    step: usize,
    failing: Option<Failing>,
) -> Result<String, AllocError>
    requires { 1 ≤ step }
{
    let mut host = host_of(alloc, case, step, failing)?;
    let mut left = None;
    let code = run(alloc, case.words(), &mut host, &mut left).code();
    let failing = failing_shown(alloc, failing)?;
    let file = file_shown(alloc, host.created().map(|created| created.1))?;
    let printed = printed_shown(alloc, host.printed())?;
    format!(in alloc; "step {step} {failing}: status {code}, {file}, {printed}")
}

/// How a case ends over a host of which no call fails.
fn unfailing_shown(alloc: Global, case: &Case<'_>) -> Result<String, AllocError> {
    let mut host = NeverFail::of(files_of(alloc, case)?, 1_000_000);
    let mut left = None;
    let code = run_unfailing(alloc, case.words(), &mut host, &mut left).code();
    format!(in alloc; "never failing: status {code}")
}

/// The call that is to fail, if one is.
fn failing_shown(alloc: Global, failing: Option<Failing>) -> Result<String, AllocError> {
    match failing {
        Some(Failing { call, number }) => format!(in alloc; "{call} {number}"),
        None => String::from_str(alloc, "none"),
    }
}

/// The files of a host in memory: the text of a case.
fn files_of(alloc: Global, case: &Case<'_>) -> Result<Vec<(String, Vec<u8>)>, AllocError> {
    let mut files = Vec::new(alloc);
    if let Some(text) = case.text() {
        let name = String::from_str(alloc, INPUT)?;
        files.push((name, Vec::from_slice(alloc, text)?))?;
    }
    Ok(files)
}

/// A host in memory that has the text of a case.
fn host_of(
    alloc: Global,
    case: &Case<'_>,
    step: usize,
    failing: Option<Failing>,
) -> Result<MemHost, AllocError>
    requires { 1 ≤ step }
{
    let files = files_of(alloc, case)?;
    MemHost::of(alloc, files, step, fails_of(alloc, failing)?, ROOM)
}

/// The calls that are to fail, by their kinds.
fn fails_of(alloc: Global, failing: Option<Failing>) -> Result<Fails, AllocError> {
    Ok(Fails {
        opens: numbers_of(alloc, failing, Call::Open)?,
        reads: numbers_of(alloc, failing, Call::Read)?,
        creates: numbers_of(alloc, failing, Call::Create)?,
        writes: numbers_of(alloc, failing, Call::Write)?,
        prints: numbers_of(alloc, failing, Call::Print)?,
    })
}

/// The numbers of the calls of a kind that are to fail.
fn numbers_of(alloc: Global, failing: Option<Failing>, call: Call) -> Result<Vec<u64>, AllocError> {
    match failing {
        Some(failing) if failing.call == call => Ok(vec![in alloc; failing.number]?),
        _ => Ok(Vec::new(alloc)),
    }
}

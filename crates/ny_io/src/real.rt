ghost use Rattle.std.specs.Prelude.{◌≡◌, None};
ghost use Rattle.ny_io.specs.Host.{silent};

use crate::host::{Failed, Host};
use std::io::{Read, Write};
use std::rt::Files;
use std::{fs, io};

/// The number of the open input.
const INPUT: u32 = 0;

/// The number of the open output.
const OUTPUT: u32 = 1;

/// The real files and the standard output. It tells no content and not the input's name, and
/// counts the faults of all names together. What a file or a terminal really holds is trusted.
#[derive(Drop)]
pub struct RealHost<R: Files + Print + Drop> {
    rt: R,
    input: Option<R::File>,
    output: Option<R::File>,
    opens: u64,
    reads: u64,
    creates: u64,
    writes: u64,
}

impl<R: Files + Print + Drop> RealHost<R> {
    /// A host over the runtime's files and its standard output, before any call.
    pub fn new(rt: R) -> RealHost<R>
        ensures { ⟦<RealHost<R> as Host>⟧.state result ≡ silent 0 0 0 0 None None }
    {
        RealHost {
            rt,
            input: None,
            output: None,
            opens: 0,
            reads: 0,
            creates: 0,
            writes: 0,
        }
    }
}

impl<R: Files + Print + Drop> Host for RealHost<R> {
    ghost use Rattle.std.specs.Prelude.{Some, None, is_some, if◌then◌else◌};

    ghost state = { λ host. silent host.opens host.reads host.creates host.writes
        (if is_some host.input then Some 0 else None)
        (if is_some host.output then Some 1 else None) };

    fn open(&mut self, name: &str) -> Result<u32, Failed> {
        match fs::open(&self.rt, name) {
            Ok(file) => {
                self.input = Some(file);
                Ok(INPUT)
            }
            Err(_) => {
                self.opens = self.opens.saturating_add(1);
                Err(Failed)
            }
        }
    }

    fn read(&mut self, _file: u32, buf: &mut [u8]) -> Result<usize, Failed> {
        let Some(file) = &mut self.input else {
            unreachable!()
        };
        match file.read(buf) {
            Ok(count) => Ok(count),
            Err(_) => {
                self.reads = self.reads.saturating_add(1);
                Err(Failed)
            }
        }
    }

    #[tactic(auto, unfolding(crate::specs::Host::added))]
    fn create(&mut self, name: &str) -> Result<u32, Failed> {
        match fs::create(&self.rt, name) {
            Ok(file) => {
                self.output = Some(file);
                Ok(OUTPUT)
            }
            Err(_) => {
                self.creates = self.creates.saturating_add(1);
                Err(Failed)
            }
        }
    }

    #[tactic(auto, unfolding(crate::specs::Host::written))]
    fn write(&mut self, _file: u32, bytes: &[u8]) -> Result<usize, Failed> {
        let Some(file) = &mut self.output else {
            unreachable!()
        };
        match file.write(bytes) {
            Ok(count) if count > 0 || bytes.is_empty() => Ok(count),
            _ => {
                self.writes = self.writes.saturating_add(1);
                Err(Failed)
            }
        }
    }

    fn print(&mut self, bytes: &[u8]) -> Result<usize, Failed> {
        match io::writer(&self.rt).write(bytes) {
            Ok(count) if count > 0 || bytes.is_empty() => Ok(count),
            _ => {
                self.writes = self.writes.saturating_add(1);
                Err(Failed)
            }
        }
    }
}

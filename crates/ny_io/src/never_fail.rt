ghost use Rattle.std.specs.Prelude.{◌≡◌, ◌≤◌};
ghost use Rattle.ny_io.specs.MemoryFiles.{named_files};

use crate::host::{Failed, Host};
use crate::memory::{Place, place_of, rest_of};

/// The number of the open input.
const INPUT: u32 = 0;

/// The number of the open output.
const OUTPUT: u32 = 1;

/// A host in memory of which no call fails, so it has no count of faults that could rise.
///
/// A name that is not there is an empty file. What is written and printed is dropped, so the host
/// tells its files and what is left of the open input, and no more. No call takes memory.
#[derive(Drop)]
pub struct NeverFail {
    files: Vec<(String, Vec<u8>)>,
    step: usize,
    input: Option<Place>,
    is_created: bool,
    ghost steps: { 1 ≤ step },
}

impl NeverFail {
    ghost use Rattle.ny_io.specs.NeverFails.{state_of, unopened};

    /// A host over these files, before any call. Of several files with one name the first counts.
    /// `step` is the most bytes that one call moves.
    pub fn of(files: Vec<(String, Vec<u8>)>, step: usize) -> NeverFail
        requires { 1 ≤ step }
        ensures { state_of result ≡ unopened (named_files files.items) }
    {
        NeverFail {
            files,
            step,
            input: None,
            is_created: false,
        }
    }
}

impl Host for NeverFail {
    ghost use Rattle.ny_io.specs.NeverFails.{state_of};

    ghost state = { state_of };

    #[tactic(auto, using(crate::proofs::MemoryFiles::opened_place))]
    fn open(&mut self, name: &str) -> Result<u32, Failed> {
        let file = match place_of(&self.files, name) {
            Some(file) => file,
            None => self.files.len(),
        };
        self.input = Some(Place { file, at: 0 });
        Ok(INPUT)
    }

    #[tactic(auto, using(crate::proofs::MemoryFiles::read_next))]
    fn read(&mut self, _file: u32, buf: &mut [u8]) -> Result<usize, Failed> {
        let Some(place) = &mut self.input else {
            unreachable!()
        };
        let rest = rest_of(&self.files, place.file, place.at);
        let count = rest.len().min(buf.len()).min(self.step);
        buf[..count].copy_from_slice(&rest[..count]);
        place.at += count;
        Ok(count)
    }

    #[tactic(auto, unfolding(crate::specs::Host::added))]
    fn create(&mut self, _name: &str) -> Result<u32, Failed> {
        self.is_created = true;
        Ok(OUTPUT)
    }

    #[tactic(auto, unfolding(crate::specs::Host::written))]
    fn write(&mut self, _file: u32, bytes: &[u8]) -> Result<usize, Failed> {
        Ok(bytes.len().min(self.step))
    }

    fn print(&mut self, bytes: &[u8]) -> Result<usize, Failed> {
        Ok(bytes.len().min(self.step))
    }
}

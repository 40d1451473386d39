ghost use Rattle.std.specs.Prelude.{◌≡◌, ◌≤◌, ◌<◌, ◌+◌, ◌^◌, ◌∷◌, [], ℕ, None, Some, true, drop, take, length, IfSome, IfOk, IsErr, IsNone, List, OnOk, OnErr, IsTrue, ◌↔◌, MatchResult, string_capacity, vec_capacity};
ghost use Rattle.std.specs.List.{position_from};
ghost use Rattle.std.specs.Io.{ReadsAtMost, WritesAtMost};
ghost use Rattle.std.specs.Io.KnownBytes.{IsAtEnd, prepend_known, append_known};
ghost use Rattle.ny_io.specs.Faults.{Rose};
ghost use Rattle.ny_io.specs.Host.{NoneFell, SameCounts, SameInput, SameOutput, IsToldAlike, MayBe, bytes_under, written, added};
ghost use Rattle.ny_io.specs.MemoryFiles.{named_files, file_at, is_named};

use crate::host::{Failed, Host};
use std::alloc::{AllocError, Global};

/// The numbers of the calls that are to fail, by kind. The first call of a kind has the number 1.
#[derive(Drop)]
pub struct Fails {
    pub opens: Vec<u64>,
    pub reads: Vec<u64>,
    pub creates: Vec<u64>,
    pub writes: Vec<u64>,
    pub prints: Vec<u64>,
}

/// The calls of one kind: how many there were, and which are to fail.
#[derive(Drop)]
struct Schedule {
    made: u64,
    failing: Vec<u64>,
}

impl Schedule {
    ghost use Rattle.ny_io.specs.Memory.{no_calls, is_listed, counted};
    ghost use Rattle.ny_io.specs.MemoryState.{calls_of};

    fn of(failing: Vec<u64>) -> Schedule
        ensures { calls_of result ≡ no_calls failing.items }
    {
        Schedule { made: 0, failing }
    }

    /// Counts one more call, and says whether it is to fail.
    fn is_next_listed(&mut self) -> bool
        ensures listed { result ≡ is_listed (calls_of self.old) }
        ensures counted { calls_of self.new ≡ counted (calls_of self.old) }
    {
        self.made = self.made.saturating_add(1);
        self.failing.contains(&self.made)
    }
}

/// Where the open input stands: the place of its file, and how many of its bytes were read.
#[derive(Clone, Copy)]
pub(crate) struct Place {
    pub(crate) file: usize,
    pub(crate) at: usize,
}

/// The number of the open input.
const INPUT: u32 = 0;

/// The number of the open output.
const OUTPUT: u32 = 1;

/// A host in memory, which tells all. Chosen calls of it fail.
#[derive(Drop)]
pub struct MemHost {
    files: Vec<(String, Vec<u8>)>,
    step: usize,
    room: usize,
    opens: Schedule,
    reads: Schedule,
    creates: Schedule,
    writes: Schedule,
    prints: Schedule,
    open_faults: u64,
    read_faults: u64,
    create_faults: u64,
    write_faults: u64,
    input: Option<Place>,
    is_created: bool,
    name: String,
    bytes: Vec<u8>,
    printed: Vec<u8>,
    ghost steps: { 1 ≤ step },
    ghost name_room: { room ≤ string_capacity name },
    ghost bytes_room: { room ≤ vec_capacity bytes },
    ghost printed_room: { room ≤ vec_capacity printed },
}

/// The place of the first file of that name.
pub(crate) fn place_of(files: &[(String, Vec<u8>)], name: &str) -> Option<usize>
    ensures { result ≡ position_from (is_named name.now) 0 files.now }
{
    files.iter().position(|file| file.0.as_str() == name)
}

/// The bytes of a file from a place on.
pub(crate) fn rest_of(files: &[(String, Vec<u8>)], file: usize, at: usize) -> &[u8]
    ensures rest { result.now ≡ drop at (file_at (named_files files.now) file).1 }
    ensures fits { at + length result.now < 2 ^ 64 }
{
    match files.get(file) {
        Some(file) => {
            let start = at.min(file.1.len());
            &file.1[start..]
        }
        None => &[],
    }
}

impl MemHost {
    ghost use Rattle.ny_io.specs.MemoryState.{memory_of, state_of, new_memory};

    /// A host over these files, before any call. Of several files with one name the first counts.
    ///
    /// `step` is the most bytes that one call moves. `room` is the most bytes of the created
    /// file's name and content together, and also the most bytes that can be printed: all the
    /// memory for them is taken here, and no other call takes any.
    pub fn of(
        alloc: Global,
        files: Vec<(String, Vec<u8>)>,
        step: usize,
        fails: Fails,
        room: usize,
    ) -> Result<MemHost, AllocError>
        requires { 1 ≤ step }
        ensures { IfOk result (λ host.
            memory_of host ≡ new_memory (named_files files.items) step fails room) }
    {
        let name = String::with_capacity(alloc, room)?;
        let bytes = Vec::with_capacity(alloc, room)?;
        let printed = Vec::with_capacity(alloc, room)?;
        let Fails {
            opens,
            reads,
            creates,
            writes,
            prints,
        } = fails;
        Ok(MemHost {
            files,
            step,
            room,
            opens: Schedule::of(opens),
            reads: Schedule::of(reads),
            creates: Schedule::of(creates),
            writes: Schedule::of(writes),
            prints: Schedule::of(prints),
            open_faults: 0,
            read_faults: 0,
            create_faults: 0,
            write_faults: 0,
            input: None,
            is_created: false,
            name,
            bytes,
            printed,
        })
    }

    /// The name and the bytes of the created file, and `None` exactly where nothing was created.
    pub fn created(&self) -> Option<(&str, &[u8])>
        ensures none { IsNone result ↔ ((state_of self.now).created ≡ Some []) }
        ensures file { IfSome result (λ file.
            (state_of self.now).created ≡ Some ((file.0.now, file.1.now) ∷ [])) }
    {
        if self.is_created {
            Some((self.name.as_str(), self.bytes.as_slice()))
        } else {
            None
        }
    }

    /// All the bytes that were printed.
    pub fn printed(&self) -> &[u8]
        ensures { (state_of self.now).printed ≡ Some result.now }
    {
        self.printed.as_slice()
    }
}

// Each call has the trait's clauses, and says besides when it fails, how many bytes it moves, and
// what it makes of the memory: only a failed call raises a count of faults, by one.
impl Host for MemHost {
    ghost use Rattle.ny_io.specs.Memory.{open_fails, after_open, after_failed_open, read_fails, read_count, after_read, after_failed_read, create_fails, after_create, after_failed_create, write_fails, write_count, after_write, after_failed_write, print_fails, print_count, after_print, after_failed_print};
    ghost use Rattle.ny_io.specs.MemoryState.{memory_of, state_of};

    ghost state = { state_of };

    #[tactic(auto, using(crate::proofs::MemoryFiles::found_place))]
    fn open(&mut self, name: &str) -> Result<u32, Failed>
        ensures counts { NoneFell (state_of self.old) (state_of self.new) }
        ensures cause { OnErr result (
            Rose ((state_of self.old).opens name.now) ((state_of self.new).opens name.now)) }
        ensures quiet { OnOk result (SameCounts (state_of self.old) (state_of self.new)) }
        ensures number { IfOk result (λ file. (state_of self.new).input ≡ Some file) }
        ensures name { OnOk result (MayBe name.now (state_of self.new).name) }
        ensures name_told { IsToldAlike (state_of self.old).name (state_of self.new).name }
        ensures bytes { OnOk result (IfSome (state_of self.old).files (λ files.
            (state_of self.new).left ≡ Some (bytes_under name.now files))) }
        ensures bytes_told { IsToldAlike (state_of self.old).left (state_of self.new).left }
        ensures failed { OnErr result (SameInput (state_of self.old) (state_of self.new)) }
        ensures output { SameOutput (state_of self.old) (state_of self.new) }
        ensures files { (state_of self.new).files ≡ (state_of self.old).files }
        ensures printed { (state_of self.new).printed ≡ (state_of self.old).printed }

        ensures fails { IsErr result ↔ IsTrue (open_fails name.now (memory_of self.old)) }
        ensures memory { MatchResult result
            (λ _. memory_of self.new ≡ after_open name.now (memory_of self.old))
            (λ _. memory_of self.new ≡ after_failed_open (memory_of self.old)) }
    {
        let is_listed = self.opens.is_next_listed();
        match place_of(&self.files, name) {
            Some(file) if !is_listed => {
                self.input = Some(Place { file, at: 0 });
                Ok(INPUT)
            }
            _ => {
                self.open_faults = self.open_faults.saturating_add(1);
                Err(Failed)
            }
        }
    }

    #[tactic(auto, using(crate::proofs::MemoryFiles::read_next))]
    fn read(&mut self, file: u32, buf: &mut [u8]) -> Result<usize, Failed>
        requires { (state_of self.old).input ≡ Some file }
        ensures counts { NoneFell (state_of self.old) (state_of self.new) }
        ensures cause { OnErr result ((name : List ℕ) → MayBe name (state_of self.old).name →
            Rose ((state_of self.old).reads name) ((state_of self.new).reads name)) }
        ensures quiet { OnOk result (SameCounts (state_of self.old) (state_of self.new)) }
        ensures within { ReadsAtMost result buf.new }
        ensures bytes { MatchResult result
            (λ count. (state_of self.old).left ≡
            prepend_known (take count buf.new) (state_of self.new).left)
            (λ _. (state_of self.new).left ≡ (state_of self.old).left) }
        ensures end { IfOk result (λ count.
            count ≡ 0 → 0 < length buf.new → IsAtEnd (state_of self.new).left) }
        ensures input { (state_of self.new).input ≡ (state_of self.old).input }
        ensures name { (state_of self.new).name ≡ (state_of self.old).name }
        ensures output { SameOutput (state_of self.old) (state_of self.new) }
        ensures files { (state_of self.new).files ≡ (state_of self.old).files }
        ensures printed { (state_of self.new).printed ≡ (state_of self.old).printed }

        ensures fails { IsErr result ↔ IsTrue (read_fails (memory_of self.old)) }
        ensures count { IfOk result (λ count.
            count ≡ read_count (length buf.old) (memory_of self.old)) }
        ensures memory { MatchResult result
            (λ count. memory_of self.new ≡ after_read count (memory_of self.old))
            (λ _. memory_of self.new ≡ after_failed_read (memory_of self.old)) }
    {
        if self.reads.is_next_listed() {
            self.read_faults = self.read_faults.saturating_add(1);
            return Err(Failed);
        }
        let Some(place) = &mut self.input else {
            unreachable!()
        };
        let rest = rest_of(&self.files, place.file, place.at);
        let count = rest.len().min(buf.len()).min(self.step);
        buf[..count].copy_from_slice(&rest[..count]);
        place.at += count;
        Ok(count)
    }

    #[tactic(auto, unfolding(crate::specs::Host::added))]
    fn create(&mut self, name: &str) -> Result<u32, Failed>
        ensures counts { NoneFell (state_of self.old) (state_of self.new) }
        ensures cause { OnErr result (
            Rose ((state_of self.old).creates name.now) ((state_of self.new).creates name.now)) }
        ensures quiet { OnOk result (SameCounts (state_of self.old) (state_of self.new)) }
        ensures number { IfOk result (λ file. (state_of self.new).output ≡ Some file) }
        ensures created { OnOk result (
            (state_of self.new).created ≡ added (name.now, []) (state_of self.old).created) }
        ensures failed { OnErr result (SameOutput (state_of self.old) (state_of self.new)) }
        ensures input { SameInput (state_of self.old) (state_of self.new) }
        ensures files { (state_of self.new).files ≡ (state_of self.old).files }
        ensures printed { (state_of self.new).printed ≡ (state_of self.old).printed }

        ensures fails { IsErr result ↔ IsTrue (create_fails name.now (memory_of self.old)) }
        ensures memory { MatchResult result
            (λ _. memory_of self.new ≡ after_create name.now (memory_of self.old))
            (λ _. memory_of self.new ≡ after_failed_create (memory_of self.old)) }
    {
        let is_listed = self.creates.is_next_listed();
        if is_listed || self.is_created || name.len() > self.room {
            self.create_faults = self.create_faults.saturating_add(1);
            return Err(Failed);
        }
        self.name.clear();
        self.bytes.clear();
        self.name.push_str(name).unwrap();
        self.is_created = true;
        Ok(OUTPUT)
    }

    #[tactic(auto, unfolding(crate::specs::Host::written))]
    fn write(&mut self, file: u32, bytes: &[u8]) -> Result<usize, Failed>
        requires { (state_of self.old).output ≡ Some file }
        ensures counts { NoneFell (state_of self.old) (state_of self.new) }
        ensures cause { OnErr result (Rose (state_of self.old).writes (state_of self.new).writes) }
        ensures quiet { OnOk result (SameCounts (state_of self.old) (state_of self.new)) }
        ensures within { WritesAtMost result bytes.now }
        ensures some { IfOk result (λ count. 0 < length bytes.now → 0 < count) }
        ensures bytes { MatchResult result
            (λ count. (state_of self.new).created ≡
            written (take count bytes.now) (state_of self.old).created)
            (λ _. (state_of self.new).created ≡ (state_of self.old).created) }
        ensures output { (state_of self.new).output ≡ (state_of self.old).output }
        ensures input { SameInput (state_of self.old) (state_of self.new) }
        ensures files { (state_of self.new).files ≡ (state_of self.old).files }
        ensures printed { (state_of self.new).printed ≡ (state_of self.old).printed }

        ensures fails { IsErr result ↔ IsTrue (write_fails bytes.now (memory_of self.old)) }
        ensures count { IfOk result (λ count.
            count ≡ write_count (length bytes.now) (memory_of self.old)) }
        ensures memory { MatchResult result
            (λ count. memory_of self.new ≡ after_write (take count bytes.now) (memory_of self.old))
            (λ _. memory_of self.new ≡ after_failed_write (memory_of self.old)) }
    {
        let is_listed = self.writes.is_next_listed();
        let room = self
            .room
            .saturating_sub(self.name.len())
            .saturating_sub(self.bytes.len());
        let count = bytes.len().min(self.step).min(room);
        if is_listed || count == 0 && !bytes.is_empty() {
            self.write_faults = self.write_faults.saturating_add(1);
            return Err(Failed);
        }
        self.bytes.extend_from_slice(&bytes[..count]).unwrap();
        Ok(count)
    }

    fn print(&mut self, bytes: &[u8]) -> Result<usize, Failed>
        ensures counts { NoneFell (state_of self.old) (state_of self.new) }
        ensures cause { OnErr result (Rose (state_of self.old).writes (state_of self.new).writes) }
        ensures quiet { OnOk result (SameCounts (state_of self.old) (state_of self.new)) }
        ensures within { WritesAtMost result bytes.now }
        ensures some { IfOk result (λ count. 0 < length bytes.now → 0 < count) }
        ensures bytes { MatchResult result
            (λ count. (state_of self.new).printed ≡
            append_known (state_of self.old).printed (take count bytes.now))
            (λ _. (state_of self.new).printed ≡ (state_of self.old).printed) }
        ensures output { SameOutput (state_of self.old) (state_of self.new) }
        ensures input { SameInput (state_of self.old) (state_of self.new) }
        ensures files { (state_of self.new).files ≡ (state_of self.old).files }

        ensures fails { IsErr result ↔ IsTrue (print_fails bytes.now (memory_of self.old)) }
        ensures count { IfOk result (λ count.
            count ≡ print_count (length bytes.now) (memory_of self.old)) }
        ensures memory { MatchResult result
            (λ count. memory_of self.new ≡ after_print (take count bytes.now) (memory_of self.old))
            (λ _. memory_of self.new ≡ after_failed_print (memory_of self.old)) }
    {
        let is_listed = self.prints.is_next_listed();
        let room = self.room.saturating_sub(self.printed.len());
        let count = bytes.len().min(self.step).min(room);
        if is_listed || count == 0 && !bytes.is_empty() {
            self.write_faults = self.write_faults.saturating_add(1);
            return Err(Failed);
        }
        self.printed.extend_from_slice(&bytes[..count]).unwrap();
        Ok(count)
    }
}

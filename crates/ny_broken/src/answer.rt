use ny_io::{Fails, MemHost};
use ny_top::{Status, run};
use std::alloc::{AllocError, Global};

/// The name of the text that is checked.
const INPUT: &str = "in.sal";

/// The most bytes that one call of the host moves.
const STEP: usize = 1_000_000;

/// The most bytes that can be printed.
const ROOM: usize = 65_536;

/// The remainder of the two sums of a checksum.
const MODULUS: u32 = 65_521;

/// The Adler-32 checksum of the bytes, as zlib has it.
fn adler32(bytes: &[u8]) -> u32 {
    let mut low: u32 = 1;
    let mut high: u32 = 0;
    for byte in bytes {
        low = low.wrapping_add(u32::from(*byte)) % MODULUS;
        high = high.wrapping_add(low) % MODULUS;
    }
    high.wrapping_mul(65_536).wrapping_add(low)
}

fn words(alloc: Global) -> Result<Vec<String>, AllocError> {
    let mut words = Vec::new(alloc);
    words.push(String::from_str(alloc, "check")?)?;
    words.push(String::from_str(alloc, INPUT)?)?;
    Ok(words)
}

/// A host in memory that has the text, and never fails.
fn host_of(alloc: Global, text: Vec<u8>) -> Result<MemHost, AllocError> {
    let mut files = Vec::new(alloc);
    files.push((String::from_str(alloc, INPUT)?, text))?;
    let fails = Fails {
        opens: Vec::new(alloc),
        reads: Vec::new(alloc),
        creates: Vec::new(alloc),
        writes: Vec::new(alloc),
        prints: Vec::new(alloc),
    };
    MemHost::of(alloc, files, STEP, fails, ROOM)
}

/// What `check` answers to a text: the status, and the printed line; or how many bytes the canonical
/// text has, and their checksum.
pub fn answer(alloc: Global, text: Vec<u8>) -> Result<Vec<u8>, AllocError> {
    let mut host = host_of(alloc, text)?;
    let mut left = None;
    let status = run(alloc, &words(alloc)?, &mut host, &mut left);
    let code = status.code();
    let printed = host.printed();
    if status == Status::Ok {
        let len = printed.len();
        let sum = adler32(printed);
        let shown = format!(in alloc; "status {code}, {len} bytes, adler32 {sum:08x}\n")?;
        return Ok(shown.into_bytes());
    }
    let mut shown = format!(in alloc; "status {code}, ")?.into_bytes();
    shown.extend_from_slice(printed)?;
    Ok(shown)
}

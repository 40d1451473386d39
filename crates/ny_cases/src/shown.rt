use crate::checksum::crc32;
use std::alloc::{AllocError, Global};

/// The most bytes that are shown in hex. More are shown by their checksum.
const MOST_IN_HEX: usize = 128;

/// How many bytes these are, and which.
fn bytes_shown(alloc: Global, bytes: &[u8]) -> Result<String, AllocError> {
    let len = bytes.len();
    if bytes.is_empty() {
        String::from_str(alloc, "0")
    } else if len <= MOST_IN_HEX {
        let digits = hex::encode(alloc, bytes)?;
        format!(in alloc; "{len} {digits}")
    } else {
        let sum = crc32(bytes);
        format!(in alloc; "{len} crc32 {sum:08x}")
    }
}

/// The created file, if any was created.
pub fn file_shown(alloc: Global, file: Option<&[u8]>) -> Result<String, AllocError> {
    match file {
        Some(bytes) => {
            let bytes = bytes_shown(alloc, bytes)?;
            format!(in alloc; "file {bytes}")
        }
        None => String::from_str(alloc, "no file"),
    }
}

/// What was printed.
pub fn printed_shown(alloc: Global, printed: &[u8]) -> Result<String, AllocError> {
    if printed.is_empty() {
        String::from_str(alloc, "nothing printed")
    } else {
        let bytes = bytes_shown(alloc, printed)?;
        format!(in alloc; "printed {bytes}")
    }
}

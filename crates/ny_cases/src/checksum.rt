/// The polynomial of the checksum, its lowest bit that of the highest power.
const POLYNOMIAL: u32 = 0xedb8_8320;

/// A checksum after the eight bits of a byte that was added to it.
fn after_byte(sum: u32) -> u32 {
    let mut sum = sum;
    for _ in 0..8 {
        let is_odd = sum & 1 == 1;
        sum >>= 1;
        if is_odd {
            sum ^= POLYNOMIAL;
        }
    }
    sum
}

/// The CRC-32 of the bytes, as zlib and PNG have it.
pub fn crc32(bytes: &[u8]) -> u32 {
    let mut sum = u32::MAX;
    for byte in bytes {
        sum = after_byte(sum ^ u32::from(*byte));
    }
    !sum
}

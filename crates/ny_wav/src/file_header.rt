ghost use Rattle.std.specs.Prelude.{◌≡◌, ◌≤◌, ◌<◌, ◌+◌, ◌*◌, ◌^◌};
ghost use Rattle.ny_num.specs.Grid.{hz_of, last_index};
ghost use Rattle.ny_wav.specs.WavFile.{riff_head, format_chunk_of, data_head, header_of, frame_size};

use byteorder::{ByteOrder, LittleEndian};
use ny_num::Rate;

/// The format's tag for samples that are whole numbers, not compressed.
const WHOLE_NUMBERS: u16 = 1;

/// How many bytes of the header the size in the file's head counts: those that follow it.
const COUNTED: u32 = 36;

/// The head of the file: its kind, and how many bytes follow that size.
fn riff(data_size: u32) -> [u8; 12]
    requires { data_size + 36 < 2 ^ 32 }
    ensures { result ≡ riff_head data_size }
{
    let mut out = *b"RIFF....WAVE";
    LittleEndian::write_u32(&mut out[4..8], COUNTED + data_size);
    out
}

/// The chunk that says how the samples stand.
fn format_chunk(channels: u32, rate: Rate, bits: u32) -> [u8; 24]
    requires channels { channels ≤ 8 }
    requires bits { bits ≤ 32 }
    ensures { result ≡ format_chunk_of channels rate bits }
{
    let block_align = channels * (bits / 8);
    let mut out = [0; 24];
    out[0..4].copy_from_slice(b"fmt ");
    LittleEndian::write_u32(&mut out[4..8], 16);
    LittleEndian::write_u16(&mut out[8..10], WHOLE_NUMBERS);
    LittleEndian::write_u16(&mut out[10..12], channels as u16);
    LittleEndian::write_u32(&mut out[12..16], rate.hz());
    LittleEndian::write_u32(&mut out[16..20], rate.hz() * block_align);
    LittleEndian::write_u16(&mut out[20..22], block_align as u16);
    LittleEndian::write_u16(&mut out[22..24], bits as u16);
    out
}

/// How the chunk with the frames begins.
fn data(data_size: u32) -> [u8; 8]
    ensures { result ≡ data_head data_size }
{
    let mut out = *b"data....";
    LittleEndian::write_u32(&mut out[4..8], data_size);
    out
}

/// The 44 bytes in front of the frames of a file (`docs/DEFINITIONS.md`, "The WAV file"): of 1 to 8
/// channels, samples of 16 bits, and at most an hour of frames at the rate. The sizes in it are in
/// bytes.
#[tactic(auto, unfolding(crate::specs::WavFile::header_of))]
pub fn header(channels: u32, rate: Rate, bits: u32, frames: u32) -> [u8; 44]
    requires some { 1 ≤ channels }
    requires most { channels ≤ 8 }
    requires sixteen { bits ≡ 16 }
    requires hour { frames ≤ last_index rate }
    ensures { result ≡ header_of channels rate bits frames }
{
    let data_size = frames * channels * (bits / 8);
    let mut out = [0; 44];
    out[0..12].copy_from_slice(&riff(data_size));
    out[12..36].copy_from_slice(&format_chunk(channels, rate, bits));
    out[36..44].copy_from_slice(&data(data_size));
    out
}

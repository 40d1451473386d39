ghost use Rattle.std.specs.Prelude.{◌≡◌, ◌*◌, ◌+◌, ◌<◌, ◌≤◌, ◌++◌, ℕ, Some, length, take, drop, map, slice_index_or, pos, IfOk, OnOk, OnErr};
ghost use Rattle.std.specs.List.{flat_map, range_with_len};
ghost use Rattle.ny_io.specs.Faults.{Rose};
ghost use Rattle.ny_io.specs.Host.{NoneFell, SameCounts};
ghost use Rattle.ny_wav.specs.WavFile.{frame_of};
ghost use Rattle.ny_top.specs.Frames.{HasRoom, row, gathered_in};
ghost use Rattle.ny_top.specs.Rounds.{Wrote, WrotePart, Gathered};

use ny_io::{Failed, Host, write_all};
use ny_num::Sample;
use ny_wav::frame_bytes;
use std::alloc::{AllocError, Global};

/// How many bytes are gathered before they are written: those of a round of 8 channels in blocks of 4096 samples, the
/// longest that there is, and of many rounds of fewer channels or shorter blocks.
const GATHERED: usize = 65536;

/// How many bytes there is room for, where a round has `least`.
fn bytes_room(least: usize) -> usize
    ensures { least ≤ result }
{
    least.max(GATHERED)
}

/// Where rounds are made: a block of each channel, one after another; the frames of these blocks; and
/// the bytes of rounds, of which those at the front, so many as `gathered` says, are still to be written.
#[derive(Drop)]
pub(crate) struct Buffers {
    pub(crate) block: usize,
    pub(crate) samples: Vec<Sample>,
    pub(crate) frames: Vec<Sample>,
    pub(crate) bytes: Vec<u8>,
    pub(crate) gathered: usize,
}

/// Buffers for so many channels and blocks of so many samples.
pub(crate) fn make_buffers(alloc: Global, channels: u32, block: u32) -> Result<Buffers, AllocError>
    requires channels { channels ≤ 8 }
    requires block { block ≤ 4096 }
    ensures { IfOk result (λ b. HasRoom channels block b) }
{
    let size = channels as usize * block as usize;
    let samples = vec![in alloc; Sample::ZERO; size]?;
    let frames = vec![in alloc; Sample::ZERO; size]?;
    let bytes = vec![in alloc; 0; bytes_room(2 * size)]?;
    Ok(Buffers {
        block: block as usize,
        samples,
        frames,
        bytes,
        gathered: 0,
    })
}

/// Frame n of the blocks of channels that stand one after another.
fn take_frame(samples: &[Sample], block: usize, n: usize, frame: &mut [Sample])
    requires samples { length samples.now ≡ length frame.old * block }
    requires within { n < block }
    ensures { frame.new ≡ row (length frame.old) block samples.now n }
{
    for c in 0..frame.len() {
        frame[c] = samples[c * block + n];
    }
}

/// The first `count` frames of the blocks of `channels` channels, to the front of `frames`.
fn take_frames(
    samples: &[Sample],
    block: usize,
    channels: usize,
    count: usize,
    frames: &mut [Sample],
)
    requires samples { length samples.now ≡ channels * block }
    requires frames { length frames.old ≡ channels * block }
    requires count { count ≤ block }
    ensures { frames.new ≡ flat_map (row channels block samples.now) (range_with_len 0 count) ++ drop (count * channels) frames.old }
{
    for n in 0..count {
        take_frame(
            samples,
            block,
            n,
            &mut frames[n * channels..(n + 1) * channels],
        );
    }
}

/// Puts the bytes of samples into `bytes`, from the place `at` on.
fn put_samples(samples: &[Sample], at: usize, bytes: &mut [u8])
    requires room { at + 2 * length samples.now ≤ length bytes.old }
    ensures front { take (at + 2 * length samples.now) bytes.new ≡ take at bytes.old ++ frame_of samples.now }
    ensures size { length bytes.new ≡ length bytes.old }
{
    frame_bytes(samples, &mut bytes[at..at + 2 * samples.len()]);
}

/// Gathers the first `count` frames of the blocks of any number of channels.
fn gather_frames(channels: usize, count: usize, buffers: &mut Buffers)
    requires room { HasRoom channels buffers.old.block buffers.old }
    requires count { count ≤ buffers.old.block }
    requires free { buffers.old.gathered + 2 * (channels * buffers.old.block) ≤ length buffers.old.bytes.items }
    ensures gathers { gathered_in buffers.new ≡ gathered_in buffers.old ++
        flat_map frame_of (map (row channels buffers.old.block buffers.old.samples.items) (range_with_len 0 count)) }
    ensures size { HasRoom channels buffers.old.block buffers.new }
{
    take_frames(
        buffers.samples.as_slice(),
        buffers.block,
        channels,
        count,
        buffers.frames.as_mut_slice(),
    );
    let frames = &buffers.frames.as_slice()[..count * channels];
    put_samples(frames, buffers.gathered, buffers.bytes.as_mut_slice());
    buffers.gathered += 2 * frames.len();
}

/// Gathers the first `count` samples of the block of one channel: there each sample is a frame.
fn gather_samples(count: usize, buffers: &mut Buffers)
    requires count { count ≤ length buffers.old.samples.items }
    requires free { buffers.old.gathered + 2 * count ≤ length buffers.old.bytes.items }
    ensures gathers { (channels : ℕ) → channels ≡ 1 → gathered_in buffers.new ≡ gathered_in buffers.old ++
        flat_map frame_of (map (row channels buffers.old.block buffers.old.samples.items) (range_with_len 0 count)) }
    ensures size { (channels block : ℕ) → HasRoom channels block buffers.old → HasRoom channels block buffers.new }
{
    let samples = &buffers.samples.as_slice()[..count];
    put_samples(samples, buffers.gathered, buffers.bytes.as_mut_slice());
    buffers.gathered += 2 * samples.len();
}

/// Gathers the first `count` frames of the blocks in the buffers, behind what is gathered.
fn gather(channels: usize, count: usize, buffers: &mut Buffers)
    requires room { HasRoom channels buffers.old.block buffers.old }
    requires count { count ≤ buffers.old.block }
    requires free { buffers.old.gathered + 2 * (channels * buffers.old.block) ≤ length buffers.old.bytes.items }
    ensures gathers { gathered_in buffers.new ≡ gathered_in buffers.old ++
        flat_map frame_of (map (row channels buffers.old.block buffers.old.samples.items) (range_with_len 0 count)) }
    ensures size { HasRoom channels buffers.old.block buffers.new }
{
    if channels == 1 {
        gather_samples(count, buffers);
    } else {
        gather_frames(channels, count, buffers);
    }
}

/// Writes what is gathered, by one call.
pub(crate) fn flush<H: Host>(host: &mut H, file: u32, buffers: &mut Buffers) -> Result<(), Failed>
    requires open { (H.state host.old).output ≡ Some file }
    requires room { buffers.old.gathered ≤ length buffers.old.bytes.items }
    ensures counts { NoneFell (H.state host.old) (H.state host.new) }
    ensures quiet { OnOk result (SameCounts (H.state host.old) (H.state host.new)) }
    ensures cause { OnErr result (Rose (H.state host.old).writes (H.state host.new).writes) }
    ensures whole { OnOk result (Wrote (gathered_in buffers.old) (H.state host.old) (H.state host.new)) }
    ensures part { OnErr result (WrotePart (gathered_in buffers.old) (H.state host.old) (H.state host.new)) }
    ensures output { (H.state host.new).output ≡ (H.state host.old).output }
    ensures files { (H.state host.new).files ≡ (H.state host.old).files }
    ensures printed { (H.state host.new).printed ≡ (H.state host.old).printed }
    ensures none { OnOk result (buffers.new.gathered ≡ 0) }
    ensures samples { buffers.new.samples ≡ buffers.old.samples }
    ensures size { (channels block : ℕ) → HasRoom channels block buffers.old → HasRoom channels block buffers.new }
{
    match write_all(host, file, &buffers.bytes.as_slice()[..buffers.gathered]) {
        Ok(()) => {
            buffers.gathered = 0;
            Ok(())
        }
        Err(failed) => Err(failed),
    }
}

/// Makes room for a round behind what is gathered: where there is none, what is gathered is written.
fn make_room<H: Host>(
    host: &mut H,
    file: u32,
    channels: usize,
    buffers: &mut Buffers,
) -> Result<(), Failed>
    requires open { (H.state host.old).output ≡ Some file }
    requires room { HasRoom channels buffers.old.block buffers.old }
    ensures counts { NoneFell (H.state host.old) (H.state host.new) }
    ensures quiet { OnOk result (SameCounts (H.state host.old) (H.state host.new)) }
    ensures cause { OnErr result (Rose (H.state host.old).writes (H.state host.new).writes) }
    ensures whole { OnOk result (Gathered (gathered_in buffers.old) buffers.new (H.state host.old) (H.state host.new)) }
    ensures part { OnErr result (WrotePart (gathered_in buffers.old) (H.state host.old) (H.state host.new)) }
    ensures output { (H.state host.new).output ≡ (H.state host.old).output }
    ensures files { (H.state host.new).files ≡ (H.state host.old).files }
    ensures printed { (H.state host.new).printed ≡ (H.state host.old).printed }
    ensures free { OnOk result (buffers.new.gathered + 2 * (channels * buffers.old.block) ≤ length buffers.new.bytes.items) }
    ensures samples { buffers.new.samples ≡ buffers.old.samples }
    ensures size { HasRoom channels buffers.old.block buffers.new }
{
    if buffers.bytes.as_slice().len() - buffers.gathered < 2 * (channels * buffers.block) {
        flush(host, file, buffers)
    } else {
        Ok(())
    }
}

/// Gathers the first `count` frames of the blocks in the buffers. Where there is no room for a round, what was gathered
/// before is written first.
pub(crate) fn write_frames<H: Host>(
    host: &mut H,
    file: u32,
    channels: usize,
    count: usize,
    buffers: &mut Buffers,
) -> Result<(), Failed>
    requires open { (H.state host.old).output ≡ Some file }
    requires room { HasRoom channels buffers.old.block buffers.old }
    requires count { count ≤ buffers.old.block }
    ensures counts { NoneFell (H.state host.old) (H.state host.new) }
    ensures quiet { OnOk result (SameCounts (H.state host.old) (H.state host.new)) }
    ensures cause { OnErr result (Rose (H.state host.old).writes (H.state host.new).writes) }
    ensures whole { OnOk result (Gathered (gathered_in buffers.old ++
        flat_map frame_of (map (row channels buffers.old.block buffers.old.samples.items) (range_with_len 0 count)))
        buffers.new (H.state host.old) (H.state host.new)) }
    ensures part { OnErr result (WrotePart (gathered_in buffers.old ++
        flat_map frame_of (map (row channels buffers.old.block buffers.old.samples.items) (range_with_len 0 count)))
        (H.state host.old) (H.state host.new)) }
    ensures output { (H.state host.new).output ≡ (H.state host.old).output }
    ensures files { (H.state host.new).files ≡ (H.state host.old).files }
    ensures printed { (H.state host.new).printed ≡ (H.state host.old).printed }
    ensures size { HasRoom channels buffers.old.block buffers.new }
{
    match make_room(host, file, channels, buffers) {
        Ok(()) => {
            gather(channels, count, buffers);
            Ok(())
        }
        Err(failed) => Err(failed),
    }
}

ghost use Rattle.std.specs.Prelude.{◌≡◌, ◌≤◌, ◌<◌, ◌+◌, [], Some, length, drop, IfOk, OnOk, IfSome, IsErrOf};
ghost use Rattle.ny_io.specs.Faults.{Rose};
ghost use Rattle.ny_io.specs.Host.{NoneFell, SameCounts, SameInput, SameOutput, bytes_under};

use crate::host::Host;
use std::alloc::Global;
use thiserror::Error;

/// Why a file was not read. The texts are for people, and nothing that is printed uses them.
#[derive(Clone, Copy, Debug, PartialEq, Eq, Error)]
pub enum LoadFault {
    /// The file was not opened.
    #[error("the file can't be opened")]
    Open,

    /// A read of the opened file failed.
    #[error("the file can't be read")]
    Read,

    /// The file has more bytes than the limit.
    #[error("the file is too long")]
    TooLong,

    /// There was no memory for the bytes.
    #[error("out of memory")]
    OutOfMemory,
}

/// The most bytes that one read asks for.
const PIECE: usize = 16384;

/// Opens the file of that name and reads the whole of it, of at most `limit` bytes.
///
/// The answer is `TooLong` once `limit` + 1 bytes were taken, and then no more are. So where the
/// host tells its files and neither count of faults rose, the answer is the file where it has at
/// most `limit` bytes and `TooLong` where it has more, or there was no memory.
pub fn read_all<H: Host>(
    alloc: Global,
    host: &mut H,
    name: &str,
    limit: u32,
) -> Result<Vec<u8>, LoadFault>
    ensures counts { NoneFell (H.state host.old) (H.state host.new) }
    ensures open { IsErrOf result LoadFault.Open →
        Rose ((H.state host.old).opens name.now) ((H.state host.new).opens name.now) }
    ensures read { IsErrOf result LoadFault.Read →
        Rose ((H.state host.old).reads name.now) ((H.state host.new).reads name.now) }

    // No count changed but that of the fault that is answered.
    ensures quiet { OnOk result (SameCounts (H.state host.old) (H.state host.new)) }
    ensures quiet_too_long { IsErrOf result LoadFault.TooLong →
        SameCounts (H.state host.old) (H.state host.new) }
    ensures quiet_memory { IsErrOf result LoadFault.OutOfMemory →
        SameCounts (H.state host.old) (H.state host.new) }

    // At the limit: more bytes than it are refused, and no others.
    ensures too_long { IsErrOf result LoadFault.TooLong → IfSome (H.state host.old).files (λ files.
        limit < length (bytes_under name.now files)) }
    ensures within { OnOk result (IfSome (H.state host.old).files (λ files.
        length (bytes_under name.now files) ≤ limit)) }
    ensures whole { IfOk result (λ bytes. IfSome (H.state host.old).files (λ files.
        bytes.items ≡ bytes_under name.now files)) }
    ensures short { IfOk result (λ bytes. length bytes.items ≤ limit) }

    // What is left of the file: nothing, or all but the `limit` + 1 bytes that were taken.
    ensures end { OnOk result (IfSome (H.state host.old).files (λ _.
        (H.state host.new).left ≡ Some [])) }
    ensures taken { IsErrOf result LoadFault.TooLong → IfSome (H.state host.old).files (λ files.
        (H.state host.new).left ≡ Some (drop (limit + 1) (bytes_under name.now files))) }

    ensures unopened { IsErrOf result LoadFault.Open →
        SameInput (H.state host.old) (H.state host.new) }
    ensures output { SameOutput (H.state host.old) (H.state host.new) }
    ensures files { (H.state host.new).files ≡ (H.state host.old).files }
    ensures printed { (H.state host.new).printed ≡ (H.state host.old).printed }
{
    let file = match host.open(name) {
        Ok(file) => file,
        Err(_) => return Err(LoadFault::Open),
    };
    // One byte more than the limit shows that a file is too long.
    let most = limit as usize + 1;
    let mut bytes = Vec::new(alloc);
    let mut piece = [0u8; PIECE];
    while bytes.len() < most {
        let room = PIECE.min(most - bytes.len());
        match host.read(file, &mut piece[..room]) {
            Ok(0) => return Ok(bytes),
            Ok(count) => {
                if bytes.extend_from_slice(&piece[..count]).is_err() {
                    return Err(LoadFault::OutOfMemory);
                }
            }
            Err(_) => return Err(LoadFault::Read),
        }
    }
    Err(LoadFault::TooLong)
}

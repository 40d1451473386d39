ghost use Rattle.std.specs.Prelude.{◌≡◌, ◌≤◌, ℕ, Some, take, length, OnOk, OnErr};
ghost use Rattle.std.specs.Io.KnownBytes.{append_known};
ghost use Rattle.ny_io.specs.Faults.{Rose};
ghost use Rattle.ny_io.specs.Host.{NoneFell, SameCounts, SameInput, SameOutput, written};

use crate::host::{Failed, Host};

/// Appends all the bytes to the open output `file`; at `Failed` a first part of them, and the
/// count of faults of writing rose. No call is made after one that failed. It takes no memory.
#[tactic(auto, using(crate::proofs::Written::more_written))]
pub fn write_all<H: Host>(host: &mut H, file: u32, bytes: &[u8]) -> Result<(), Failed>
    requires { (H.state host.old).output ≡ Some file }
    ensures counts { NoneFell (H.state host.old) (H.state host.new) }
    ensures cause { OnErr result (Rose (H.state host.old).writes (H.state host.new).writes) }
    ensures quiet { OnOk result (SameCounts (H.state host.old) (H.state host.new)) }
    ensures whole { OnOk result (
        (H.state host.new).created ≡ written bytes.now (H.state host.old).created) }
    ensures part { OnErr result ((done : ℕ) × (done ≤ length bytes.now) ×
        ((H.state host.new).created ≡ written (take done bytes.now) (H.state host.old).created)) }
    ensures output { (H.state host.new).output ≡ (H.state host.old).output }
    ensures input { SameInput (H.state host.old) (H.state host.new) }
    ensures files { (H.state host.new).files ≡ (H.state host.old).files }
    ensures printed { (H.state host.new).printed ≡ (H.state host.old).printed }
{
    let mut done = 0;
    while done < bytes.len() {
        done += host.write(file, &bytes[done..])?;
    }
    Ok(())
}

/// Prints all the bytes; at `Failed` a first part of them, and the count of faults of writing
/// rose. No call is made after one that failed. It takes no memory.
#[tactic(auto, using(crate::proofs::Written::more_written))]
pub fn print_all<H: Host>(host: &mut H, bytes: &[u8]) -> Result<(), Failed>
    ensures counts { NoneFell (H.state host.old) (H.state host.new) }
    ensures cause { OnErr result (Rose (H.state host.old).writes (H.state host.new).writes) }
    ensures quiet { OnOk result (SameCounts (H.state host.old) (H.state host.new)) }
    ensures whole { OnOk result (
        (H.state host.new).printed ≡ append_known (H.state host.old).printed bytes.now) }
    ensures part { OnErr result ((done : ℕ) × (done ≤ length bytes.now) ×
        ((H.state host.new).printed ≡
        append_known (H.state host.old).printed (take done bytes.now))) }
    ensures output { SameOutput (H.state host.old) (H.state host.new) }
    ensures input { SameInput (H.state host.old) (H.state host.new) }
    ensures files { (H.state host.new).files ≡ (H.state host.old).files }
{
    let mut printed = 0;
    while printed < bytes.len() {
        printed += host.print(&bytes[printed..])?;
    }
    Ok(())
}

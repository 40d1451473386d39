ghost use Rattle.std.specs.Prelude.{◌≡◌, ◌<◌, List, [], ℕ, Some, take, length, IfOk, OnOk, OnErr, IfSome, MatchResult};
ghost use Rattle.std.specs.Io.{ReadsAtMost, WritesAtMost};
ghost use Rattle.std.specs.Io.KnownBytes.{IsAtEnd, prepend_known, append_known};
ghost use Rattle.ny_io.specs.Faults.{Rose};
ghost use Rattle.ny_io.specs.Host.{HostState, NoneFell, SameCounts, SameInput, SameOutput, IsToldAlike, MayBe, bytes_under, written, added};

/// The one answer of a call that did not succeed. A count of faults says which kind of call it was.
#[derive(Clone, Copy, Debug, PartialEq, Eq)]
pub struct Failed;

/// Where a program opens and reads its input, creates and writes its output, and prints.
///
/// At most one input and one output are open, and each has a number. A host counts its faults:
/// those of `open`, of `read` and of `create` by the file's name, and those of `write` and
/// `print` together. A count rises only in a call of its kind that answers [`Failed`], and each
/// such call raises it. At its greatest value it stands still.
///
/// A host may tell its files, what is left of the open input, the created files and what was
/// printed. What it tells stays told, a successful call changes it as the call's name says, and
/// a failed call does not change it. The rules: docs/DEFINITIONS.md, "The outside".
pub trait Host {
    ghost state: { Self → HostState };

    /// Opens a file as the input, in place of the one before it, and answers its number.
    fn open(&mut self, name: &str) -> Result<u32, Failed>
        ensures counts { NoneFell (state self.old) (state self.new) }
        ensures cause { OnErr result (
            Rose ((state self.old).opens name.now) ((state self.new).opens name.now)) }
        ensures quiet { OnOk result (SameCounts (state self.old) (state self.new)) }
        ensures number { IfOk result (λ file. (state self.new).input ≡ Some file) }
        ensures name { OnOk result (MayBe name.now (state self.new).name) }
        ensures name_told { IsToldAlike (state self.old).name (state self.new).name }

        // A name that the told files lack stands for no bytes.
        ensures bytes { OnOk result (IfSome (state self.old).files (λ files.
            (state self.new).left ≡ Some (bytes_under name.now files))) }
        ensures bytes_told { IsToldAlike (state self.old).left (state self.new).left }

        ensures failed { OnErr result (SameInput (state self.old) (state self.new)) }
        ensures output { SameOutput (state self.old) (state self.new) }
        ensures files { (state self.new).files ≡ (state self.old).files }
        ensures printed { (state self.new).printed ≡ (state self.old).printed };

    /// Takes the next bytes of the open input, at most as many as `buf` has, and answers how
    /// many. No byte of a `buf` that is not empty means the end of the file.
    fn read(&mut self, file: u32, buf: &mut [u8]) -> Result<usize, Failed>
        requires { (state self.old).input ≡ Some file }
        ensures counts { NoneFell (state self.old) (state self.new) }

        // Where the host doesn't tell the input's name, the count of every name rises.
        ensures cause { OnErr result ((name : List ℕ) → MayBe name (state self.old).name →
            Rose ((state self.old).reads name) ((state self.new).reads name)) }
        ensures quiet { OnOk result (SameCounts (state self.old) (state self.new)) }
        ensures within { ReadsAtMost result buf.new }
        ensures bytes { MatchResult result
            (λ count. (state self.old).left ≡
            prepend_known (take count buf.new) (state self.new).left)
            (λ _. (state self.new).left ≡ (state self.old).left) }
        ensures end { IfOk result (λ count.
            count ≡ 0 → 0 < length buf.new → IsAtEnd (state self.new).left) }

        ensures input { (state self.new).input ≡ (state self.old).input }
        ensures name { (state self.new).name ≡ (state self.old).name }
        ensures output { SameOutput (state self.old) (state self.new) }
        ensures files { (state self.new).files ≡ (state self.old).files }
        ensures printed { (state self.new).printed ≡ (state self.old).printed };

    /// Creates an empty file as the output, in place of the one before it, and answers its number.
    fn create(&mut self, name: &str) -> Result<u32, Failed>
        ensures counts { NoneFell (state self.old) (state self.new) }
        ensures cause { OnErr result (
            Rose ((state self.old).creates name.now) ((state self.new).creates name.now)) }
        ensures quiet { OnOk result (SameCounts (state self.old) (state self.new)) }
        ensures number { IfOk result (λ file. (state self.new).output ≡ Some file) }
        ensures created { OnOk result (
            (state self.new).created ≡ added (name.now, []) (state self.old).created) }

        ensures failed { OnErr result (SameOutput (state self.old) (state self.new)) }
        ensures input { SameInput (state self.old) (state self.new) }
        ensures files { (state self.new).files ≡ (state self.old).files }
        ensures printed { (state self.new).printed ≡ (state self.old).printed };

    /// Appends a first part of the bytes to the open output, and answers how many that are: at
    /// least one where there are bytes.
    fn write(&mut self, file: u32, bytes: &[u8]) -> Result<usize, Failed>
        requires { (state self.old).output ≡ Some file }
        ensures counts { NoneFell (state self.old) (state self.new) }
        ensures cause { OnErr result (Rose (state self.old).writes (state self.new).writes) }
        ensures quiet { OnOk result (SameCounts (state self.old) (state self.new)) }
        ensures within { WritesAtMost result bytes.now }
        ensures some { IfOk result (λ count. 0 < length bytes.now → 0 < count) }
        ensures bytes { MatchResult result
            (λ count. (state self.new).created ≡
            written (take count bytes.now) (state self.old).created)
            (λ _. (state self.new).created ≡ (state self.old).created) }

        ensures output { (state self.new).output ≡ (state self.old).output }
        ensures input { SameInput (state self.old) (state self.new) }
        ensures files { (state self.new).files ≡ (state self.old).files }
        ensures printed { (state self.new).printed ≡ (state self.old).printed };

    /// Prints a first part of the bytes, and answers how many that are: at least one where there
    /// are bytes.
    fn print(&mut self, bytes: &[u8]) -> Result<usize, Failed>
        ensures counts { NoneFell (state self.old) (state self.new) }
        ensures cause { OnErr result (Rose (state self.old).writes (state self.new).writes) }
        ensures quiet { OnOk result (SameCounts (state self.old) (state self.new)) }
        ensures within { WritesAtMost result bytes.now }
        ensures some { IfOk result (λ count. 0 < length bytes.now → 0 < count) }
        ensures bytes { MatchResult result
            (λ count. (state self.new).printed ≡
            append_known (state self.old).printed (take count bytes.now))
            (λ _. (state self.new).printed ≡ (state self.old).printed) }

        ensures output { SameOutput (state self.old) (state self.new) }
        ensures input { SameInput (state self.old) (state self.new) }
        ensures files { (state self.new).files ≡ (state self.old).files };
}

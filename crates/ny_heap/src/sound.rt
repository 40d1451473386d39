ghost use Rattle.std.specs.Prelude.{◌≡◌};
ghost use Rattle.ny_heap.specs.Heap.{list_of};

use ny_list::Cursor;
use ny_num::Timing;

/// A sound in somebody's hands, who reads its samples once, in order.
///
/// It is spent by the calls that take it. One that is merely dropped stays counted and keeps its
/// blocks.
#[derive(Drop)]
pub struct Sound {
    /// When it is heard. Its length is how many samples it shows.
    pub timing: Timing,
    // Where it reads its unit's list. None where it has no sample.
    pub(crate) reader: Option<Cursor>,
}

/// The same timing once more.
pub(crate) fn same_timing(timing: &Timing) -> Timing
    ensures { result ≡ timing.now }
{
    *timing
}

/// A sound that reads there, or nowhere.
pub(crate) fn begin(reader: Option<Cursor>, timing: Timing) -> Sound
    ensures { result ≡ record { timing = timing; reader = reader } }
{
    Sound { timing, reader }
}

/// The list that a sound reads, where it has a sample.
pub(crate) fn list_in(s: &Sound) -> Option<u32>
    ensures { result ≡ list_of s.now }
{
    s.reader.as_ref().map(|c| c.list())
}

/// Why a pull gave no samples although its channel had some left. An engine that answered a fault
/// is spent, and answers it again.
#[derive(Clone, Copy, Debug, PartialEq, Eq)]
pub enum PullFault {
    /// A fill found no free block. `pulls` is how many pulls gave samples before, `live` how many
    /// blocks were taken: all.
    PoolFull { pulls: u64, live: u32 },
    /// Memory was missing for a part that fell due.
    OutOfMemory,
}

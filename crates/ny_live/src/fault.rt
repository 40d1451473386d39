/// Why an engine was not pulled to the ends of its channels.
#[derive(Clone, Copy)]
pub enum LiveFault {
    /// A line could not be printed.
    Write,
    /// The pool was full, after so many pulls that gave samples.
    PoolFull { pulls: u64 },
    /// Memory was missing for a line, or for a part that fell due.
    OutOfMemory,
}

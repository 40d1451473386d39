use ny_num::Rate;

/// What `render` is asked for: the name of its output, how many blocks the pool has, the block
/// length in samples and the sample rate.
#[derive(Clone, Copy)]
pub struct Render<'a> {
    pub output: &'a str,
    pub pool: u32,
    pub block: u32,
    pub rate: Rate,
}

/// What is asked for with a text.
#[derive(Clone, Copy)]
pub enum Task<'a> {
    /// To write its file.
    Render(Render<'a>),
    /// To print its canonical text.
    Check,
}

/// The name of a text, and what is asked for with it.
#[derive(Clone, Copy)]
pub struct Command<'a> {
    pub input: &'a str,
    pub task: Task<'a>,
}

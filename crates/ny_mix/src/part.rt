ghost use Rattle.std.specs.Prelude.{◌≡◌};
ghost use Rattle.std.specs.Option.{option_map_or};
ghost use Rattle.ny_units.specs.Inputs.{taken_by};

use ny_list::Cursor;
use ny_num::Ticks;

/// A part of a mix: the index of its first sample, its stop, and what reads its samples, which is none where it has no
/// sample or its cursor was taken.
#[derive(Drop)]
pub(crate) struct Part {
    pub(crate) start: u32,
    pub(crate) stop: Ticks,
    pub(crate) cursor: Option<Cursor>,
}

// How many samples of a part that begins at `start`, of which so many are seen, a mix that begins at `begins` has taken once it
// has `done` samples.
fn taken(begins: u32, start: u32, visible: u32, done: u32) -> u32
    ensures { result ≡ taken_by begins start visible done }
{
    if done == 0 {
        return 0;
    }
    let end = u64::from(begins) + u64::from(done);
    end.saturating_sub(u64::from(start)).min(u64::from(visible)) as u32
}

impl Part {
    /// How many samples a mix that begins at the index `begins` has taken of it once the mix has `done` samples.
    pub(crate) fn need(&self, begins: u32, done: u32) -> u32
        ensures { result ≡ option_map_or (λ c. taken_by begins self.now.start c.visible done) self.now.cursor 0 }
    {
        match &self.cursor {
            Some(c) => taken(begins, self.start, c.visible(), done),
            None => 0,
        }
    }
}

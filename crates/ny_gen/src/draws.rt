ghost use Rattle.std.specs.Prelude.{◌≡◌, ◌<◌, ◌^◌};
ghost use Rattle.ny_gen.specs.Piece.{next_state, drawn};

const MULTIPLIER: u32 = 1_664_525;

const INCREMENT: u32 = 1_013_904_223;

/// A source of numbers: a state of 32 bits, of which each draw gives the upper half.
#[derive(Drop)]
pub struct Draws {
    pub state: u32,
}

impl Draws {
    /// The next number.
    pub fn draw(&mut self) -> u32
        ensures state { self.new.state ≡ next_state self.old.state }
        ensures drawn { result ≡ drawn self.new.state }
        ensures within { result < 2 ^ 16 }
    {
        self.state = self.state.wrapping_mul(MULTIPLIER).wrapping_add(INCREMENT);
        self.state >> 16
    }
}

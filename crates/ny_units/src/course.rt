ghost use Rattle.std.specs.Prelude.{◌≡◌, ◌+◌, ◌-◌, ◌*◌, ◌/◌, ◌^◌, ◌<◌, ◌≤◌, length, ℤ, pos, neg_ℤ, ◌+ℤ◌, ◌-ℤ◌, ◌*ℤ◌, ◌≤ℤ◌};
ghost use Rattle.ny_num.specs.Numbers.{floor_div, IsSample};
ghost use Rattle.ny_num.specs.Grid.{grid_of};
ghost use Rattle.ny_units.specs.Courses.{on_way, IsCourse, IsPosition, window_at, window_list};

use ny_num::{Rate, Sample};

/// So many units lift a rise between samples above 0, and so many grids its shares.
const LIFT: u64 = 4_294_967_296;

/// From the grid of one rate to the grid of another, both in ticks a sample: by how many samples and which part of one the
/// place in the input goes on from output to output.
#[derive(Clone, Copy)]
pub(crate) struct Course {
    pub(crate) grid: u64,
    pub(crate) step: u64,
    pub(crate) whole: u64,
    pub(crate) part: u64,
    /// How many parts of 2^71 one of the grid is, rounded up.
    pub(crate) parts: u64,
}

/// Where the output at an index lies: past the input's sample at index `place`, by this part of its grid.
#[derive(Clone, Copy)]
pub(crate) struct Position {
    pub(crate) index: u64,
    pub(crate) place: u64,
    pub(crate) part: u64,
}

/// The last two samples that were taken, and the index of the next.
#[derive(Clone, Copy)]
pub(crate) struct Window {
    pub(crate) before: Sample,
    pub(crate) after: Sample,
    pub(crate) next: u64,
}

// How many parts of 2^71 one of a rate's grid is, rounded up: a table.
fn parts_of(rate: Rate) -> u64
    ensures enough { 2361183241434822606848 ≤ result * grid_of rate }
    ensures few { result * grid_of rate < 2361183241434822606848 + grid_of rate }
{
    match rate {
        Rate::R2205 => 7_378_697_629_483_821,
        Rate::R4410 => 14_757_395_258_967_642,
        Rate::R8000 => 26_770_785_050_281_436,
        Rate::R11025 => 36_893_488_147_419_104,
        Rate::R16000 => 53_541_570_100_562_871,
        Rate::R22050 => 73_786_976_294_838_207,
        Rate::R32000 => 107_083_140_201_125_742,
        Rate::R44100 => 147_573_952_589_676_413,
        Rate::R48000 => 160_624_710_301_688_613,
    }
}

impl Course {
    /// The course from one rate to another.
    pub(crate) fn between(from: Rate, to: Rate) -> Course
        ensures course { IsCourse result }
        ensures grid { result.grid ≡ grid_of from }
        ensures step { result.step ≡ grid_of to }
    {
        let grid = from.grid();
        let step = to.grid();
        Course {
            grid,
            step,
            whole: step / grid,
            part: step % grid,
            parts: parts_of(from),
        }
    }

    /// Where the output at an index lies.
    pub(crate) fn at(&self, index: u64) -> Position
        requires course { IsCourse self.now }
        requires short { index < 2 ^ 34 }
        ensures position { IsPosition self.now result }
        ensures index { result.index ≡ index }
    {
        let time = index * self.step;
        Position {
            index,
            place: time / self.grid,
            part: time % self.grid,
        }
    }

    /// Where the next output lies.
    pub(crate) fn next(&self, at: Position) -> Position
        requires course { IsCourse self.now }
        requires position { IsPosition self.now at }
        requires short { at.index < 2 ^ 34 }
        ensures position { IsPosition self.now result }
        ensures index { result.index ≡ at.index + 1 }
        ensures later { at.place ≤ result.place }
    {
        let part = at.part + self.part;
        if part < self.grid {
            Position {
                index: at.index + 1,
                place: at.place + self.whole,
                part,
            }
        } else {
            Position {
                index: at.index + 1,
                place: at.place + self.whole + 1,
                part: part - self.grid,
            }
        }
    }
}

impl Window {
    /// How many samples are to be taken before both neighbours of an output stand in the window.
    #[tactic(auto, using(crate::proofs::Positions::place_small))]
    pub(crate) fn lacks(&self, course: &Course, at: Position) -> u64
        requires course { IsCourse course.now }
        requires position { IsPosition course.now at }
        requires short { at.index < 2 ^ 34 }
        requires forward { self.now.next ≤ at.place + 2 }
        ensures value { result ≡ at.place + 2 - self.now.next }
        ensures small { at.place < 2 ^ 53 }
    {
        let _ = course;
        at.place + 2 - self.next
    }

    /// The window further on by `k` samples of those ahead.
    pub(crate) fn moved(&self, ahead: &[Sample], k: usize) -> Window
        requires within { k ≤ length ahead.now }
        requires short { self.now.next + k < 2 ^ 64 }
        ensures { result ≡ window_at self.now ahead.now k }
    {
        let (before, after) = match k {
            0 => (self.before, self.after),
            1 => (self.after, ahead[0]),
            _ => (ahead[k - 2], ahead[k - 1]),
        };
        Window {
            before,
            after,
            next: self.next + k as u64,
        }
    }
}

// A rise between samples, lifted above 0.
fn lifted_rise(rise: i64) -> u64
    requires least { neg_ℤ (pos 4294967294) ≤ℤ rise }
    requires greatest { rise ≤ℤ pos 4294967294 }
    ensures value { pos result ≡ rise +ℤ pos 4294967296 }
    ensures within { result < 8589934592 }
{
    (rise + LIFT as i64) as u64
}

// A lifted rise times a part of the input's grid, so that so many whole grids lift it.
fn lifted(rise: u64, part: u64, whole: u64) -> u64
    requires rise { rise < 8589934592 }
    requires inside { part < whole }
    requires small { whole ≤ 320000 }
    ensures value { result ≡ rise * part + 4294967296 * (whole - part) }
    ensures within { result < 2748779069440000 }
{
    rise * part + LIFT * (whole - part)
}

// How many wholes so many parts of 2^71 of each make, rounded down.
fn high_part(parts: u64, n: u64) -> u64
    requires { n < 2748779069440000 }
    ensures { result ≡ parts * n / 2361183241434822606848 }
{
    ((u128::from(parts) * u128::from(n)) / 2_361_183_241_434_822_606_848) as u64
}

// The share of a rise that so many grids had lifted.
fn lowered(n: u64) -> i64
    requires { n < 2 ^ 63 }
    ensures { result ≡ pos n -ℤ pos 4294967296 }
{
    n as i64 - LIFT as i64
}

// The share `part` of the input's grid of a rise between samples, rounded down.
fn share(rise: i64, part: u64, course: &Course) -> i64
    requires course { IsCourse course.now }
    requires inside { part < course.now.grid }
    requires least { neg_ℤ (pos 4294967294) ≤ℤ rise }
    requires greatest { rise ≤ℤ pos 4294967294 }
    ensures value { result ≡ floor_div (rise *ℤ pos part) (pos course.now.grid) }
    ensures least { neg_ℤ (pos 4294967294) ≤ℤ result }
    ensures greatest { result ≤ℤ pos 4294967294 }
{
    let n = lifted(lifted_rise(rise), part, course.grid);
    lowered(high_part(course.parts, n))
}

// The difference of two samples, which 32 bits cannot hold.
fn difference(a: Sample, b: Sample) -> i64
    ensures value { result ≡ a -ℤ b }
    ensures least { neg_ℤ (pos 4294967294) ≤ℤ result }
    ensures greatest { result ≤ℤ pos 4294967294 }
{
    i64::from(a.micro()) - i64::from(b.micro())
}

// A sample and a share of a rise, where they are a sample together.
fn risen(from: Sample, share: i64) -> Sample
    requires least { neg_ℤ (pos 4294967294) ≤ℤ share }
    requires greatest { share ≤ℤ pos 4294967294 }
    requires within { IsSample (from +ℤ share) }
    ensures { result ≡ from +ℤ share }
{
    Sample::of(i64::from(from.micro()) + share)
}

/// The value on the line between two samples, `part` of the input's grid on the way, rounded down. No quotient is computed.
pub(crate) fn on_way(from: Sample, to: Sample, part: u64, course: &Course) -> Sample
    requires course { IsCourse course.now }
    requires inside { part < course.now.grid }
    ensures { result ≡ on_way from to part course.now.grid }
{
    // That both are samples is known once they were read.
    let _ends = (from.micro(), to.micro());
    risen(from, share(difference(to, from), part, course))
}

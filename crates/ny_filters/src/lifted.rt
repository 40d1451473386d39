ghost use Rattle.std.specs.Prelude.{◌≡◌, pos, ◌+ℤ◌, ◌-ℤ◌};
ghost use Rattle.ny_filters.specs.Ways.{IsLifted, lift};

use ny_num::Sample;

/// So much lifts samples above 0, and above the parts that are taken off on the way to another.
const LIFT: i64 = 8_589_934_592;

/// A sample in millionths, lifted.
pub(crate) fn lifted(sample: Sample) -> u64
    ensures value { pos result ≡ sample +ℤ lift }
    ensures within { IsLifted result }
{
    (i64::from(sample.micro()) + LIFT) as u64
}

/// The sample that was lifted.
pub(crate) fn lowered(n: u64) -> Sample
    requires { IsLifted n }
    ensures { result ≡ pos n -ℤ lift }
{
    Sample::of(n as i64 - LIFT)
}

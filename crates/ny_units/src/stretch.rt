ghost use Rattle.std.specs.Prelude.{◌≡◌, ℕ, ◌+◌, ◌^◌, ◌<◌, ◌≤◌, ◌++◌, length, map, drop, ℤ};
ghost use Rattle.std.specs.List.{range_with_len};
ghost use Rattle.ny_units.specs.Courses.{IsCourse, IsPosition, IsWindow, Continues, IsStretch, course_value};

use crate::course::{Course, Position, Window, on_way};
use ny_num::Sample;

/// What a window and the samples ahead of it suffice for: how many outputs were written, where the next one lies, and the
/// window that is left.
#[derive(Clone, Copy)]
pub(crate) struct Stretch {
    pub(crate) written: usize,
    pub(crate) at: Position,
    pub(crate) window: Window,
}

/// Writes the outputs from a position on, as far as a window and the samples ahead of it suffice.
pub(crate) fn fill_stretch(
    course: &Course,
    first: Window,
    from: Position,
    ahead: &[Sample],
    out: &mut [Sample],
) -> Stretch
    requires course { IsCourse course.now }
    requires position { IsPosition course.now from }
    requires forward { first.next ≤ from.place + 2 }
    requires short { from.index + length out.old < 2 ^ 34 }
    ensures stretch { IsStretch course.now first from (length ahead.now) (length out.old) result }
    ensures samples { (g : ℕ → ℤ) → Continues g first ahead.now → out.new ≡ map (course_value course.now g) (range_with_len from.index result.written) ++ drop result.written out.old }
    ensures window { (g : ℕ → ℤ) → Continues g first ahead.now → IsWindow g result.window }
{
    let mut at = from;
    let mut window = first;
    let mut written = 0;
    while written < out.len() && first.lacks(course, at) <= ahead.len() as u64 {
        window = first.moved(ahead, first.lacks(course, at) as usize);
        out[written] = on_way(window.before, window.after, at.part, course);
        at = course.next(at);
        written += 1;
    }
    if written < out.len() {
        window = first.moved(ahead, ahead.len());
    }
    Stretch {
        written,
        at,
        window,
    }
}

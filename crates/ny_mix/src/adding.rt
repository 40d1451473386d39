ghost use Rattle.std.specs.Prelude.{◌≡◌, ℕ, ◌+◌, ◌-◌, ◌<◌, ◌≤◌, ◌^◌, ℤ, List, Some, None, length, map, take, min, slice_index_or, pos};
ghost use Rattle.std.specs.List.{range_with_len};
ghost use Rattle.ny_list.specs.Store.{CursorState, mark_at};
ghost use Rattle.ny_list.specs.Steps.{IsComputed};
ghost use Rattle.ny_list.specs.Reading.{Shows};
ghost use Rattle.ny_num.specs.Numbers.{IsSample, sample_add};
ghost use Rattle.ny_num.specs.Mix.{sum_at};
ghost use Rattle.ny_num.specs.Sound.{value_at};
ghost use Rattle.ny_num.specs.declared.rate.Rate.{Rate};
ghost use Rattle.ny_units.specs.Inputs.{heard_at, CanHear};
ghost use Rattle.ny_mix.specs.Mixes.{cursor_at, part_sound, sounds_of, ShowsParts, CanReadParts};

use crate::part::Part;
use ny_list::{Cursor, Reads};
use ny_num::Sample;

// Adds samples onto as many others, place by place.
fn add_samples(samples: &[Sample], out: &mut [Sample])
    requires { length samples.now ≡ length out.old }
    ensures { out.new ≡ map (λ k. sample_add (slice_index_or out.old k (pos 0)) (slice_index_or samples.now k (pos 0))) (range_with_len 0 (length out.old)) }
{
    for n in 0..out.len() {
        out[n] = out[n].add(samples[n]);
    }
}

// Adds the samples of a cursor's list from `place` on, run by run.
fn add_runs(c: &Cursor, reads: &Reads<'_>, place: u32, out: &mut [Sample])
    requires stands { 0 < mark_at reads.now c.now }
    requires ahead { c.now.place ≤ place }
    requires seen { place + length out.old ≤ c.now.visible }
    requires computed { IsComputed reads.now c.now (place + length out.old - c.now.place) }
    requires short { place + length out.old < 2 ^ 32 }
    ensures { (xs : List ℤ) → Shows reads.now c.now.list xs → out.new ≡ map (λ k. sample_add (slice_index_or out.old k (pos 0)) (slice_index_or xs (place + k) (pos 0))) (range_with_len 0 (length out.old)) }
{
    let mut done = 0;
    while done < out.len() {
        let run = reads.run(c, place + done as u32);
        let end = done + run.len().min(out.len() - done);
        add_samples(&run[..end - done], &mut out[done..end]);
        done = end;
    }
}

// Adds what a cursor sees of a list that begins at the index `start`, to samples from index `m` on. Those before its start
// and past its end are left alone.
fn add_heard(c: &Cursor, start: u32, reads: &Reads<'_>, m: u64, out: &mut [Sample])
    requires ready { CanHear reads.now c.now start m (m + length out.old) }
    requires short { m + length out.old < 2 ^ 64 }
    ensures len { length out.new ≡ length out.old }
    ensures samples { (xs : List ℤ) → Shows reads.now c.now.list xs → (k : ℕ) → k < length out.old → IsSample (slice_index_or out.old k (pos 0)) → slice_index_or out.new k (pos 0) ≡ sample_add (slice_index_or out.old k (pos 0)) (heard_at start (take c.now.visible xs) (m + k)) }
{
    let start = u64::from(start);
    let end = start + u64::from(c.visible());
    let first = start.saturating_sub(m).min(out.len() as u64) as usize;
    let last = end.saturating_sub(m).min(out.len() as u64) as usize;
    if first < last {
        let place = (m + first as u64 - start) as u32;
        add_runs(c, reads, place, &mut out[first..last]);
    }
}

// Adds a part, to samples from index `m` on. One without a cursor is heard nowhere.
fn add_part(part: &Part, reads: &Reads<'_>, m: u64, out: &mut [Sample])
    requires ready { (c : CursorState) → part.now.cursor ≡ Some c → CanHear reads.now c part.now.start m (m + length out.old) }
    requires short { m + length out.old < 2 ^ 64 }
    ensures len { length out.new ≡ length out.old }
    ensures samples { (r : Rate) (whole : ℕ → List ℤ) → ((c : CursorState) → part.now.cursor ≡ Some c → Shows reads.now c.list (whole c.list)) → (k : ℕ) → k < length out.old → IsSample (slice_index_or out.old k (pos 0)) → slice_index_or out.new k (pos 0) ≡ sample_add (slice_index_or out.old k (pos 0)) (value_at (part_sound r whole part.now) (m + k)) }
{
    if let Some(c) = &part.cursor {
        add_heard(c, part.start, reads, m, out);
    }
}

// No sound in each place.
fn silence(out: &mut [Sample])
    ensures len { length out.new ≡ length out.old }
    ensures silent { (k : ℕ) → k < length out.old → slice_index_or out.new k (pos 0) ≡ pos 0 }
{
    for n in 0..out.len() {
        out[n] = Sample::ZERO;
    }
}

// Adds the parts from number `over` on, one after another. Those before it have no cursor, and `out` has no sound at first.
fn add_parts(parts: &[Part], over: usize, reads: &Reads<'_>, m: u64, out: &mut [Sample])
    requires gone { (i : ℕ) → i < over → cursor_at parts.now i ≡ None }
    requires inside { over ≤ length parts.now }
    requires ready { CanReadParts reads.now parts.now m (m + length out.old) }
    requires short { m + length out.old < 2 ^ 64 }
    requires silent { (k : ℕ) → k < length out.old → slice_index_or out.old k (pos 0) ≡ pos 0 }
    ensures len { length out.new ≡ length out.old }
    ensures samples { (r : Rate) (whole : ℕ → List ℤ) → ShowsParts reads.now parts.now whole → (k : ℕ) → k < length out.old → slice_index_or out.new k (pos 0) ≡ sum_at (sounds_of r whole parts.now) (m + k) }
{
    for i in over..parts.len() {
        add_part(&parts[i], reads, m, out);
    }
}

/// The sum of all parts from index `m` on. Those before number `over` have no cursor.
pub(crate) fn fill_parts(parts: &[Part], over: usize, reads: &Reads<'_>, m: u64, out: &mut [Sample])
    requires gone { (i : ℕ) → i < over → cursor_at parts.now i ≡ None }
    requires inside { over ≤ length parts.now }
    requires ready { CanReadParts reads.now parts.now m (m + length out.old) }
    requires short { m + length out.old < 2 ^ 64 }
    ensures { (r : Rate) (whole : ℕ → List ℤ) → ShowsParts reads.now parts.now whole → out.new ≡ map (sum_at (sounds_of r whole parts.now)) (range_with_len m (length out.old)) }
{
    silence(out);
    add_parts(parts, over, reads, m, out);
}

/// How many parts at the front have no cursor, where the first `over` have none.
pub(crate) fn over_after(parts: &[Part], over: usize) -> usize
    requires gone { (i : ℕ) → i < over → cursor_at parts.now i ≡ None }
    requires inside { over ≤ length parts.now }
    ensures gone { (i : ℕ) → i < result → cursor_at parts.now i ≡ None }
    ensures inside { result ≤ length parts.now }
{
    let mut end = over;
    while end < parts.len() && parts[end].cursor.is_none() {
        end += 1;
    }
    end
}

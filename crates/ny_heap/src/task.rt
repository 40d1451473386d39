ghost use Rattle.std.specs.Prelude.{◌≡◌, ℕ, ◌+◌, ◌<◌, ◌≤◌, [], ◌∷◌, ◌++◌, length, map, Some, None, IsSome, All, IfOk, IfErr};
ghost use Rattle.ny_heap.specs.declared.task.Task.TheVariants.{Made as MadeTask, Mix as MixTask};
ghost use Rattle.ny_heap.specs.declared.make.Make.TheVariants.{Pair as PairMake, Resample as ResampleMake, Filter as FilterMake};
ghost use Rattle.ny_filters.specs.Filtering.{IsFilter};
ghost use Rattle.ny_heap.specs.Steps.{inputs_of};
ghost use Rattle.ny_heap.specs.Tasks.{IsTask, IsCount, input_of_sound, part_of, lists_of, waits_of_task, task_of_mix, BeginsWork, IsGivenBack, AreLeft, IsReady, TakesLast, TakesSide, HasSide};

use crate::make::Make;
use crate::sound::{Sound, same_timing};
use crate::work::Work;
use ny_filters::{Filter, FilterUnit};
use ny_kernels::Op;
use ny_list::Cursor;
use ny_mix::Mix;
use ny_num::{Sample, Timing};
use ny_units::{AbsUnit, CopyUnit, Input, LeafUnit, PairUnit, ResampleUnit};
use std::alloc::Global;
use std::collections::VecDeque;

/// What a unit is to compute.
#[derive(Drop)]
pub(crate) enum Task {
    Made(Make),
    /// A mix, with the sounds that each part that waits keeps.
    Mix(Vec<Vec<Sound>>),
    Channel,
}

/// The task of a mix, in which parts wait that keep these sounds, or of a channel, in which none waits.
pub(crate) fn mix_task(channel: bool, waits: Vec<Vec<Sound>>) -> Task
    ensures { result ≡ task_of_mix channel waits }
{
    if channel {
        Task::Channel
    } else {
        Task::Mix(waits)
    }
}

/// How many parts of a task wait.
pub(crate) fn waiting_in(task: &Task) -> usize
    ensures { result ≡ length (waits_of_task task.now) }
{
    match task {
        Task::Mix(waits) => waits.len(),
        _ => 0,
    }
}

/// The sounds that each part of a task that waits keeps.
pub(crate) fn waits_of(alloc: Global, task: Task) -> Vec<Vec<Sound>>
    ensures { lists_of result.items ≡ waits_of_task task }
{
    match task {
        Task::Mix(waits) => waits,
        _ => Vec::new(alloc),
    }
}

/// What is left of a task's sounds where memory for its work is missing.
#[derive(Drop)]
pub(crate) enum Unused {
    /// The cursor of the only sound.
    One(Cursor),
    /// All sounds, and what each part that waits was to keep.
    All(Vec<Sound>, Vec<Vec<Sound>>),
}

// A sound as a unit's input: as far as it is heard, or 0 where it has no sample.
fn input_of(sound: Sound) -> Input
    ensures { result ≡ input_of_sound sound }
{
    let Sound { timing, reader } = sound;
    match reader {
        None => Input::Number(Sample::ZERO),
        Some(mut cursor) => {
            cursor.see(timing.len);
            Input::List {
                cursor,
                start: timing.start,
            }
        }
    }
}

// The last of these sounds as an input. It is taken from them.
fn last_input(sounds: &mut Vec<Sound>) -> Input
    requires { 0 < length sounds.old.items }
    ensures { TakesLast sounds.old.items sounds.new.items result }
{
    input_of(sounds.pop().unwrap())
}

// The cursor of the last of these sounds, which has one. It is taken from them.
fn last_cursor(sounds: &mut Vec<Sound>) -> Cursor
    requires one { length sounds.old.items ≡ 1 }
    requires reads { All (λ s. IsSome s.reader) sounds.old.items }
    ensures { IsGivenBack sounds.old.items result }
{
    let Sound { timing, reader } = sounds.pop().unwrap();
    let mut cursor = reader.unwrap();
    cursor.see(timing.len);
    cursor
}

// A side of an operation: a given sample, or the last of these sounds.
fn side_of(given: &Option<Sample>, sounds: &mut Vec<Sound>) -> Input
    requires { HasSide given.now sounds.old.items }
    ensures { TakesSide given.now sounds.old.items sounds.new.items result }
{
    match given {
        Some(value) => Input::Number(*value),
        None => last_input(sounds),
    }
}

// An operation over these sounds.
fn begin_pair(
    op: Op,
    left: Option<Sample>,
    right: Option<Sample>,
    mut sounds: Vec<Sound>,
    timing: &Timing,
) -> Work
    requires count { length sounds.items ≡ inputs_of (PairMake op left right) }
    ensures { BeginsWork (MadeTask (PairMake op left right)) sounds.items timing.now result }
{
    let second = side_of(&right, &mut sounds);
    let first = side_of(&left, &mut sounds);
    Work::Pair(PairUnit::of(op, first, second, timing.start), left, right)
}

// A filter of the last of these sounds, from the index `start` on.
fn begin_filter(
    alloc: Global,
    f: Filter,
    mut sounds: Vec<Sound>,
    timing: &Timing,
) -> Result<Work, Unused>
    requires count { length sounds.items ≡ 1 }
    requires filter { IsFilter f }
    requires ready { IsReady (MadeTask (FilterMake f)) sounds.items timing.now }
    ensures begins { IfOk result (BeginsWork (MadeTask (FilterMake f)) sounds.items timing.now) }
    ensures left { IfErr result (AreLeft sounds.items []) }
{
    let cursor = last_cursor(&mut sounds);
    match FilterUnit::of(alloc, f, cursor) {
        Ok(unit) => Ok(Work::Filter(unit, timing.start)),
        Err(cursor) => Err(Unused::One(cursor)),
    }
}

/// A sound as a part of a mix: as far as it is heard.
pub(crate) fn attach_sound(mix: &mut Mix<Vec<Sound>>, sound: Sound)
    requires room { length mix.old.parts + length mix.old.waiting < mix.old.room }
    ensures { mix.new ≡ record mix.old { parts = mix.old.parts ++ part_of sound ∷ [] } }
{
    let Sound { timing, reader } = sound;
    let part = match reader {
        None => None,
        Some(mut cursor) => {
            cursor.see(timing.len);
            Some(cursor)
        }
    };
    mix.attach(part, timing);
}

// These sounds as the parts of a mix, in their order.
fn attach_all(mix: &mut Mix<Vec<Sound>>, sounds: Vec<Sound>)
    requires room { length mix.old.parts + length mix.old.waiting + length sounds.items ≤ mix.old.room }
    ensures { mix.new ≡ record mix.old { parts = mix.old.parts ++ map part_of sounds.items } }
{
    let mut queue = VecDeque::from(sounds);
    while let Some(sound) = queue.pop_front() {
        attach_sound(mix, sound);
    }
}

// A mix of these sounds, in which parts wait that keep others. There may be 2^32 - 1 of both together.
fn begin_mix(
    alloc: Global,
    sounds: Vec<Sound>,
    waits: Vec<Vec<Sound>>,
    timing: &Timing,
) -> Result<Work, Unused>
    ensures begins { IfOk result (BeginsWork (MixTask waits) sounds.items timing.now) }
    ensures left { IfErr result (AreLeft sounds.items (lists_of waits.items)) }
{
    let Ok(count) = u32::try_from(sounds.len()) else {
        return Err(Unused::All(sounds, waits));
    };
    match Mix::open(alloc, same_timing(timing), count, waits) {
        Ok(mut mix) => {
            attach_all(&mut mix, sounds);
            Ok(Work::Mix(mix))
        }
        Err(waits) => Err(Unused::All(sounds, waits)),
    }
}

// The last of these sounds, brought to another rate.
fn begin_resampling(mut sounds: Vec<Sound>, timing: &Timing) -> Work
    requires count { length sounds.items ≡ 1 }
    requires ready { IsReady (MadeTask ResampleMake) sounds.items timing.now }
    ensures { BeginsWork (MadeTask ResampleMake) sounds.items timing.now result }
{
    let from = same_timing(&sounds[0].timing);
    Work::Resample(ResampleUnit::of(last_input(&mut sounds), from, same_timing(timing)))
}

// How what is made begins.
fn begin_make(
    alloc: Global,
    make: Make,
    mut sounds: Vec<Sound>,
    timing: &Timing,
) -> Result<Work, Unused>
    requires count { length sounds.items ≡ inputs_of make }
    requires task { (len : ℕ) × IsTask (MadeTask make) len }
    requires ready { IsReady (MadeTask make) sounds.items timing.now }
    ensures begins { IfOk result (BeginsWork (MadeTask make) sounds.items timing.now) }
    ensures left { IfErr result (AreLeft sounds.items []) }
{
    match make {
        Make::Leaf(leaf) => Ok(Work::Leaf(LeafUnit::of(leaf))),
        Make::Pair(op, left, right) => Ok(begin_pair(op, left, right, sounds, timing)),
        Make::Abs => Ok(Work::Abs(AbsUnit::of(last_input(&mut sounds)))),
        Make::Resample => Ok(begin_resampling(sounds, timing)),
        Make::Filter(f) => begin_filter(alloc, f, sounds, timing),
    }
}

/// How a task over these sounds begins, for a unit that is heard as `timing` says.
///
/// # Errors
/// What is left of the sounds, where memory is missing.
pub(crate) fn begin_work(
    alloc: Global,
    task: Task,
    mut sounds: Vec<Sound>,
    timing: &Timing,
) -> Result<Work, Unused>
    requires count { IsCount task (length sounds.items) }
    requires task { (len : ℕ) × IsTask task len }
    requires ready { IsReady task sounds.items timing.now }
    ensures begins { IfOk result (BeginsWork task sounds.items timing.now) }
    ensures left { IfErr result (AreLeft sounds.items (waits_of_task task)) }
{
    match task {
        Task::Made(make) => begin_make(alloc, make, sounds, timing),
        Task::Mix(waits) => begin_mix(alloc, sounds, waits, timing),
        Task::Channel => Ok(Work::Channel(CopyUnit::of(last_input(&mut sounds), timing.start))),
    }
}

ghost use Rattle.std.specs.Prelude.{◌≡◌, ◌≢◌, nat_lt, if◌then◌else◌, ℕ, ◌+◌, ◌-◌, ◌<◌, ◌≤◌, ◌↔◌, ◌^◌, IsTrue, IsSome, IsSomeAnd, IfNone, option_copied, [], Some, None, IfSome, IfOk, OnOk, OnErr, is_err, length, take, drop, map, ◌++◌};
ghost use Rattle.std.specs.Option.{option_map};
ghost use Rattle.ny_heap.specs.Heap.{HeapState, Made, node_at, list_of, place_of, open_unit, is_open, live_of, free_of};
ghost use Rattle.ny_heap.specs.Kinds.{live_by_kind};
ghost use Rattle.ny_heap.specs.Means.{Parts, Whole, Means, KeepsMeaning, sound_in};
ghost use Rattle.ny_heap.specs.Reach.{HeapLaws, IsTrimmed};
ghost use Rattle.ny_heap.specs.Revealing.{due_of, has_waiting, HandsOut, Promises, IsNextPart, Attaches, Delivers};
ghost use Rattle.ny_num.specs.Sound.{IsTiming};
ghost use Rattle.ny_heap.specs.Sharing.{CanShare, moved_to};
ghost use Rattle.ny_heap.specs.Wanting.{NoneWanted};
ghost use Rattle.ny_heap.specs.Steps.{IsHeldSound, with_sound, without_sound, without_sounds, AreHeld, IsMadeOf, IsMixOf, sounds_of, waiting_of, kind_of_mix, Makes, MakesMeaning, want_of, IsSettledUnit, Fills, Passes, run_of, computed_in, advanced};

use crate::adding::make_unit;
use crate::attaching::{any_waits, attach_part, hand_out, last_stop_of};
use crate::blocks::{drop_reader, read_next};
use crate::filling::fill_block;
use crate::kinds::kept_by_kind;
use crate::make::Make;
use crate::mixing::{drop_parts, place_branches, split};
use crate::revealing::{first_branch, is_due, take_branch};
use crate::sharing::{moved, readers, share_reader};
use crate::sound::{Sound, begin, list_in, same_timing};
use crate::table::{Table, is_unfilled};
use crate::task::{Task, mix_task};
use crate::wants::first_lacking;
use ny_list::Store;
use ny_num::{Sample, Ticks, Timing};
use ny_pool::SlotId;
use ny_wave::Waves;
use std::alloc::{AllocError, Global};
use std::collections::VecDeque;
use std::marker::Model;

/// The number of a unit of a [`Heap`].
#[derive(Clone, Copy, Debug, PartialEq, Eq)]
pub struct UnitId(pub SlotId);

/// An input of a unit that is to be filled further: its unit, and its place among the inputs.
#[derive(Clone, Copy, Debug, PartialEq, Eq)]
pub struct Wanted {
    pub unit: UnitId,
    pub place: u32,
}

/// Why a unit could not fill a block.
#[derive(Clone, Copy, Debug, PartialEq, Eq)]
pub enum FillFault {
    /// No block is free.
    PoolFull,
}

/// Units that compute sounds block by block, over a pool of fixed size.
///
/// A block is taken by a fill, and given back once nobody has still to read it. A unit is there as
/// long as a sound in a caller's hands leads to it. `B` is what a part that waits is evaluated from.
#[derive(Drop)]
pub struct Heap<B> {
    table: Table,
    // How many blocks the pool has.
    size: u32,
    fills: u64,
    // The greatest number of blocks taken at once.
    peak: u32,
    // Where a fill computes its block.
    out: Vec<Sample>,
    // What leaves with waves are computed from.
    waves: Waves,
    // What the parts that wait are evaluated from, by the number of their unit.
    branches: Vec<VecDeque<B>>,
}

impl<B> Model for Heap<B> {
    ghost use Rattle.std.specs.Prelude.{map};
    ghost use Rattle.std.specs.VecDeque.{deque_items};
    ghost use Rattle.ny_heap.specs.Heap.{HeapState};

    ghost Value = { HeapState B };

    ghost use Rattle.ny_heap.specs.View.{branches_of, state_of, IsHeapInside};

    ghost view = { λ h. state_of (branches_of (map deque_items h.branches.items)) h.table h.fills h.peak };

    ghost invariant = { λ h. IsHeapInside (branches_of (map deque_items h.branches.items)) h.table h.size h.fills h.peak h.out.items };
}

impl<B> Heap<B> {
    /// A heap without units, over a pool of `pool` blocks of `block` samples each. It also makes the
    /// buffer in which each fill is computed.
    ///
    /// # Errors
    /// `AllocError` where memory is missing.
    pub fn open(alloc: Global, pool: u32, block: u32) -> Result<Self, AllocError>
        requires some_blocks { 1 ≤ pool }
        requires some_samples { 1 ≤ block }
        ensures laws { IfOk result (λ h. HeapLaws h) }
        ensures opened { IfOk result (λ h. h ≡ record { nodes = []; blocks = []; pool = pool; block = block; fills = 0; peak = 0 }) }
    {
        let table = Table {
            store: Store::open(alloc, pool, block)?,
            units: Vec::new(alloc),
            block,
        };
        let out = vec![in alloc; Sample::ZERO; block as usize]?;
        Ok(Heap {
            table,
            size: pool,
            fills: 0,
            peak: 0,
            out,
            waves: Waves::all(),
            branches: Vec::new(alloc),
        })
    }

    /// A unit that computes this of these sounds, heard as `timing` says, and a sound that reads it.
    /// Where it has no sample there is no unit. The sounds in `inputs` are spent.
    ///
    /// # Errors
    /// `AllocError` where memory is missing. The sounds in `inputs` are spent nevertheless.
    pub fn make(
        &mut self,
        alloc: Global,
        make: Make,
        inputs: Vec<Sound>,
        timing: Timing,
    ) -> Result<Sound, AllocError>
        requires made { IsMadeOf make inputs.items timing }
        requires inputs { AreHeld self.old inputs.items }
        ensures laws { HeapLaws self.new }
        ensures makes { IfOk result (λ s. Makes self.old self.new (Made make) timing inputs.items [] inputs.items s) }
        ensures meaning { IfOk result (λ s. MakesMeaning self.old self.new (Made make) timing inputs.items [] s) }
        ensures released { OnErr result (IsTrimmed (without_sounds self.old inputs.items) self.new) }
        ensures keeps { OnErr result (KeepsMeaning self.old self.new) }
    {
        let when = same_timing(&timing);
        let made = make_unit(
            &mut self.table,
            &mut self.branches,
            alloc,
            Task::Made(make),
            inputs,
            timing,
        )?;
        Ok(begin(made, when))
    }

    /// How many blocks are free.
    pub fn free(&self) -> u32
        ensures free { result ≡ free_of self.now }
        ensures laws { HeapLaws self.now }
    {
        self.table.store.free()
    }

    /// How many blocks are taken: those that somebody has still to read.
    pub fn live(&self) -> u32
        ensures live { result ≡ live_of self.now }
        ensures within { result ≤ self.now.pool }
        ensures laws { HeapLaws self.now }
    {
        self.size - self.table.store.free()
    }

    /// How many blocks are taken, by the kind of the unit that computed them: for each kind those of the
    /// lists of its units (`docs/DEFINITIONS.md`, "The heap"). The kinds, from place 0 on, are `const`,
    /// `ramp`, `osc`, `hzosc`, `lfo`, `noise`, `pwl`, `data`, `abs`, `add`, `sub`, `mul`, `max`, `min`,
    /// `resample`, `filter`, `mix` and `channel`.
    pub fn live_by_kind(&self) -> [u32; 18]
        ensures kinds { result ≡ live_by_kind self.now }
        ensures laws { HeapLaws self.now }
    {
        kept_by_kind(&self.table)
    }

    /// The greatest number of blocks taken at once: before a fill that succeeded, and 1 more. 0 where
    /// nothing was filled.
    pub fn peak(&self) -> u32
        ensures { result ≡ self.now.peak }
    {
        self.peak
    }

    /// How many places there are for units, taken or not. No unit stands on a tower of so many others.
    pub fn places(&self) -> usize
        ensures { result ≡ length self.now.nodes }
    {
        self.table.units.as_slice().len()
    }

    /// How many samples a block has.
    pub fn block(&self) -> u32
        ensures { result ≡ self.now.block }
    {
        self.table.block
    }

    /// How many fills succeeded, or 2^64 - 1 where that is greater.
    pub fn fills(&self) -> u64
        ensures fills { result ≡ self.now.fills }
    {
        self.fills
    }

    /// Spends a sound. What nobody can reach any more is removed, and its blocks are given back.
    pub fn release(&mut self, s: Sound)
        requires held { IsHeldSound self.old s }
        ensures laws { HeapLaws self.new }
        ensures trimmed { IsTrimmed (without_sound self.old s) self.new }
        ensures keeps { KeepsMeaning self.old self.new }
    {
        let Sound { reader, .. } = s;
        if let Some(c) = reader {
            drop_reader(&mut self.table, c);
        }
    }

    /// Whether there is room for one more reader of what a sound reads. It is missing only where 2^32 - 1 read it.
    pub fn can_share(&self, s: &Sound) -> bool
        requires held { IsHeldSound self.now s.now }
        ensures room { IsTrue result ↔ CanShare self.now s.now }
    {
        match list_in(s) {
            None => true,
            Some(v) => readers(&self.table, v) < u32::MAX,
        }
    }

    /// Another sound that reads what `s` reads, where `s` stands.
    pub fn share(&mut self, s: &Sound) -> Sound
        requires held { IsHeldSound self.old s.now }
        requires room { CanShare self.old s.now }
        ensures laws { HeapLaws self.new }
        ensures timing { result.timing ≡ s.now.timing }
        ensures list { list_of result ≡ list_of s.now }
        ensures place { place_of result ≡ place_of s.now }
        ensures heap { self.new ≡ with_sound self.old result }
        ensures keeps { KeepsMeaning self.old self.new }
    {
        let timing = same_timing(&s.timing);
        match &s.reader {
            None => begin(None, timing),
            Some(c) => begin(Some(share_reader(&mut self.table, c)), timing),
        }
    }

    /// The same samples from another start on, counted in samples, with another stop, and cut at the horizon. Where none
    /// is left the sound is given up.
    pub fn place(&mut self, s: Sound, start: u32, stop: Ticks) -> Sound
        requires laws { HeapLaws self.old }
        requires held { IsHeldSound self.old s }
        requires begins { place_of s ≡ 0 }
        requires bounds { IsTiming (moved_to start stop s.timing) }
        ensures laws { HeapLaws self.new }
        ensures bounds { IsTiming result.timing }
        ensures timing { result.timing ≡ moved_to start stop s.timing }
        ensures begins { place_of result ≡ 0 }
        ensures list { list_of result ≡ (if nat_lt 0 result.timing.len then list_of s else None) }
        ensures all { result.timing.len ≡ 0 → IsTrimmed (without_sound self.old s) self.new }
        ensures some { 0 < result.timing.len → self.new ≡ self.old }
        ensures keeps { KeepsMeaning self.old self.new }
    {
        let timing = moved(&s.timing, start, stop);
        if timing.len == 0 {
            self.release(s);
            return begin(None, timing);
        }
        let Sound { reader, .. } = s;
        begin(reader, timing)
    }

    /// What the first part that waits at `u` is evaluated from, where `u` needs that part in its next
    /// block; None exactly where no part waits or the first is not needed yet.
    pub fn due(&self, u: UnitId) -> Option<&B>
        requires held { IsSome (node_at self.now u.0.0) }
        ensures due { option_copied result ≡ option_map (λ p. p.branch) (due_of self.now u.0.0) }
    {
        if !is_due(&self.table, u.0.0) {
            return None;
        }
        first_branch(self.branches.as_slice(), u.0.0)
    }

    /// The part that is due at `u`, with the sounds that it kept, which are the caller's from then on;
    /// None exactly where none is due. The part waits no longer, and is to be attached.
    pub fn next_due(&mut self, u: UnitId) -> Option<(B, Vec<Sound>)>
        requires held { IsSome (node_at self.old u.0.0) }
        ensures laws { HeapLaws self.new }
        ensures due { option_map (λ p. waiting_of (p.0, p.1.items)) result ≡ due_of self.old u.0.0 }
        ensures nothing { IfNone result (self.new ≡ self.old) }
        ensures hands { IfSome result (λ p. HandsOut self.old self.new u.0.0 p.0 p.1.items) }
        ensures sounds { IfSome result (λ p. AreHeld self.new p.1.items) }
        ensures meaning { IfSome result (λ p. Promises self.old self.new u.0.0 (waiting_of (p.0, p.1.items))) }
    {
        if !is_due(&self.table, u.0.0) {
            return None;
        }
        let kept = hand_out(&mut self.table, u.0.0);
        let branch = take_branch(&mut self.branches, u.0.0);
        Some((branch, kept))
    }

    /// The stop of the part that `u` was given last.
    pub fn last_stop(&self, u: UnitId) -> Ticks
        requires given { IsSomeAnd (node_at self.now u.0.0) (λ x. 0 < length x.inputs) }
        ensures { option_map (λ x. x.last_stop) (node_at self.now u.0.0) ≡ Some result }
    {
        last_stop_of(&self.table, u.0.0)
    }

    /// Attaches a sound to `u` as its next part: one that was handed out and is evaluated. The sound is spent.
    pub fn attach(&mut self, u: UnitId, part: Sound)
        requires held { IsHeldSound self.old part }
        requires begins { place_of part ≡ 0 }
        requires next { IsSomeAnd (node_at self.old u.0.0) (λ x. IsNextPart self.old u.0.0 x part) }
        ensures laws { HeapLaws self.new }
        ensures attaches { Attaches self.old self.new u.0.0 part }
        ensures meaning { Delivers self.old self.new u.0.0 part }
    {
        attach_part(&mut self.table, u.0.0, part);
    }

    /// Whether a part waits at some unit that has a block left to fill.
    pub fn waiting(&self) -> bool
        ensures { result ≡ has_waiting self.now }
    {
        any_waits(&self.table)
    }

    /// The unit that fills a sound's list; None exactly where the sound has no sample, or its unit
    /// has filled its last block.
    pub fn unit_of(&self, s: &Sound) -> Option<UnitId>
        requires held { IsHeldSound self.now s.now }
        ensures unit { option_map (λ u. u.0.0) result ≡ open_unit self.now (list_of s.now) }
    {
        let v = list_in(s)?;
        if !is_unfilled(&self.table, v) {
            return None;
        }
        Some(UnitId(SlotId(v)))
    }

    /// The first input's unit that is not computed far enough for the next block of `u`; None exactly
    /// where each input is.
    pub fn want(&self, u: UnitId) -> Option<UnitId>
        requires open { IsSomeAnd (node_at self.now u.0.0) (λ x. IsTrue (is_open self.now.block x)) }
        ensures first { option_map (λ v. v.0.0) result ≡ want_of self.now u.0.0 }
    {
        match first_lacking(&self.table, u.0.0, 0) {
            None => None,
            Some(found) => Some(UnitId(SlotId(found.list))),
        }
    }

    /// The same where no input before place `from` is wanted: these are passed over. It also tells the place of the input
    /// that is found, from which the next search can go on once that has one block more.
    pub fn want_from(&self, u: UnitId, from: u32) -> Option<Wanted>
        requires open { IsSomeAnd (node_at self.now u.0.0) (λ x. IsTrue (is_open self.now.block x)) }
        requires before { NoneWanted self.now u.0.0 from }
        ensures first { option_map (λ w. w.unit.0.0) result ≡ want_of self.now u.0.0 }
        ensures before { IfSome result (λ w. NoneWanted self.now u.0.0 w.place) }
    {
        match first_lacking(&self.table, u.0.0, from) {
            None => None,
            Some(found) => Some(Wanted {
                unit: UnitId(SlotId(found.list)),
                place: found.place,
            }),
        }
    }

    /// Whether each input is computed far enough for the next block of `u`.
    pub fn ready(&self, u: UnitId) -> bool
        requires open { IsSomeAnd (node_at self.now u.0.0) (λ x. IsTrue (is_open self.now.block x)) }
        ensures ready { IsTrue result ↔ (want_of self.now u.0.0 ≡ None) }
    {
        self.want(u).is_none()
    }

    /// Fills the next block of `u`.
    ///
    /// The block is taken from the pool. The inputs of `u` move on to what its next block needs, and
    /// those that it has done with are dropped. What nobody has still to read is given back.
    ///
    /// # Errors
    /// `PoolFull` exactly where no block is free, and then nothing changed.
    pub fn fill(&mut self, u: UnitId) -> Result<(), FillFault>
        requires open { IsSomeAnd (node_at self.old u.0.0) (λ x. IsTrue (is_open self.old.block x)) }
        requires ready { want_of self.old u.0.0 ≡ None }
        requires settled { IsSomeAnd (node_at self.old u.0.0) (λ x. IsSettledUnit self.old.block x) }
        ensures laws { HeapLaws self.new }
        ensures full { IsTrue (is_err result) ↔ (free_of self.old ≡ 0) }
        ensures nothing { OnErr result (self.new ≡ self.old) }
        ensures fills { OnOk result (Fills self.old self.new u.0.0) }
        ensures keeps { KeepsMeaning self.old self.new }
    {
        let free = self.table.store.free();
        if free == 0 {
            return Err(FillFault::PoolFull);
        }
        fill_block(&mut self.table, &self.waves, u.0.0, self.out.as_mut_slice());
        self.fills = self.fills.saturating_add(1);
        self.peak = self.peak.max(self.size - free + 1);
        Ok(())
    }

    /// Copies the next samples of a sound to the front of `out`, and passes them: no more than there
    /// is room for, of those that are computed and shown, to the end of their block. Answers how many.
    pub fn read(&mut self, s: &mut Sound, out: &mut [Sample]) -> usize
        requires held { IsHeldSound self.old s.old }
        ensures laws { HeapLaws self.new }
        ensures count { result ≡ run_of self.old.block (computed_in self.old (list_of s.old)) s.old.timing.len (place_of s.old) (length out.old) }
        ensures passes { Passes s.old s.new result }
        ensures trimmed { IsTrimmed (advanced self.old s.old s.new) self.new }
        ensures samples { (part : Parts B) (w : Whole) → Means part self.old w → out.new ≡ take result (drop (place_of s.old) (sound_in w.samples (list_of s.old) s.old.timing).samples) ++ drop result out.old }
        ensures keeps { KeepsMeaning self.old self.new }
    {
        let _peak = self.peak;
        match s.reader.take() {
            None => 0,
            Some(mut c) => {
                let count = read_next(&mut self.table, &mut c, s.timing.len, out);
                s.reader = Some(c);
                count
            }
        }
    }
}

impl<B: Drop> Heap<B> {
    /// A unit that mixes these parts, heard as `timing` says, and a sound that reads it. Where it has
    /// no sample there is no unit. A channel is a mix of one part. Those in `waiting` are parts that
    /// follow in turn: what each is evaluated from later, and the sounds that it keeps for that, at
    /// their beginnings. The sounds in `parts` and in `waiting` are spent.
    ///
    /// # Errors
    /// `AllocError` where memory is missing. The sounds in `parts` and in `waiting` are spent
    /// nevertheless.
    pub fn make_mix(
        &mut self,
        alloc: Global,
        parts: Vec<Sound>,
        waiting: Vec<(B, Vec<Sound>)>,
        timing: Timing,
        channel: bool,
    ) -> Result<Sound, AllocError>
        requires mix { IsMixOf parts.items timing }
        requires channel { IsTrue channel → (length parts.items ≡ 1) × (length waiting.items ≡ 0) }
        requires inputs { AreHeld self.old (parts.items ++ sounds_of (map (λ p. (p.0, p.1.items)) waiting.items)) }
        ensures laws { HeapLaws self.new }
        ensures makes { IfOk result (λ s. Makes self.old self.new (kind_of_mix channel) timing parts.items (map waiting_of (map (λ p. (p.0, p.1.items)) waiting.items)) (parts.items ++ sounds_of (map (λ p. (p.0, p.1.items)) waiting.items)) s) }
        ensures meaning { IfOk result (λ s. MakesMeaning self.old self.new (kind_of_mix channel) timing parts.items (map waiting_of (map (λ p. (p.0, p.1.items)) waiting.items)) s) }
        ensures released { OnErr result (IsTrimmed (without_sounds self.old (parts.items ++ sounds_of (map (λ p. (p.0, p.1.items)) waiting.items))) self.new) }
        ensures keeps { OnErr result (KeepsMeaning self.old self.new) }
    {
        let when = same_timing(&timing);
        match split(alloc, waiting) {
            Err(waiting) => {
                drop_parts(&mut self.table, parts, waiting);
                Err(AllocError)
            }
            Ok(halves) => {
                let task = mix_task(channel, halves.kept);
                let made = make_unit(
                    &mut self.table,
                    &mut self.branches,
                    alloc,
                    task,
                    parts,
                    timing,
                )?;
                place_branches(&mut self.branches, &made, halves.branches);
                Ok(begin(made, when))
            }
        }
    }
}

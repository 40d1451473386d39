ghost use Rattle.std.specs.Prelude.{◌≡◌, ◌≢◌, ℕ, ◌-◌, ◌^◌, min, ◌<◌, ◌≤◌, ◌↔◌, ◌++◌, [], ◌∷◌, ◌⊎◌, nat_lt, if◌then◌else◌, IsTrue, true, false, None, Some, Ok, Err, IfSome, IfOk, IfErr, OnOk, OnErr, is_err, length, drop, take, sum, map, List, slice_get, slice_index, Option};
ghost use Rattle.std.specs.Option.{option_map};
ghost use Rattle.ny_num.specs.Grid.{last_index};
ghost use Rattle.ny_check.specs.Channels.{channels, longest};
ghost use Rattle.ny_heap.specs.Heap.{HeapState, live_of, list_of, place_of};
ghost use Rattle.ny_heap.specs.Kinds.{live_by_kind};
ghost use Rattle.ny_heap.specs.declared.sound.Sound.{Sound as SoundOf};
ghost use Rattle.ny_hands.specs.declared.branch.Branch.{Branch as BranchOf};
ghost use Rattle.ny_heap.specs.Means.{Parts, Whole, Means, KeepsMeaning, sound_in};
ghost use Rattle.ny_heap.specs.Reach.{HeapLaws, IsTrimmed};
ghost use Rattle.ny_heap.specs.Revealing.{has_waiting};
ghost use Rattle.ny_heap.specs.Steps.{IsHeldSound, Passes, advanced, run_of, computed_in};
ghost use Rattle.ny_hands.specs.Counts.{SameCounts};
ghost use Rattle.ny_eval.specs.Opened.{AreOpened, zeros};
ghost use Rattle.ny_plan.specs.Plan.{plan};
ghost use Rattle.ny_plan.specs.Peak.{first_full};
ghost use Rattle.ny_plan.specs.Liveness.{live as live_by_plan};
ghost use Rattle.ny_plan.specs.Lines.{live_by_kind as live_kinds_by_plan};
ghost use Rattle.ny_pull.specs.Seated.{AreSeated};
ghost use Rattle.ny_pull.specs.Planned.{filled_of, FollowsPlan, FillsAsPlanned, FindsAllLive};
ghost use Rattle.ny_pull.specs.Ordered.{HasPulled};
ghost use Rattle.ny_pull.specs.Places.{unit_at, ReadsAt, longest_of, HaveBegun};
ghost use Rattle.ny_pull.specs.Engine.{EngineState, channel_at, next_block, HasEnded, IsReadByChannels, with_pull, SamePiece, MeansItsChannels, Leaves, GivesBlock, StopsAtFull, NeedsMore, LacksMemory, full_of};

use crate::fault::PullFault;
use crate::laws::program_laws;
use ny_check::Program;
use ny_eval::{DriveFault, drive, eval_channels};
use ny_hands::Branch;
use ny_heap::{Heap, Sound, UnitId};
use ny_laws::meaning_law;
use ny_num::{Rate, Sample};
use std::alloc::{AllocError, Global};
use std::collections::VecDeque;
use std::marker::Model;

/// What is left of a sound: the sound itself while some of it is to be read, and else nothing. It is given up then.
fn left(heap: &mut Heap<Branch>, sound: Sound) -> Option<Sound>
    requires laws { HeapLaws heap.old }
    requires held { IsHeldSound heap.old sound }
    ensures laws { HeapLaws heap.new }
    ensures left { Leaves heap.old heap.new sound result }
    ensures keeps { KeepsMeaning heap.old heap.new }
{
    if heap.unit_of(&sound).is_some() {
        return Some(sound);
    }
    heap.release(sound);
    None
}

/// The unit that the channel at this place reads, where it has a block left to fill.
fn unit_at(heap: &Heap<Branch>, channels: &[Option<Sound>], c: usize) -> Option<UnitId>
    requires within { c < length channels.now }
    requires held { (s : SoundOf) → slice_get channels.now c ≡ Some (Some s) → IsHeldSound heap.now s }
    ensures unit { option_map (λ u. u.0.0) result ≡ unit_at heap.now channels.now c }
{
    match &channels[c] {
        None => None,
        Some(sound) => heap.unit_of(sound),
    }
}

/// The next samples of the channel at this place, which is not over. Once all were read its sound is given up.
fn read_at(
    heap: &mut Heap<Branch>,
    channels: &mut [Option<Sound>],
    c: usize,
    out: &mut [Sample],
) -> usize
    requires laws { HeapLaws heap.old }
    requires within { c < length channels.old }
    requires there { (s : SoundOf) × (slice_get channels.old c ≡ Some (Some s)) × IsHeldSound heap.old s }
    requires held { (s to : SoundOf) (n : ℕ) (h : HeapState BranchOf) → slice_get channels.old c ≡ Some (Some s) → Passes s to n → n ≡ run_of heap.old.block (computed_in heap.old (list_of s)) s.timing.len (place_of s) (length out.old) → HeapLaws h → IsTrimmed (advanced heap.old s to) h → KeepsMeaning heap.old h → IsHeldSound h to }
    ensures reads { ReadsAt heap.old heap.new channels.old channels.new c (length out.old) result }
    ensures samples { (s : SoundOf) → slice_get channels.old c ≡ Some (Some s) → (part : Parts BranchOf) (w : Whole) → Means part heap.old w → out.new ≡ take result (drop (place_of s) (sound_in w.samples (list_of s) s.timing).samples) ++ drop result out.old }
{
    let Some(sound) = channels[c].take() else {
        unreachable!()
    };
    let mut rest = sound;
    let count = heap.read(&mut rest, out);
    channels[c] = left(heap, rest);
    count
}

/// How many samples the longest of these has.
fn frames_of(sounds: &[Sound]) -> u32
    ensures { result ≡ longest_of sounds.now }
{
    let mut most = 0;
    for sound in sounds {
        most = sound.timing.len.max(most);
    }
    most
}

/// What is left of channels that were just opened: one without a sample is over.
///
/// # Errors
/// `AllocError` where memory is missing.
fn begun(
    alloc: Global,
    p: &Program,
    rate: Rate,
    sounds: Vec<Sound>,
    heap: &mut Heap<Branch>,
) -> Result<Vec<Option<Sound>>, AllocError>
    requires opened { AreOpened p.now rate heap.old sounds.items }
    requires seated { AreSeated p.now rate heap.old (map Some sounds.items) (zeros sounds.items) }
    ensures begun { IfOk result (λ channels. HaveBegun p.now rate sounds.items channels.items [] heap.new) }
    ensures laws { HeapLaws heap.new }
    ensures counts { SameCounts heap.old heap.new }
{
    let mut channels = Vec::with_capacity(alloc, sounds.as_slice().len())?;
    let mut rest = VecDeque::from(sounds);
    while let Some(sound) = rest.pop_front() {
        channels.push_reserved(left(heap, sound));
    }
    Ok(channels)
}

/// One pull more at this place.
fn count_at(pulled: &mut [u64], c: usize)
    requires within { c < length pulled.old }
    requires few { slice_index pulled.old c < 172800000 }
    ensures { pulled.new ≡ with_pull pulled.old c }
{
    pulled[c] += 1;
}

/// The channels of a program, each computed as it is pulled, a block at a time.
#[derive(Drop)]
pub struct Engine {
    program: Program,
    rate: Rate,
    heap: Heap<Branch>,
    // What is still to be pulled of each, and none once all of it was given.
    channels: Vec<Option<Sound>>,
    pulled: Vec<u64>,
    // How many frames there are, and how many pulls gave samples.
    frames: u32,
    pulls: u64,
    spent: Option<PullFault>,
}

impl Model for Engine {
    ghost use Rattle.ny_pull.specs.Engine.{EngineState};

    ghost Value = { EngineState };

    ghost use Rattle.ny_pull.specs.Inside.{IsEngineInside};

    ghost view = { λ e. record { code = e.program; rate = e.rate; channels = e.channels.items; pulled = e.pulled.items; spent = e.spent; heap = e.heap } };

    ghost invariant = { λ e. IsEngineInside e.program e.rate e.heap e.channels.items e.pulled.items e.frames e.pulls e.spent };
}

impl Engine {
    /// An engine for a program, at a rate, over `pool` blocks of `block` samples. It plays each channel from its first sample on.
    ///
    /// # Errors
    /// `AllocError` where memory is missing.
    pub fn open(
        alloc: Global,
        program: Program,
        pool: u32,
        block: u32,
        rate: Rate,
    ) -> Result<Engine, AllocError>
        requires pool { (1 ≤ pool) × (pool ≤ 65536) }
        requires block { (16 ≤ block) × (block ≤ 4096) }
        ensures piece { IfOk result (λ e. (e.code ≡ program) × (e.rate ≡ rate) × (e.heap.pool ≡ pool) × (e.heap.block ≡ block)) }
        ensures begins { IfOk result (λ e. (length e.channels ≡ length (channels e.code e.rate)) × (1 ≤ length e.channels) × (length e.channels ≤ 8) × (e.pulled ≡ map (λ s. 0) (channels e.code e.rate)) × (e.spent ≡ None)) }
        ensures unfilled { IfOk result (λ e. (e.heap.fills ≡ 0) × (e.heap.peak ≡ 0)) }
        ensures hour { IfOk result (λ e. (c : ℕ) → length (channel_at e c) ≤ last_index rate) }
        ensures laws { IfOk result (λ e. HeapLaws e.heap) }
        ensures means { IfOk result (λ e. MeansItsChannels e) }
        ensures follows { IfOk result (λ e. FollowsPlan e) }
        ensures order { IfOk result (λ e. HasPulled [] e) }
    {
        program_laws(&program);
        meaning_law(&program);
        let mut heap = Heap::open(alloc, pool, block)?;
        let sounds = eval_channels(alloc, &program, rate, &mut heap)?;
        let frames = frames_of(sounds.as_slice());
        let channels = begun(alloc, &program, rate, sounds, &mut heap)?;
        let pulled = vec![in alloc; 0u64; channels.as_slice().len()]?;
        Ok(Engine {
            program,
            rate,
            heap,
            channels,
            pulled,
            frames,
            pulls: 0,
            spent: None,
        })
    }

    /// How many channels there are.
    pub fn channels(&self) -> u32
        ensures { result ≡ length self.now.channels }
    {
        self.channels.as_slice().len() as u32
    }

    /// How many frames there are: one for each sample of the longest channel.
    pub fn frames(&self) -> u32
        ensures { result ≡ longest (channels self.now.code self.now.rate) }
    {
        self.frames
    }

    /// How many pulls gave samples.
    pub fn pulls(&self) -> u64
        ensures { result ≡ sum self.now.pulled }
    {
        self.pulls
    }

    /// Whether all samples of a channel were given.
    pub fn ended(&self, c: u32) -> bool
        requires { c < length self.now.channels }
        ensures { IsTrue result ↔ HasEnded self.now c }
    {
        self.channels.as_slice()[c as usize].is_none()
    }

    /// The next samples of channel `c`, to the front of `out`: a block of them, or what is left.
    /// Answers how many, 0 exactly where the channel has ended. `out` has the block's length.
    ///
    /// # Errors
    /// `PoolFull` where a fill finds no free block, and where no part waits exactly then. `OutOfMemory` where
    /// memory is missing for a part that falls due, and so only where one waits. The engine is spent then, and
    /// answers the same at each later pull.
    pub fn pull(&mut self, alloc: Global, c: u32, out: &mut [Sample]) -> Result<usize, PullFault>
        requires channel { c < length self.old.channels }
        requires room { length out.old ≡ self.old.heap.block }
        ensures again { IfSome self.old.spent (λ fault. (result ≡ Err fault) × (self.new ≡ self.old)) }
        ensures unspent { OnOk result ((self.old.spent ≡ None) × (self.new.spent ≡ None)) }
        ensures count { IfOk result (λ n. n ≡ length (next_block self.old c)) }
        ensures samples { IfOk result (λ n. out.new ≡ next_block self.old c ++ drop n out.old) }
        ensures pulled { IfOk result (λ n. self.new.pulled ≡ (if nat_lt 0 n then with_pull self.old.pulled c else self.old.pulled)) }
        ensures ended { self.old.spent ≡ None → HasEnded self.old c → (result ≡ Ok 0) × (self.new ≡ self.old) }
        ensures gives { IfOk result (λ n. HasEnded self.old c ⊎ GivesBlock self.old self.new c n) }
        ensures nothing { OnErr result ((out.new ≡ out.old) × (self.new.pulled ≡ self.old.pulled)) }
        ensures spent { IfErr result (λ fault. self.new.spent ≡ Some fault) }
        ensures full { IfErr result (λ fault. fault ≢ PullFault.OutOfMemory → (fault ≡ full_of self.old) × (live_of self.new.heap ≡ self.new.heap.pool)) }
        ensures exact { self.old.spent ≡ None → has_waiting self.old.heap ≡ false → (IsTrue (is_err result) ↔ NeedsMore self.old c) }
        ensures stops { IfErr result (λ fault. fault ≢ PullFault.OutOfMemory → self.old.spent ≡ None → StopsAtFull self.old self.new c) }
        ensures waits { IfErr result (λ fault. fault ≡ PullFault.OutOfMemory → self.old.spent ≡ None → has_waiting self.old.heap ≡ true) }
        ensures lacks { IfErr result (λ fault. fault ≡ PullFault.OutOfMemory → self.old.spent ≡ None → LacksMemory self.old c) }
        ensures same { SamePiece self.old self.new }
        ensures laws { HeapLaws self.new.heap }
        ensures means { self.new.spent ≢ Some PullFault.OutOfMemory → MeansItsChannels self.new }
        ensures fills { OnOk result (FillsAsPlanned self.old self.new c) }
        ensures finds { IfErr result (λ fault. fault ≢ PullFault.OutOfMemory → self.old.spent ≡ None → FindsAllLive self.old c) }
        ensures follows { self.new.spent ≡ None → FollowsPlan self.new }
        ensures order { IfOk result (λ n. (order : List ℕ) → HasPulled order self.old → HasPulled (if nat_lt 0 n then order ++ c ∷ [] else order) self.new) }
        ensures first { IfErr result (λ fault. fault ≢ PullFault.OutOfMemory → self.old.spent ≡ None → (order rest : List ℕ) → HasPulled order self.old → first_full self.old.heap.block (plan self.old.code self.old.rate) self.old.heap.pool (order ++ c ∷ rest) ≡ Some (length order)) }
    {
        if let Some(fault) = self.spent {
            return Err(fault);
        }
        program_laws(&self.program);
        let Some(unit) = unit_at(&self.heap, self.channels.as_slice(), c as usize) else {
            return Ok(0);
        };
        match drive(alloc, &self.program, &mut self.heap, unit) {
            Ok(()) => {}
            Err(DriveFault::PoolFull) => {
                let fault = PullFault::PoolFull {
                    pulls: self.pulls,
                    live: self.heap.live(),
                };
                self.spent = Some(fault);
                return Err(fault);
            }
            Err(DriveFault::OutOfMemory) => {
                self.spent = Some(PullFault::OutOfMemory);
                return Err(PullFault::OutOfMemory);
            }
        }
        let count = read_at(
            &mut self.heap,
            self.channels.as_mut_slice(),
            c as usize,
            out,
        );
        count_at(self.pulled.as_mut_slice(), c as usize);
        self.pulls += 1;
        Ok(count)
    }

    /// How many blocks of the pool are taken.
    pub fn live(&self) -> u32
        ensures live { result ≡ live_of self.now.heap }
        ensures laws { HeapLaws self.now.heap }
        ensures reached { self.now.spent ≢ Some PullFault.OutOfMemory → IsReadByChannels self.now }
        ensures planned { self.now.spent ≡ None → result ≡ live_by_plan self.now.heap.block (plan self.now.code self.now.rate).rows (filled_of self.now) }
        ensures full { IfSome self.now.spent (λ fault. fault ≢ PullFault.OutOfMemory → result ≡ self.now.heap.pool) }
    {
        self.heap.live()
    }

    /// How many blocks of the pool are taken, by the kind of the unit that computed them, in the order of
    /// `Heap::live_by_kind`.
    pub fn live_by_kind(&self) -> [u32; 18]
        ensures kinds { result ≡ live_by_kind self.now.heap }
        ensures planned { self.now.spent ≡ None → result ≡ live_kinds_by_plan self.now.heap.block (plan self.now.code self.now.rate).rows (filled_of self.now) }
    {
        self.heap.live_by_kind()
    }

    /// The greatest number of blocks that were taken at once by a fill: those taken before it, and 1 more.
    /// 0 where nothing was filled.
    pub fn peak(&self) -> u32
        ensures { result ≡ self.now.heap.peak }
    {
        self.heap.peak()
    }

    /// Whether a part waits at a unit that has a block left to fill. Where none waits a pull takes no memory.
    pub fn waiting(&self) -> bool
        ensures { result ≡ has_waiting self.now.heap }
    {
        self.heap.waiting()
    }

    /// How many blocks were filled, or 2^64 - 1 where that is greater.
    pub fn fills(&self) -> u64
        ensures fills { result ≡ self.now.heap.fills }
        ensures planned { self.now.spent ≡ None → result ≡ min (sum (filled_of self.now)) (2 ^ 64 - 1) }
    {
        self.heap.fills()
    }
}

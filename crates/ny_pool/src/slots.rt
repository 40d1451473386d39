ghost use Rattle.std.specs.Prelude.{◌≡◌, ℕ, ◌+◌, ◌<◌, ◌≤◌, [], ◌++◌, length, Some, None, IfOk, OnOk, OnErr, replicate, slice_set};
ghost use Rattle.std.specs.Borrow.{sem};
ghost use Rattle.ny_pool.specs.Slots.{in_slot, spare_of, IsInSlot, lends_value};

use std::alloc::{AllocError, Global};
use std::marker::Model;
use std::mem;

/// The number of a slot of a [`Slots`], from 0.
#[derive(Clone, Copy, Debug, PartialEq, Eq)]
pub struct SlotId(pub u32);

// So many slots at most: their number is a `u32` too, also where all are
// vacant.
const MOST_SLOTS: usize = u32::MAX as usize;

/// Values in numbered slots. A value keeps its slot until it is removed.
///
/// A slot is vacant or holds one value. The number of vacant slots is `spare`:
/// so many values can be inserted before the next `reserve`. A call for one slot
/// looks at no other, however many there are. The rule stands in
/// docs/DEFINITIONS.md, "Pool and slots".
#[derive(Drop)]
pub struct Slots<T> {
    slots: Vec<Option<T>>,
    // The numbers of the vacant slots, once each, with room for all slots.
    vacant: Vec<u32>,
}

impl<T> Model for Slots<T> {
    ghost use Rattle.std.specs.Prelude.{List, Option, vec_capacity};
    ghost use Rattle.std.specs.Coded.{coded_list, coded_option};
    ghost use Rattle.ny_pool.specs.Vacant.{AreVacant};

    ghost Value = { List (Option T) };

    ghost coded = { coded_list (coded_option T.code) };

    ghost view = { λ s. s.slots.items };

    ghost invariant = { λ s. AreVacant s.slots.items s.vacant.items (vec_capacity s.vacant) };
}

impl<T> Slots<T> {
    /// Slots without a single slot. It takes no memory yet.
    pub fn open(alloc: Global) -> Result<Self, AllocError>
        ensures empty { IfOk result (λ s. s ≡ []) }
    {
        Ok(Slots {
            slots: Vec::new(alloc),
            vacant: Vec::new(alloc),
        })
    }

    /// How many values can be inserted before the next `reserve`.
    pub fn spare(&self) -> u32
        ensures spare { result ≡ spare_of self.now }
    {
        self.vacant.len() as u32
    }

    /// How many slots there are: each number is below this one.
    pub fn slots(&self) -> u32
        ensures { result ≡ length self.now }
    {
        self.slots.len() as u32
    }

    /// Adds vacant slots until `k` values can be inserted; where there are as
    /// many already, nothing is done. The memory comes from the allocator that
    /// `open` was given: the argument says that this call may take some.
    ///
    /// # Errors
    /// `AllocError` where memory is missing, and then all is as before. It also
    /// comes where there would be 2^32 slots or more, which no number names;
    /// such a table would take 20 GiB at least.
    pub fn reserve(&mut self, _alloc: Global, k: u32) -> Result<(), AllocError>
        ensures room { OnOk result (k ≤ spare_of self.new) }

        // Each slot keeps what it holds, and those that are new are vacant.
        ensures same { (s : ℕ) → in_slot self.new s ≡ in_slot self.old s }
        ensures more { OnOk result ((more : ℕ) × (self.new ≡ self.old ++ replicate more None)) }

        ensures refused { OnErr result (self.new ≡ self.old) }
    {
        let spare = self.vacant.len();
        if k as usize <= spare {
            return Ok(());
        }
        let more = k as usize - spare;
        let length = self.slots.len();
        if MOST_SLOTS - length < more {
            return Err(AllocError);
        }
        self.slots.reserve(more)?;
        self.vacant.reserve(length - spare + more)?;
        for added in 0..more {
            self.slots.push_reserved(None);
            self.vacant.push_reserved((length + added) as u32);
        }
        Ok(())
    }

    /// Puts a value into a vacant slot.
    pub fn insert(&mut self, value: T) -> SlotId
        requires room { 0 < spare_of self.old }
        ensures vacant { in_slot self.old result.0 ≡ None }
        ensures within { result.0 < length self.old }
        ensures inserted { self.new ≡ slice_set self.old result.0 (Some value) }
        ensures spare { spare_of self.new + 1 ≡ spare_of self.old }
    {
        let s = self.vacant.pop().unwrap();
        match mem::replace(&mut self.slots[s as usize], Some(value)) {
            None => SlotId(s),
            Some(_) => unreachable!(),
        }
    }

    /// Takes the value out of a slot, which is vacant from then on.
    pub fn remove(&mut self, s: SlotId) -> T
        requires holds { IsInSlot self.old s.0 }
        ensures value { in_slot self.old s.0 ≡ Some result }
        ensures removed { self.new ≡ slice_set self.old s.0 None }
        ensures spare { spare_of self.new ≡ spare_of self.old + 1 }
    {
        self.vacant.push_reserved(s.0);
        match mem::replace(&mut self.slots[s.0 as usize], None) {
            Some(value) => value,
            None => unreachable!(),
        }
    }

    /// The value in a slot.
    pub fn get(&self, s: SlotId) -> &T
        requires holds { IsInSlot self.now s.0 }
        ensures value { in_slot self.now s.0 ≡ Some result.now }
    {
        match &self.slots[s.0 as usize] {
            Some(value) => value,
            None => unreachable!(),
        }
    }

    /// The value in a slot, to be changed there.
    pub fn get_mut(&mut self, s: SlotId) -> &mut T
        requires holds { IsInSlot self.old s.0 }
        ensures* writes_back { sem 𝓛 (lends_value T.row self.entry s.0 result) }
        ensures value { in_slot self.old s.0 ≡ Some result.now }
    {
        self.slots[s.0 as usize].as_mut().unwrap()
    }
}

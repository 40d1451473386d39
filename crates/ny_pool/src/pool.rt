ghost use Rattle.std.specs.Prelude.{◌≡◌, ℕ, ◌+◌, ◌*◌, ◌-◌, ◌<◌, ◌≤◌, ◌^◌, ◌↔◌, ◌++◌, length, take, drop, Some, None, IsNone, IfSome, IfNone, IfOk, replicate, slice_range, vec_len, vec_capacity};
ghost use Rattle.ny_pool.specs.Blocks.{Blocks, in_block, in_item, IsTaken, HoldsWholeBlocks, free_of, with_block, with_item, Takes};

use std::alloc::{AllocError, Global};
use std::marker::Model;

/// The number of a block of a [`Pool`], from 0.
#[derive(Clone, Copy, Debug, PartialEq, Eq)]
pub struct BlockId(pub u32);

/// A fixed number of blocks, each of the same number of items.
///
/// A block is free, or taken and then holds its items. The memory of all blocks
/// is reserved at `open`, and the pages of a block are first touched when it is
/// first taken. A call for one block looks at no other, however many there are.
/// The rule stands in docs/DEFINITIONS.md, "Pool and slots".
#[derive(Drop)]
pub struct Pool<T: Copy> {
    // The blocks that were taken at least once, one after another, with room for
    // all.
    items: Vec<T>,
    // The numbers of those that were given back since, once each, with room for
    // all.
    given: Vec<u32>,
    // How many blocks were taken at least once: those below this number.
    used: u32,
    count: u32,
    len: u32,
    zero: T,
}

impl<T: Copy> Model for Pool<T> {
    ghost use Rattle.std.specs.Prelude.{vec_capacity};
    ghost use Rattle.ny_pool.specs.Blocks.{Blocks, blocks_code};
    ghost use Rattle.ny_pool.specs.Layout.{blocks_from, IsLaidOut};

    ghost Value = { Blocks T };

    ghost coded = { blocks_code T.code };

    ghost view = { λ p. record {
      blocks = blocks_from p.items.items p.given.items p.used p.len 0 p.count;
      len = p.len;
    } };

    ghost invariant = { λ p. IsLaidOut
        p.items.items p.given.items (vec_capacity p.items) (vec_capacity p.given)
        p.used p.count p.len };
}

impl<T: Copy> Pool<T> {
    /// A pool of `n` free blocks of `len` items each. `zero` fills a block that is
    /// taken for the first time.
    ///
    /// # Errors
    /// `AllocError` where memory is missing.
    pub fn open(alloc: Global, n: u32, len: u32, zero: T) -> Result<Self, AllocError>
        requires some_blocks { 1 ≤ n }
        requires some_items { 1 ≤ len }
        ensures all_free { IfOk result (λ p. p ≡ record { blocks = replicate n None; len = len }) }
    {
        Ok(Pool {
            items: Vec::with_capacity(alloc, n as usize * len as usize)?,
            given: Vec::with_capacity(alloc, n as usize)?,
            used: 0,
            count: n,
            len,
            zero,
        })
    }

    /// How many blocks are free.
    pub fn free(&self) -> u32
        ensures free { result ≡ free_of self.now }
        ensures whole { HoldsWholeBlocks self.now }
    {
        self.given.len() as u32 + (self.count - self.used)
    }

    /// Takes a block that was free; None exactly where none is. It holds some
    /// items: what it held before, or `zero`s.
    pub fn take(&mut self) -> Option<BlockId>
        ensures none { IsNone result ↔ (free_of self.old ≡ 0) }
        ensures taken { IfSome result (λ b. Takes self.old self.new b.0) }
        ensures unchanged { IfNone result (self.new ≡ self.old) }
    {
        if let Some(b) = self.given.pop() {
            return Some(BlockId(b));
        }
        if self.used == self.count {
            return None;
        }
        let b = self.used;
        add_block(&mut self.items, self.len as usize, self.zero);
        self.used += 1;
        Some(BlockId(b))
    }

    /// Gives a block back, which is free from then on.
    pub fn give(&mut self, b: BlockId)
        requires taken { IsTaken self.old b.0 }
        ensures given { self.new ≡ with_block self.old b.0 None }
        ensures free { free_of self.new ≡ free_of self.old + 1 }
    {
        self.given.push_reserved(b.0);
    }

    /// The items of a block.
    pub fn slice(&self, b: BlockId) -> &[T]
        requires taken { IsTaken self.now b.0 }
        ensures items { in_block self.now b.0 ≡ Some result.now }
        ensures whole { length result.now ≡ self.now.len }
    {
        let len = self.len as usize;
        part(self.items.as_slice(), b.0 as usize * len, len)
    }

    /// Item `i` of a block.
    pub fn get(&self, b: BlockId, i: u32) -> T
        requires taken { IsTaken self.now b.0 }
        requires within { i < self.now.len }
        ensures item { in_item self.now b.0 i ≡ Some result }
    {
        self.slice(b)[i as usize]
    }

    /// Writes item `i` of a block.
    pub fn put(&mut self, b: BlockId, i: u32, v: T)
        requires taken { IsTaken self.old b.0 }
        requires within { i < self.old.len }
        ensures written { self.new ≡ with_item self.old b.0 i v }
    {
        let at = b.0 as usize * self.len as usize + i as usize;
        self.items[at] = v;
    }

    /// Copies a block's items to `out`.
    pub fn copy_to(&self, b: BlockId, out: &mut [T])
        requires taken { IsTaken self.now b.0 }
        requires whole { length out.old ≡ self.now.len }
        ensures copied { in_block self.now b.0 ≡ Some out.new }
    {
        out.copy_from_slice(self.slice(b));
    }

    /// Writes over all items of a block.
    pub fn copy_from(&mut self, b: BlockId, from: &[T])
        requires taken { IsTaken self.old b.0 }
        requires whole { length from.now ≡ self.old.len }
        ensures written { self.new ≡ with_block self.old b.0 (Some from.now) }
    {
        let start = b.0 as usize * self.len as usize;
        overwrite(self.items.as_mut_slice(), start, from);
    }
}

// Writes one more block behind the others, where there is room for it.
fn add_block<T: Copy>(items: &mut Vec<T>, len: usize, zero: T)
    requires room { vec_len items.old + len ≤ vec_capacity items.old }
    ensures items { items.new.items ≡ items.old.items ++ replicate len zero }
    ensures capacity { vec_capacity items.old ≤ vec_capacity items.new }
{
    items.resize(items.len() + len, zero).unwrap();
}

// The `len` items from `from` on.
fn part<T>(items: &[T], from: usize, len: usize) -> &[T]
    requires within { from + len ≤ length items.now }
    ensures { result.now ≡ slice_range items.now from (from + len) }
{
    &items[from..from + len]
}

// Writes `with` over the items from `from` on.
fn overwrite<T: Copy>(items: &mut [T], from: usize, with: &[T])
    requires within { from + length with.now ≤ length items.old }
    ensures { items.new ≡ take from items.old ++ (with.now ++ drop (from + length with.now) items.old) }
{
    let end = from + with.len();
    items[from..end].copy_from_slice(with);
}

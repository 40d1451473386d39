ghost use Rattle.std.specs.Prelude.{◌≡◌, ◌<◌, ◌≤◌, ◌+◌, length, All, IfOk, IfSome, is_some, true, false, IsTrue, OnOk, None, [], vec_len};
ghost use Rattle.ny_kinds.specs.Kinds.{behavior_at};
ghost use Rattle.ny_kinds.specs.Table.{IsRight};

use crate::kind::{Entry, Found, Kind, Use};
use ny_resolve::Declared;
use std::alloc::{AllocError, Global};

/// Whether two lists of kinds are the same.
fn same_kinds(a: &[Kind], b: &[Kind]) -> bool
    ensures { IsTrue result → a.now ≡ b.now }
{
    if a.len() != b.len() {
        return false;
    }
    for i in 0..a.len() {
        if a[i] != b[i] {
            return false;
        }
    }
    true
}

/// What is known of functions, for kinds of their arguments.
#[derive(Drop)]
pub struct Table {
    pub entries: Vec<Entry>,
    /// For each list of entries, where its newest one stands, counted from 1; or 0.
    pub newest: Vec<usize>,
    /// How many expressions were judged.
    pub judged: u64,
}

/// How far judging goes.
#[derive(Clone, Copy, PartialEq, Eq)]
pub struct Limits {
    /// So many levels may still be nested before a function that is missing is put off.
    pub levels: u32,
    /// At most so many expressions are judged, if there is a bound.
    pub most: Option<u64>,
}

/// How many lists of entries there are.
const LISTS: usize = 65_536;

/// The list of the entries for a function and these kinds. Every choice is right: one that spreads the entries over all
/// lists keeps each of them short.
fn list_of(number: u32, kinds: &[Kind]) -> usize
    ensures { result < 65536 }
{
    let mut spread = number;
    for kind in kinds {
        let digit = if *kind == Kind::Sound { 2 } else { 1 };
        spread = spread.wrapping_mul(31).wrapping_add(digit);
    }
    spread as usize % LISTS
}

impl Table {
    /// A table that knows nothing yet.
    pub(crate) fn new(alloc: Global) -> Result<Table, AllocError>
        ensures { IfOk result (λ table. table.entries.items ≡ []) }
    {
        let mut newest = Vec::new(alloc);
        for _ in 0..LISTS {
            newest.push(0)?;
        }
        Ok(Table {
            entries: Vec::new(alloc),
            newest,
            judged: 0,
        })
    }

    /// Counts one more expression that is judged, and says whether it is within the bound.
    pub(crate) fn count(&mut self, most: Option<u64>) -> bool
        ensures known { self.new.entries ≡ self.old.entries }
        ensures within { result ≡ false → is_some most ≡ true }
    {
        self.judged = self.judged.saturating_add(1);
        match most {
            Some(most) => self.judged <= most,
            None => true,
        }
    }

    /// Adds what a function's body is for these kinds.
    #[tactic(auto, using(crate::proofs::Stack::right_push))]
    pub(crate) fn add(&mut self, ds: &[Declared], used: Use, found: Found) -> Result<(), AllocError>
        requires within { used.number < length ds.now }
        requires found { found ≡ behavior_at ds.now used.number used.kinds }
        requires known { All (IsRight ds.now) self.old.entries.items }
        ensures known { All (IsRight ds.now) self.new.entries.items }
        ensures kept { vec_len self.old.entries ≤ vec_len self.new.entries }
        ensures longer { OnOk result (vec_len self.new.entries ≡ vec_len self.old.entries + 1) }
    {
        let _ds = ds;
        let list = list_of(used.number, used.kinds.as_slice());
        let earlier = self.newest.get(list).copied().unwrap_or(0);
        self.entries.push(Entry {
            number: used.number,
            kinds: used.kinds,
            found,
            earlier,
        })?;
        if list < self.newest.len() {
            self.newest[list] = self.entries.len();
        }
        Ok(())
    }
}

/// What the table says of a function for these kinds.
pub(crate) fn look_up(ds: &[Declared], table: &Table, number: u32, kinds: &[Kind]) -> Option<Found>
    requires known { All (IsRight ds.now) table.now.entries.items }
    ensures { IfSome result (λ f. f ≡ behavior_at ds.now number kinds.now) }
{
    let _ds = ds;
    let mut at = table
        .newest
        .get(list_of(number, kinds))
        .copied()
        .unwrap_or(0);
    for _ in 0..table.entries.len() {
        if at == 0 || table.entries.len() < at {
            return None;
        }
        let entry = &table.entries[at - 1];
        if entry.number == number && same_kinds(entry.kinds.as_slice(), kinds) {
            return Some(entry.found);
        }
        at = entry.earlier;
    }
    None
}

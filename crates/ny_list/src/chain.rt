ghost use Rattle.std.specs.Prelude.{◌≡◌, ℕ, ◌+◌, ◌<◌, ◌≤◌, ◌^◌, Some, IsSome, IfSome, slice_index_or, None};
ghost use Rattle.ny_list.specs.Chain.{home_at, next_at, nth, with_next, longer};
ghost use Rattle.ny_list.specs.Table.{entry_at, IsTable, HasBlock, span_at};

use crate::table::Table;
use ny_pool::SlotId;

/// Which block of which list a taken block is, and which block of the pool is the next of that list.
#[derive(Clone, Copy)]
pub(crate) struct Link {
    pub(crate) list: u32,
    pub(crate) number: u32,
    // Of no meaning in the last block of a list.
    pub(crate) next: u32,
}

/// Which blocks of a list are kept: those from `gone` to `filled`. Where there are any, `first` and `last` name them.
#[derive(Clone, Copy)]
pub(crate) struct Span {
    pub(crate) len: u32,
    pub(crate) gone: u32,
    pub(crate) filled: u32,
    pub(crate) first: u32,
    pub(crate) last: u32,
}

/// A block of a list, by its number in the pool and in the list.
#[derive(Clone, Copy)]
struct Standing {
    at: u32,
    number: u32,
}

/// The block after this one in its list.
pub(crate) fn next_of(links: &[Option<Link>], at: u32) -> u32
    requires { IsSome (slice_index_or links.now at None) }
    ensures { result ≡ next_at links.now at }
{
    match links[at as usize] {
        Some(link) => link.next,
        None => unreachable!(),
    }
}

/// Block `b` of the pool comes after the last block of a list that keeps any.
pub(crate) fn lead(links: &mut [Option<Link>], span: &Span, b: u32)
    requires { span.now.gone < span.now.filled → IsSome (slice_index_or links.old span.now.last None) }
    ensures { links.new ≡ with_next span.now b links.old }
{
    if span.gone < span.filled {
        if let Some(link) = &mut links[span.last as usize] {
            link.next = b;
        }
    }
}

/// The blocks of a list that has block `b` of the pool in addition, as its last.
pub(crate) fn extended(span: &Span, b: u32) -> Span
    requires { span.now.filled + 1 < 2 ^ 32 }
    ensures { result ≡ longer span.now b }
{
    let first = if span.gone == span.filled {
        b
    } else {
        span.first
    };
    Span {
        len: span.len,
        gone: span.gone,
        filled: span.filled + 1,
        first,
        last: b,
    }
}

// The block near which a search begins, where it still is a block of the list at or before the one that is sought.
fn known(links: &[Option<Link>], near: u32, list: u32, number: u32) -> Option<Standing>
    ensures { IfSome result (λ s. (home_at links.now s.at ≡ nth list s.number) × (s.number ≤ number)) }
{
    let link = (*links.get(near as usize)?)?;
    if link.list != list || link.number > number {
        return None;
    }
    Some(Standing {
        at: near,
        number: link.number,
    })
}

/// The number in the pool of block `number` of a list. The search begins at block `near` of the pool, where that is a
/// block of the list before it, and else at the first block that the list keeps. So a cursor that remembers where it
/// stood is found at once, or in the next block.
pub(crate) fn find(table: &Table, list: u32, near: u32, number: u32) -> u32
    requires table { IsTable table.now }
    requires there { HasBlock table.now list number }
    ensures { home_at table.now.links.items result ≡ nth list number }
{
    let span = table.lists.get(SlotId(list)).span;
    let start = known(table.links.as_slice(), near, list, number).unwrap_or(Standing {
        at: span.first,
        number: span.gone,
    });
    let mut at = start.at;
    let mut reached = start.number;
    while reached < number {
        at = next_of(table.links.as_slice(), at);
        reached += 1;
    }
    at
}

//! Whether the numbers of seats rise.
ghost use Rattle.std.specs.Prelude.{◌≡◌, ◌≤◌, ◌↔◌, ℕ, IsTrue, IsSomeAnd, IfOk, nat_eq, slice_get, Some};
ghost use Rattle.partition.specs.declared.journal.Journal.{Journal as Kept};
ghost use Rattle.indexmap.specs.IndexMap.{get};
ghost use Rattle.closed_store.specs.Joins.{DoRise, AllRise};

use indexmap::IndexMap;
use partition::{EventList, Journal};
use std::alloc::{AllocError, Global};

/// Whether the number is not above the seat's last one.
fn is_late(lasts: &IndexMap<u64, u64>, seat: u64, number: u64) -> bool
    ensures { IsTrue result ↔ IsSomeAnd (get nat_eq lasts.now seat) (λ last. number ≤ last) }
{
    match lasts.get(&seat) {
        Some(last) => number <= *last,
        None => false,
    }
}

/// Whether the numbers of each seat rise. The one error is that an allocation failed.
pub(crate) fn do_rise(alloc: Global, events: &EventList) -> Result<bool, AllocError>
    ensures { IfOk result (λ b. IsTrue b ↔ DoRise events.now.items) }
{
    let mut lasts: IndexMap<u64, u64> = IndexMap::new(alloc);
    for at in 0..events.len() {
        let event = events.event(at);
        let seat = event.seat();
        let number = event.number();
        if is_late(&lasts, seat, number) {
            return Ok(false);
        }
        if lasts.reserve(1).is_err() {
            return Err(AllocError);
        }
        let _ = lasts.insert(seat, number);
    }
    Ok(true)
}

/// Whether the numbers of each seat rise in each of these journals.
fn row_rises(alloc: Global, row: &[Journal]) -> Result<bool, AllocError>
    ensures { IfOk result (λ b. IsTrue b
        ↔ ((tenant : ℕ) (journal : Kept) → slice_get row.now tenant ≡ Some journal
        → DoRise journal.events.items)) }
{
    for journal in row {
        if !do_rise(alloc, &journal.events)? {
            return Ok(false);
        }
    }
    Ok(true)
}

/// Whether the numbers of each seat rise in each journal of all partitions. The one error is that an allocation failed.
pub(crate) fn all_rise(alloc: Global, rows: &[Vec<Journal>]) -> Result<bool, AllocError>
    ensures { IfOk result (λ b. IsTrue b ↔ AllRise rows.now) }
{
    for row in rows {
        if !row_rises(alloc, row)? {
            return Ok(false);
        }
    }
    Ok(true)
}

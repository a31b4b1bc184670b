//! prepare_commit: one tenant at one partition.
use crate::values::{key, no_parts, record, stamp};
use plain_store::{DiscardReply, Found, PrepareReply};
use prepare_commit::{Base, Cell, GetReply};
use stamps::{Keep, Key, Record, Stamp, Visits};
use std::alloc::{AllocError, Global};
use version_chain::Block;

/// The version's counter, or what stands in its place.
fn number_of_reply(reply: &GetReply<'_>) -> u64 {
    match reply {
        GetReply::Version(version) => version.stamp().counter(),
        GetReply::Initial => 0,
        GetReply::Collected(floor) => floor.counter(),
        GetReply::Unknown => 21,
    }
}

/// Whether a version is prepared, committed, read, found and collected, and another stamp discarded.
fn serves(alloc: Global, version: &Record, keep: Keep, other: Stamp) -> Result<bool, AllocError> {
    let mut block: Block = Block::open(alloc, 2)?;
    let mut cell: Cell = Cell::open(alloc, 2, 4, 4, 0)?;
    let prepared: PrepareReply = cell.prepare(&mut block, version);
    let committed: u32 = cell.commit(&mut block, version.stamp);
    let mut visits: Visits = Visits::new();
    let counted: u32 = cell.commit_counted(&mut block, version.stamp, &mut visits);
    let read: GetReply<'_> = cell.get(&block, &version.key, None);
    let is_read = number_of_reply(&read) == version.stamp.counter();
    let found: Found = cell.found(&version.tag);
    let freed: u32 = cell.collect(&mut block, keep);
    let dropped: DiscardReply = cell.discard(&mut block, other);
    let is_put = prepared == PrepareReply::Prepared && committed == 1 && counted == 1;
    let is_found = found.count() == 1 && visits.count() == 1;
    Ok(is_put && is_read && is_found && freed == 0 && dropped == DiscardReply::Dropped(0))
}

/// Whether a cell is opened where another one stood.
fn is_opened_at_a_base(alloc: Global, key: &Key) -> Result<bool, AllocError> {
    let _named = no_parts();
    let block = Block::open(alloc, 2)?;
    let cell = Cell::open(alloc, 2, 4, 4, 0)?;
    let base: Base = cell.base(&block)?;
    let mut other = Block::open(alloc, 2)?;
    let again: Cell = Cell::at(alloc, &mut other, &base, 0)?;
    let is_initial = number_of_reply(&again.get(&other, key, None)) == 0;
    let empty: Base = Base::empty(alloc, 2, 4, 4);
    Ok(is_initial && base.is(&empty))
}

fn are_cells(alloc: Global) -> Option<bool> {
    let is_served = serves(alloc, &record("x", 1)?, Keep::new(1)?, stamp(2)?);
    Some(is_served.ok()? && is_opened_at_a_base(alloc, &key("x")?).ok()?)
}

#[test]
fn prepare_commit_has_its_calls(rt: HostRuntime) {
    assert!(rt; are_cells(rt.alloc()) == Some(true));
}

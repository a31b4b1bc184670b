//! version_chain: the versions of items as falling chains, in a block that tenants share.
use crate::values::{record, stamp};
use stamps::{Keep, Key, Record, Stamp, Tag};
use std::alloc::{AllocError, Global};
use version_chain::{Block, Chains, Insert, StoredRecord};

fn number_of_insert(insert: Insert) -> u8 {
    match insert {
        Insert::Added => 0,
        Insert::Same => 1,
        Insert::Other => 2,
        Insert::Full => 3,
    }
}

/// Whether this is that version, with this mark.
fn is_marked(nth: Option<(StoredRecord<'_>, bool)>, wanted: &Record) -> bool {
    match nth {
        Some((version, is_committed)) => version.is(wanted) && is_committed,
        None => false,
    }
}

/// Whether this is that record, by its parts and by its copies.
fn is_stored(found: Option<StoredRecord<'_>>, wanted: &Record) -> bool {
    let Some(stored) = found else {
        return false;
    };
    let stamp: Stamp = stored.stamp();
    let key: Key = stored.key();
    let tag: Tag = stored.tag();
    let mut copy: Record = *wanted;
    stored.copy_into(&mut copy);
    let other: Record = stored.unpacked();
    let is_copied = copy == *wanted && other == *wanted;
    is_copied && stamp == wanted.stamp && key == wanted.key && tag == wanted.tag
}

/// Whether a version goes into a chain and out of it, below a floor.
#[tactic(auto, using(version_chain::proofs::Changing::share_kept, version_chain::proofs::Changing::still_chain))]
fn is_chained(
    alloc: Global,
    version: Record,
    keep: Keep,
    floor: Stamp,
) -> Result<bool, AllocError> {
    let mut block: Block = Block::open(alloc, 2)?;
    let mut chains: Chains = Chains::open(alloc, 2, 1, 7)?;
    let added: Insert = chains.insert(&mut block, 0, version);
    let same: Insert = chains.insert(&mut block, 0, version);
    let found: Option<StoredRecord<'_>> = chains.find(&block, 0, version.stamp);
    let is_found = is_stored(found, &version);
    let marked: bool = chains.mark(&mut block, 0, version.stamp);
    let nth: Option<(StoredRecord<'_>, bool)> = chains.nth(&block, 0, 0);
    let is_nth = is_marked(nth, &version);
    let latest: Option<StoredRecord<'_>> = chains.latest(&block, 0);
    let is_latest = is_stored(latest, &version);
    let greatest: Stamp = chains.kth_committed(&block, 0, keep);
    let freed: u32 = chains.cut_below(&mut block, 0, floor);
    let is_put = number_of_insert(added) == 0 && number_of_insert(same) == 1;
    let is_committed = marked && is_nth && is_latest && greatest == version.stamp;
    Ok(is_put && is_found && is_committed && freed == 1)
}

fn is_kept(alloc: Global) -> Option<bool> {
    is_chained(alloc, record("x", 1)?, Keep::new(1)?, stamp(2)?).ok()
}

#[test]
fn version_chain_has_its_calls(rt: HostRuntime) {
    assert!(rt; is_kept(rt.alloc()) == Some(true));
}

//! What changed since the last base, packed ahead of the next one.
ghost use Rattle.std.specs.Prelude.{◌≡◌, ◌<◌, ◌≤◌, ℕ, false, None, length, slice_set, slice_index_or, IfOk, IfSome, OnOk};
ghost use Rattle.packed.specs.Cuts.{IsCut};
ghost use Rattle.prepare_commit.specs.Ahead.{PacksInto, StandsIn, packed_in};
ghost use Rattle.prepare_commit.specs.Begun.{IsFree, IsKeptSince, NotesMore};
ghost use Rattle.prepare_commit.specs.Calls.{lists_of, AreKeptSince, HoldItems};
ghost use Rattle.prepare_commit.specs.Spots.{begun_by};

use crate::changed::ChangedChains;
use crate::copies::put_chain;
use crate::items::{self, ChainedItem, ItemList, KnownItem};
use crate::last_base::LastBase;
use crate::part_entries::PartEntries;
use crate::parts::{BasePart, EntryPosition};
use crate::versions::Versions;
use std::alloc::{AllocError, Global};
use version_chain::{Block, ChainList, VersionList};

/// At most so many items are packed at a time.
const MOST_AHEAD: usize = 1024;

/// A part of a base while it is made: entries, and the versions of each, which end at these places.
#[derive(Drop)]
pub(crate) struct NewPart {
    pub(crate) entries: Vec<KnownItem>,
    pub(crate) found: VersionList,
    pub(crate) ends: Vec<usize>,
}

impl NewPart {
    /// The part, in no more memory than it takes. The one error is that an allocation failed.
    pub(crate) fn packed(self, alloc: Global) -> Result<BasePart, AllocError>
        requires cut { IsCut 0 self.ends.items (length self.found) }
        requires many { length self.ends.items ≡ length self.entries.items }
        ensures { IfOk result (λ part. part ≡ packed_in self) }
    {
        let NewPart {
            entries,
            found,
            ends,
        } = self;
        let chains = ChainList::of(found.fitted(alloc)?, ends);
        Ok(BasePart::of(PartEntries::of(alloc, &entries)?, chains))
    }
}

/// Packs items whose chains are noted, at most `MOST_AHEAD`, in a part that is put at `free`, and notes them no more. An item is found by
/// the key of its chain's first version; it ends at a chain that has none. The one error is that an allocation failed; then some chains
/// are noted no more whose items are not packed.
pub(crate) fn pack_noted(
    alloc: Global,
    block: &Block,
    items: &ItemList,
    versions: &Versions,
    last: &mut LastBase,
    free: usize,
) -> Result<(), AllocError>
    requires held { HoldItems block.now versions.now items.now.items }
    requires kept { AreKeptSince block.now versions.now items.now.items last.old }
    requires free { IsFree last.old.spots.items last.old.since items.now.items free }
    requires within { free ≤ length last.old.parts }
    ensures spots { length last.new.spots.items ≡ length last.old.spots.items }
    ensures since { length last.new.since ≡ length last.old.since }
    ensures kept { OnOk result (IsKeptSince (begun_by last.new) last.new.since items.now.items
        (lists_of block.now versions.now)) }
{
    let most = last.since.count().min(MOST_AHEAD);
    let mut part = NewPart {
        entries: Vec::with_capacity(alloc, most)?,
        found: VersionList::new(alloc),
        ends: Vec::with_capacity(alloc, most)?,
    };
    for _nth in 0..MOST_AHEAD {
        pack_one(block, items, versions, last, free, &mut part)?;
    }
    last.parts.put(alloc, free, part.packed(alloc)?)?;
    Ok(())
}

// Packs the item of one chain that is noted, if one is found, and notes it no more. The one error is that an allocation failed.
fn pack_one(
    block: &Block,
    items: &ItemList,
    versions: &Versions,
    last: &mut LastBase,
    free: usize,
    part: &mut NewPart,
) -> Result<(), AllocError>
    requires held { HoldItems block.now versions.now items.now.items }
    requires packs { PacksInto free block.now versions.now items.now.items last.old part.old }
    ensures spots { length last.new.spots.items ≡ length last.old.spots.items }
    ensures since { length last.new.since ≡ length last.old.since }
    ensures packs { OnOk result
        (PacksInto free block.now versions.now items.now.items last.new part.new) }
{
    let Some(item) = take_known(block, items, versions, &mut last.since) else {
        return Ok(());
    };
    last.spots[item.chain as usize] = EntryPosition::of(free, part.entries.len())?;
    part.entries.push(item.entry)?;
    put_chain(&mut part.found, &mut part.ends, block, versions, &item)
}

// Takes out a chain that is noted, and answers its item. None where no chain is noted, or the item is not found: then what was noted
// still is.
fn take_known(
    block: &Block,
    items: &ItemList,
    versions: &Versions,
    since: &mut ChangedChains,
) -> Option<ChainedItem>
    requires held { HoldItems block.now versions.now items.now.items }
    requires long { length since.old ≡ length (lists_of block.now versions.now) }
    ensures item { IfSome result (StandsIn items.now.items) }
    ensures taken { IfSome result (λ item. since.new ≡ slice_set since.old item.chain false) }
    ensures none { result ≡ None → NotesMore since.old since.new }
{
    let chain = since.take()?;
    let item = item_of(block, items, versions, chain);
    if item.is_none() {
        since.note(chain);
    }
    item
}

// The item that has a chain, found by the key of the chain's first version.
fn item_of(block: &Block, items: &ItemList, versions: &Versions, chain: u32) -> Option<ChainedItem>
    requires held { HoldItems block.now versions.now items.now.items }
    requires known { chain < length (lists_of block.now versions.now) }
    ensures item { IfSome result (StandsIn items.now.items) }
    ensures chain { IfSome result (λ item. item.chain ≡ chain) }
{
    let key = versions.first(block, chain)?.key();
    let Ok(place) = items::search(items, &key) else {
        return None;
    };
    let item = *items.get(place);
    if item.chain == chain {
        Some(item)
    } else {
        None
    }
}

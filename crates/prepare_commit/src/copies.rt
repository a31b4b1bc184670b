//! What a cell holds, as parts that a base shares, and whether a base holds the same.
ghost use Rattle.std.specs.Prelude.{◌≡◌, ◌↔◌, ◌<◌, ◌≤◌, ◌++◌, ◌∷◌, ℕ, [], true, false, Some, IfOk, OnOk, IsTrue, All, length, slice_index_or};
ghost use Rattle.packed.specs.Cuts.{IsCut, pieces};
ghost use Rattle.version_chain.specs.Changes.{HasChain};
ghost use Rattle.prepare_commit.specs.declared.items.ChainedItem.{ChainedItem};
ghost use Rattle.prepare_commit.specs.Begun.{Holding, IsFree, held_at, holding_of, holdings, no_place};
ghost use Rattle.prepare_commit.specs.Calls.{lists_of, versions_at, AreKeptSince};
ghost use Rattle.prepare_commit.specs.Layout.{HaveOwnChains};
ghost use Rattle.prepare_commit.specs.Remembered.{is_changed};

use crate::ahead::NewPart;
use crate::held::Held;
use crate::items::{ChainedItem, ItemList};
use crate::last_base::LastBase;
use crate::parts::{EntryPosition, PartList, is_entry};
use crate::versions::Versions;
use std::alloc::{AllocError, Global};
use version_chain::{Block, VersionList};

/// What the items have. Of an item whose chain was noted the versions are packed, in a part that is put at `free`; any other lies in
/// a part already, at the spot of its chain, and its chain is not visited. The one error is that an allocation failed.
pub(crate) fn held_items(
    alloc: Global,
    block: &Block,
    items: &ItemList,
    versions: &Versions,
    last: &LastBase,
    free: usize,
) -> Result<Held, AllocError>
    requires kept { AreKeptSince block.now versions.now items.now.items last.now }
    requires free { IsFree last.now.spots.items last.now.since items.now.items free }
    requires within { free ≤ length last.now.parts }
    ensures { IfOk result (λ held. held
        ≡ holdings items.now.items (lists_of block.now versions.now)) }
{
    let mut places = Vec::with_capacity(alloc, items.len())?;
    let most = last.since.count().min(items.len());
    let mut entries = Vec::with_capacity(alloc, most)?;
    let mut found = VersionList::new(alloc);
    let mut ends = Vec::with_capacity(alloc, most)?;
    for nth in 0..items.len() {
        let item = items.get(nth);
        if last.since.has(item.chain) {
            places.push(EntryPosition::of(free, entries.len())?)?;
            entries.push(item.entry)?;
            put_chain(&mut found, &mut ends, block, versions, item)?;
        } else {
            places.push(last.spots[item.chain as usize])?;
        }
    }
    let mut parts = last.parts.copied(alloc)?;
    let part = NewPart {
        entries,
        found,
        ends,
    };
    parts.put(alloc, free, part.packed(alloc)?)?;
    Ok(Held::of(parts, places))
}

/// Packs an item's versions at the end of a list, and puts where they end there at the end of a list of such places. The one error
/// is that an allocation failed.
pub(crate) fn put_chain(
    found: &mut VersionList,
    ends: &mut Vec<usize>,
    block: &Block,
    versions: &Versions,
    item: &ChainedItem,
) -> Result<(), AllocError>
    requires chain { HasChain block.now versions.now.chains item.now.chain }
    requires cut { IsCut 0 ends.old.items (length found.old) }
    ensures cut { OnOk result (IsCut 0 ends.new.items (length found.new)) }
    ensures chain { OnOk result (pieces found.new 0 ends.new.items
        ≡ pieces found.old 0 ends.old.items
        ++ versions_at block.now versions.now item.now.chain ∷ []) }
{
    versions.pack_to(block, item.chain, found)?;
    ends.push(found.len())?;
    Ok(())
}

/// Makes the places of the items the spots of their chains.
pub(crate) fn set_spots(items: &ItemList, places: &[EntryPosition], spots: &mut Vec<EntryPosition>)
    requires many { length places.now ≡ length items.now.items }
    requires known { All (λ (i : ChainedItem). i.chain < length spots.old.items) items.now.items }
    requires apart { HaveOwnChains items.now.items }
    ensures long { length spots.new.items ≡ length spots.old.items }
    ensures each { (nth : ℕ) → (d : ChainedItem) → nth < length items.now.items
        → (let chain = (slice_index_or items.now.items nth d).chain in
        slice_index_or spots.new.items chain no_place ≡ slice_index_or places.now nth no_place) }
{
    for nth in 0..places.len() {
        let chain = items.get(nth).chain;
        spots[chain as usize] = places[nth];
    }
}

/// Whether the items have just what is held. An item whose chain was not noted is known by where it lies, in a part that is found to
/// be the same, and its chain is not visited. The one error is that an allocation failed.
pub(crate) fn has_items(
    alloc: Global,
    block: &Block,
    items: &ItemList,
    versions: &Versions,
    last: &LastBase,
    held: &Held,
) -> Result<bool, AllocError>
    requires { AreKeptSince block.now versions.now items.now.items last.now }
    ensures { IfOk result (λ yes. IsTrue yes
        ↔ (holdings items.now.items (lists_of block.now versions.now) ≡ held.now)) }
{
    let (parts, places) = held.parts();
    if items.len() != places.len() {
        return Ok(false);
    }
    let same = parts.same(alloc, &last.parts)?;
    for nth in 0..places.len() {
        let item = items.get(nth);
        let place = places[nth];
        if !is_known(last, item, place, &same)
            && !has_item(alloc, block, versions, item, parts, place)?
        {
            return Ok(false);
        }
    }
    Ok(true)
}

/// Whether an item lies at a place of a part that is the same, and no call changed it since.
fn is_known(last: &LastBase, item: &ChainedItem, place: EntryPosition, same: &[bool]) -> bool
    requires spots { item.now.chain < length last.now.spots.items }
    requires long { item.now.chain < length last.now.since }
    ensures part { IsTrue result → slice_index_or same.now place.part false ≡ true }
    ensures free { IsTrue result → is_changed last.now.since item.now ≡ false }
    ensures spot { IsTrue result
        → slice_index_or last.now.spots.items item.now.chain no_place ≡ place }
{
    (place.part as usize) < same.len()
        && same[place.part as usize]
        && !last.since.has(item.chain)
        && is_place(last.spots[item.chain as usize], place)
}

/// Whether these are the same place.
fn is_place(one: EntryPosition, other: EntryPosition) -> bool
    ensures { IsTrue result ↔ (one ≡ other) }
{
    one == other
}

/// Whether an item has what lies at a place. The one error is that an allocation failed, for a copy of its versions.
fn has_item(
    alloc: Global,
    block: &Block,
    versions: &Versions,
    item: &ChainedItem,
    parts: &PartList,
    place: EntryPosition,
) -> Result<bool, AllocError>
    requires chain { HasChain block.now versions.now.chains item.now.chain }
    requires place { (h : Holding) × (held_at parts.now place ≡ Some h) }
    ensures { IfOk result (λ yes. (h : Holding) → held_at parts.now place ≡ Some h
        → (IsTrue yes ↔ (holding_of (lists_of block.now versions.now) item.now ≡ h))) }
{
    if !is_entry(&item.entry, &parts.entry(place)) {
        return Ok(false);
    }
    let mut found = VersionList::new(alloc);
    versions.pack_to(block, item.chain, &mut found)?;
    Ok(parts.is_list(place, &found))
}

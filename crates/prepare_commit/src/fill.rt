//! What a base has, put into the parts of a cell that holds nothing.
ghost use Rattle.std.specs.Prelude.{◌≡◌, ◌+◌, ◌<◌, ◌≤◌, ◌^◌, ℕ, List, [], ◌∷◌, All, None, length, vec_capacity, IfOk};
ghost use Rattle.std.specs.FinMap as map;
ghost use Rattle.version_chain.specs.Chain.{HoldsChains};
ghost use Rattle.version_chain.specs.Changes.{HasChain};
ghost use Rattle.prepare_commit.specs.Bases.{AreNumbered, NameEach, IsTagOf, HasEntry};
ghost use Rattle.prepare_commit.specs.Begun.{entries_in};
ghost use Rattle.prepare_commit.specs.Calls.{lists_of, versions_at};
ghost use Rattle.prepare_commit.specs.Content.{version_at};
ghost use Rattle.prepare_commit.specs.Filled.{HaveChains, CanBePut, HavePut, IndexesLatest};
ghost use Rattle.prepare_commit.specs.Layout.{together, item_chains, entries_of, IsVersionOf, IsLaid};

use crate::held::Held;
use crate::items::{self, ChainedItem, ItemList};
use crate::versions::Versions;
use secondary_index::TagIndex;
use stamps::{Stamp, Tag};
use std::alloc::{AllocError, Global};
use version_chain::{Block, Version, VersionList};

/// The place of a version in a list, beside its stamp.
#[derive(Clone, Copy)]
pub(crate) struct StampedPlace {
    pub(crate) stamp: Stamp,
    pub(crate) place: u32,
}

/// Adds an item for each entry, with the chain that has the number of its place.
pub(crate) fn add_items(items: &mut ItemList, held: &Held)
    requires empty { items.old.items ≡ [] }
    requires room { length held.now ≤ items.old.room }
    requires few { length held.now < 2 ^ 32 }
    ensures entries { entries_of items.new.items ≡ entries_in held.now }
    ensures chains { AreNumbered items.new.items }
    ensures room { items.new.room ≡ items.old.room }
{
    for place in 0..held.len() {
        let item = ChainedItem {
            entry: held.entry(place),
            chain: place as u32,
        };
        items.insert(place, item);
    }
}

/// The places of versions in their list, those of lesser stamps first. The one error is that an allocation failed.
pub(crate) fn by_stamps(
    alloc: Global,
    versions: &VersionList,
) -> Result<Vec<StampedPlace>, AllocError>
    requires few { length versions.now < 2 ^ 32 }
    ensures { IfOk result (λ places. NameEach places.items versions.now) }
{
    let mut places = Vec::with_capacity(alloc, versions.len())?;
    for place in 0..versions.len() {
        let version = versions.version(place);
        let stamped = StampedPlace {
            stamp: version.prepared.stamp,
            place: place as u32,
        };
        places.push_reserved(stamped);
    }
    places.sort_unstable_by_key(|stamped| stamped.stamp);
    Ok(places)
}

/// Puts versions, no two of one item and stamp, into the empty chains of their items, with their marks, in the order of
/// these places. Where their stamps ascend, each becomes the first of its chain and the last of the list of the versions,
/// so that none is walked over or shifted.
pub(crate) fn add_versions(
    block: &mut Block,
    items: &ItemList,
    held: &mut Versions,
    versions: &VersionList,
    places: &[StampedPlace],
)
    requires chains { HaveChains items.now.items block.old held.old }
    requires empty { together (item_chains items.now.items (lists_of block.old held.old)) ≡ [] }
    requires none { held.old.chains.used ≡ 0 }
    requires versions { CanBePut items.now.items held.old versions.now places.now }
    ensures { HavePut items.now.items block.old held.old block.new held.new
        versions.now (length versions.now) }
{
    for stamped in places {
        let place = stamped.place as usize;
        add_version(block, items, held, &versions.version(place));
    }
}

/// Puts a version with its mark into the chain of its item, which has none of its stamp.
fn add_version(block: &mut Block, items: &ItemList, held: &mut Versions, version: &Version)
    requires chains { HaveChains items.now.items block.old held.old }
    requires room { held.old.chains.used < held.old.chains.share }
    requires known { HasEntry (entries_of items.now.items) version.now.prepared.key }
    requires missing { version_at version.now.prepared.key version.now.prepared.stamp
        (together (item_chains items.now.items (lists_of block.old held.old))) ≡ None }
    ensures { let all = together (item_chains items.now.items (lists_of block.old held.old)) in
        HavePut items.now.items block.old held.old block.new held.new
        (version.now ∷ all) (held.old.chains.used + 1) }
{
    let Ok(place) = items::search(items, &version.prepared.key) else {
        unreachable!()
    };
    held.put(block, items.get(place).chain, version);
}

/// Puts each item whose latest committed version has a tag under it, in an empty index.
pub(crate) fn index_latest(block: &Block, items: &ItemList, held: &Versions, index: &mut TagIndex)
    requires stands { HoldsChains block.now held.now.chains }
    requires laid { IsLaid items.now.items (lists_of block.now held.now) }
    requires within { length items.now.items ≤ length (lists_of block.now held.now) }
    requires room { length items.now.items ≤ index.old.room }
    requires empty { index.old.tags ≡ map.empty }
    ensures { IndexesLatest items.now.items block.now held.now index.old index.new }
{
    for place in 0..items.len() {
        let item = items.get(place);
        index.move_numbered(
            item.chain,
            &item.entry.key,
            latest_tag(block, held, item.chain),
        );
    }
}

/// The tag of the latest committed version of a chain, empty where none is committed.
fn latest_tag(block: &Block, held: &Versions, chain: u32) -> Tag
    requires { HasChain block.now held.now.chains chain }
    ensures { (key : List ℕ) → All (IsVersionOf key) (versions_at block.now held.now chain)
        → IsTagOf key (versions_at block.now held.now chain) result }
{
    match held.chains.latest(block, chain) {
        Some(latest) => latest.tag(),
        None => items::no_tag(),
    }
}

/// Adds marks to an empty list with room for them.
pub(crate) fn add_marks(marks: &mut Vec<Stamp>, added: &[Stamp])
    requires empty { marks.old.items ≡ [] }
    requires room { length added.now ≤ vec_capacity marks.old }
    ensures added { marks.new.items ≡ added.now }
    ensures capacity { vec_capacity marks.old ≤ vec_capacity marks.new }
{
    for mark in added {
        marks.push_reserved(*mark);
    }
}

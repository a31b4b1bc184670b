//! What a collection does to the items.
ghost use Rattle.std.specs.Prelude.{◌≡◌, ◌<◌, ◌≤◌, ◌^◌, ◌↔◌, ℕ, false, All, [], None, Some, IfSome, IsSomeAnd, IsTrue, length, slice_set, slice_index_or};
ghost use Rattle.version_chain.specs.Changes.{HasChain};
ghost use Rattle.prepare_commit.specs.declared.items.ChainedItem.{ChainedItem};
ghost use Rattle.prepare_commit.specs.Calls.{lists_of, versions_at, CanCollect, GivesUpOf, HoldItems, IsCollected, IsCollectedAt, RemembersBoth};
ghost use Rattle.prepare_commit.specs.Layout.{IsPlaceOf, raised_item, kept_chain};
ghost use Rattle.prepare_commit.specs.Remembered.{AreSettledBeside, IsPassedOver, IsRemembered, StayNoted, in_either};

use crate::changed::ChangedChains;
use crate::items::{self, ChainedItem, ItemList, KnownItem};
use crate::versions::Versions;
use stamps::Keep;
use version_chain::Block;

/// Raises each item's floor to the stamp of its last committed version that a collection keeps, gives up the versions
/// below the floors, and answers how many they were. Where the last collection kept as many or fewer, it visits the items alone whose
/// chains changed since; else, where the one that kept the least did, those whose chains changed since that one; else all.
pub(crate) fn collect(
    block: &mut Block,
    items: &mut ItemList,
    versions: &mut Versions,
    changed: &mut ChangedChains,
    left: &mut ChangedChains,
    last: &mut Option<Keep>,
    least: &mut Option<Keep>,
    keep: Keep,
) -> u32
    requires { CanCollect block.old versions.old items.old.items
        last.old changed.old least.old left.old }
    ensures collected { IsCollected keep result
        block.old versions.old items.old block.new versions.new items.new }
    ensures long { length changed.new ≡ length changed.old }
    ensures as_long { length left.new ≡ length left.old }
    ensures noted { RemembersBoth last.new changed.new least.new left.new
        items.new.items (lists_of block.new versions.new) }
{
    let freed = cut(block, items, versions, changed, left, *last, *least, keep);
    remember(changed, left, last, least, keep);
    freed
}

/// Cuts the chains that a collection visits. Where the last one kept more, it notes with those that were left the chains that changed.
fn cut(
    block: &mut Block,
    items: &mut ItemList,
    versions: &mut Versions,
    changed: &ChangedChains,
    left: &mut ChangedChains,
    last: Option<Keep>,
    least: Option<Keep>,
    keep: Keep,
) -> u32
    requires { CanCollect block.old versions.old items.old.items
        last changed.now least left.old }
    ensures collected { IsCollected keep result
        block.old versions.old items.old block.new versions.new items.new }
    ensures as_long { length left.new ≡ length left.old }
    ensures left { StayNoted (in_either left.old changed.now) (in_either left.new changed.now) }
{
    if kept_no_more(last, keep) {
        return cut_each(block, items, versions, changed.numbers(), keep);
    }
    left.note_those(changed);
    if kept_no_more(least, keep) {
        return cut_each(block, items, versions, left.numbers(), keep);
    }
    cut_items(block, items, versions, keep)
}

/// Remembers how many versions a collection kept, and takes out the chains that changed. Where an earlier one kept fewer, these are noted
/// for the next one that keeps so few.
fn remember(
    changed: &mut ChangedChains,
    left: &mut ChangedChains,
    last: &mut Option<Keep>,
    least: &mut Option<Keep>,
    keep: Keep,
)
    requires { length left.old ≡ length changed.old }
    ensures long { length changed.new ≡ length changed.old }
    ensures as_long { length left.new ≡ length left.old }
    ensures last { last.new ≡ Some keep }
    ensures none { (chain : ℕ) → slice_index_or changed.new chain false ≡ false }
    ensures least { IsRemembered keep least.old (in_either left.old changed.old)
        least.new (in_either left.new changed.new) }
{
    if kept_fewer(*least, keep) {
        left.note_those(changed);
    } else {
        left.clear();
        *least = Some(keep);
    }
    changed.clear();
    *last = Some(keep);
}

/// Whether an earlier collection kept fewer versions than this one.
fn kept_fewer(last: Option<Keep>, keep: Keep) -> bool
    ensures { IsTrue result ↔ IsSomeAnd last (λ number. number < keep) }
{
    match last {
        Some(last) => last < keep,
        None => false,
    }
}

/// Whether an earlier collection kept as many versions as this one, or fewer. Then it left nothing to this one in an item that did not
/// change since.
fn kept_no_more(last: Option<Keep>, keep: Keep) -> bool
    ensures { IsTrue result ↔ IsSomeAnd last (λ number. number ≤ keep) }
{
    match last {
        Some(last) => last <= keep,
        None => false,
    }
}

/// What such a collection does to all items, in their order.
fn cut_items(block: &mut Block, items: &mut ItemList, versions: &mut Versions, keep: Keep) -> u32
    requires held { HoldItems block.old versions.old items.old.items }
    requires few { versions.old.chains.used < 2 ^ 32 }
    ensures { IsCollected keep result
        block.old versions.old items.old block.new versions.new items.new }
{
    let mut freed = 0;
    for place in 0..items.len() {
        freed += cut_item(block, items, versions, place, keep);
    }
    freed
}

/// What such a collection does to the items of some chains, where it changes no other.
fn cut_each(
    block: &mut Block,
    items: &mut ItemList,
    versions: &mut Versions,
    chains: &[u32],
    keep: Keep,
) -> u32
    requires held { HoldItems block.old versions.old items.old.items }
    requires few { versions.old.chains.used < 2 ^ 32 }
    requires known { All (λ chain. chain < length (lists_of block.old versions.old)) chains.now }
    requires settled { AreSettledBeside keep chains.now items.old.items
        (lists_of block.old versions.old) }
    ensures { IsCollected keep result
        block.old versions.old items.old block.new versions.new items.new }
{
    let mut freed = 0;
    for chain in chains {
        freed += cut_chain(block, items, versions, *chain, keep);
    }
    freed
}

/// Raises the floor of the item that has a chain, if one has a version there, gives up its versions below the floor, and
/// answers how many they were.
fn cut_chain(
    block: &mut Block,
    items: &mut ItemList,
    versions: &mut Versions,
    chain: u32,
    keep: Keep,
) -> u32
    requires held { HoldItems block.old versions.old items.old.items }
    requires known { chain < length (lists_of block.old versions.old) }
    ensures { IsCollectedAt chain keep result
        block.old versions.old items.old block.new versions.new items.new }
{
    let Some(place) = find_place(block, items, versions, chain) else {
        return 0;
    };
    cut_item(block, items, versions, place, keep)
}

/// The place of the item that has a chain: where it last stood, or else where the key of the chain's first version is found. None where no
/// version is there.
fn find_place(block: &Block, items: &mut ItemList, versions: &Versions, chain: u32) -> Option<usize>
    requires held { HoldItems block.now versions.now items.old.items }
    requires known { chain < length (lists_of block.now versions.now) }
    ensures same { items.new ≡ items.old }
    ensures found { IfSome result (IsPlaceOf items.old.items chain) }
    ensures none { result ≡ None → versions_at block.now versions.now chain ≡ [] }
{
    let last = items.place_of(chain);
    if last.is_some() {
        return last;
    }
    let first = versions.first(block, chain)?;
    let key = first.key();
    let Ok(place) = items::search(items, &key) else {
        unreachable!()
    };
    items.note(chain, place);
    Some(place)
}

/// Raises the floor of the item at a place, gives up its versions below the floor, and answers how many they were.
fn cut_item(
    block: &mut Block,
    items: &mut ItemList,
    versions: &mut Versions,
    place: usize,
    keep: Keep,
) -> u32
    requires held { HoldItems block.old versions.old items.old.items }
    requires within { place < length items.old.items }
    ensures left { GivesUpOf result
        block.old versions.old items.old block.new versions.new items.new }
    ensures raised { (i : ChainedItem) → i ≡ slice_index_or items.old.items place i
        → items.new.items ≡ slice_set items.old.items place
        (raised_item keep (lists_of block.old versions.old) i) }
    ensures kept { (i : ChainedItem) → i ≡ slice_index_or items.old.items place i
        → lists_of block.new versions.new ≡ slice_set (lists_of block.old versions.old) i.chain
        (kept_chain keep (lists_of block.old versions.old) i) }
{
    let item = raised_item(block, *items.get(place), versions, keep);
    let raised = item;
    items.set(place, raised);
    versions.cut_below(block, item.chain, item.entry.floor)
}

/// An item with its floor raised.
fn raised_item(block: &Block, item: ChainedItem, versions: &Versions, keep: Keep) -> ChainedItem
    requires { HasChain block.now versions.now.chains item.chain }
    ensures { result ≡ raised_item keep (lists_of block.now versions.now) item }
{
    let kept = versions.kth_committed(block, item.chain, keep);
    if kept <= item.entry.floor {
        return item;
    }
    ChainedItem {
        entry: KnownItem {
            key: item.entry.key,
            floor: kept,
        },
        chain: item.chain,
    }
}

/// Notes the chains that a collection may change, and no others, of which there are so many in all: those that `collect` visits.
pub(crate) fn note_collected(
    since: &mut ChangedChains,
    changed: &ChangedChains,
    left: &ChangedChains,
    chains: u32,
    last: Option<Keep>,
    least: Option<Keep>,
    keep: Keep,
)
    requires as_long { length since.old ≡ length changed.now }
    requires left { length since.old ≡ length left.now }
    requires chains { length since.old ≡ chains }
    ensures long { length since.new ≡ length since.old }
    ensures noted { (chain : ℕ) → chain < length since.old
        → ((slice_index_or since.new chain false ≡ false)
        ↔ ((slice_index_or since.old chain false ≡ false)
        × IsPassedOver keep last changed.now least (in_either left.now changed.now) chain)) }
{
    if kept_no_more(last, keep) {
        since.note_those(changed);
    } else if kept_no_more(least, keep) {
        since.note_those(changed);
        since.note_those(left);
    } else {
        since.note_all(chains);
    }
}

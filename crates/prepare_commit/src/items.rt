//! The items of a cell, in the order of their keys.
ghost use Rattle.std.specs.Prelude.{◌≡◌, ◌<◌, ◌≤◌, ◌+◌, [], IfOk, IfSome, IsTrue, MatchResult, insert as list_insert, length, slice_index_or, slice_set, vec_capacity, vec_len};
ghost use Rattle.stamps.specs.Key.{key_cmp};
ghost use Rattle.secondary_index.specs.Ordered.{IsInOrder, StandsAt, BelongsAt};
ghost use Rattle.prepare_commit.specs.Layout.{IsPlaceOf, item_row};

use crate::place_hints::{Guesses, PlaceHints};
use lists::RowList;
use stamps::{Key, Stamp, Tag};
use std::alloc::{AllocError, Global};
use std::marker::Model;

/// An item of which a version was prepared once. Versions below its floor are dropped.
#[derive(Clone, Copy, PartialEq, Eq)]
pub(crate) struct KnownItem {
    pub(crate) key: Key,
    pub(crate) floor: Stamp,
}

/// An entry, and the number of the chain in which the versions of its item stand.
#[derive(Clone, Copy)]
pub(crate) struct ChainedItem {
    pub(crate) entry: KnownItem,
    pub(crate) chain: u32,
}

/// The items of a cell, in the order of their keys, with room for so many. Contracts see the room and the list.
#[derive(Drop)]
pub(crate) struct ItemList {
    list: RowList<ChainedItem>,
    hints: PlaceHints,
}

impl Model for ItemList {
    ghost use Rattle.lists.specs.Listing.{Listing};
    ghost use Rattle.prepare_commit.specs.declared.items.ChainedItem.{ChainedItem};

    ghost Value = { Listing ChainedItem };

    ghost view = { λ i. i.list };
}

impl ItemList {
    /// No items, with room for so many. The one error is that the allocation failed.
    pub(crate) fn open(alloc: Global, room: u32) -> Result<ItemList, AllocError>
        ensures { IfOk result (λ items. items ≡ record { room = room; items = [] }) }
    {
        Ok(ItemList {
            list: RowList::open(alloc, room)?,
            hints: PlaceHints::open(alloc, room)?,
        })
    }

    /// How many items there are.
    pub(crate) fn len(&self) -> usize
        ensures { result ≡ length self.now.items }
    {
        self.list.len()
    }

    /// The item at a place.
    pub(crate) fn get(&self, place: usize) -> &ChainedItem
        requires { place < length self.now.items }
        ensures { result.now ≡ slice_index_or self.now.items place result.now }
    {
        self.list.get(place)
    }

    /// Writes over the item at a place.
    pub(crate) fn set(&mut self, place: usize, item: ChainedItem)
        requires { place < length self.old.items }
        ensures items { self.new.items ≡ slice_set self.old.items place item }
        ensures len { length self.new.items ≡ length self.old.items }
        ensures room { self.new.room ≡ self.old.room }
    {
        self.list.set(place, item);
    }

    /// Puts in an item, for which there is room, before the one at a place, or at the end.
    pub(crate) fn insert(&mut self, place: usize, item: ChainedItem)
        requires within { place ≤ length self.old.items }
        requires room { length self.old.items < self.old.room }
        ensures items { self.new.items ≡ list_insert self.old.items place item }
        ensures len { length self.new.items ≡ length self.old.items + 1 }
        ensures room { self.new.room ≡ self.old.room }
    {
        self.list.insert(place, item);
        self.hints.widen(self.list.len());
        self.hints.note(&item.entry.key, place);
        self.hints.note_chain(item.chain, place);
    }

    /// Where the item that has a chain stands, if it stands where it last did.
    pub(crate) fn place_of(&self, chain: u32) -> Option<usize>
        ensures { IfSome result (IsPlaceOf self.now.items chain) }
    {
        let place = self.hints.of_chain(chain);
        if place < self.list.len() && self.list.get(place).chain == chain {
            return Some(place);
        }
        None
    }

    /// Whether the item of a key stands at a place.
    #[inline(always)]
    fn stands_at(&self, place: usize, key: &Key) -> bool
        ensures { IsTrue result → StandsAt key_cmp item_row key.now self.now.items place }
    {
        place < self.list.len() && self.list.get(place).entry.key == *key
    }

    /// Notes where the item that has a chain stands.
    pub(crate) fn note(&mut self, chain: u32, place: usize)
        ensures { self.new ≡ self.old }
    {
        self.hints.note_chain(chain, place);
    }
}

/// Inserts a value where there is room for it, which takes no memory.
pub(crate) fn insert_within<T: Drop>(list: &mut Vec<T>, index: usize, value: T)
    requires within { index ≤ vec_len list.old }
    requires room { vec_len list.old < vec_capacity list.old }
    ensures items { list.new.items ≡ list_insert list.old.items index value }
    ensures len { vec_len list.new ≡ vec_len list.old + 1 }
    ensures capacity { vec_capacity list.old ≤ vec_capacity list.new }
{
    let _ = list.insert(index, value);
}

/// Where the item of a key stands, or else where it would go in. It looks first where the item was last found.
#[inline(always)]
pub(crate) fn search(items: &ItemList, key: &Key) -> Result<usize, usize>
    requires { IsInOrder key_cmp item_row items.now.items }
    ensures { MatchResult result (StandsAt key_cmp item_row key.now items.now.items)
        (BelongsAt key_cmp item_row key.now items.now.items) }
{
    let guesses = items.hints.of(key);
    let place = guesses.first();
    if items.stands_at(place, key) {
        return Ok(place);
    }
    search_on(items, key, guesses.rest())
}

// The same, where the item is not at the first of these places.
#[inline(never)]
fn search_on(items: &ItemList, key: &Key, guesses: Guesses) -> Result<usize, usize>
    requires { IsInOrder key_cmp item_row items.now.items }
    ensures { MatchResult result (StandsAt key_cmp item_row key.now items.now.items)
        (BelongsAt key_cmp item_row key.now items.now.items) }
{
    let mut left = guesses;
    for _guess in 1..Guesses::COUNT {
        let place = left.first();
        if items.stands_at(place, key) {
            return Ok(place);
        }
        left = left.rest();
    }
    let found = search_list(&items.list, key);
    if let Ok(place) = found {
        items.hints.note(key, place);
    }
    found
}

// The same, by a binary search.
fn search_list(list: &RowList<ChainedItem>, key: &Key) -> Result<usize, usize>
    requires { IsInOrder key_cmp item_row list.now.items }
    ensures { MatchResult result (StandsAt key_cmp item_row key.now list.now.items)
        (BelongsAt key_cmp item_row key.now list.now.items) }
{
    list.binary_search_by(|item| item.entry.key.cmp(key))
}

/// The tag that marks nothing.
pub(crate) fn no_tag() -> Tag
    ensures { result ≡ [] }
{
    Tag::read(b"").unwrap()
}

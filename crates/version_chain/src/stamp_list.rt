//! A list of kept versions, in the order of their stamps.
ghost use Rattle.std.specs.Prelude.{◌≡◌, ◌↔◌, ◌==◌, ◌+◌, ◌-◌, ◌^◌, ◌<◌, ◌≤◌, Bool, IsTrue, false, [], ◌++◌, count_by, take, length, filter, map, not, nat_lt, IfOk, slice_range, slice_index_or, vec_len, vec_capacity, insert as list_insert};
ghost use Rattle.std.specs.List.{list_any};
ghost use Rattle.version_chain.specs.Listed.{IsListedInto, held_at, is_named};
ghost use Rattle.version_chain.specs.Listing.{Ascends, EndsAtMost, EndsBelow, count_at};
ghost use Rattle.version_chain.specs.Place.{least_of};

use crate::shared_block::Block;
use crate::version::Bound;
use stamps::Stamp;
use std::alloc::{AllocError, Global};
use std::marker::Model;
use version_arena::Slot;

// So many versions at the end of a list are looked at before it is searched.
const FEW: u32 = 8;

/// A kept version: its stamp, and the slot of its cell.
#[derive(Clone, Copy)]
pub struct Kept {
    /// The stamp of its version, by which the list is ordered.
    pub stamp: Stamp,
    /// Where its version lies in the block.
    pub slot: Slot,
}

/// Kept versions, the least stamp first. Contracts see how many there is room for, and the list.
///
/// Only `open` takes memory.
#[derive(Drop)]
pub(crate) struct StampList {
    room: u32,
    kept: Vec<Kept>,
}

impl Model for StampList {
    ghost use Rattle.std.specs.Prelude.{◌≤◌, vec_capacity};
    ghost use Rattle.version_chain.specs.Listing.{KeptListing, Ascends};

    ghost Value = { KeptListing };

    ghost view = { λ l. record { room = l.room; kept = l.kept.items } };

    ghost invariant = { λ l. Ascends l.kept.items × (l.room ≤ vec_capacity l.kept) };
}

impl StampList {
    /// An empty list with room for so many. The one error is that the allocation failed.
    pub(crate) fn open(alloc: Global, room: u32) -> Result<StampList, AllocError>
        ensures { IfOk result (λ list. list ≡ record { room = room; kept = [] }) }
    {
        Ok(StampList {
            room,
            kept: Vec::with_capacity(alloc, room as usize)?,
        })
    }

    /// Puts in a version, for which there is room, unless it is listed. It shifts those of greater stamps.
    #[inline(always)]
    pub(crate) fn insert(&mut self, stamp: Stamp, slot: Slot)
        requires { length self.old.kept < self.old.room }
        ensures room { self.new.room ≡ self.old.room }
        ensures listed { IsListedInto self.old.kept self.new.kept
            (held_at stamp slot) }
    {
        let (first, end) = self.places(stamp);
        if !names_slot(&self.kept[first..end], slot) {
            insert_within(&mut self.kept, end, Kept { stamp, slot });
        }
    }

    /// The number of versions.
    pub(crate) fn len(&self) -> usize
        ensures count { result ≡ length self.now.kept }
        ensures few { length self.now.kept < 2 ^ 63 }
    {
        self.kept.len()
    }

    /// Whether there is no room for one more.
    pub(crate) fn is_full(&self) -> bool
        ensures { IsTrue result ↔ (self.now.room ≤ length self.now.kept) }
    {
        self.kept.len() >= self.room as usize
    }

    /// Whether there is a version of this stamp, found by a binary search.
    pub(crate) fn has(&self, stamp: Stamp) -> bool
        ensures { IsTrue result ↔ (0 < count_at stamp self.now.kept) }
    {
        if self.kept.is_empty() {
            return false;
        }
        let (first, end) = self.places(stamp);
        first < end
    }

    /// Whether no stamp is above this one. It looks at the last version alone.
    pub(crate) fn ends_at_most(&self, stamp: Stamp) -> bool {
        match self.kept.last() {
            Some(last) => last.stamp <= stamp,
            None => true,
        }
    }

    /// Takes all versions of another list, for which there is room. It visits those, and shifts the versions of greater
    /// stamps than the least of them once.
    #[cold]
    #[inline(never)]
    pub(crate) fn take_all(&mut self, other: &mut StampList)
        requires { length self.old.kept + length other.old.kept ≤ self.old.room }
        ensures room { self.new.room ≡ self.old.room }
        ensures other_room { other.new.room ≡ other.old.room }
        ensures taken { other.new.kept ≡ [] }
        ensures merged { (test : Kept → Bool)
            → count_by test self.new.kept
            ≡ count_by test self.old.kept + count_by test other.old.kept }
    {
        let front = self.kept.len();
        append_within(&mut self.kept, &other.kept);
        merge_back(&mut self.kept, front, &other.kept);
        other.kept.clear();
    }

    /// Where the versions of a stamp begin and end. It looks for the first among the last few of the list, and then by a
    /// binary search, and visits each.
    pub(crate) fn places(&self, stamp: Stamp) -> (usize, usize)
        ensures ordered { result.0 ≤ result.1 }
        ensures within { result.1 ≤ length self.now.kept }
        ensures few { result.1 < 2 ^ 63 }
        ensures together { slice_range self.now.kept result.0 result.1
            ≡ filter (λ k. k.stamp == stamp) self.now.kept }
        ensures above { EndsAtMost self.now.kept stamp result.1 }
    {
        let first = place_from(&self.kept, stamp);
        (first, end_of_run(&self.kept, first, stamp))
    }

    /// The version at a place.
    pub(crate) fn at(&self, place: usize) -> Kept
        requires { place < length self.now.kept }
        ensures { result ≡ slice_index_or self.now.kept place result }
    {
        self.kept[place]
    }

    /// The versions within a bound, found by a binary search.
    pub(crate) fn within(&self, bound: &Bound) -> &[Kept]
        ensures { result.now
            ≡ filter (λ k. not (nat_lt k.stamp (least_of bound.now))) self.now.kept }
    {
        let first = self.kept.partition_point(|kept| bound.excludes(kept.stamp));
        &self.kept[first..]
    }

    /// Takes out the versions that their cells do not hold any more. It goes over the list once, and looks into each cell.
    pub(crate) fn sweep_unheld(&mut self, block: &Block, tenant: u32)
        ensures room { self.new.room ≡ self.old.room }
        ensures swept { self.new.kept ≡ filter (is_named tenant block.now) self.old.kept }
    {
        self.kept.retain(|kept| is_held(block, tenant, kept));
    }
}

// Behind the versions of lower stamps, where those of this stamp begin. It looks at the last few versions before it searches.
fn place_from(list: &[Kept], stamp: Stamp) -> usize
    requires { Ascends list.now }
    ensures within { result ≤ length list.now }
    ensures place { EndsBelow list.now stamp result }
{
    let mut first = list.len();
    for _step in 0..FEW {
        if !ends_from(list, first, stamp) {
            return first;
        }
        first -= 1;
    }
    place_by_halves(list, stamp)
}

// Behind the versions of lower stamps, where those of this stamp begin, by a binary search.
fn place_by_halves(list: &[Kept], stamp: Stamp) -> usize
    requires { Ascends list.now }
    ensures within { result ≤ length list.now }
    ensures place { EndsBelow list.now stamp result }
{
    list.partition_point(|kept| kept.stamp < stamp)
}

// Whether there is a last one of so many versions at the front of a list, and its stamp is not below this one.
fn ends_from(list: &[Kept], left: usize, stamp: Stamp) -> bool
    requires { left ≤ length list.now }
    ensures from { IsTrue result
        → (0 < left) × ((d : Kept) → stamp ≤ (slice_index_or list.now (left - 1) d).stamp) }
    ensures below { result ≡ false → 0 < left → (d : Kept)
        → (slice_index_or list.now (left - 1) d).stamp < stamp }
{
    if left == 0 {
        return false;
    }
    stamp <= list[left - 1].stamp
}

// Where the versions of a stamp end, of which this is the place of the first. It visits each of them.
fn end_of_run(list: &[Kept], first: usize, stamp: Stamp) -> usize
    requires ascends { Ascends list.now }
    requires within { first ≤ length list.now }
    requires first { EndsBelow list.now stamp first }
    ensures within { result ≤ length list.now }
    ensures place { EndsAtMost list.now stamp result }
{
    for end in first..list.len() {
        if list[end].stamp != stamp {
            return end;
        }
    }
    list.len()
}

// Whether one of these versions is in this slot. It visits each of them.
#[inline(always)]
fn names_slot(run: &[Kept], slot: Slot) -> bool
    ensures { result ≡ list_any (λ k. k.slot == slot) run.now }
{
    run.iter().any(|kept| kept.slot == slot)
}

// Whether the cell of a listed version holds a version of the tenant and of this stamp.
pub(crate) fn is_held(block: &Block, tenant: u32, kept: &Kept) -> bool
    ensures { result ≡ is_named tenant block.now kept.now }
{
    if !block.is_live(kept.slot) {
        return false;
    }
    let node = block.get(kept.slot);
    node.tenant() == tenant && node.is_at(kept.stamp)
}

// Merges versions into those at the front of a list, behind which there are as many places. From the back on it puts
// the greatest that is left into the last of those places.
fn merge_back(list: &mut [Kept], front: usize, run: &[Kept])
    requires long { length list.old ≡ front + length run.now }
    requires front { Ascends (take front list.old) }
    requires run { Ascends run.now }
    ensures ascends { Ascends list.new }
    ensures merged { (test : Kept → Bool)
        → count_by test list.new ≡ count_by test (take front list.old) + count_by test run.now }
{
    let mut left = front;
    let mut unplaced = run.len();
    while unplaced > 0 {
        let last = run[unplaced - 1];
        if ends_above(list, left, last.stamp) {
            left -= 1;
            list[left + unplaced] = list[left];
        } else {
            unplaced -= 1;
            list[left + unplaced] = last;
        }
    }
}

// Whether there is a last one of so many versions at the front of a list, and its stamp is above this one.
fn ends_above(list: &[Kept], left: usize, stamp: Stamp) -> bool
    requires { left ≤ length list.now }
    ensures above { IsTrue result
        → (0 < left) × ((d : Kept) → stamp < (slice_index_or list.now (left - 1) d).stamp) }
    ensures not_above { result ≡ false → 0 < left → (d : Kept)
        → (slice_index_or list.now (left - 1) d).stamp ≤ stamp }
{
    if left == 0 {
        return false;
    }
    stamp < list[left - 1].stamp
}

// Puts versions behind those of a list, where there is room for them, which takes no memory.
fn append_within(list: &mut Vec<Kept>, added: &[Kept])
    requires room { vec_len list.old + length added.now ≤ vec_capacity list.old }
    ensures items { list.new.items ≡ list.old.items ++ added.now }
    ensures len { vec_len list.new ≡ vec_len list.old + length added.now }
    ensures capacity { vec_capacity list.old ≤ vec_capacity list.new }
{
    let _ = list.extend_from_slice(added);
}

// Inserts a value where there is room for it, which takes no memory.
#[inline(always)]
fn insert_within<T: Drop>(list: &mut Vec<T>, index: usize, value: T)
    requires within { index ≤ vec_len list.old }
    requires room { vec_len list.old < vec_capacity list.old }
    ensures items { list.new.items ≡ list_insert list.old.items index value }
    ensures len { vec_len list.new ≡ vec_len list.old + 1 }
    ensures capacity { vec_capacity list.old ≤ vec_capacity list.new }
{
    if index == list.len() {
        list.push_reserved(value);
        return;
    }
    let _ = list.insert(index, value);
}

//! The kept versions of a tenant, in two lists.
ghost use Rattle.std.specs.Prelude.{◌≡◌, ◌↔◌, ◌==◌, ◌+◌, ◌<◌, ◌≤◌, ◌++◌, [], Bool, IsTrue, false, length, filter, not, nat_lt, count_by, IfOk, slice_range, slice_index_or};
ghost use Rattle.version_chain.specs.Listing.{AreApart, count_at};
ghost use Rattle.version_chain.specs.Listed.{IsListedInto, held_at, is_named};
ghost use Rattle.version_chain.specs.Place.{least_of};
ghost use Rattle.version_chain.specs.Sweeping.{IsShort};

use crate::shared_block::Block;
use crate::stamp_list::{Kept, StampList};
use crate::version::Bound;
use stamps::Stamp;
use std::alloc::{AllocError, Global};
use std::marker::Model;
use version_arena::Slot;

// So many versions at most stand apart from the others.
const MOST_LATE: u32 = 512;

// A list is swept once it has so many versions more than twice those that are held.
const SPARE: usize = 64;

/// The kept versions in two lists, in each of them the least stamp first. Contracts see how many there is room for, and
/// the one list before the other. A version that left its cell stays listed until a sweep.
///
/// A stamp that is not below those of the main list goes to its end. Any other goes into the list of the late ones, which is
/// short, so that little is shifted; once that is full, it is merged into the main list. The versions of a stamp
/// stand in one of the two: where the main list has one of them, the others follow it there.
///
/// Only `open` takes memory.
#[derive(Drop)]
pub(crate) struct KeptList {
    main: StampList,
    late: StampList,
}

impl Model for KeptList {
    ghost use Rattle.std.specs.Prelude.{◌<◌, ◌++◌};
    ghost use Rattle.version_chain.specs.Listing.{KeptListing, AreApart};

    ghost Value = { KeptListing };

    ghost view = { λ l. record { room = l.main.room; kept = l.main.kept ++ l.late.kept } };

    ghost invariant = { λ l. AreApart l.main.kept l.late.kept × (0 < l.main.room → 0 < l.late.room) };
}

impl KeptList {
    /// An empty list with room for so many. The one error is that the allocation failed.
    pub(crate) fn open(alloc: Global, room: u32) -> Result<KeptList, AllocError>
        ensures { IfOk result (λ list. list ≡ record { room = room; kept = [] }) }
    {
        Ok(KeptList {
            main: StampList::open(alloc, room)?,
            late: StampList::open(alloc, room.min(MOST_LATE))?,
        })
    }

    /// Puts in a version, for which there is room, unless it is listed. It shifts those of greater stamps in one of the two
    /// lists: in the main one where this has a version of the stamp, or a full list of late ones is to be merged into it.
    #[inline(always)]
    pub(crate) fn insert(&mut self, stamp: Stamp, slot: Slot)
        requires { length self.old.kept < self.old.room }
        ensures room { self.new.room ≡ self.old.room }
        ensures listed { IsListedInto self.old.kept self.new.kept
            (held_at stamp slot) }
    {
        make_room(&mut self.main, &mut self.late);
        if is_late(&self.main, &self.late, stamp) {
            self.late.insert(stamp, slot);
        } else {
            self.main.insert(stamp, slot);
        }
    }

    /// Where the versions of a stamp begin and end, found in each list among its last few or by a binary search.
    pub(crate) fn places(&self, stamp: Stamp) -> (usize, usize)
        ensures ordered { result.0 ≤ result.1 }
        ensures within { result.1 ≤ length self.now.kept }
        ensures together { slice_range self.now.kept result.0 result.1
            ≡ filter (λ k. k.stamp == stamp) self.now.kept }
    {
        let (first, end) = self.late.places(stamp);
        if first == end {
            return self.main.places(stamp);
        }
        let before = self.main.len();
        (before + first, before + end)
    }

    /// The version at a place.
    pub(crate) fn at(&self, place: usize) -> Kept
        requires { place < length self.now.kept }
        ensures { result ≡ slice_index_or self.now.kept place result }
    {
        let before = self.main.len();
        if place < before {
            self.main.at(place)
        } else {
            self.late.at(place - before)
        }
    }

    /// The versions within a bound, found by a binary search in each list.
    pub(crate) fn upward(&self, bound: &Bound) -> Upward<'_>
        ensures { result.main.now ++ result.late.now
            ≡ filter (λ k. not (nat_lt k.stamp (least_of bound.now))) self.now.kept }
    {
        Upward {
            main: self.main.within(bound),
            late: self.late.within(bound),
        }
    }

    /// Whether a sweep is due: the list is full, or has some more than twice as many versions as are held.
    #[inline(always)]
    pub(crate) fn is_due(&self, held: u32, room: u32) -> bool
        ensures { result ≡ false ↔ IsShort held room self.now.kept }
    {
        let listed = self.main.len() + self.late.len();
        listed >= room as usize || listed > 2 * held as usize + SPARE
    }

    /// Takes out the versions that their cells do not hold any more. It looks into the cell of each.
    #[cold]
    #[inline(never)]
    pub(crate) fn sweep(&mut self, block: &Block, tenant: u32)
        ensures room { self.new.room ≡ self.old.room }
        ensures swept { self.new.kept ≡ filter (is_named tenant block.now) self.old.kept }
    {
        self.main.sweep_unheld(block, tenant);
        self.late.sweep_unheld(block, tenant);
    }
}

// Merges the late versions into the main list where no more of them fit.
#[inline(always)]
fn make_room(main: &mut StampList, late: &mut StampList)
    requires apart { AreApart main.old.kept late.old.kept }
    requires room { length main.old.kept + length late.old.kept ≤ main.old.room }
    requires any { 0 < late.old.room }
    ensures main_room { main.new.room ≡ main.old.room }
    ensures late_room { late.new.room ≡ late.old.room }
    ensures free { length late.new.kept < late.new.room }
    ensures apart { AreApart main.new.kept late.new.kept }
    ensures same { (test : Kept → Bool)
        → count_by test main.new.kept + count_by test late.new.kept
        ≡ count_by test main.old.kept + count_by test late.old.kept }
{
    if late.is_full() {
        main.take_all(late);
    }
}

// Whether a version of this stamp goes beside the late ones. It does not where the main list has one of the stamp, or none
// of a greater one; and it does where they have one of the stamp.
fn is_late(main: &StampList, late: &StampList, stamp: Stamp) -> bool
    requires { AreApart main.now.kept late.now.kept }
    ensures late { IsTrue result → count_at stamp main.now.kept ≡ 0 }
    ensures not_late { result ≡ false → count_at stamp late.now.kept ≡ 0 }
{
    if late.has(stamp) {
        return true;
    }
    if main.ends_at_most(stamp) {
        return false;
    }
    !main.has(stamp)
}

/// Versions of both lists, which are visited from the least stamp up.
#[derive(Drop)]
pub(crate) struct Upward<'l> {
    main: &'l [Kept],
    late: &'l [Kept],
}

impl<'l> Upward<'l> {
    /// Takes out the version of the least stamp, if any is left.
    pub(crate) fn take_least(&mut self) -> Option<Kept> {
        if self.is_late_next() {
            let (kept, rest) = self.late.split_first()?;
            self.late = rest;
            return Some(*kept);
        }
        let (kept, rest) = self.main.split_first()?;
        self.main = rest;
        Some(*kept)
    }

    // Whether a late version has the least stamp.
    fn is_late_next(&self) -> bool {
        match (self.main.first(), self.late.first()) {
            (Some(main), Some(late)) => late.stamp < main.stamp,
            (main, _) => main.is_none(),
        }
    }
}

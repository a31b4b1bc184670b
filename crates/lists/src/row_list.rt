//! The list.
ghost use Rattle.std.specs.Prelude.{◌≡◌, ◌+◌, Bool, true, false, ◌<◌, ◌≤◌, ◌^◌, [], ◌∷◌, ◌++◌, length, insert, remove, slice_set, slice_index_or, vec_len, vec_capacity, IfOk};
ghost use Rattle.std.specs.Fn.{ComputesKey};
ghost use Rattle.std.specs.List.Sorted.{IsSearchInRange, IsBinarySearchResult, IsPartitionedBy, IsPartitionPoint};
ghost use Rattle.lists.specs.Placed.{AreBelow, IsPut};

use std::alloc::{AllocError, Global};
use std::cmp::Ordering;
use std::marker::Model;

/// A list with room for so many elements. Contracts see the room and the list.
///
/// Each element stays in a row of its own. An insertion or a removal shifts the numbers of the rows of those that stand
/// behind, four bytes each, and no element. Only `open` takes memory.
#[derive(Drop)]
pub struct RowList<T> {
    room: u32,
    rows: Vec<T>,
    // The row of each element.
    places: Vec<u32>,
    // The rows whose elements were taken out.
    free: Vec<u32>,
}

impl<T> Model for RowList<T> {
    ghost use Rattle.std.specs.Prelude.{◌≤◌, ◌<◌, ◌^◌, vec_capacity};
    ghost use Rattle.lists.specs.Listing.{Listing};

    ghost Value = { Listing T };

    ghost use Rattle.lists.specs.Placed.{listed, ArePlaced};

    ghost view = { λ l. record { room = l.room; items = listed l.rows.items l.places.items } };

    ghost invariant = { λ l. ArePlaced l.room l.rows.items l.places.items l.free.items × (l.room < 2 ^ 32)
        × (l.room ≤ vec_capacity l.rows) × (l.room ≤ vec_capacity l.places) × (l.room ≤ vec_capacity l.free) };
}

impl<T> RowList<T> {
    /// An empty list with room for so many elements. The one error is that the allocation failed.
    pub fn open(alloc: Global, room: u32) -> Result<RowList<T>, AllocError>
    where
        T: Drop,
        ensures { IfOk result (λ list. list ≡ record { room = room; items = [] }) }
    {
        Ok(RowList {
            room,
            rows: Vec::with_capacity(alloc, room as usize)?,
            places: Vec::with_capacity(alloc, room as usize)?,
            free: Vec::with_capacity(alloc, room as usize)?,
        })
    }

    /// How many elements there are.
    pub fn len(&self) -> usize
        ensures { result ≡ length self.now.items }
    {
        self.places.len()
    }

    /// The element at an index.
    pub fn get(&self, index: usize) -> &T
        requires { index < length self.now.items }
        ensures { result.now ≡ slice_index_or self.now.items index result.now }
    {
        &self.rows[self.places[index] as usize]
    }

    /// Writes over the element at an index.
    pub fn set(&mut self, index: usize, value: T)
    where
        T: Drop,
        requires { index < length self.old.items }
        ensures items { self.new.items ≡ slice_set self.old.items index value }
        ensures len { length self.new.items ≡ length self.old.items }
        ensures room { self.new.room ≡ self.old.room }
    {
        let place = self.places[index] as usize;
        self.rows[place] = value;
    }

    /// Puts in an element, for which there is room, before the one at an index, or at the end.
    pub fn insert(&mut self, index: usize, value: T)
    where
        T: Drop,
        requires within { index ≤ length self.old.items }
        requires room { length self.old.items < self.old.room }
        ensures items { self.new.items ≡ insert self.old.items index value }
        ensures len { length self.new.items ≡ length self.old.items + 1 }
        ensures room { self.new.room ≡ self.old.room }
    {
        let place = put(&mut self.rows, &mut self.free, value);
        insert_within(&mut self.places, index, place);
    }

    /// Where an element stands at which `compare` answers `Equal`, or else the place behind those at which it answers
    /// `Less`, as `binary_search_by` of a slice. It looks at some of the elements, as many as the list can be halved.
    pub fn binary_search_by<F: FnMut(&T) -> Ordering>(&self, mut compare: F) -> Result<usize, usize>
        requires { F.IsAlwaysCallable compare }
        ensures bound { IsSearchInRange result (length self.now.items) }
        ensures position { (ord : T → Ordering) → ComputesKey F.FnMut ord compare
            → IsBinarySearchResult ord self.now.items result }
    {
        let mut low = 0;
        let mut high = self.len();
        while low < high {
            let middle = low + (high - low) / 2;
            match self.call_at(middle, &mut compare) {
                Ordering::Less => low = middle + 1,
                Ordering::Equal => return Ok(middle),
                Ordering::Greater => high = middle,
            }
        }
        Err(low)
    }

    /// How many elements at the front pass the test, where no other one does, as `partition_point` of a slice. It looks at
    /// some of the elements, as many as the list can be halved.
    pub fn partition_point<F: FnMut(&T) -> bool>(&self, mut passes: F) -> usize
        requires { F.IsAlwaysCallable passes }
        ensures bound { result ≤ length self.now.items }
        ensures partitioned { (p : T → Bool) → ComputesKey F.FnMut p passes
            → IsPartitionedBy p self.now.items
            → IsPartitionPoint (λ y. p y ≡ true) (λ y. p y ≡ false) self.now.items result }
    {
        let mut low = 0;
        let mut high = self.len();
        while low < high {
            let middle = low + (high - low) / 2;
            if self.call_at(middle, &mut passes) {
                low = middle + 1;
            } else {
                high = middle;
            }
        }
        low
    }

    // What a closure answers at the element at an index.
    fn call_at<R, F: FnMut(&T) -> R>(&self, index: usize, f: &mut F) -> R
        requires callable { F.IsAlwaysCallable f.old }
        requires within { index < length self.now.items }
        ensures callable { F.IsAlwaysCallable f.new }
        ensures answer { (key : T → R) → ComputesKey F.FnMut key f.old
            → ComputesKey F.FnMut key f.new
            × ((d : T) → key (slice_index_or self.now.items index d) ≡ result) }
    {
        f(self.get(index))
    }

    /// Takes out the element at an index.
    pub fn remove(&mut self, index: usize)
        requires { index < length self.old.items }
        ensures items { self.new.items ≡ remove self.old.items index }
        ensures len { length self.new.items + 1 ≡ length self.old.items }
        ensures room { self.new.room ≡ self.old.room }
    {
        let place = self.places.remove(index);
        push_within(&mut self.free, place);
    }
}

// Puts an element into a row that is free, or else into a new one, and answers which.
fn put<T: Drop>(rows: &mut Vec<T>, free: &mut Vec<u32>, value: T) -> u32
    requires within { AreBelow (length rows.old.items) free.old.items }
    requires few { vec_len rows.old < 2 ^ 32 }
    requires room { vec_len free.old ≡ 0 → vec_len rows.old < vec_capacity rows.old }
    ensures put { IsPut rows.old.items free.old.items value rows.new.items free.new.items result }
    ensures rows_room { vec_capacity rows.old ≤ vec_capacity rows.new }
    ensures free_room { vec_capacity free.new ≡ vec_capacity free.old }
{
    let Some(place) = free.pop() else {
        let place = rows.len() as u32;
        push_within(rows, value);
        return place;
    };
    rows[place as usize] = value;
    place
}

// Puts a value in where there is room for it, which takes no memory.
fn insert_within<T: Drop>(list: &mut Vec<T>, index: usize, value: T)
    requires within { index ≤ vec_len list.old }
    requires room { vec_len list.old < vec_capacity list.old }
    ensures items { list.new.items ≡ insert list.old.items index value }
    ensures len { vec_len list.new ≡ vec_len list.old + 1 }
    ensures capacity { vec_capacity list.old ≤ vec_capacity list.new }
{
    let _ = list.insert(index, value);
}

// Puts a value in at the end, where there is room for it, which takes no memory.
fn push_within<T: Drop>(list: &mut Vec<T>, value: T)
    requires room { vec_len list.old < vec_capacity list.old }
    ensures items { list.new.items ≡ list.old.items ++ value ∷ [] }
    ensures len { vec_len list.new ≡ vec_len list.old + 1 }
    ensures capacity { vec_capacity list.old ≤ vec_capacity list.new }
{
    let _ = list.push(value);
}

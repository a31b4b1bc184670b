//! Entries of bytes, packed one behind the other.
ghost use Rattle.std.specs.Prelude.{◌≡◌, ℕ, ◌+◌, ◌<◌, ◌≤◌, ◌^◌, ◌++◌, ◌∷◌, ◌↔◌, [], length, Some, IsTrue, slice_get, take, drop, IfOk, OnOk, OnErr, vec_len, vec_capacity};
ghost use Rattle.std.specs.Int.{w64, to_le_bytes};
ghost use Rattle.packed.specs.Cuts.{IsCut, pieces, start_of};
ghost use Rattle.packed.specs.Sizes.{stamp_bytes};

use crate::sizes::STAMP_BYTES;
use crate::value_encoding::put_stamp;
use crate::{Buffer, PackEntry};
use stamps::Stamp;
use std::alloc::{AllocError, Global};
use std::marker::Model;
use std::mem;

/// How many bytes a byte and a stamp take.
const HEAD_BYTES: usize = 1 + STAMP_BYTES;

/// Entries of bytes, packed one behind the other. Contracts see the list of them, and how many more entries and bytes it
/// has room for: memory is asked for only where that is not enough.
#[derive(Drop)]
pub struct PackedList {
    bytes: Buffer,
    // Where each entry ends.
    ends: Vec<usize>,
}

impl Model for PackedList {
    ghost use Rattle.std.specs.Prelude.{◌-◌, length, vec_len, vec_capacity};
    ghost use Rattle.packed.specs.Cuts.{IsCut, pieces, Entries};

    ghost Value = { Entries };

    ghost view = { λ p. record { items = pieces p.bytes.items 0 p.ends.items; places = vec_capacity p.ends - vec_len p.ends; bytes = p.bytes.capacity - length p.bytes.items } };

    ghost invariant = { λ p. IsCut 0 p.ends.items (length p.bytes.items) };
}

impl PackedList {
    /// No entries. It takes no memory.
    pub fn new(alloc: Global) -> PackedList
        ensures { result.items ≡ [] }
    {
        PackedList {
            bytes: Buffer::new(alloc),
            ends: Vec::new(alloc),
        }
    }

    /// The allocator with which it was made.
    pub fn alloc(&self) -> Global {
        self.bytes.alloc()
    }

    /// The number of entries.
    pub fn len(&self) -> usize
        ensures count { result ≡ length self.now.items }
        ensures few { length self.now.items < 2 ^ 63 }
    {
        self.ends.len()
    }

    /// Whether there is no entry.
    pub fn is_empty(&self) -> bool
        ensures { IsTrue result ↔ (self.now.items ≡ []) }
    {
        self.len() == 0
    }

    /// The entry at a place, from 0.
    pub fn get(&self, at: usize) -> &[u8]
        requires { at < length self.now.items }
        ensures { Some result.now ≡ slice_get self.now.items at }
    {
        piece(self.bytes.as_slice(), self.ends.as_slice(), at)
    }

    /// Whether there is room for so many entries, of so many bytes in all.
    pub fn has_room(&self, places: usize, bytes: usize) -> bool
        ensures { IsTrue result → (places ≤ self.now.places) × (bytes ≤ self.now.bytes) }
    {
        places <= self.ends.capacity() - self.ends.len() && bytes <= self.bytes.room()
    }

    /// Makes room for so many entries, of so many bytes in all. At `Err` the entries are as they were.
    pub fn reserve(&mut self, places: usize, bytes: usize) -> Result<(), AllocError>
        ensures items { self.new.items ≡ self.old.items }
        ensures places { OnOk result (places ≤ self.new.places) }
        ensures bytes { OnOk result (bytes ≤ self.new.bytes) }
    {
        self.ends.reserve(places)?;
        self.bytes.reserve(bytes)?;
        Ok(())
    }

    /// Puts an entry at the end, for which there is room. It takes no memory.
    pub fn push_reserved(&mut self, entry: &[u8])
        requires place { 0 < self.old.places }
        requires bytes { length entry.now ≤ self.old.bytes }
        ensures items { self.new.items ≡ self.old.items ++ entry.now ∷ [] }
        ensures places { self.old.places ≤ self.new.places + 1 }
        ensures bytes { self.old.bytes ≤ self.new.bytes + length entry.now }
    {
        let _within = self.bytes.len();
        append(&mut self.bytes, &mut self.ends, entry);
    }

    /// Puts an entry at the end, packed where it stays. There is room for it, and for as many bytes as it may need. It takes no
    /// memory.
    pub fn push_packed<E: PackEntry>(&mut self, entry: &E)
        requires place { 0 < self.old.places }
        requires bytes { E.most_bytes entry.now ≤ self.old.bytes }
        ensures items { self.new.items ≡ self.old.items ++ E.packed_as entry.now ∷ [] }
        ensures stored { E.is_stored entry.now }
        ensures places { self.old.places ≤ self.new.places + 1 }
        ensures bytes { self.old.bytes ≤ self.new.bytes + E.most_bytes entry.now }
    {
        let _within = self.bytes.len();
        append_packed(&mut self.bytes, &mut self.ends, entry);
    }

    /// Puts an entry at the end. At `Err` the entries are as they were.
    pub fn push(&mut self, entry: &[u8]) -> Result<(), AllocError>
        ensures ok { OnOk result (self.new.items ≡ self.old.items ++ entry.now ∷ []) }
        ensures err { OnErr result (self.new.items ≡ self.old.items) }
    {
        self.reserve(1, entry.len())?;
        self.push_reserved(entry);
        Ok(())
    }

    /// Puts an entry at the end that is a byte, a stamp, and then these bytes. At `Err` the entries are as they were.
    pub fn push_stamped(&mut self, mark: u8, stamp: Stamp, rest: &[u8]) -> Result<(), AllocError>
        ensures ok { OnOk result (self.new.items ≡ self.old.items
            ++ (mark ∷ to_le_bytes w64 stamp ++ rest.now) ∷ []) }
        ensures err { OnErr result (self.new.items ≡ self.old.items) }
    {
        self.reserve(1, HEAD_BYTES + rest.len())?;
        self.push_stamped_reserved(mark, stamp, rest);
        Ok(())
    }

    // Puts such an entry at the end, for which there is room.
    fn push_stamped_reserved(&mut self, mark: u8, stamp: Stamp, rest: &[u8])
        requires place { 0 < self.old.places }
        requires bytes { 1 + stamp_bytes + length rest.now ≤ self.old.bytes }
        ensures { self.new.items ≡ self.old.items
            ++ (mark ∷ to_le_bytes w64 stamp ++ rest.now) ∷ [] }
    {
        append_stamped(&mut self.bytes, &mut self.ends, mark, stamp, rest);
    }

    /// Puts entries of another list, so many from a place on, at the end. The one error is that an allocation failed; some of them
    /// may be there then.
    pub fn push_part(
        &mut self,
        other: &PackedList,
        from: usize,
        count: usize,
    ) -> Result<(), AllocError>
        requires { from + count ≤ length other.now.items }
        ensures ok { OnOk result (self.new.items ≡ self.old.items
            ++ take count (drop from other.now.items)) }
        ensures some { (many : ℕ)
            × (self.new.items ≡ self.old.items ++ take many (drop from other.now.items)) }
    {
        let _few = other.len();
        for nth in 0..count {
            self.push(other.get(from + nth))?;
        }
        Ok(())
    }

    /// Whether so many entries from a place on are those of another list from a place on.
    pub fn has_part(&self, at: usize, other: &PackedList, from: usize, count: usize) -> bool
        requires own { at + count ≤ length self.now.items }
        requires others { from + count ≤ length other.now.items }
        ensures { IsTrue result
            ↔ (take count (drop at self.now.items) ≡ take count (drop from other.now.items)) }
    {
        let _few = (self.len(), other.len());
        for nth in 0..count {
            if !are_bytes(self.get(at + nth), other.get(from + nth)) {
                return false;
            }
        }
        true
    }

    /// Whether both have the same entries, in the same order. It compares their bytes, and where each ends.
    pub fn is(&self, other: &PackedList) -> bool
        ensures { IsTrue result ↔ (self.now.items ≡ other.now.items) }
    {
        are_ends(&self.ends, &other.ends)
            && are_bytes(self.bytes.as_slice(), other.bytes.as_slice())
    }

    /// Takes all entries out, and keeps the memory for others.
    pub fn clear(&mut self)
        ensures { self.new.items ≡ [] }
    {
        self.bytes.clear();
        self.ends.clear();
    }

    /// Hands out the entries with the memory that they take, and has room for about as many more, where there is memory for that.
    pub fn take_on(&mut self) -> PackedList
        ensures given { result.items ≡ self.old.items }
        ensures empty { self.new.items ≡ [] }
    {
        let alloc = self.bytes.alloc();
        let bytes = self.bytes.len();
        let places = self.ends.len();
        let taken = mem::replace(self, PackedList::new(alloc));
        let _ = self.reserve(places, bytes);
        taken
    }

    /// Hands out the entries with the memory that they take. The list is empty then, and has no room.
    pub fn take(&mut self) -> PackedList
        ensures given { result.items ≡ self.old.items }
        ensures empty { self.new.items ≡ [] }
    {
        let alloc = self.bytes.alloc();
        mem::replace(self, PackedList::new(alloc))
    }
}

/// One of the pieces of bytes that end at these places.
fn piece<'a>(bytes: &'a [u8], ends: &[usize], at: usize) -> &'a [u8]
    requires cut { IsCut 0 ends.now (length bytes.now) }
    requires place { at < length ends.now }
    ensures { Some result.now ≡ slice_get (pieces bytes.now 0 ends.now) at }
{
    let start = start_of(ends, at);
    let end = ends[at];
    &bytes[start..end]
}

/// Where a piece begins.
fn start_of(ends: &[usize], at: usize) -> usize
    requires { at < length ends.now }
    ensures { result ≡ start_of 0 ends.now at }
{
    if at == 0 { 0 } else { ends[at - 1] }
}

/// Puts a piece at the end, for which there is room.
fn append(bytes: &mut Buffer, ends: &mut Vec<usize>, piece: &[u8])
    requires cut { IsCut 0 ends.old.items (length bytes.old.items) }
    requires place { vec_len ends.old < vec_capacity ends.old }
    requires room { length bytes.old.items + length piece.now ≤ bytes.old.capacity }
    ensures cut { IsCut 0 ends.new.items (length bytes.new.items) }
    ensures items { pieces bytes.new.items 0 ends.new.items
        ≡ pieces bytes.old.items 0 ends.old.items ++ piece.now ∷ [] }
    ensures ends { vec_len ends.new ≡ vec_len ends.old + 1 }
    ensures bytes { length bytes.new.items ≡ length bytes.old.items + length piece.now }
    ensures places { vec_capacity ends.old ≤ vec_capacity ends.new }
    ensures room { bytes.old.capacity ≤ bytes.new.capacity }
{
    bytes.put_slice(piece);
    ends.push_reserved(bytes.len());
}

/// Puts an entry at the end as a piece, packed where it stays, for which there is room.
fn append_packed<E: PackEntry>(bytes: &mut Buffer, ends: &mut Vec<usize>, entry: &E)
    requires cut { IsCut 0 ends.old.items (length bytes.old.items) }
    requires place { vec_len ends.old < vec_capacity ends.old }
    requires room { length bytes.old.items + E.most_bytes entry.now ≤ bytes.old.capacity }
    ensures cut { IsCut 0 ends.new.items (length bytes.new.items) }
    ensures items { pieces bytes.new.items 0 ends.new.items
        ≡ pieces bytes.old.items 0 ends.old.items ++ E.packed_as entry.now ∷ [] }
    ensures stored { E.is_stored entry.now }
    ensures ends { vec_len ends.new ≡ vec_len ends.old + 1 }
    ensures bytes { length bytes.new.items ≤ length bytes.old.items + E.most_bytes entry.now }
    ensures places { vec_capacity ends.old ≤ vec_capacity ends.new }
    ensures room { bytes.old.capacity ≤ bytes.new.capacity }
{
    entry.put(bytes);
    ends.push_reserved(bytes.len());
}

/// Puts a piece at the end that is a byte, a stamp, and then these bytes, for which there is room.
fn append_stamped(bytes: &mut Buffer, ends: &mut Vec<usize>, mark: u8, stamp: Stamp, rest: &[u8])
    requires cut { IsCut 0 ends.old.items (length bytes.old.items) }
    requires place { vec_len ends.old < vec_capacity ends.old }
    requires room { length bytes.old.items + (1 + stamp_bytes + length rest.now)
        ≤ bytes.old.capacity }
    ensures cut { IsCut 0 ends.new.items (length bytes.new.items) }
    ensures items { pieces bytes.new.items 0 ends.new.items
        ≡ pieces bytes.old.items 0 ends.old.items
        ++ (mark ∷ to_le_bytes w64 stamp ++ rest.now) ∷ [] }
{
    bytes.push_reserved(mark);
    put_stamp(bytes, stamp);
    bytes.put_slice(rest);
    ends.push_reserved(bytes.len());
}

/// Whether pieces end at the same places.
fn are_ends(one: &[usize], other: &[usize]) -> bool
    ensures { IsTrue result ↔ (one.now ≡ other.now) }
{
    one == other
}

/// Whether these are the same bytes. It compares eight at a time.
#[tactic(auto, using(crate::proofs::Words::rest_decides))]
pub fn are_bytes(one: &[u8], other: &[u8]) -> bool
    ensures { IsTrue result ↔ (one.now ≡ other.now) }
{
    let mut left = one;
    let mut right = other;
    while let (Some((word, rest)), Some((other_word, other_rest))) = (
        left.split_first_chunk::<8>(),
        right.split_first_chunk::<8>(),
    ) {
        if !is_word(word, other_word) {
            return false;
        }
        left = rest;
        right = other_rest;
    }
    left == right
}

/// Whether these are the same eight bytes.
fn is_word(one: &[u8; 8], other: &[u8; 8]) -> bool
    ensures { IsTrue result ↔ (one.now ≡ other.now) }
{
    u64::from_le_bytes(*one) == u64::from_le_bytes(*other)
}

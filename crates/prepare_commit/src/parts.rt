//! The entries of items with their versions, in parts that bases share and that never change.
ghost use Rattle.std.specs.Prelude.{◌≡◌, ◌<◌, ◌≤◌, ◌++◌, ◌↔◌, ℕ, [], true, false, Some, length, IsTrue, IfOk, OnOk, slice_get, slice_index_or};
ghost use Rattle.prepare_commit.specs.Begun.{Holding, beside, entries_of, held_at, put_at};

use crate::items::KnownItem;
use crate::part_entries::PartEntries;
use std::alloc::{AllocError, Global};
use std::marker::Model;
use std::sync::Arc;
use version_chain::{ChainList, VersionList};

/// A place in parts: the number of the part, and which of its entries it is. Each base has one of each of its items, so it is as small as
/// the most parts and the most items of a cell let it be.
#[derive(Clone, Copy, PartialEq, Eq)]
pub(crate) struct EntryPosition {
    pub(crate) part: u16,
    pub(crate) at: u16,
}

impl EntryPosition {
    /// This place. There is an error from 65,536 parts or entries on, which no cell of this store comes to.
    pub(crate) fn of(part: usize, at: usize) -> Result<EntryPosition, AllocError>
        ensures { IfOk result (λ place. place ≡ record { part = part; at = at }) }
    {
        let (Ok(part), Ok(at)) = (u16::try_from(part), u16::try_from(at)) else {
            return Err(AllocError);
        };
        Ok(EntryPosition { part, at })
    }
}

/// Entries, and the versions of each. Contracts see the list of both together.
#[derive(Drop)]
pub(crate) struct BasePart {
    entries: PartEntries,
    chains: ChainList,
}

impl Model for BasePart {
    ghost use Rattle.std.specs.Prelude.{◌≡◌, List, length};
    ghost use Rattle.prepare_commit.specs.Begun.{Holding, beside};

    ghost Value = { List Holding };

    ghost view = { λ p. beside p.entries p.chains };

    ghost invariant = { λ p. length p.chains ≡ length p.entries };
}

impl BasePart {
    /// These entries, and the versions of each.
    pub(crate) fn of(entries: PartEntries, chains: ChainList) -> BasePart
        requires { length chains ≡ length entries }
        ensures { result ≡ beside entries chains }
    {
        BasePart { entries, chains }
    }

    /// How many entries there are.
    fn len(&self) -> usize
        ensures { result ≡ length self.now }
    {
        self.entries.len()
    }

    /// The key and the floor of the item at a place, from 0.
    fn entry(&self, at: usize) -> KnownItem
        requires { at < length self.now }
        ensures { (h : Holding) → slice_get self.now at ≡ Some h → result ≡ h.entry }
    {
        self.entries.get(at)
    }

    /// Puts the versions of an entry at the end of a list. The one error is that an allocation failed.
    fn put_to(&self, at: usize, list: &mut VersionList) -> Result<(), AllocError>
        requires { at < length self.now }
        ensures { OnOk result ((h : Holding) → slice_get self.now at ≡ Some h
            → list.new ≡ list.old ++ h.versions) }
    {
        self.chains.put_to(at, list)
    }

    /// Whether the versions of an entry are those of a list.
    fn is_list(&self, at: usize, list: &VersionList) -> bool
        requires { at < length self.now }
        ensures { (h : Holding) → slice_get self.now at ≡ Some h
            → (IsTrue result ↔ (h.versions ≡ list.now)) }
    {
        self.chains.is_list(at, list)
    }

    /// Whether the versions of an entry are those of an entry of another part.
    fn is_chain(&self, at: usize, other: &BasePart, place: usize) -> bool
        requires own { at < length self.now }
        requires others { place < length other.now }
        ensures { (h : Holding) → (k : Holding) → slice_get self.now at ≡ Some h
            → slice_get other.now place ≡ Some k
            → (IsTrue result ↔ (h.versions ≡ k.versions)) }
    {
        self.chains.is_chain(at, &other.chains, place)
    }

    /// Whether both lie the same, and then have the same. It compares bytes, and unpacks no version.
    fn is(&self, other: &BasePart) -> bool
        ensures { IsTrue result → self.now ≡ other.now }
    {
        self.entries.is(&other.entries) && self.chains.is(&other.chains)
    }
}

/// Parts, which all who have them share. Contracts see the list of them.
#[derive(Drop)]
pub(crate) struct PartList {
    parts: Vec<Arc<BasePart>>,
}

impl Model for PartList {
    ghost use Rattle.std.specs.Prelude.{List};
    ghost use Rattle.prepare_commit.specs.Begun.{Holding};
    ghost use Rattle.prepare_commit.specs.Sharing.{shared_parts};

    ghost Value = { List (List Holding) };

    ghost view = { λ l. shared_parts l.parts.items };
}

impl PartList {
    /// No parts. It takes no memory.
    pub(crate) fn new(alloc: Global) -> PartList
        ensures { result ≡ [] }
    {
        PartList {
            parts: Vec::new(alloc),
        }
    }

    /// How many parts there are.
    pub(crate) fn len(&self) -> usize
        ensures { result ≡ length self.now }
    {
        self.parts.len()
    }

    /// The same parts once more, shared. The one error is that an allocation failed.
    pub(crate) fn copied(&self, alloc: Global) -> Result<PartList, AllocError>
        ensures { IfOk result (λ list. list ≡ self.now) }
    {
        let mut parts = Vec::with_capacity(alloc, self.parts.len())?;
        for part in &self.parts {
            parts.push(Arc::try_clone(part)?)?;
        }
        Ok(PartList { parts })
    }

    /// Puts a part in the place of another, or at the end. All others keep their numbers. The one error is that an allocation failed.
    pub(crate) fn put(&mut self, alloc: Global, at: usize, part: BasePart) -> Result<(), AllocError>
        requires { at ≤ length self.old }
        ensures { OnOk result (self.new ≡ put_at self.old at part) }
    {
        match Arc::new(alloc, part) {
            Ok(part) => {
                if at < self.parts.len() {
                    self.parts[at] = part;
                } else {
                    self.parts.push(part)?;
                }
                Ok(())
            }
            Err(_) => Err(AllocError),
        }
    }

    /// How many entries a part has.
    pub(crate) fn entries_in(&self, nth: usize) -> usize
        requires { nth < length self.now }
        ensures { result ≡ length (slice_index_or self.now nth []) }
    {
        self.part(nth).len()
    }

    /// The part of this number, from 0.
    fn part(&self, nth: usize) -> &BasePart
        requires { nth < length self.now }
        ensures { result.now ≡ slice_index_or self.now nth [] }
    {
        &self.parts[nth]
    }

    /// The entry at a place.
    pub(crate) fn entry(&self, place: EntryPosition) -> KnownItem
        requires { (h : Holding) × (held_at self.now place ≡ Some h) }
        ensures { (h : Holding) → held_at self.now place ≡ Some h → result ≡ h.entry }
    {
        self.part(place.part as usize).entry(place.at as usize)
    }

    /// Puts the versions at a place at the end of a list. The one error is that an allocation failed.
    pub(crate) fn put_to(
        &self,
        place: EntryPosition,
        list: &mut VersionList,
    ) -> Result<(), AllocError>
        requires { (h : Holding) × (held_at self.now place ≡ Some h) }
        ensures { OnOk result ((h : Holding) → held_at self.now place ≡ Some h
            → list.new ≡ list.old ++ h.versions) }
    {
        self.part(place.part as usize)
            .put_to(place.at as usize, list)
    }

    /// Whether the versions at a place are those of a list.
    pub(crate) fn is_list(&self, place: EntryPosition, list: &VersionList) -> bool
        requires { (h : Holding) × (held_at self.now place ≡ Some h) }
        ensures { (h : Holding) → held_at self.now place ≡ Some h
            → (IsTrue result ↔ (h.versions ≡ list.now)) }
    {
        self.part(place.part as usize)
            .is_list(place.at as usize, list)
    }

    /// Whether the same lies at a place as in another list at a place.
    pub(crate) fn is_at(
        &self,
        place: EntryPosition,
        other: &PartList,
        theirs: EntryPosition,
    ) -> bool
        requires own { (h : Holding) × (held_at self.now place ≡ Some h) }
        requires others { (h : Holding) × (held_at other.now theirs ≡ Some h) }
        ensures { (h : Holding) → (k : Holding) → held_at self.now place ≡ Some h
            → held_at other.now theirs ≡ Some k
            → (IsTrue result ↔ (h ≡ k)) }
    {
        is_entry(&self.entry(place), &other.entry(theirs))
            && self.part(place.part as usize).is_chain(
                place.at as usize,
                other.part(theirs.part as usize),
                theirs.at as usize,
            )
    }

    /// Which parts are found to be the same in another list, at the same number. It compares their bytes. The one error is that an
    /// allocation failed.
    pub(crate) fn same(&self, alloc: Global, other: &PartList) -> Result<Vec<bool>, AllocError>
        ensures { IfOk result (λ same. (part : ℕ) → slice_index_or same.items part false ≡ true
            → slice_index_or self.now part [] ≡ slice_index_or other.now part []) }
    {
        let many = self.len().min(other.len());
        let mut same = Vec::with_capacity(alloc, many)?;
        for nth in 0..many {
            same.push(self.part(nth).is(other.part(nth)))?;
        }
        Ok(same)
    }

    /// How many entries all parts have, as far as they can be counted.
    pub(crate) fn entries(&self) -> usize
        ensures { result ≡ entries_of self.now }
    {
        let mut sum = 0usize;
        for part in &self.parts {
            sum = sum.saturating_add(part.len());
        }
        sum
    }
}

/// Whether these are the same entry.
pub(crate) fn is_entry(one: &KnownItem, other: &KnownItem) -> bool
    ensures { IsTrue result ↔ (one.now ≡ other.now) }
{
    one == other
}

//! What a base holds of each item.
ghost use Rattle.std.specs.Prelude.{◌≡◌, ◌<◌, ◌↔◌, List, [], length, IsTrue, IfOk, slice_index_or};
ghost use Rattle.prepare_commit.specs.Begun.{Holding, LieAt, none_held, lists_in};
ghost use Rattle.prepare_commit.specs.Layout.{together};

use crate::items::KnownItem;
use crate::parts::{EntryPosition, PartList};
use std::alloc::{AllocError, Global};
use std::marker::Model;
use version_chain::VersionList;

/// Entries with their versions, each at a place in parts that others may share. Contracts see the list of them.
#[derive(Drop)]
pub(crate) struct Held {
    parts: PartList,
    places: Vec<EntryPosition>,
}

impl Model for Held {
    ghost use Rattle.std.specs.Prelude.{List};
    ghost use Rattle.prepare_commit.specs.Begun.{Holding, LieAt, listed};

    ghost Value = { List Holding };

    ghost view = { λ h. listed h.parts h.places.items };

    ghost invariant = { λ h. LieAt h.parts h.places.items (listed h.parts h.places.items) };
}

impl Held {
    /// Nothing. It takes no memory.
    pub(crate) fn nothing(alloc: Global) -> Held
        ensures { result ≡ [] }
    {
        Held {
            parts: PartList::new(alloc),
            places: Vec::new(alloc),
        }
    }

    /// What lies at these places of these parts.
    pub(crate) fn of(parts: PartList, places: Vec<EntryPosition>) -> Held
        requires { (all : List Holding) × LieAt parts places.items all }
        ensures { (all : List Holding) → LieAt parts places.items all → result ≡ all }
    {
        Held { parts, places }
    }

    /// How many entries there are.
    pub(crate) fn len(&self) -> usize
        ensures { result ≡ length self.now }
    {
        self.places.len()
    }

    /// The parts, and where in them each entry lies.
    pub(crate) fn parts(&self) -> (&PartList, &[EntryPosition])
        ensures { LieAt result.0.now result.1.now self.now }
    {
        (&self.parts, &self.places)
    }

    /// The key and the floor of the n-th item, from 0.
    pub(crate) fn entry(&self, nth: usize) -> KnownItem
        requires { nth < length self.now }
        ensures { result ≡ (slice_index_or self.now nth none_held).entry }
    {
        self.parts.entry(self.places[nth])
    }

    /// The versions of all entries, in their order. The one error is that an allocation failed.
    pub(crate) fn versions(&self, alloc: Global) -> Result<VersionList, AllocError>
        ensures { IfOk result (λ list. list ≡ together (lists_in self.now)) }
    {
        let mut list = VersionList::with_room(alloc, self.places.len())?;
        for place in &self.places {
            self.parts.put_to(*place, &mut list)?;
        }
        Ok(list)
    }

    /// Whether both have the same entries with the same versions, in the same order. It unpacks none.
    pub(crate) fn is(&self, other: &Held) -> bool
        ensures { IsTrue result ↔ (self.now ≡ other.now) }
    {
        if self.places.len() != other.places.len() {
            return false;
        }
        for nth in 0..self.places.len() {
            if !self
                .parts
                .is_at(self.places[nth], &other.parts, other.places[nth])
            {
                return false;
            }
        }
        true
    }

    /// A copy of it, which shares its parts. The one error is that an allocation failed.
    pub(crate) fn copied(&self, alloc: Global) -> Result<Held, AllocError>
        ensures { IfOk result (λ held. held ≡ self.now) }
    {
        let parts = self.parts.copied(alloc)?;
        let places = Vec::from_slice(alloc, &self.places)?;
        Ok(Held { parts, places })
    }
}

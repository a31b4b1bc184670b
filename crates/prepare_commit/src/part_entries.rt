//! The entries of a part of a base.
ghost use Rattle.std.specs.Prelude.{◌≡◌, ◌<◌, length, IsTrue, IfOk, slice_index_or};
ghost use Rattle.prepare_commit.specs.declared.items.KnownItem.{KnownItem};

use crate::base::are_marks;
use crate::items::KnownItem;
use packed::PackedList;
use stamps::{Key, Stamp};
use std::alloc::{AllocError, Global};
use std::marker::Model;

/// The keys of items with their floors, in no more memory than they take: of a key lie its bytes alone. Contracts see the list of them.
#[derive(Drop)]
pub(crate) struct PartEntries {
    keys: PackedList,
    floors: Vec<Stamp>,
}

impl Model for PartEntries {
    ghost use Rattle.std.specs.Prelude.{◌≡◌, List, length};
    ghost use Rattle.prepare_commit.specs.declared.items.KnownItem.{KnownItem};
    ghost use Rattle.prepare_commit.specs.Floors.{AreKeys, with_floors};

    ghost Value = { List KnownItem };

    ghost view = { λ l. with_floors l.keys.items l.floors.items };

    ghost invariant = { λ l. AreKeys l.keys.items × (length l.keys.items ≡ length l.floors.items) };
}

impl PartEntries {
    /// These entries. The one error is that an allocation failed.
    pub(crate) fn of(alloc: Global, entries: &[KnownItem]) -> Result<PartEntries, AllocError>
        ensures { IfOk result (λ list. list ≡ entries.now) }
    {
        let mut keys = PackedList::new(alloc);
        keys.reserve(entries.len(), bytes_in(entries))?;
        let mut floors = Vec::with_capacity(alloc, entries.len())?;
        for nth in 0..entries.len() {
            let entry = &entries[nth];
            keys.push(entry.key.as_bytes())?;
            floors.push(entry.floor)?;
        }
        Ok(PartEntries { keys, floors })
    }

    /// How many entries there are.
    pub(crate) fn len(&self) -> usize
        ensures { result ≡ length self.now }
    {
        self.floors.len()
    }

    /// The entry at a place, from 0.
    pub(crate) fn get(&self, at: usize) -> KnownItem
        requires { at < length self.now }
        ensures { (other : KnownItem) → result ≡ slice_index_or self.now at other }
    {
        KnownItem {
            key: Key::of_stored(self.keys.get(at)),
            floor: self.floors[at],
        }
    }

    /// Whether both lie the same, and then are the same. It compares bytes.
    pub(crate) fn is(&self, other: &PartEntries) -> bool
        ensures { IsTrue result → self.now ≡ other.now }
    {
        self.keys.is(&other.keys) && are_marks(&self.floors, &other.floors)
    }
}

// How many bytes the keys have.
fn bytes_in(entries: &[KnownItem]) -> usize {
    let mut bytes = 0usize;
    for entry in entries {
        bytes = bytes.saturating_add(entry.key.len());
    }
    bytes
}

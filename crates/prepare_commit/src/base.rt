//! What some log leaves, without the chains and the index of a cell.
ghost use Rattle.std.specs.Prelude.{◌≡◌, ◌↔◌, IfOk, IsTrue};
ghost use Rattle.prepare_commit.specs.Bases.{HasLog, IsBase, empty_base};

use crate::held::Held;
use stamps::Stamp;
use std::alloc::{AllocError, Global};
use std::marker::Model;

/// The content of a cell that stands for some log, and the room of the cell: its versions with their marks, its entries
/// with their floors, and the marks of its clients. What one log leaves is one base alone, so two bases of one room are
/// equal where one log leaves both.
///
/// It is made of nothing or of a cell, and never changes.
pub struct Base {
    pub(crate) slots: u32,
    pub(crate) items: u32,
    pub(crate) clients: u32,
    pub(crate) held: Held,
    pub(crate) marks: Vec<Stamp>,
}

// What lies in it is released here, so that no crate above proves it anew.
impl Drop for Base {
    fn drop(self) {
        let Base {
            slots: _,
            items: _,
            clients: _,
            held: _,
            marks: _,
        } = self;
    }
}

impl Model for Base {
    ghost use Rattle.prepare_commit.specs.Bases.{Frozen, IsBase};
    ghost use Rattle.prepare_commit.specs.Begun.{AreOwn, entries_in, lists_in};
    ghost use Rattle.prepare_commit.specs.Layout.{together};

    ghost Value = { Frozen };

    ghost view = { λ b. record {
      room = record { slots = b.slots; items = b.items; clients = b.clients };
      versions = together (lists_in b.held);
      entries = entries_in b.held;
      marks = b.marks.items;
    } };

    ghost invariant = { λ b. AreOwn b.held × IsBase (record {
      room = record { slots = b.slots; items = b.items; clients = b.clients };
      versions = together (lists_in b.held);
      entries = entries_in b.held;
      marks = b.marks.items;
    }) };
}

impl Base {
    /// Nothing, with room for so many versions, items and marks. It takes no memory.
    pub fn empty(alloc: Global, slots: u32, items: u32, clients: u32) -> Base
        ensures { result ≡ empty_base (record { slots = slots; items = items; clients = clients }) }
    {
        Base {
            slots,
            items,
            clients,
            held: Held::nothing(alloc),
            marks: Vec::new(alloc),
        }
    }

    /// A copy of it, which shares what it holds of its items. The one error is that an allocation failed.
    pub fn copied(&self, alloc: Global) -> Result<Base, AllocError>
        ensures { IfOk result (λ base. base ≡ self.now) }
    {
        let held = self.held.copied(alloc)?;
        let marks = Vec::from_slice(alloc, &self.marks)?;
        Ok(Base {
            slots: self.slots,
            items: self.items,
            clients: self.clients,
            held,
            marks,
        })
    }

    /// Whether both are equal: their room, and what they hold.
    pub fn is(&self, other: &Base) -> bool
        ensures { IsTrue result ↔ (self.now ≡ other.now) }
    {
        if !self.held.is(&other.held) {
            return false;
        }
        has_room_of(self, other) && are_marks(&self.marks, &other.marks)
    }

    /// Whether it holds nothing.
    pub fn is_empty(&self) -> bool
        ensures { IsTrue result ↔ (self.now ≡ empty_base self.now.room) }
    {
        self.held.len() == 0 && self.marks.is_empty()
    }

    /// How many versions there is room for. Some log leaves what it holds.
    pub fn slots(&self) -> u32
        ensures slots { result ≡ self.now.room.slots }
        ensures log { HasLog self.now }
        ensures base { IsBase self.now }
    {
        self.slots
    }

    /// How many items there is room for.
    pub fn items(&self) -> u32
        ensures { result ≡ self.now.room.items }
    {
        self.items
    }

    /// How many clients there is room for the marks of.
    pub fn clients(&self) -> u32
        ensures { result ≡ self.now.room.clients }
    {
        self.clients
    }
}

/// Whether both have the same room.
fn has_room_of(one: &Base, other: &Base) -> bool
    ensures { IsTrue result ↔ (one.now.room ≡ other.now.room) }
{
    one.slots == other.slots && one.items == other.items && one.clients == other.clients
}

/// Whether these are the same marks, in the same order.
pub(crate) fn are_marks(one: &[Stamp], other: &[Stamp]) -> bool
    ensures { IsTrue result ↔ (one.now ≡ other.now) }
{
    one == other
}

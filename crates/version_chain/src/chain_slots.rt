//! The slots by which the chains of a tenant are reached.
ghost use Rattle.std.specs.Prelude.{◌≡◌, ◌<◌, length, replicate, slice_index_or, slice_set, None, IfOk};

use std::alloc::{AllocError, Global};
use std::marker::Model;
use version_arena::{OptionSlot, Slot};

// Both slots of a chain, in 8 bytes. They lie side by side, since a write reads both.
#[derive(Clone, Copy)]
struct ChainSlot {
    head: OptionSlot,
    latest: OptionSlot,
}

/// For each chain the slots of its first and of its latest committed version. Contracts see two lists.
///
/// Only `open` takes memory.
#[derive(Drop)]
pub(crate) struct ChainSlots {
    slots: Vec<ChainSlot>,
}

impl Model for ChainSlots {
    ghost use Rattle.std.specs.Prelude.{map};
    ghost use Rattle.version_chain.specs.ChainSlots.{SlotLists};
    ghost use Rattle.version_chain.specs.declared.chain_slots.ChainSlot.{ChainSlot};

    ghost Value = { SlotLists };

    ghost view = { λ c. record {
      heads = map (λ (s : ChainSlot). s.head) c.slots.items;
      latest = map (λ (s : ChainSlot). s.latest) c.slots.items;
    } };
}

impl ChainSlots {
    /// So many chains with no version. The one error is that the allocation failed.
    pub(crate) fn open(alloc: Global, chains: u32) -> Result<ChainSlots, AllocError>
        ensures heads { IfOk result (λ slots. slots.heads ≡ replicate chains None) }
        ensures latest { IfOk result (λ slots. slots.latest ≡ replicate chains None) }
    {
        let mut slots = Vec::with_capacity(alloc, chains as usize)?;
        for _chain in 0..chains {
            slots.push_reserved(ChainSlot {
                head: OptionSlot::new(None),
                latest: OptionSlot::new(None),
            });
        }
        Ok(ChainSlots { slots })
    }

    /// The slot of a chain's first version.
    pub(crate) fn head(&self, chain: u32) -> Option<Slot>
        requires { chain < length self.now.heads }
        ensures { result ≡ slice_index_or self.now.heads chain None }
    {
        self.slots[chain as usize].head.get()
    }

    /// The slot of a chain's latest committed version.
    pub(crate) fn latest(&self, chain: u32) -> Option<Slot>
        requires { chain < length self.now.latest }
        ensures { result ≡ slice_index_or self.now.latest chain None }
    {
        self.slots[chain as usize].latest.get()
    }

    /// Writes the slot of a chain's first version.
    pub(crate) fn set_head(&mut self, chain: u32, head: Option<Slot>)
        requires { chain < length self.old.heads }
        ensures { self.new
            ≡ record { heads = slice_set self.old.heads chain head; latest = self.old.latest } }
    {
        self.slots[chain as usize].head = OptionSlot::new(head);
    }

    /// Writes the slot of a chain's latest committed version.
    pub(crate) fn set_latest(&mut self, chain: u32, latest: Option<Slot>)
        requires { chain < length self.old.latest }
        ensures { self.new
            ≡ record { heads = self.old.heads; latest = slice_set self.old.latest chain latest } }
    {
        self.slots[chain as usize].latest = OptionSlot::new(latest);
    }
}

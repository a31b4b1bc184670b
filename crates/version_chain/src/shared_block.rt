//! The block of cells that tenants share.
ghost use Rattle.std.specs.Prelude.{◌≡◌, ◌<◌, ◌≤◌, ◌↔◌, length, replicate, Some, None, IsTrue, IfOk, slice_set};
ghost use Rattle.version_arena.specs.Arena.{entry, IsLive, live_count, next_beside, with_next};
ghost use Rattle.version_chain.specs.Node.{Node};
ghost use Rattle.version_chain.specs.declared.version.Version.{Version};
ghost use Rattle.version_chain.specs.Chain.{IsMarkedAt};

use crate::stored::StoredNode;
use crate::version::{Head, stamp_of, tag_len_of};
use packed::{BODY_ROOM, pack_body};
use stamps::Record;
use std::alloc::{AllocError, Global};
use std::marker::Model;
use version_arena::{Arena, Slot, SlotBytes};

/// The versions of all tenants that share it: in one arena their heads, and by the same slots the bytes of their records, so that a version
/// takes as much memory as it has bytes. Contracts see the cells, with the versions in them.
///
/// A search of a chain reads heads alone. Only `open` takes memory; memory that no record was long enough for is never touched.
#[derive(Drop)]
pub struct Block {
    pub(crate) heads: Arena<Head>,
    pub(crate) bodies: SlotBytes,
    // Here a record is packed, before its bytes go to its slot.
    body: [u8; BODY_ROOM],
}

impl Model for Block {
    ghost use Rattle.std.specs.Prelude.{◌≡◌, ◌+◌, length};
    ghost use Rattle.packed.specs.Sizes.{max_body_bytes};
    ghost use Rattle.version_chain.specs.Chain.{Cells};
    ghost use Rattle.version_chain.specs.Stored.{stored_cells, AreStored};

    ghost Value = { Cells };

    ghost view = { λ b. stored_cells b.heads b.bodies };

    ghost invariant = { λ b. AreStored b.heads b.bodies × (length b.body ≡ max_body_bytes + 63) };
}

impl Block {
    /// The most cells of one block.
    pub const MOST_CELLS: u32 = 4_194_304;

    /// A block of so many free cells, 1 to `MOST_CELLS`. It touches none of them. The one error is that the memory was
    /// refused.
    pub fn open(alloc: Global, cells: u32) -> Result<Block, AllocError>
        requires { (1 ≤ cells) × (cells ≤ 4194304) }
        ensures { IfOk result (λ block. block ≡ replicate cells None) }
    {
        Ok(Block {
            heads: Arena::with_cells(alloc, cells)?,
            bodies: SlotBytes::with_slots(alloc, cells)?,
            body: [0; BODY_ROOM],
        })
    }

    /// Whether the cell of a slot holds a version. It is false of a slot that the block does not have.
    pub(crate) fn is_live(&self, slot: Slot) -> bool
        ensures { IsTrue result ↔ IsLive self.now slot }
    {
        self.heads.is_live(slot)
    }

    /// Puts a version of a record into a free cell, of which there is one, before the version in the slot `next`. It answers the
    /// cell's slot.
    #[inline(always)]
    pub(crate) fn put(
        &mut self,
        tenant: u32,
        chain: u32,
        prepared: &Record,
        committed: bool,
        next: Option<Slot>,
    ) -> Slot
        requires { live_count self.old < length self.old }
        ensures was_free { (result < length self.old) × (entry self.old result ≡ None) }
        ensures put { let version : Version
            = record { prepared = prepared.now; committed = committed } in
            let node : Node = record { version = version; tenant = tenant; chain = chain } in
            self.new ≡ slice_set self.old result (Some (node, next)) }
    {
        let len = pack_body(&mut self.body, prepared);
        let head = Head {
            stamp: stamp_of(prepared),
            tenant,
            chain,
            len: len as u16,
            tag_len: tag_len_of(prepared),
            committed,
        };
        let Ok(slot) = self.heads.put(head, next) else {
            unreachable!()
        };
        self.bodies.put(slot, &self.body, len);
        slot
    }

    /// Takes a version out of its cell, which is free from then on. No other cell changes.
    pub(crate) fn free(&mut self, slot: Slot)
        requires { IsLive self.old slot }
        ensures { self.new ≡ slice_set self.old slot None }
    {
        self.heads.take(slot);
    }

    /// The version in a live cell, where it lies.
    pub(crate) fn get(&self, slot: Slot) -> StoredNode<'_>
        requires { IsLive self.now slot }
        ensures { entry self.now slot ≡ Some (result, next_beside self.now slot) }
    {
        StoredNode::of(self, slot)
    }

    /// The slot of the version after the one in a live cell.
    pub(crate) fn next(&self, slot: Slot) -> Option<Slot>
        requires { IsLive self.now slot }
        ensures { result ≡ next_beside self.now slot }
    {
        self.heads.next(slot)
    }

    /// Writes the slot of the version after the one in a live cell. The version stays, and no other cell changes.
    pub(crate) fn set_next(&mut self, slot: Slot, next: Option<Slot>)
        requires { IsLive self.old slot }
        ensures { self.new ≡ slice_set self.old slot (with_next (entry self.old slot) next) }
    {
        self.heads.set_next(slot, next);
    }

    /// Marks the version in a live cell as committed. No other cell changes.
    pub(crate) fn mark(&mut self, slot: Slot)
        requires { IsLive self.old slot }
        ensures { IsMarkedAt self.old self.new slot }
    {
        let head = self.heads.get_mut(slot);
        head.committed = true;
    }
}

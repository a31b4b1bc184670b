//! Versions where they lie in a block.
ghost use Rattle.std.specs.Prelude.{◌≡◌, ◌==◌, ◌+◌, ◌<◌, ◌≤◌, ◌↔◌, IsTrue, length, nat_lt, take};
ghost use Rattle.packed.specs.Bodies.{IsFront, packed_body};
ghost use Rattle.packed.specs.Packing.{IsStoreRecord};
ghost use Rattle.packed.specs.Sizes.{max_body_bytes};
ghost use Rattle.version_arena.specs.Arena.{IsLive};
ghost use Rattle.version_chain.specs.Place.{least_of};
ghost use Rattle.version_chain.specs.Stored.{stored_node};

use crate::shared_block::Block;
use crate::version::Bound;
use packed::{BODY_ROOM, body_record, front_key, front_tag, unpack_body};
use stamps::{Key, Record, Stamp, Tag};
use std::marker::Model;
use version_arena::Slot;

/// How many bytes a small record has at most, without its stamp. Its buffer is that much less to fill with zeros.
pub(crate) const SMALL_BYTES: usize = 192;

/// The room of a buffer for a small record, which is copied in whole pieces.
pub(crate) const SMALL_ROOM: usize = SMALL_BYTES + 63;

/// So many bytes at the front of a record have its key and its tag. Records with short keys and a short value have no more.
const FRONT_BYTES: usize = 64;

/// The room of a buffer for the front of a record.
const FRONT_ROOM: usize = FRONT_BYTES + 63;

/// A version where it lies in a block, beside its tenant and its chain.
#[derive(Drop)]
pub(crate) struct StoredNode<'b> {
    block: &'b Block,
    slot: Slot,
}

impl<'b> Model for StoredNode<'b> {
    ghost use Rattle.version_arena.specs.Arena.{IsLive};
    ghost use Rattle.version_chain.specs.Node.{Node as Held};
    ghost use Rattle.version_chain.specs.Stored.{stored_node};

    ghost Value = { Held };

    ghost view = { λ s. stored_node s.block.now s.slot };

    ghost invariant = { λ s. IsLive s.block.now s.slot };
}

impl<'b> StoredNode<'b> {
    /// The version in a live cell.
    pub(crate) fn of(block: &'b Block, slot: Slot) -> StoredNode<'b>
        requires { IsLive block.now slot }
        ensures { result ≡ stored_node block.now slot }
    {
        StoredNode { block, slot }
    }

    /// The number of the tenant.
    pub(crate) fn tenant(&self) -> u32
        ensures { result ≡ self.now.tenant }
    {
        let block = self.block;
        block.heads.get(self.slot).tenant
    }

    /// The number of the chain.
    pub(crate) fn chain(&self) -> u32
        ensures { result ≡ self.now.chain }
    {
        let block = self.block;
        block.heads.get(self.slot).chain
    }

    /// Whether the version is marked as committed.
    pub(crate) fn is_committed(&self) -> bool
        ensures { result ≡ self.now.version.committed }
    {
        let block = self.block;
        block.heads.get(self.slot).committed
    }

    /// The version's stamp.
    pub(crate) fn stamp(&self) -> Stamp
        ensures value { result ≡ self.now.version.prepared.stamp }
        ensures written { 0 < result }
    {
        let block = self.block;
        block.heads.get(self.slot).stamp
    }

    /// Whether the version has this stamp.
    pub(crate) fn is_at(&self, stamp: Stamp) -> bool
        ensures { result ≡ (self.now.version.prepared.stamp == stamp) }
    {
        self.stamp() == stamp
    }

    /// Whether the version's stamp is below a bound.
    pub(crate) fn is_below(&self, bound: &Bound) -> bool
        ensures { result ≡ nat_lt self.now.version.prepared.stamp (least_of bound.now) }
    {
        bound.excludes(self.stamp())
    }

    /// How many bytes the record has without its stamp.
    pub(crate) fn len(&self) -> usize
        ensures exact { result ≡ length (packed_body self.now.version.prepared) }
        ensures few { result ≤ max_body_bytes }
    {
        let block = self.block;
        usize::from(block.heads.get(self.slot).len)
    }

    /// Copies the record without its stamp to the front of a buffer, which has 63 bytes more, and answers how many bytes these are.
    pub(crate) fn read(&self, body: &mut [u8]) -> usize
        requires { length (packed_body self.now.version.prepared) + 63 ≤ length body.old }
        ensures within { result ≤ length body.new }
        ensures packed { take result body.new ≡ packed_body self.now.version.prepared }
        ensures stored { IsStoreRecord self.now.version.prepared }
    {
        let block = self.block;
        let len = usize::from(block.heads.get(self.slot).len);
        block.bodies.read(self.slot, len, body);
        len
    }

    /// Copies the first bytes of the record to the front of a buffer, key and tag among them, and answers how many bytes these are.
    fn read_front(&self, front: &mut [u8]) -> usize
        requires { 127 ≤ length front.old }
        ensures within { result ≤ length front.new }
        ensures front { IsFront (take result front.new) (packed_body self.now.version.prepared) }
        ensures stored { IsStoreRecord self.now.version.prepared }
    {
        let block = self.block;
        let len = usize::from(block.heads.get(self.slot).len).min(FRONT_BYTES);
        block.bodies.read(self.slot, len, front);
        len
    }

    /// The name of the item.
    fn key(&self) -> Key
        ensures { result ≡ self.now.version.prepared.key }
    {
        let mut front = [0; FRONT_ROOM];
        let len = self.read_front(&mut front);
        front_key(&front[..len])
    }

    /// The tag under which the item is found, or the empty one.
    fn tag(&self) -> Tag
        ensures { result ≡ self.now.version.prepared.tag }
    {
        let mut front = [0; FRONT_ROOM];
        let len = self.read_front(&mut front);
        front_tag(&front[..len])
    }

    /// How many bytes the tag has. Only the version's head is read.
    fn tag_len(&self) -> usize
        ensures { result ≡ length self.now.version.prepared.tag }
    {
        let block = self.block;
        usize::from(block.heads.get(self.slot).tag_len)
    }

    /// The name of the item, and the tag under which it is found. They are read at once.
    fn key_and_tag(&self) -> (Key, Tag)
        ensures { (result.0 ≡ self.now.version.prepared.key)
            × (result.1 ≡ self.now.version.prepared.tag) }
    {
        let mut front = [0; FRONT_ROOM];
        let len = self.read_front(&mut front);
        (front_key(&front[..len]), front_tag(&front[..len]))
    }

    /// Whether the version is of this record.
    fn is_of(&self, other: &Record) -> bool
        ensures { IsTrue result ↔ (self.now.version.prepared ≡ other.now) }
    {
        self.record() == *other
    }

    /// Writes the version's record over another one.
    fn copy_into(&self, place: &mut Record)
        ensures { place.new ≡ self.now.version.prepared }
    {
        if self.len() > FRONT_BYTES {
            self.copy_longer(place);
            return;
        }
        let mut body = [0; FRONT_ROOM];
        self.copy_by(&mut body, place);
    }

    /// Writes the version's record, which is more than a front, over another one.
    #[inline(never)]
    fn copy_longer(&self, place: &mut Record)
        ensures { place.new ≡ self.now.version.prepared }
    {
        if self.len() > SMALL_BYTES {
            self.copy_large(place);
            return;
        }
        let mut body = [0; SMALL_ROOM];
        self.copy_by(&mut body, place);
    }

    /// Writes the version's record, which is large, over another one.
    #[inline(never)]
    fn copy_large(&self, place: &mut Record)
        ensures { place.new ≡ self.now.version.prepared }
    {
        let _short = self.len();
        let mut body = [0; BODY_ROOM];
        self.copy_by(&mut body, place);
    }

    /// Writes the version's record over another one, by way of a buffer.
    fn copy_by(&self, body: &mut [u8], place: &mut Record)
        requires { length (packed_body self.now.version.prepared) + 63 ≤ length body.old }
        ensures { place.new ≡ self.now.version.prepared }
    {
        let stamp = self.stamp();
        self.read(body);
        unpack_body(body, stamp, place);
    }

    /// A copy of the version's record.
    fn record(&self) -> Record
        ensures { result ≡ self.now.version.prepared }
    {
        let _short = self.len();
        let stamp = self.stamp();
        let mut body = [0; BODY_ROOM];
        self.read(&mut body);
        body_record(&body, stamp)
    }

    /// The version's record, where it lies.
    pub(crate) fn into_record(self) -> StoredRecord<'b>
        ensures { result ≡ self.entry.version.prepared }
    {
        StoredRecord { node: self }
    }
}

/// A record where it lies in a block. Contracts see the record.
#[derive(Drop)]
pub struct StoredRecord<'b> {
    node: StoredNode<'b>,
}

impl<'b> Model for StoredRecord<'b> {
    ghost use Rattle.stamps.specs.Record.{Record as Held};

    ghost Value = { Held };

    ghost view = { λ s. s.node.version.prepared };
}

impl<'b> StoredRecord<'b> {
    /// The transaction's stamp, which is not `0.0`.
    pub fn stamp(&self) -> Stamp
        ensures value { result ≡ self.now.stamp }
        ensures written { 0 < result }
    {
        self.node.stamp()
    }

    /// The name of the item.
    pub fn key(&self) -> Key
        ensures { result ≡ self.now.key }
    {
        self.node.key()
    }

    /// The tag under which the item is found, or the empty one.
    pub fn tag(&self) -> Tag
        ensures { result ≡ self.now.tag }
    {
        self.node.tag()
    }

    /// How many bytes the tag has. It reads none of them, nor of the key and the value.
    pub fn tag_len(&self) -> usize
        ensures { result ≡ length self.now.tag }
    {
        self.node.tag_len()
    }

    /// The name of the item, and the tag under which it is found, or the empty one. They are read at once.
    pub fn key_and_tag(&self) -> (Key, Tag)
        ensures { (result.0 ≡ self.now.key) × (result.1 ≡ self.now.tag) }
    {
        self.node.key_and_tag()
    }

    /// Whether it is this record.
    pub fn is(&self, other: &Record) -> bool
        ensures { IsTrue result ↔ (self.now ≡ other.now) }
    {
        self.node.is_of(other)
    }

    /// Writes the record over another one.
    pub fn copy_into(&self, place: &mut Record)
        ensures { place.new ≡ self.now }
    {
        self.node.copy_into(place);
    }

    /// A copy of the record.
    pub fn unpacked(&self) -> Record
        ensures { result ≡ self.now }
    {
        self.node.record()
    }
}

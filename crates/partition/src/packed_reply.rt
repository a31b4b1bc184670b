//! The reply of an event, as it lies packed in a list.
ghost use Rattle.std.specs.Prelude.{◌≡◌, ◌≤◌, ◌↔◌, IsTrue};
ghost use Rattle.packed_steps.specs.Sizes.{max_reply_bytes};

use packed::{Buffer, are_bytes};
use packed_steps::{MAX_REPLY_BYTES, put_reply};
use plain_store::Reply;
use std::alloc::{AllocError, Global};
use std::marker::Model;

/// Room in which a reply is packed, to be compared with one that lies packed.
#[derive(Drop)]
pub struct ReplyRoom {
    bytes: Buffer,
    ghost room: { max_reply_bytes ≤ bytes.capacity },
}

impl ReplyRoom {
    /// Takes the memory that the largest reply wants. The one error is that it was refused.
    pub fn open(alloc: Global) -> Result<ReplyRoom, AllocError> {
        let mut bytes = Buffer::new(alloc);
        bytes.reserve(MAX_REPLY_BYTES)?;
        Ok(ReplyRoom { bytes })
    }
}

/// The reply of an event, as it lies packed in a list. Contracts see the reply.
#[derive(Drop)]
pub struct PackedReply<'a> {
    pub(crate) bytes: &'a [u8],
}

impl<'a> Model for PackedReply<'a> {
    ghost use Rattle.plain_store.specs.declared.calls.Reply.{Reply as Told};
    ghost use Rattle.partition.specs.PackedEvents.{reply_in, IsPackedReply};

    ghost Value = { Told };

    ghost view = { λ r. reply_in r.bytes.now };

    ghost invariant = { λ r. IsPackedReply r.bytes.now };
}

impl<'a> PackedReply<'a> {
    /// Whether it is this reply, which is packed and compared byte by byte. It takes no memory.
    pub fn is(&self, reply: &Reply, room: &mut ReplyRoom) -> bool
        ensures { IsTrue result ↔ (self.now ≡ reply.now) }
    {
        room.bytes.clear();
        put_reply(&mut room.bytes, reply);
        are_bytes(self.bytes, room.bytes.as_slice())
    }
}

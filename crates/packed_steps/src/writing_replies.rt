//! Replies, packed at the end of bytes that have room for them.
ghost use Rattle.std.specs.Prelude.{◌+◌, ◌≤◌, length};
ghost use Rattle.plain_store.specs.declared.calls.Reply.TheVariants.{Prepare as ToPrepare, Get as ToGet, Discard as ToDiscard};
ghost use Rattle.packed_steps.specs.PackedCalls.{packed_found, IsStoreFound, packed_reply, IsStoreReply};
ghost use Rattle.packed_steps.specs.Sizes.{max_found_bytes, max_reply_bytes};
ghost use Rattle.packed.specs.Laying.{Puts, PutsValue};

use packed::{Buffer, put_keys, put_number, put_record, put_stamp};
use plain_store::{DiscardReply, Found, PrepareReply, ReadReply, Reply};

/// What stands under a tag. It takes up to a number and `MAX_KEYS_BYTES`.
pub fn put_found(out: &mut Buffer, found: &Found)
    requires { length out.old.items + max_found_bytes ≤ out.old.capacity }
    ensures { PutsValue (packed_found found.now) max_found_bytes
        (IsStoreFound found.now) out.old out.new }
{
    let count = found.count();
    let keys = found.keys();
    put_number(out, u64::from(count));
    if count > 0 {
        put_keys(out, keys);
    }
}

/// A byte for the form of the reply, and its parts. It takes up to `MAX_REPLY_BYTES`.
pub fn put_reply(out: &mut Buffer, reply: &Reply)
    requires { length out.old.items + max_reply_bytes ≤ out.old.capacity }
    ensures { PutsValue (packed_reply reply.now) max_reply_bytes
        (IsStoreReply reply.now) out.old out.new }
{
    match reply {
        Reply::Prepare(told) => put_prepare_reply(out, told),
        Reply::Committed(count) => {
            out.push_reserved(5);
            put_number(out, u64::from(*count));
        }
        Reply::Get(told) => put_read_reply(out, told),
        Reply::Found(found) => {
            out.push_reserved(10);
            put_found(out, found);
        }
        Reply::Freed(count) => {
            out.push_reserved(11);
            put_number(out, u64::from(*count));
        }
        Reply::Discard(told) => put_discard_reply(out, told),
    }
}

fn put_prepare_reply(out: &mut Buffer, reply: &PrepareReply)
    requires { length out.old.items + 1 ≤ out.old.capacity }
    ensures { Puts (packed_reply (ToPrepare reply.now)) 1 out.old out.new }
{
    let form = match reply {
        PrepareReply::Prepared => 0,
        PrepareReply::FullSlots => 1,
        PrepareReply::FullItems => 2,
        PrepareReply::Clash => 3,
        PrepareReply::Discarded => 4,
    };
    out.push_reserved(form);
}

fn put_read_reply(out: &mut Buffer, reply: &ReadReply)
    requires { length out.old.items + max_reply_bytes ≤ out.old.capacity }
    ensures { PutsValue (packed_reply (ToGet reply.now)) max_reply_bytes
        (IsStoreReply (ToGet reply.now)) out.old out.new }
{
    match reply {
        ReadReply::Version(version) => {
            out.push_reserved(6);
            put_record(out, version);
        }
        ReadReply::Initial => out.push_reserved(7),
        ReadReply::Collected(floor) => {
            out.push_reserved(8);
            put_stamp(out, *floor);
        }
        ReadReply::Unknown => out.push_reserved(9),
    }
}

fn put_discard_reply(out: &mut Buffer, reply: &DiscardReply)
    requires { length out.old.items + 10 ≤ out.old.capacity }
    ensures { PutsValue (packed_reply (ToDiscard reply.now)) 10
        (IsStoreReply (ToDiscard reply.now)) out.old out.new }
{
    match reply {
        DiscardReply::Dropped(count) => {
            out.push_reserved(12);
            put_number(out, u64::from(*count));
        }
        DiscardReply::FullMarks => out.push_reserved(13),
    }
}

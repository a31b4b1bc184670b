//! Calls, packed at the end of bytes that have room for them.
ghost use Rattle.std.specs.Prelude.{◌+◌, ◌≤◌, length};
ghost use Rattle.packed_steps.specs.PackedCalls.{packed_call, IsStoreCall};
ghost use Rattle.packed_steps.specs.Sizes.{max_call_bytes};
ghost use Rattle.packed.specs.Laying.{PutsValue};

use packed::{Buffer, put_key, put_record, put_stamp, put_tag};
use plain_store::Call;

/// A byte for the form of the call, and its parts. It takes up to `MAX_CALL_BYTES`.
pub fn put_call(out: &mut Buffer, call: &Call)
    requires { length out.old.items + max_call_bytes ≤ out.old.capacity }
    ensures { PutsValue (packed_call call.now) max_call_bytes
        (IsStoreCall call.now) out.old out.new }
{
    match call {
        Call::Prepare(version) => {
            out.push_reserved(0);
            put_record(out, version);
        }
        Call::Commit(stamp) => {
            out.push_reserved(1);
            put_stamp(out, *stamp);
        }
        Call::Get(key, None) => {
            out.push_reserved(2);
            put_key(out, key);
        }
        Call::Get(key, Some(stamp)) => {
            out.push_reserved(3);
            put_key(out, key);
            put_stamp(out, *stamp);
        }
        Call::Found(tag) => {
            out.push_reserved(4);
            put_tag(out, tag);
        }
        Call::Collect(keep) => {
            out.push_reserved(5);
            out.push_reserved(keep.get());
        }
        Call::Discard(stamp) => {
            out.push_reserved(6);
            put_stamp(out, *stamp);
        }
    }
}

//! Small values, put at the end of a buffer that has room for them.
ghost use Rattle.std.specs.Prelude.{◌+◌, ◌<◌, ◌≤◌, length};
ghost use Rattle.std.specs.Int.{w64, to_le_bytes};
ghost use Rattle.std.specs.List.{AllByRecursion};
ghost use Rattle.stamps.specs.Limits.{max_keys};
ghost use Rattle.stamps.specs.Stamp.{IsStamp};
ghost use Rattle.stamps.specs.Key.{IsKey};
ghost use Rattle.stamps.specs.Tag.{IsTag};
ghost use Rattle.stamps.specs.Value.{IsValue};
ghost use Rattle.packed.specs.Packing.{packed_number, packed_text, packed_keys, packed_record, IsStoreRecord};
ghost use Rattle.packed.specs.Sizes.{max_number_bytes, stamp_bytes, max_key_bytes, max_tag_bytes, max_value_bytes, max_keys_bytes, max_record_bytes};
ghost use Rattle.packed.specs.Laying.{Puts, PutsValue};

use crate::buffer::{Buffer, open};
use crate::laying::{lay_keys, lay_record};
use crate::sizes::{MAX_KEYS_BYTES, MAX_RECORD_BYTES};
use stamps::{Key, Record, Stamp, Tag, Value};

/// A number in 8 bytes, the lowest first.
#[inline(always)]
fn put_wide(out: &mut Buffer, number: u64)
    requires { length out.old.items + 8 ≤ out.old.capacity }
    ensures { Puts (to_le_bytes w64 number) 8 out.old out.new }
{
    out.put_front(&number.to_le_bytes(), 8);
}

/// A number, which is a byte where it is small. It takes up to `MAX_NUMBER_BYTES`.
#[inline(always)]
pub fn put_number(out: &mut Buffer, number: u64)
    requires { length out.old.items + max_number_bytes ≤ out.old.capacity }
    ensures { Puts (packed_number number) max_number_bytes out.old out.new }
{
    if number < 255 {
        out.push_reserved(number as u8);
    } else {
        out.push_reserved(255);
        put_wide(out, number);
    }
}

/// A stamp. It takes `STAMP_BYTES`.
#[inline(always)]
pub fn put_stamp(out: &mut Buffer, stamp: Stamp)
    requires { length out.old.items + stamp_bytes ≤ out.old.capacity }
    ensures { PutsValue (to_le_bytes w64 stamp) stamp_bytes (IsStamp stamp) out.old out.new }
{
    put_wide(out, stamp.number());
}

/// A key behind its length. It takes up to `MAX_KEY_BYTES`.
#[inline(always)]
pub fn put_key(out: &mut Buffer, key: &Key)
    requires { length out.old.items + max_key_bytes ≤ out.old.capacity }
    ensures { PutsValue (packed_text key.now) max_key_bytes (IsKey key.now) out.old out.new }
{
    out.put_text(key.padded(), key.len());
}

/// A tag behind its length. It takes up to `1 + MAX_TAG_LEN` bytes.
#[inline(always)]
pub fn put_tag(out: &mut Buffer, tag: &Tag)
    requires { length out.old.items + max_tag_bytes ≤ out.old.capacity }
    ensures { PutsValue (packed_text tag.now) max_tag_bytes (IsTag tag.now) out.old out.new }
{
    out.put_text(tag.padded(), tag.len());
}

/// A value behind its length. It takes up to `1 + MAX_VALUE_LEN` bytes.
#[inline(always)]
pub fn put_value(out: &mut Buffer, value: &Value)
    requires { length out.old.items + max_value_bytes ≤ out.old.capacity }
    ensures { PutsValue (packed_text value.now) max_value_bytes
        (IsValue value.now) out.old out.new }
{
    out.put_text(value.padded(), value.len());
}

/// A transaction's keys behind their count. They take up to `MAX_KEYS_BYTES`.
pub fn put_keys(out: &mut Buffer, keys: &[Key])
    requires many { length keys.now ≤ max_keys }
    requires room { length out.old.items + max_keys_bytes ≤ out.old.capacity }
    ensures { PutsValue (packed_keys keys.now) max_keys_bytes
        (AllByRecursion IsKey keys.now) out.old out.new }
{
    open(&mut out.bytes, out.len, MAX_KEYS_BYTES);
    out.len = lay_keys(out.bytes.as_mut_slice(), out.len, keys);
}

/// A record, part by part. It takes up to `MAX_RECORD_BYTES`.
pub fn put_record(out: &mut Buffer, version: &Record)
    requires { length out.old.items + max_record_bytes ≤ out.old.capacity }
    ensures { PutsValue (packed_record version.now) max_record_bytes
        (IsStoreRecord version.now) out.old out.new }
{
    open(&mut out.bytes, out.len, MAX_RECORD_BYTES);
    out.len = lay_record(out.bytes.as_mut_slice(), out.len, version);
}

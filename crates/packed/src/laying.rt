//! Small values, written over bytes that are there. Each is given where it begins, and answers where what stands behind it does.
//!
//! A text is written at its full width, so that how many bytes are copied is known where this is compiled. What is written next goes over its
//! rest.
ghost use Rattle.std.specs.Prelude.{◌≡◌, ℕ, ◌+◌, ◌*◌, ◌<◌, ◌≤◌, ◌++◌, ◌∷◌, length, take};
ghost use Rattle.std.specs.Int.{w64, to_le_bytes};
ghost use Rattle.std.specs.List.{AllByRecursion};
ghost use Rattle.stamps.specs.Limits.{max_keys};
ghost use Rattle.stamps.specs.Stamp.{IsStamp};
ghost use Rattle.stamps.specs.Key.{IsKey};
ghost use Rattle.stamps.specs.Value.{IsValue};
ghost use Rattle.packed.specs.Packing.{packed_text, packed_keys, packed_record, IsStoreRecord};
ghost use Rattle.packed.specs.Bodies.{packed_body};
ghost use Rattle.packed.specs.Sizes.{stamp_bytes, max_key_bytes, max_value_bytes, max_keys_bytes, max_record_bytes, max_body_bytes};

use crate::sizes::STAMP_BYTES;
use stamps::{Key, Record, Stamp, Value};

/// These bytes. Of what is written, any first part may count.
#[inline(always)]
pub(crate) fn lay(bytes: &mut [u8], at: usize, source: &[u8])
    requires { at + length source.now ≤ length bytes.old }
    ensures { (len : ℕ) → len ≤ length source.now → take (at + len) bytes.new ≡ take at bytes.old
        ++ take len source.now }
{
    bytes[at..at + source.len()].copy_from_slice(source);
}

/// A whole array. Of what is written, any first part may count.
#[inline(always)]
fn lay_array<const N: usize>(bytes: &mut [u8], at: usize, all: &[u8; N])
    requires { at + N ≤ length bytes.old }
    ensures { (len : ℕ) → len ≤ length all.now → take (at + len) bytes.new ≡ take at bytes.old
        ++ take len all.now }
{
    overwrite(&mut bytes[at..at + N], all);
}

/// A whole array over bytes that are as many.
#[inline(always)]
fn overwrite<const N: usize>(place: &mut [u8], all: &[u8; N])
    requires { length place.old ≡ N }
    ensures { place.new ≡ all.now }
{
    let Some(array) = place.as_mut_array() else {
        unreachable!()
    };
    *array = *all;
}

/// The first `len` bytes of an array, behind their number.
#[inline(always)]
pub(crate) fn lay_text<const N: usize>(
    bytes: &mut [u8],
    at: usize,
    all: &[u8; N],
    len: usize,
) -> usize
    requires fits { len ≤ N }
    requires short { N < 256 }
    requires room { at + 1 + N ≤ length bytes.old }
    ensures laid { take result bytes.new ≡ take at bytes.old ++ len ∷ take len all.now }
    ensures end { result ≡ at + 1 + len }
{
    lay(bytes, at, &[len as u8]);
    lay_array(bytes, at + 1, all);
    at + 1 + len
}

/// A key behind its length. It takes up to `MAX_KEY_BYTES`.
#[inline(always)]
fn lay_key(bytes: &mut [u8], at: usize, key: &Key) -> usize
    requires { at + max_key_bytes ≤ length bytes.old }
    ensures laid { take result bytes.new ≡ take at bytes.old ++ packed_text key.now }
    ensures stored { IsKey key.now }
    ensures few { result ≤ at + max_key_bytes }
{
    lay_text(bytes, at, key.padded(), key.len())
}

/// A value behind its length. It takes up to `1 + MAX_VALUE_LEN` bytes. A short one is written without the rest of its array.
#[inline(always)]
fn lay_value(bytes: &mut [u8], at: usize, value: &Value) -> usize
    requires { at + max_value_bytes ≤ length bytes.old }
    ensures laid { take result bytes.new ≡ take at bytes.old ++ packed_text value.now }
    ensures stored { IsValue value.now }
    ensures few { result ≤ at + max_value_bytes }
{
    let len = value.len();
    if len <= Value::SHORT_LEN {
        return lay_text(bytes, at, value.padded_short(), len);
    }
    lay_text(bytes, at, value.padded(), len)
}

/// A stamp. It takes `STAMP_BYTES`.
#[inline(always)]
fn lay_stamp(bytes: &mut [u8], at: usize, stamp: Stamp) -> usize
    requires { at + stamp_bytes ≤ length bytes.old }
    ensures laid { take result bytes.new ≡ take at bytes.old ++ to_le_bytes w64 stamp }
    ensures stored { IsStamp stamp }
    ensures few { result ≤ at + stamp_bytes }
{
    lay(bytes, at, &stamp.number().to_le_bytes());
    at + STAMP_BYTES
}

/// A transaction's keys behind their count. They take up to `MAX_KEYS_BYTES`.
#[inline(always)]
pub(crate) fn lay_keys(bytes: &mut [u8], at: usize, keys: &[Key]) -> usize
    requires many { length keys.now ≤ max_keys }
    requires room { at + max_keys_bytes ≤ length bytes.old }
    ensures laid { take result bytes.new ≡ take at bytes.old ++ packed_keys keys.now }
    ensures stored { AllByRecursion IsKey keys.now }
    ensures few { result ≤ at + max_keys_bytes }
{
    lay(bytes, at, &[keys.len() as u8]);
    let mut end = at + 1;
    for key in keys {
        end = lay_key(bytes, end, key);
    }
    end
}

/// A record, part by part. It takes up to `MAX_RECORD_BYTES`.
pub(crate) fn lay_record(bytes: &mut [u8], at: usize, version: &Record) -> usize
    requires { at + max_record_bytes ≤ length bytes.old }
    ensures laid { take result bytes.new ≡ take at bytes.old ++ packed_record version.now }
    ensures stored { IsStoreRecord version.now }
    ensures few { result ≤ at + max_record_bytes }
{
    let tag = lay_key(bytes, at, &version.key);
    let value = lay_text(bytes, tag, version.tag.padded(), version.tag.len());
    let stamp = lay_value(bytes, value, &version.value);
    let writes = lay_stamp(bytes, stamp, version.stamp);
    lay_keys(bytes, writes, version.writes.as_slice())
}

/// A record without its stamp, part by part, from the front on. It takes up to `MAX_BODY_BYTES`.
pub(crate) fn lay_body(bytes: &mut [u8], version: &Record) -> usize
    requires { max_body_bytes ≤ length bytes.old }
    ensures laid { take result bytes.new ≡ packed_body version.now }
    ensures stored { IsStoreRecord version.now }
    ensures few { result ≤ max_body_bytes }
{
    let _number = version.stamp.number();
    let tag = lay_key(bytes, 0, &version.key);
    let value = lay_text(bytes, tag, version.tag.padded(), version.tag.len());
    let writes = lay_value(bytes, value, &version.value);
    lay_keys(bytes, writes, version.writes.as_slice())
}

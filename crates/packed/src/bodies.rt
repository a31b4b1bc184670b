//! Records without their stamps, as the bytes in which they are kept. What was packed here is read again without a check of any byte.
ghost use Rattle.std.specs.Prelude.{◌≡◌, ℕ, ◌<◌, ◌≤◌, List, length, take, drop, Some, IsSome, IfSome};
ghost use Rattle.stamps.specs.Key.{IsKey};
ghost use Rattle.stamps.specs.Limits.{max_keys};
ghost use Rattle.stamps.specs.Tag.{IsTag};
ghost use Rattle.stamps.specs.Value.{IsValue};
ghost use Rattle.packed.specs.Bodies.{packed_body, record_in, IsPackedBody, IsFront};
ghost use Rattle.packed.specs.Packing.{IsStoreRecord};
ghost use Rattle.packed.specs.Reading.{text_at, key_at, tag_at, value_at, writes_of, writes_at};
ghost use Rattle.packed.specs.Sizes.{max_body_bytes};

use crate::laying::lay_body;
use crate::value_decoding::{read_byte, text_at};
use stamps::{Key, KeySource, Record, Stamp, Tag, Value, WriteSet};

/// Packs a record without its stamp to the front of a buffer, and answers how many bytes these are, at most `MAX_BODY_BYTES`. What lies
/// behind them is then any.
pub fn pack_body(bytes: &mut [u8], version: &Record) -> usize
    requires { max_body_bytes ≤ length bytes.old }
    ensures packed { take result bytes.new ≡ packed_body version.now }
    ensures stored { IsStoreRecord version.now }
    ensures body { IsPackedBody version.now.stamp (take result bytes.new) }
    ensures read { record_in version.now.stamp (take result bytes.new) ≡ version.now }
    ensures few { result ≤ max_body_bytes }
{
    lay_body(bytes, version)
}

/// The record of a body, of which the stamp is known. It checks no byte. Other bytes may stand behind the body. Where they are as many as a
/// value has at most, each part is copied at its full width.
#[inline(always)]
pub fn body_record(bytes: &[u8], stamp: Stamp) -> Record
    requires { (len : ℕ) × IsPackedBody stamp (take len bytes.now) }
    ensures { (len : ℕ) → IsPackedBody stamp (take len bytes.now)
        → result ≡ record_in stamp (take len bytes.now) }
{
    let (key, rest) = stored_key(bytes);
    let (tag, rest) = stored_tag(rest);
    let (value, rest) = stored_value(rest);
    let writes = stored_writes(rest);
    Record::of_stored(key, tag, value, stamp, writes)
}

/// Writes the record of a body, of which the stamp is known, over another record, part by part. It checks no byte. Other bytes may stand
/// behind the body. Where they are as many as a value has at most, each part is copied at its full width.
pub fn unpack_body(bytes: &[u8], stamp: Stamp, place: &mut Record)
    requires { (len : ℕ) × IsPackedBody stamp (take len bytes.now) }
    ensures { (len : ℕ) → IsPackedBody stamp (take len bytes.now)
        → place.new ≡ record_in stamp (take len bytes.now) }
{
    let rest = unpack_key(bytes, &mut place.key);
    let rest = unpack_tag(rest, &mut place.tag);
    let rest = unpack_value(rest, &mut place.value);
    place.stamp = stamp;
    unpack_writes(rest, &mut place.writes);
}

/// The key in a body. It checks no byte.
pub fn body_key(bytes: &[u8]) -> Key
    requires { (stamp : ℕ) × IsPackedBody stamp bytes.now }
    ensures { (stamp : ℕ) → IsPackedBody stamp bytes.now
        → result ≡ (record_in stamp bytes.now).key }
{
    let (key, _) = stored_key(bytes);
    key
}

/// The tag in a body. It checks no byte.
pub fn body_tag(bytes: &[u8]) -> Tag
    requires { (stamp : ℕ) × IsPackedBody stamp bytes.now }
    ensures { (stamp : ℕ) → IsPackedBody stamp bytes.now
        → result ≡ (record_in stamp bytes.now).tag }
{
    let (_, rest) = stored_text(bytes);
    let (tag, _) = stored_tag(rest);
    tag
}

/// The key in a body, of which the first bytes are given: all, or at least as many as a key and a tag take. It checks no byte.
pub fn front_key(front: &[u8]) -> Key
    requires { (stamp : ℕ) × (body : List ℕ) × IsPackedBody stamp body × IsFront front.now body }
    ensures { (stamp : ℕ) (body : List ℕ) → IsPackedBody stamp body
        → IsFront front.now body → result ≡ (record_in stamp body).key }
{
    let (key, _) = stored_key(front);
    key
}

/// The tag in a body, of which the first bytes are given: all, or at least as many as a key and a tag take. It checks no byte.
pub fn front_tag(front: &[u8]) -> Tag
    requires { (stamp : ℕ) × (body : List ℕ) × IsPackedBody stamp body × IsFront front.now body }
    ensures { (stamp : ℕ) (body : List ℕ) → IsPackedBody stamp body
        → IsFront front.now body → result ≡ (record_in stamp body).tag }
{
    let (_, rest) = stored_text(front);
    let (tag, _) = stored_tag(rest);
    tag
}

// The text at the front, and the bytes behind it.
#[inline(always)]
fn stored_text(bytes: &[u8]) -> (&[u8], &[u8])
    requires { IsSome (text_at bytes.now) }
    ensures { Some (result.0.now, result.1.now) ≡ text_at bytes.now }
{
    text_at(bytes).unwrap()
}

// So many bytes from the first of the text at the front on, whatever they are. `None` where there are fewer.
#[inline(always)]
fn wide_text<const N: usize>(bytes: &[u8]) -> Option<&[u8; N]>
    requires { 0 < length bytes.now }
    ensures { IfSome result (λ front. front.now ≡ take N (drop 1 bytes.now)) }
{
    bytes[1..].first_chunk()
}

// The key at the front, and the bytes behind it.
#[inline(always)]
fn stored_key(bytes: &[u8]) -> (Key, &[u8])
    requires { IsSome (key_at bytes.now) }
    ensures { Some (result.0, result.1.now) ≡ key_at bytes.now }
{
    let (text, rest) = stored_text(bytes);
    match wide_text(bytes) {
        Some(front) => (Key::of_front(front, text.len()), rest),
        None => (short_key(text), rest),
    }
}

// The tag at the front, and the bytes behind it.
#[inline(always)]
fn stored_tag(bytes: &[u8]) -> (Tag, &[u8])
    requires { IsSome (tag_at bytes.now) }
    ensures { Some (result.0, result.1.now) ≡ tag_at bytes.now }
{
    let (text, rest) = stored_text(bytes);
    match wide_text(bytes) {
        Some(front) => (Tag::of_front(front, text.len()), rest),
        None => (short_tag(text), rest),
    }
}

// A key that stands near the end of the bytes.
#[cold]
#[inline(never)]
fn short_key(text: &[u8]) -> Key
    requires { IsKey text.now }
    ensures { result ≡ text.now }
{
    Key::of_stored(text)
}

// A tag that stands near the end of the bytes.
#[cold]
#[inline(never)]
fn short_tag(text: &[u8]) -> Tag
    requires { IsTag text.now }
    ensures { result ≡ text.now }
{
    Tag::of_stored(text)
}

// A value that stands near the end of the bytes.
#[cold]
#[inline(never)]
fn short_value(text: &[u8]) -> Value
    requires { IsValue text.now }
    ensures { result ≡ text.now }
{
    Value::of_stored(text)
}

// The value at the front, and the bytes behind it.
#[inline(always)]
fn stored_value(bytes: &[u8]) -> (Value, &[u8])
    requires { IsSome (value_at bytes.now) }
    ensures { Some (result.0, result.1.now) ≡ value_at bytes.now }
{
    let (text, rest) = stored_text(bytes);
    match wide_text(bytes) {
        Some(front) => (Value::of_front(front, text.len()), rest),
        None => (short_value(text), rest),
    }
}

// Writes the key at the front over another one, and answers the bytes behind it.
#[inline(always)]
fn unpack_key<'a>(bytes: &'a [u8], place: &mut Key) -> &'a [u8]
    requires { IsSome (key_at bytes.now) }
    ensures { Some (place.new, result.now) ≡ key_at bytes.now }
{
    let (text, rest) = stored_text(bytes);
    match wide_text(bytes) {
        Some(front) => *place = Key::of_front(front, text.len()),
        None => unpack_short_key(text, place),
    }
    rest
}

// Writes a key that stands near the end of the bytes over another one.
#[cold]
#[inline(never)]
fn unpack_short_key(text: &[u8], place: &mut Key)
    requires { IsKey text.now }
    ensures { place.new ≡ text.now }
{
    *place = Key::of_stored(text);
}

// Writes the tag at the front over another one, and answers the bytes behind it.
#[inline(always)]
fn unpack_tag<'a>(bytes: &'a [u8], place: &mut Tag) -> &'a [u8]
    requires { IsSome (tag_at bytes.now) }
    ensures { Some (place.new, result.now) ≡ tag_at bytes.now }
{
    let (text, rest) = stored_text(bytes);
    match wide_text(bytes) {
        Some(front) => *place = Tag::of_front(front, text.len()),
        None => unpack_short_tag(text, place),
    }
    rest
}

// Writes a tag that stands near the end of the bytes over another one.
#[cold]
#[inline(never)]
fn unpack_short_tag(text: &[u8], place: &mut Tag)
    requires { IsTag text.now }
    ensures { place.new ≡ text.now }
{
    *place = Tag::of_stored(text);
}

// Writes the value at the front over another one, and answers the bytes behind it. A short one is copied without what a long one has more.
#[inline(always)]
fn unpack_value<'a>(bytes: &'a [u8], place: &mut Value) -> &'a [u8]
    requires { IsSome (value_at bytes.now) }
    ensures { Some (place.new, result.now) ≡ value_at bytes.now }
{
    let (text, rest) = stored_text(bytes);
    if text.len() <= Value::SHORT_LEN
        && let Some(front) = wide_text(bytes)
    {
        place.set_short(front, text.len());
        return rest;
    }
    unpack_long(bytes, place)
}

// Does what `unpack_value` does, with a value that is long, or stands near the end of the bytes.
#[inline(never)]
fn unpack_long<'a>(bytes: &'a [u8], place: &mut Value) -> &'a [u8]
    requires { IsSome (value_at bytes.now) }
    ensures { Some (place.new, result.now) ≡ value_at bytes.now }
{
    let (value, rest) = stored_value(bytes);
    *place = value;
    rest
}

// The write set at the end.
#[inline(always)]
fn stored_writes(bytes: &[u8]) -> WriteSet
    requires { IsSome (writes_at bytes.now) }
    ensures { (rest : List ℕ) × (Some (result, rest) ≡ writes_at bytes.now) }
{
    let (count, rest) = read_byte(bytes).unwrap();
    stored_keys(usize::from(count), rest)
}

// A write set of so many keys.
#[inline(always)]
fn stored_keys(count: usize, bytes: &[u8]) -> WriteSet
    requires some { 0 < count }
    requires few { count ≤ max_keys }
    requires there { IsSome (writes_of count bytes.now) }
    ensures { (rest : List ℕ) × (Some (result, rest) ≡ writes_of count bytes.now) }
{
    let (first, _) = stored_key(bytes);
    let mut writes = WriteSet::only(first);
    unpack_keys(count, bytes, &mut writes);
    writes
}

// Writes the write set at the end over another one, so that none is copied.
#[inline(always)]
fn unpack_writes(bytes: &[u8], place: &mut WriteSet)
    requires { IsSome (writes_at bytes.now) }
    ensures { (rest : List ℕ) × (Some (place.new, rest) ≡ writes_at bytes.now) }
{
    let (count, rest) = read_byte(bytes).unwrap();
    unpack_keys(usize::from(count), rest, place);
}

// Writes a write set of so many keys over another one, key by key.
#[inline(always)]
fn unpack_keys(count: usize, bytes: &[u8], place: &mut WriteSet)
    requires some { 0 < count }
    requires few { count ≤ max_keys }
    requires there { IsSome (writes_of count bytes.now) }
    ensures { (rest : List ℕ) × (Some (place.new, rest) ≡ writes_of count bytes.now) }
{
    let mut keys = StoredKeys { bytes, left: count };
    place.set_from(&mut keys, count);
}

// Keys that lie one behind the other, so many.
#[derive(Drop)]
struct StoredKeys<'a> {
    bytes: &'a [u8],
    left: usize,
}

impl<'a> KeySource for StoredKeys<'a> {
    ghost use Rattle.packed.specs.Reading.{keys_in};

    ghost keys_left = { λ keys. keys_in keys.left keys.bytes.now };

    #[inline(always)]
    fn next_into(&mut self, place: &mut Key) {
        self.bytes = unpack_key(self.bytes, place);
        self.left -= 1;
    }
}

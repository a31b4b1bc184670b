//! What was packed, from the front of the bytes, and the bytes behind it.
ghost use Rattle.std.specs.Prelude.{◌≡◌, ◌<◌, ◌≤◌, length, IfNone};
ghost use Rattle.std.specs.Option.{option_map};
ghost use Rattle.stamps.specs.Limits.{max_keys};
ghost use Rattle.packed.specs.Reading.{byte_at, wide_at, number_at, count_at, text_at, stamp_from, stamp_at, key_from, tag_from, value_from, key_at, tag_at, value_at, writes_of, writes_from, writes_at, record_from, record_at};

use stamps::{Key, Record, Stamp, Tag, Value, WriteSet};

/// The byte at the front.
pub fn read_byte(bytes: &[u8]) -> Option<(u8, &[u8])>
    ensures { option_map (λ p. (p.0, p.1.now)) result ≡ byte_at bytes.now }
{
    match bytes {
        [] => None,
        [byte, rest @ ..] => Some((*byte, rest)),
    }
}

fn wide_at(bytes: &[u8]) -> Option<(u64, &[u8])>
    ensures { option_map (λ p. (p.0, p.1.now)) result ≡ wide_at bytes.now }
{
    if bytes.len() < 8 {
        return None;
    }
    let (front, rest) = bytes.split_at(8);
    let number = u64::from_le_bytes([
        front[0], front[1], front[2], front[3], front[4], front[5], front[6], front[7],
    ]);
    Some((number, rest))
}

/// The number at the front.
#[tactic(auto, unfolding(crate::specs::Reading::number_at))]
pub fn read_number(bytes: &[u8]) -> Option<(u64, &[u8])>
    ensures { option_map (λ p. (p.0, p.1.now)) result ≡ number_at bytes.now }
{
    let (first, rest) = read_byte(bytes)?;
    if first < 255 {
        return Some((u64::from(first), rest));
    }
    wide_at(rest)
}

/// The number below 2^32 at the front.
#[tactic(auto, unfolding(crate::specs::Reading::count_at))]
pub fn read_count(bytes: &[u8]) -> Option<(u32, &[u8])>
    ensures { option_map (λ p. (p.0, p.1.now)) result ≡ count_at bytes.now }
{
    let (number, rest) = read_number(bytes)?;
    if number > 4_294_967_295 {
        return None;
    }
    Some((number as u32, rest))
}

// The text at the front.
#[tactic(auto, unfolding(crate::specs::Reading::text_at))]
pub(crate) fn text_at(bytes: &[u8]) -> Option<(&[u8], &[u8])>
    ensures { option_map (λ p. (p.0.now, p.1.now)) result ≡ text_at bytes.now }
{
    let (len, rest) = read_byte(bytes)?;
    let len = usize::from(len);
    if rest.len() < len {
        return None;
    }
    Some(rest.split_at(len))
}

fn stamp_from(number: u64) -> Option<Stamp>
    ensures { result ≡ stamp_from number }
{
    if number == 0 {
        return Some(Stamp::ZERO);
    }
    Stamp::new(number / 65536, (number % 65536) as u16)
}

/// The stamp at the front.
#[tactic(auto, unfolding(crate::specs::Reading::stamp_at))]
pub fn read_stamp(bytes: &[u8]) -> Option<(Stamp, &[u8])>
    ensures { option_map (λ p. (p.0, p.1.now)) result ≡ stamp_at bytes.now }
{
    let (number, rest) = wide_at(bytes)?;
    let stamp = stamp_from(number)?;
    Some((stamp, rest))
}

fn key_from(text: &[u8]) -> Option<Key>
    ensures { result ≡ key_from text.now }
{
    Key::read(text)
}

fn tag_from(text: &[u8]) -> Option<Tag>
    ensures { result ≡ tag_from text.now }
{
    Tag::read(text)
}

fn value_from(text: &[u8]) -> Option<Value>
    ensures { result ≡ value_from text.now }
{
    Value::read(text)
}

/// The key at the front.
#[tactic(auto, unfolding(crate::specs::Reading::key_at))]
pub fn read_key(bytes: &[u8]) -> Option<(Key, &[u8])>
    ensures { option_map (λ p. (p.0, p.1.now)) result ≡ key_at bytes.now }
{
    let (text, rest) = text_at(bytes)?;
    let key = key_from(text)?;
    Some((key, rest))
}

/// The tag at the front.
#[tactic(auto, unfolding(crate::specs::Reading::tag_at))]
pub fn read_tag(bytes: &[u8]) -> Option<(Tag, &[u8])>
    ensures { option_map (λ p. (p.0, p.1.now)) result ≡ tag_at bytes.now }
{
    let (text, rest) = text_at(bytes)?;
    let tag = tag_from(text)?;
    Some((tag, rest))
}

/// The value at the front.
#[tactic(auto, unfolding(crate::specs::Reading::value_at))]
pub fn read_value(bytes: &[u8]) -> Option<(Value, &[u8])>
    ensures { option_map (λ p. (p.0, p.1.now)) result ≡ value_at bytes.now }
{
    let (text, rest) = text_at(bytes)?;
    let value = value_from(text)?;
    Some((value, rest))
}

fn writes_from(keys: &[Key]) -> Option<WriteSet>
    requires { 0 < length keys.now }
    ensures { result ≡ writes_from keys.now }
{
    WriteSet::new(keys)
}

// So many keys.
fn writes_of(count: usize, bytes: &[u8]) -> Option<(WriteSet, &[u8])>
    requires some { 0 < count }
    requires few { count ≤ max_keys }
    ensures { option_map (λ p. (p.0, p.1.now)) result ≡ writes_of count bytes.now }
{
    let (text, after_first) = text_at(bytes)?;
    let first = key_from(text)?;
    let mut keys = [first; WriteSet::MAX_LEN];
    let mut rest = after_first;
    for at in 1..count {
        let (part, after) = text_at(rest)?;
        let key = key_from(part)?;
        keys[at] = key;
        rest = after;
    }
    let writes = writes_from(&keys[..count])?;
    Some((writes, rest))
}

/// The write set at the front.
#[tactic(auto, unfolding(crate::specs::Reading::writes_at))]
pub fn read_writes(bytes: &[u8]) -> Option<(WriteSet, &[u8])>
    ensures { option_map (λ p. (p.0, p.1.now)) result ≡ writes_at bytes.now }
{
    let (count, rest) = read_byte(bytes)?;
    let count = usize::from(count);
    if count == 0 || count > WriteSet::MAX_LEN {
        return None;
    }
    writes_of(count, rest)
}

fn record_from(key: Key, tag: Tag, value: Value, stamp: Stamp, writes: WriteSet) -> Option<Record>
    ensures { result ≡ record_from key tag value stamp writes }
{
    Record::new(key, tag, value, stamp, writes)
}

/// The record at the front.
#[tactic(auto, unfolding(crate::specs::Reading::record_at))]
pub fn read_record(bytes: &[u8]) -> Option<(Record, &[u8])>
    ensures { option_map (λ p. (p.0, p.1.now)) result ≡ record_at bytes.now }
{
    let Some((key, rest)) = read_key(bytes) else {
        return None;
    };
    let Some((tag, rest)) = read_tag(rest) else {
        return None;
    };
    let Some((value, rest)) = read_value(rest) else {
        return None;
    };
    let Some((stamp, rest)) = read_stamp(rest) else {
        return None;
    };
    let Some((writes, rest)) = read_writes(rest) else {
        return None;
    };
    let record = record_from(key, tag, value, stamp, writes)?;
    Some((record, rest))
}

/// Writes the record at the front into the caller's buffer, where a record lies, and answers the bytes behind it. Where no record is at
/// the front, what lies there stays.
#[tactic(auto, unfolding(crate::specs::Reading::record_at))]
pub fn read_record_into<'a>(bytes: &'a [u8], place: &mut Record) -> Option<&'a [u8]>
    ensures read { option_map (λ rest. (place.new, rest.now)) result ≡ record_at bytes.now }
    ensures unread { IfNone result (place.new ≡ place.old) }
{
    let Some((key, rest)) = read_key(bytes) else {
        return None;
    };
    let Some((tag, rest)) = read_tag(rest) else {
        return None;
    };
    let Some((value, rest)) = read_value(rest) else {
        return None;
    };
    let Some((stamp, rest)) = read_stamp(rest) else {
        return None;
    };
    let Some((writes, rest)) = read_writes(rest) else {
        return None;
    };
    *place = record_from(key, tag, value, stamp, writes)?;
    Some(rest)
}

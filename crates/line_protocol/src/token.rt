//! The parts of a line.
ghost use Rattle.std.specs.Prelude.{◌≡◌, ◌<◌, ◌≤◌, ◌^◌, IfSome};
ghost use Rattle.std.specs.Option.{option_map};
ghost use Rattle.line_protocol.specs.Reading.{split_first, all_digits, is_numeral, number_at, stamp_at, key_at, tag_at, value_at, part_at, tagged_at, writes_at, record_from, record_at};

use memchr::memchr;
use stamps::{Key, Record, Stamp, Tag, Value, WriteSet};
use std::str;

/// What stands before the first such byte, and what stands after it, if there is one.
pub fn split_first(text: &[u8], byte: u8) -> Option<(&[u8], &[u8])>
    ensures { option_map (λ p. (p.0.now, p.1.now)) result ≡ split_first byte text.now }
{
    for (at, &other) in text.iter().enumerate() {
        if other == byte {
            return Some((&text[..at], &text[at + 1..]));
        }
    }
    None
}

// Whether each byte is a digit.
fn all_digits(text: &[u8]) -> bool
    ensures { result ≡ all_digits text.now }
{
    text.iter().all(|&byte| matches!(byte, b'0'..=b'9'))
}

// Whether this is one digit, or more of which the first is not `0`.
fn is_numeral(text: &[u8]) -> bool
    ensures { result ≡ is_numeral text.now }
{
    match text {
        [] => false,
        [digit] => digit.is_ascii_digit(),
        [first, others @ ..] => matches!(first, b'1'..=b'9') && all_digits(others),
    }
}

/// A number up to `most`, without sign and leading zeros.
pub fn read_number(text: &[u8], most: u64) -> Option<u64>
    ensures value { result ≡ number_at most text.now }
    ensures bound { IfSome result (λ n. n ≤ most) }
{
    if !is_numeral(text) {
        return None;
    }
    let digits = str::from_utf8(text).ok()?;
    let number = digits.parse::<u64>().ok()?;
    if number <= most { Some(number) } else { None }
}

/// COUNTER.CLIENT, both above 0, or `0.0`.
#[tactic(auto, unfolding(crate::specs::Reading::stamp_at))]
pub(crate) fn read_stamp(text: &[u8]) -> Option<Stamp>
    ensures { result ≡ stamp_at text.now }
{
    let (counter, client) = split_first(text, b'.')?;
    let counter = read_number(counter, Stamp::MAX_COUNTER)?;
    let client = read_number(client, u64::from(u16::MAX))?;
    if counter == 0 && client == 0 {
        return Some(Stamp::ZERO);
    }
    Stamp::new(counter, client as u16)
}

/// 1 to `MAX_KEY_LEN` bytes of a key.
pub fn read_key(text: &[u8]) -> Option<Key>
    ensures { result ≡ key_at text.now }
{
    Key::read(text)
}

/// A tag that is written has a byte at least.
pub fn read_tag(text: &[u8]) -> Option<Tag>
    ensures { result ≡ tag_at text.now }
{
    if text.is_empty() {
        return None;
    }
    Tag::read(text)
}

/// Up to 128 bytes of a value.
pub fn read_value(text: &[u8]) -> Option<Value>
    ensures { result ≡ value_at text.now }
{
    Value::read(text)
}

/// 1 to `MAX_KEYS` keys in byte order, each once, separated by commas.
pub(crate) fn read_writes(text: &[u8]) -> Option<WriteSet>
    ensures { result ≡ writes_at text.now }
{
    let (part, mut rest) = next_part(text, b',');
    let first = read_key(part)?;
    let mut keys = [first; WriteSet::MAX_LEN];
    let mut len = 1;
    while let Some(more) = rest {
        if len == WriteSet::MAX_LEN {
            return None;
        }
        let (part, after) = next_part(more, b',');
        let key = read_key(part)?;
        keys[len] = key;
        len += 1;
        rest = after;
    }
    WriteSet::new(&keys[..len])
}

/// What stands before the first such byte, and what follows that byte, if there is one.
pub fn next_part(text: &[u8], byte: u8) -> (&[u8], Option<&[u8]>)
    ensures { (result.0.now, option_map (λ t. t.now) result.1) ≡ part_at byte text.now }
{
    match memchr(byte, text) {
        None => (text, None),
        Some(at) => (&text[..at], Some(&text[at + 1..])),
    }
}

/// The same, of a part that is mostly short: byte by byte.
#[tactic(auto, unfolding(crate::specs::Reading::part_at))]
pub(crate) fn next_short_part(text: &[u8], byte: u8) -> (&[u8], Option<&[u8]>)
    ensures { (result.0.now, option_map (λ t. t.now) result.1) ≡ part_at byte text.now }
{
    match split_first(text, byte) {
        None => (text, None),
        Some((part, rest)) => (part, Some(rest)),
    }
}

/// What stands before a tag, and the tag, which is empty where no `#` stands.
#[tactic(auto, unfolding(crate::specs::Reading::tagged_at))]
pub fn read_tagged(text: &[u8]) -> Option<(&[u8], Tag)>
    ensures { option_map (λ p. (p.0.now, p.1)) result ≡ tagged_at text.now }
{
    match split_first(text, b'#') {
        None => Some((text, Tag::read(b"")?)),
        Some((front, tag)) => Some((front, read_tag(tag)?)),
    }
}

/// A record, given the keys that its transaction wrote: its own key must be one of them.
#[tactic(auto, unfolding(crate::specs::Reading::record_at))]
pub(crate) fn read_record(text: &[u8], writes: WriteSet) -> Option<Record>
    ensures { result ≡ record_at text.now writes }
{
    let (head, value) = split_first(text, b'=')?;
    let value = read_value(value)?;
    let (key, version) = split_first(head, b'@')?;
    let key = read_key(key)?;
    let Some((stamp, tag)) = read_tagged(version) else {
        return None;
    };
    let stamp = read_stamp(stamp)?;
    record_of(key, tag, value, stamp, writes)
}

fn record_of(key: Key, tag: Tag, value: Value, stamp: Stamp, writes: WriteSet) -> Option<Record>
    ensures { result ≡ record_from key tag value stamp writes }
{
    Record::new(key, tag, value, stamp, writes)
}

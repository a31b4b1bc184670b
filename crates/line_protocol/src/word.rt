//! The parts of a word: each is checked while its end is looked for.
ghost use Rattle.std.specs.Prelude.{◌≡◌, ◌==◌, ℕ, List, ◌∷◌, ◌++◌, Option, MatchOption};
ghost use Rattle.std.specs.List.{list_all, prefix_len};
ghost use Rattle.std.specs.Option.{option_map};
ghost use Rattle.stamps.specs.Key.{IsKey};
ghost use Rattle.stamps.specs.Tag.{IsTag};
ghost use Rattle.stamps.specs.Value.{IsValue};
ghost use Rattle.stamps.specs.Text.{is_name_byte, is_visible_byte};
ghost use Rattle.line_protocol.specs.Spelling.{equals, tag_text};
ghost use Rattle.line_protocol.specs.Words.{BeginsWithout, EndsTag, word_end};

use stamps::{Key, Tag, Value};

// How many bytes of a value are checked at once.
const CHUNK: usize = 16;

fn is_name_byte(byte: u8) -> bool
    ensures { result ≡ is_name_byte byte }
{
    matches!(byte, b'a'..=b'z' | b'0'..=b'9' | b'_' | b'.' | b'/' | b'-')
}

fn is_visible_byte(byte: u8) -> bool
    ensures { result ≡ is_visible_byte byte }
{
    matches!(byte, b'!'..=b'~')
}

// How many bytes from the front on may stand in a key or a tag.
fn name_len(text: &[u8]) -> usize
    ensures { result ≡ prefix_len is_name_byte text.now }
{
    for (at, &byte) in text.iter().enumerate() {
        if !is_name_byte(byte) {
            return at;
        }
    }
    text.len()
}

// How many bytes from the front on may stand in a value.
fn visible_len(text: &[u8]) -> usize
    ensures { result ≡ prefix_len is_visible_byte text.now }
{
    let mut rest = text;
    while let Some((bytes, after)) = rest.split_first_chunk::<CHUNK>() {
        if !are_visible(bytes) {
            break;
        }
        rest = after;
    }
    text.len() - rest.len() + short_visible_len(rest)
}

// All bytes are tested, so that this is done for many at once.
fn are_visible(bytes: &[u8; CHUNK]) -> bool
    ensures { result ≡ list_all is_visible_byte bytes.now }
{
    let mut are_visible = true;
    for byte in bytes {
        are_visible &= is_visible_byte(*byte);
    }
    are_visible
}

// The same as `visible_len`, byte by byte.
fn short_visible_len(text: &[u8]) -> usize
    ensures { result ≡ prefix_len is_visible_byte text.now }
{
    for (at, &byte) in text.iter().enumerate() {
        if !is_visible_byte(byte) {
            return at;
        }
    }
    text.len()
}

// What stands behind this byte, if the text begins with it.
fn after_byte(text: &[u8], byte: u8) -> Option<&[u8]>
    ensures { MatchOption result
        (BeginsWithout (λ b. b == byte) text.now)
        (λ after. text.now ≡ byte ∷ after.now) }
{
    match text {
        [first, after @ ..] if *first == byte => Some(after),
        _ => None,
    }
}

/// The key with which a text begins, and what stands behind it.
pub(crate) fn split_key(text: &[u8]) -> Option<(&[u8], &[u8])>
    ensures { MatchOption result
        ((key after : List ℕ) → IsKey key
        → BeginsWithout is_name_byte after
        → (text.now ≡ key ++ after) → ⊥)
        (λ p. IsKey p.0.now
        × (text.now ≡ p.0.now ++ p.1.now)
        × BeginsWithout is_name_byte p.1.now) }
{
    let len = name_len(text);
    if len == 0 || len > Key::MAX_LEN {
        return None;
    }
    Some(text.split_at(len))
}

/// The tag with which a text begins, after a `#`, and what stands behind it. The tag is empty where no `#` stands.
pub(crate) fn split_tag(text: &[u8]) -> Option<(Tag, &[u8])>
    ensures { MatchOption result
        ((tag after : List ℕ) → IsTag tag
        → (text.now ≡ tag_text tag ++ equals ∷ after) → ⊥)
        (λ p. IsTag p.0
        × (text.now ≡ tag_text p.0 ++ p.1.now)
        × EndsTag p.0 p.1.now) }
{
    let Some(after) = after_byte(text, b'#') else {
        return Some((Tag::of_stored(b""), text));
    };
    let len = name_len(after);
    if len == 0 || len > Tag::MAX_LEN {
        return None;
    }
    let (tag, after) = after.split_at(len);
    Some((Tag::of_stored(tag), after))
}

/// The value with which a text begins, after a `=`, and what follows the space behind it, if there is one.
pub(crate) fn split_value(text: &[u8]) -> Option<(&[u8], Option<&[u8]>)>
    ensures { MatchOption result
        ((value : List ℕ) (rest : Option (List ℕ)) → IsValue value
        → (text.now ≡ equals ∷ (value ++ word_end rest)) → ⊥)
        (λ p. IsValue p.0.now
        × (text.now ≡ equals ∷ (p.0.now ++ word_end (option_map (λ t. t.now) p.1)))) }
{
    let after = after_byte(text, b'=')?;
    let len = visible_len(after);
    if len > Value::MAX_LEN {
        return None;
    }
    let (value, after) = after.split_at(len);
    Some((value, split_end(after)?))
}

/// What follows the space behind a word, if there is one. `None` where something else stands there.
pub(crate) fn split_end(text: &[u8]) -> Option<Option<&[u8]>>
    ensures { MatchOption result
        ((rest : Option (List ℕ)) → (text.now ≡ word_end rest) → ⊥)
        (λ rest. text.now ≡ word_end (option_map (λ t. t.now) rest)) }
{
    match text {
        [] => Some(None),
        [b' ', rest @ ..] => Some(Some(rest)),
        _ => None,
    }
}

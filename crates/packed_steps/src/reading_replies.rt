//! The replies that were packed, from the front of the bytes, and the bytes behind each.
ghost use Rattle.std.specs.Prelude.{◌≡◌, ◌<◌};
ghost use Rattle.std.specs.Option.{option_map};
ghost use Rattle.packed.specs.Packing.{IsReadAgain};
ghost use Rattle.packed_steps.specs.PackedCalls.{IsStoreReply, packed_reply};
ghost use Rattle.packed_steps.specs.PackedCalls.{found_from, some_found_at, found_at, committed_at, version_at, collected_at, told_at, freed_at, dropped_at, plain_reply, plain_reply_by, reply_by, reply_at};

use packed::{read_byte, read_count, read_record, read_stamp, read_writes};
use plain_store::{DiscardReply, Found, PrepareReply, ReadReply, Reply};
use stamps::WriteSet;

// So many items, of whose keys these are the first.
fn found_from(count: u32, keys: &WriteSet) -> Option<Found>
    requires { 0 < count }
    ensures { result ≡ found_from count keys.now }
{
    let keys = keys.as_slice();
    let told = (count as usize).min(Found::MAX_KEYS);
    if keys.len() != told {
        return None;
    }
    Some(Found::new(count, keys))
}

#[tactic(auto, unfolding(crate::specs::PackedCalls::some_found_at))]
fn some_found_at(count: u32, bytes: &[u8]) -> Option<(Found, &[u8])>
    requires { 0 < count }
    ensures { option_map (λ p. (p.0, p.1.now)) result ≡ some_found_at count bytes.now }
{
    let Some((keys, rest)) = read_writes(bytes) else {
        return None;
    };
    let found = found_from(count, &keys)?;
    Some((found, rest))
}

/// What stands under a tag, at the front.
#[tactic(auto, unfolding(crate::specs::PackedCalls::found_at))]
pub fn read_found(bytes: &[u8]) -> Option<(Found, &[u8])>
    ensures { option_map (λ p. (p.0, p.1.now)) result ≡ found_at bytes.now }
{
    let (count, rest) = read_count(bytes)?;
    if count == 0 {
        return Some((Found::new(0, &[]), rest));
    }
    some_found_at(count, rest)
}

#[tactic(auto, unfolding(crate::specs::PackedCalls::committed_at))]
fn committed_at(bytes: &[u8]) -> Option<(Reply, &[u8])>
    ensures { option_map (λ p. (p.0, p.1.now)) result ≡ committed_at bytes.now }
{
    let (count, rest) = read_count(bytes)?;
    Some((Reply::Committed(count), rest))
}

#[tactic(auto, unfolding(crate::specs::PackedCalls::version_at))]
fn version_at(bytes: &[u8]) -> Option<(Reply, &[u8])>
    ensures { option_map (λ p. (p.0, p.1.now)) result ≡ version_at bytes.now }
{
    let Some((version, rest)) = read_record(bytes) else {
        return None;
    };
    Some((Reply::Get(ReadReply::Version(version)), rest))
}

#[tactic(auto, unfolding(crate::specs::PackedCalls::collected_at))]
fn collected_at(bytes: &[u8]) -> Option<(Reply, &[u8])>
    ensures { option_map (λ p. (p.0, p.1.now)) result ≡ collected_at bytes.now }
{
    let Some((floor, rest)) = read_stamp(bytes) else {
        return None;
    };
    Some((Reply::Get(ReadReply::Collected(floor)), rest))
}

#[tactic(auto, unfolding(crate::specs::PackedCalls::told_at))]
fn told_at(bytes: &[u8]) -> Option<(Reply, &[u8])>
    ensures { option_map (λ p. (p.0, p.1.now)) result ≡ told_at bytes.now }
{
    let Some((found, rest)) = read_found(bytes) else {
        return None;
    };
    Some((Reply::Found(found), rest))
}

#[tactic(auto, unfolding(crate::specs::PackedCalls::freed_at))]
fn freed_at(bytes: &[u8]) -> Option<(Reply, &[u8])>
    ensures { option_map (λ p. (p.0, p.1.now)) result ≡ freed_at bytes.now }
{
    let (count, rest) = read_count(bytes)?;
    Some((Reply::Freed(count), rest))
}

#[tactic(auto, unfolding(crate::specs::PackedCalls::dropped_at))]
fn dropped_at(bytes: &[u8]) -> Option<(Reply, &[u8])>
    ensures { option_map (λ p. (p.0, p.1.now)) result ≡ dropped_at bytes.now }
{
    let (count, rest) = read_count(bytes)?;
    Some((Reply::Discard(DiscardReply::Dropped(count)), rest))
}

// The reply of a form that has no parts.
fn plain_reply(form: u8) -> Option<Reply>
    ensures { result ≡ plain_reply form }
{
    match form {
        0 => Some(Reply::Prepare(PrepareReply::Prepared)),
        1 => Some(Reply::Prepare(PrepareReply::FullSlots)),
        2 => Some(Reply::Prepare(PrepareReply::FullItems)),
        3 => Some(Reply::Prepare(PrepareReply::Clash)),
        4 => Some(Reply::Prepare(PrepareReply::Discarded)),
        7 => Some(Reply::Get(ReadReply::Initial)),
        9 => Some(Reply::Get(ReadReply::Unknown)),
        13 => Some(Reply::Discard(DiscardReply::FullMarks)),
        _ => None,
    }
}

#[tactic(auto, unfolding(crate::specs::PackedCalls::plain_reply_by))]
fn plain_reply_by(form: u8, bytes: &[u8]) -> Option<(Reply, &[u8])>
    ensures { option_map (λ p. (p.0, p.1.now)) result ≡ plain_reply_by form bytes.now }
{
    let reply = plain_reply(form)?;
    Some((reply, bytes))
}

// The parts of this form.
#[tactic(auto, unfolding(crate::specs::PackedCalls::reply_by))]
fn reply_by(form: u8, bytes: &[u8]) -> Option<(Reply, &[u8])>
    ensures { option_map (λ p. (p.0, p.1.now)) result ≡ reply_by form bytes.now }
{
    match form {
        5 => committed_at(bytes),
        6 => version_at(bytes),
        8 => collected_at(bytes),
        10 => told_at(bytes),
        11 => freed_at(bytes),
        12 => dropped_at(bytes),
        _ => plain_reply_by(form, bytes),
    }
}

#[tactic(auto, unfolding(crate::specs::PackedCalls::reply_at))]
fn reply_at(bytes: &[u8]) -> Option<(Reply, &[u8])>
    ensures { option_map (λ p. (p.0, p.1.now)) result ≡ reply_at bytes.now }
{
    let (form, rest) = read_byte(bytes)?;
    reply_by(form, rest)
}

/// The reply at the front. Where the bytes begin with a packed reply, it is that one.
pub fn read_reply(bytes: &[u8]) -> Option<(Reply, &[u8])>
    ensures exact { option_map (λ p. (p.0, p.1.now)) result ≡ reply_at bytes.now }
    ensures again { IsReadAgain packed_reply IsStoreReply
        (option_map (λ p. (p.0, p.1.now)) result) bytes.now }
{
    reply_at(bytes)
}

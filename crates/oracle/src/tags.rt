//! The items that stand under a tag.
ghost use Rattle.std.specs.Prelude.{◌≡◌, IfOk, option_copied};
ghost use Rattle.plain_store.specs.Replies.{IsSound};
ghost use Rattle.plain_store.specs.Tags.{carries, findings, is_under, under};
ghost use Rattle.plain_store.specs.Words.{is_tagged};

use super::lists;
use super::log::{self, Exchange};
use super::replies::Room;
use plain_store::Found;
use stamps::{Key, Record, Stamp, Tag};
use std::alloc::{AllocError, Global};

/// Whether a tag is this one. The empty tag is no tag.
pub(super) fn is_tagged(tag: &Tag, own: &Tag) -> bool
    ensures { result ≡ is_tagged tag.now own.now }
{
    tag.as_bytes() != b"".as_slice() && *own == *tag
}

/// Whether there is a record, and it carries the tag.
fn carries(tag: &Tag, known: Option<&Record>) -> bool
    ensures { result ≡ carries tag.now (option_copied known.entry) }
{
    match known {
        Some(known) => is_tagged(tag, &known.tag),
        None => false,
    }
}

/// Whether the latest committed version of an item carries the tag.
fn is_under(alloc: Global, log: &[Exchange], tag: &Tag, key: &Key) -> Result<bool, AllocError>
    ensures { IfOk result (λ test. test ≡ is_under log.now tag.now key.now) }
{
    let latest = log::latest(alloc, log, key)?;
    if latest == Stamp::ZERO {
        return Ok(false);
    }
    Ok(carries(tag, log::record_of(alloc, log, key, latest)?.as_ref()))
}

/// The items under a tag.
#[tactic(auto, unfolding(plain_store::specs::Tags::under))]
fn under(alloc: Global, log: &[Exchange], tag: &Tag) -> Result<Vec<Key>, AllocError>
    ensures { IfOk result (λ list. list.items ≡ under log.now tag.now) }
{
    let items = log::items(alloc, log)?;
    let mut under = Vec::new(alloc);
    for key in &items {
        if is_under(alloc, log, tag, key)? {
            under.push(*key)?;
        }
    }
    Ok(under)
}

/// How many items are under a tag, and the first of their keys.
pub(super) fn findings(
    alloc: Global,
    room: &Room,
    log: &[Exchange],
    tag: &Tag,
) -> Result<Found, AllocError>
    requires { IsSound room.now log.now }
    ensures { IfOk result (λ found. found ≡ findings log.now tag.now) }
{
    let _greatest_count = room.items;
    let under = under(alloc, log, tag)?;
    let mut keys = lists::sorted_keys(alloc, &under)?;
    keys.truncate(Found::MAX_KEYS);
    Ok(Found::new(under.len() as u32, &keys))
}

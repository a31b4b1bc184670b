//! A read: its two rounds, what their replies show, and what is then read.
ghost use Rattle.std.specs.Prelude.{◌≡◌, ◌&&◌, Bool, IfOk, Option, Some, None, filter, map, is_some};
ghost use Rattle.std.specs.List.{list_all, list_any};
ghost use Rattle.stamps.specs.Stamp.{greatest};
ghost use Rattle.plain_store.specs.Rounds.{first_calls, first_stamp, is_false_first, is_false_second, is_late, needed, reading_calls, reading_of, round_one_complete, round_two_complete, seen_first, seen_second, shown_first, shown_second, shows_writes, stamp_for, stamp_seen, version_read};
ghost use Rattle.plain_store.specs.declared.message.Message.{Message as Told};
ghost use Rattle.plain_store.specs.Words.{home};

use super::history::Setup;
use super::lists;
use super::writing::{self, Outgoing};
use plain_store::{Call, Message, ReadReply, Reading, Reply};
use stamps::{Item, Key, Record, Stamp, Tag, Value, WriteSet};
use std::alloc::{AllocError, Global};

/// What a round-one reply shows of the key: nothing yet, the initial version, or a record.
fn shown_first(key: &Key, message: &Message) -> Option<Option<Record>>
    ensures { result ≡ shown_first key.now message.now.call message.now.reply }
{
    match (&message.call, &message.reply) {
        (Call::Get(asked, None), Some(Reply::Get(ReadReply::Version(version)))) if *asked == *key =>
            Some(Some(*version)),
        (Call::Get(asked, None), Some(Reply::Get(ReadReply::Initial))) if *asked == *key => Some(
            None,
        ),
        _ => None,
    }
}

/// What a round-two reply shows of the version of this stamp.
fn shown_second(key: &Key, stamp: Stamp, message: &Message) -> Option<Record>
    ensures { result ≡ shown_second key.now stamp message.now.call message.now.reply }
{
    match (&message.call, &message.reply) {
        (Call::Get(asked, Some(at)), Some(Reply::Get(ReadReply::Version(version))))
            if *asked == *key && *at == stamp => Some(*version),
        _ => None,
    }
}

/// What the first reply of round one shows of the key.
#[tactic(auto, unfolding(plain_store::specs::Rounds::seen_first))]
fn seen_first(replies: &[Message], key: &Key) -> Option<Option<Record>>
    ensures { result ≡ seen_first replies.now key.now }
{
    match replies {
        [] => None,
        [message, rest @ ..] => match shown_first(key, message) {
            Some(shown) => Some(shown),
            None => seen_first(rest, key),
        },
    }
}

/// What the first reply of round two shows of the version.
#[tactic(auto, unfolding(plain_store::specs::Rounds::seen_second))]
fn seen_second(replies: &[Message], key: &Key, stamp: Stamp) -> Option<Record>
    ensures { result ≡ seen_second replies.now key.now stamp }
{
    match replies {
        [] => None,
        [message, rest @ ..] => match shown_second(key, stamp, message) {
            Some(shown) => Some(shown),
            None => seen_second(rest, key, stamp),
        },
    }
}

/// The stamp that was seen in round one, `0.0` where none was.
#[tactic(auto, unfolding(plain_store::specs::Rounds::first_stamp))]
fn first_stamp(replies: &[Message], key: &Key) -> Stamp
    ensures { result ≡ first_stamp replies.now key.now }
{
    match seen_first(replies, key) {
        Some(Some(version)) => version.stamp,
        _ => Stamp::ZERO,
    }
}

/// The stamp of what was seen, where its transaction wrote the key.
fn stamp_for(key: &Key, seen: &Option<Option<Record>>) -> Stamp
    ensures { result ≡ stamp_for key.now seen.now }
{
    match seen {
        Some(Some(version)) if version.writes.contains(key) => version.stamp,
        _ => Stamp::ZERO,
    }
}

/// The greatest stamp seen in round one of the keys whose transaction wrote the key.
#[tactic(auto, unfolding(plain_store::specs::Rounds::needed))]
fn needed(keys: &[Key], replies: &[Message], key: &Key) -> Stamp
    ensures { result ≡ needed keys.now replies.now key.now }
{
    match keys {
        [] => Stamp::ZERO,
        [other, rest @ ..] => lists::greater(
            stamp_for(key, &seen_first(replies, other)),
            needed(rest, replies, key),
        ),
    }
}

/// Whether a later version of the key is needed than was seen.
fn is_late(keys: &[Key], replies: &[Message], key: &Key) -> bool
    ensures { result ≡ is_late keys.now replies.now key.now }
{
    first_stamp(replies, key) < needed(keys, replies, key)
}

/// A GET of each key's latest version.
pub(super) fn first_calls(
    alloc: Global,
    setup: &Setup,
    keys: &[Key],
) -> Result<Vec<Outgoing>, AllocError>
    ensures { IfOk result (λ list. list.items ≡ first_calls setup.now keys.now) }
{
    match keys {
        [] => Ok(Vec::new(alloc)),
        [key, rest @ ..] => {
            let first = Outgoing {
                partition: writing::home(setup, key),
                call: Call::Get(*key, None),
            };
            lists::prepend(first, first_calls(alloc, setup, rest)?)
        }
    }
}

/// A GET of the needed version of each of some of the keys that is late.
pub(super) fn late_calls(
    alloc: Global,
    setup: &Setup,
    keys: &[Key],
    replies: &[Message],
    some: &[Key],
) -> Result<Vec<Outgoing>, AllocError>
    ensures { IfOk result (λ list. list.items
        ≡ map (λ key. record {
          partition = home setup.now key;
          call = Call.Get key
              (Some (needed keys.now replies.now key));
        })
        (filter (is_late keys.now replies.now) some.now)) }
{
    match some {
        [] => Ok(Vec::new(alloc)),
        [key, others @ ..] => {
            let rest = late_calls(alloc, setup, keys, replies, others)?;
            if !is_late(keys, replies, key) {
                return Ok(rest);
            }
            let first = Outgoing {
                partition: writing::home(setup, key),
                call: Call::Get(*key, Some(needed(keys, replies, key))),
            };
            lists::prepend(first, rest)
        }
    }
}

/// Whether round one shows something of each key.
pub(super) fn round_one_complete(keys: &[Key], replies: &[Message]) -> bool
    ensures { result ≡ round_one_complete keys.now replies.now }
{
    match keys {
        [] => true,
        [key, rest @ ..] => seen_first(replies, key).is_some() && round_one_complete(rest, replies),
    }
}

/// Whether round two shows the needed version of each of some of the keys that is late.
pub(super) fn all_shown_late(keys: &[Key], replies: &[Message], some: &[Key]) -> bool
    ensures { result
        ≡ list_all (λ key. is_some (seen_second replies.now key (needed keys.now replies.now key)))
        (filter (is_late keys.now replies.now) some.now) }
{
    match some {
        [] => true,
        [key, rest @ ..] => {
            let needed = needed(keys, replies, key);
            let is_late = first_stamp(replies, key) < needed;
            if is_late && seen_second(replies, key, needed).is_none() {
                return false;
            }
            all_shown_late(keys, replies, rest)
        }
    }
}

/// The calls of the round that a reader is in.
pub(super) fn reading_calls(
    alloc: Global,
    setup: &Setup,
    keys: &[Key],
    replies: &[Message],
) -> Result<Vec<Outgoing>, AllocError>
    ensures { IfOk result (λ list. list.items ≡ reading_calls setup.now keys.now replies.now) }
{
    if round_one_complete(keys, replies) {
        late_calls(alloc, setup, keys, replies, keys)
    } else {
        first_calls(alloc, setup, keys)
    }
}

/// The record that is read at the key, or none for the initial version.
fn version_read(keys: &[Key], replies: &[Message], key: &Key) -> Option<Record>
    ensures { result ≡ version_read keys.now replies.now key.now }
{
    if is_late(keys, replies, key) {
        return seen_second(replies, key, needed(keys, replies, key));
    }
    match seen_first(replies, key) {
        Some(seen) => seen,
        None => None,
    }
}

/// What a reader gets of a key at which this version is read.
fn reading_of(key: &Key, version: &Option<Record>) -> Reading
    ensures { result ≡ reading_of key.now version.now }
{
    match version {
        None => {
            let nothing = b"";
            let item = Item {
                key: *key,
                tag: Tag::read(nothing).unwrap(),
                value: Value::read(nothing).unwrap(),
            };
            Reading {
                item,
                stamp: Stamp::ZERO,
            }
        }
        Some(version) => {
            let item = Item {
                key: version.key,
                tag: version.tag,
                value: version.value,
            };
            Reading {
                item,
                stamp: version.stamp,
            }
        }
    }
}

/// What a reader of these keys gets of one of them.
fn reading_for(keys: &[Key], replies: &[Message], key: &Key) -> Reading
    ensures { result ≡ reading_of key.now (version_read keys.now replies.now key.now) }
{
    reading_of(key, &version_read(keys, replies, key))
}

/// What a reader of these keys gets of some of them.
pub(super) fn readings_of(
    alloc: Global,
    keys: &[Key],
    replies: &[Message],
    some: &[Key],
) -> Result<Vec<Reading>, AllocError>
    ensures { IfOk result (λ list. list.items
        ≡ map (λ key. reading_of key (version_read keys.now replies.now key)) some.now) }
{
    match some {
        [] => Ok(Vec::new(alloc)),
        [key, rest @ ..] => {
            let first = reading_for(keys, replies, key);
            lists::prepend(first, readings_of(alloc, keys, replies, rest)?)
        }
    }
}

/// Whether a round-one reply shows a record of the stamp with this write set.
fn shows_writes(stamp: Stamp, writes: &WriteSet, message: &Message) -> bool
    ensures { result ≡ shows_writes stamp writes.now message.now.call message.now.reply }
{
    match (&message.call, &message.reply) {
        (Call::Get(_, None), Some(Reply::Get(ReadReply::Version(version)))) => version.stamp
            == stamp
            && version.writes == *writes,
        _ => false,
    }
}

/// Whether a round-one reply is inconsistent.
pub(super) fn is_false_first(key: &Key, reply: &ReadReply) -> bool
    ensures { result ≡ is_false_first key.now reply.now }
{
    match reply {
        ReadReply::Version(version) => version.key != *key,
        ReadReply::Initial => false,
        ReadReply::Collected(_) | ReadReply::Unknown => true,
    }
}

/// Whether round one showed a record of the stamp with this write set.
fn was_shown(replies: &[Message], stamp: Stamp, writes: &WriteSet) -> bool
    ensures { result
        ≡ list_any (λ (m : Told). shows_writes stamp writes.now m.call m.reply) replies.now }
{
    match replies {
        [] => false,
        [message, rest @ ..] => shows_writes(stamp, writes, message)
            || was_shown(rest, stamp, writes),
    }
}

/// Whether a round-two reply is inconsistent.
pub(super) fn is_false_second(
    replies: &[Message],
    key: &Key,
    stamp: Stamp,
    reply: &ReadReply,
) -> bool
    ensures { result ≡ is_false_second replies.now key.now stamp reply.now }
{
    match reply {
        ReadReply::Version(version) => version.key != *key
            || version.stamp != stamp
            || !was_shown(replies, stamp, &version.writes),
        ReadReply::Collected(floor) => stamp >= *floor,
        ReadReply::Initial | ReadReply::Unknown => true,
    }
}

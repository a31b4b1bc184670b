//! What one cell holds after a log.
ghost use Rattle.std.specs.Prelude.{◌≡◌, ◌∷◌, [], IfOk, find, map, option_copied, ◌&&◌, bytes_eq};
ghost use Rattle.std.specs.List.{list_any};
ghost use Rattle.plain_store.specs.Log.{accepted, accepts, commits, committed, discarded_by, discards, distinct, floor, is_committed, is_kept, is_live, is_version, items, kept, latest, raised, record_of, versions, with_version};

use super::lists;
use plain_store::{Call, DiscardReply, PrepareReply, Reply};
use stamps::{Keep, Key, Record, Stamp};
use std::alloc::{AllocError, Global};
use std::marker::Model;

/// A call, and the reply that it got. A log lists its exchanges newest first.
#[derive(Clone, Copy)]
pub(super) struct Exchange {
    pub(super) call: Call,
    pub(super) reply: Reply,
}

impl Model for Exchange {
    ghost use Rattle.plain_store.specs.Log.{Exchange as Logged};

    ghost Value = { Logged };

    ghost view = { λ e. record { call = e.call; reply = e.reply } };

    ghost inverse = { λ e. record { call = e.call; reply = e.reply } };
}

/// Whether the record is that of this version.
fn is_version(key: &Key, stamp: Stamp, known: &Record) -> bool
    ensures { result ≡ is_version key.now stamp known.now }
{
    known.key == *key && known.stamp == stamp
}

/// Whether a record of this version is among these.
fn has_version(versions: &[Record], key: &Key, stamp: Stamp) -> bool
    ensures { result ≡ list_any (is_version key.now stamp) versions.now }
{
    match versions {
        [] => false,
        [known, rest @ ..] => is_version(key, stamp, known) || has_version(rest, key, stamp),
    }
}

/// The record of this version among these.
pub(super) fn find_version<'a>(
    versions: &'a [Record],
    key: &Key,
    stamp: Stamp,
) -> Option<&'a Record>
    ensures { option_copied result ≡ find (is_version key.now stamp) versions.now }
{
    match versions {
        [] => None,
        [known, rest @ ..] => {
            if is_version(key, stamp, known) {
                return Some(known);
            }
            find_version(rest, key, stamp)
        }
    }
}

/// The record of a PREPARE that was answered Prepared.
fn accepted(exchange: &Exchange) -> Option<Record>
    ensures { result ≡ accepted exchange.now }
{
    match (&exchange.call, &exchange.reply) {
        (Call::Prepare(record), Reply::Prepare(PrepareReply::Prepared)) => Some(*record),
        _ => None,
    }
}

/// The versions with one more, unless it is among them.
fn with_version(
    accepted: Option<Record>,
    mut versions: Vec<Record>,
) -> Result<Vec<Record>, AllocError>
    ensures { IfOk result (λ list. list.items ≡ with_version accepted versions.items) }
{
    let Some(record) = accepted else {
        return Ok(versions);
    };
    if has_version(&versions, &record.key, record.stamp) {
        return Ok(versions);
    }
    versions.insert(0, record)?;
    Ok(versions)
}

/// Every version that was ever accepted.
pub(super) fn versions(alloc: Global, log: &[Exchange]) -> Result<Vec<Record>, AllocError>
    ensures { IfOk result (λ list. list.items ≡ versions log.now) }
{
    match log {
        [] => Ok(Vec::new(alloc)),
        [exchange, before @ ..] => with_version(accepted(exchange), versions(alloc, before)?),
    }
}

/// The record of a version that was ever accepted.
pub(super) fn record_of(
    alloc: Global,
    log: &[Exchange],
    key: &Key,
    stamp: Stamp,
) -> Result<Option<Record>, AllocError>
    ensures { IfOk result (λ found. found ≡ record_of log.now key.now stamp) }
{
    Ok(find_version(&versions(alloc, log)?, key, stamp).copied())
}

/// The stamp of a DISCARD that counts, which is one that was not refused.
pub(super) fn discarded_by(call: &Call, reply: &Reply) -> Option<Stamp>
    ensures { result ≡ discarded_by call.now reply.now }
{
    match (call, reply) {
        (Call::Discard(stamp), Reply::Discard(DiscardReply::Dropped(_))) => Some(*stamp),
        _ => None,
    }
}

/// Whether it is a DISCARD of the stamp that counts.
fn discards(exchange: &Exchange, stamp: Stamp) -> bool
    ensures { result ≡ discards exchange.now stamp }
{
    match discarded_by(&exchange.call, &exchange.reply) {
        Some(discarded) => discarded == stamp,
        None => false,
    }
}

/// Whether it is a PREPARE of the version that was answered Prepared.
fn accepts(exchange: &Exchange, key: &Key, stamp: Stamp) -> bool
    ensures { result ≡ accepts exchange.now key.now stamp }
{
    match accepted(exchange) {
        Some(version) => is_version(key, stamp, &version),
        None => false,
    }
}

/// Whether an accepted PREPARE of the version stands in the log with no DISCARD of its stamp behind it.
fn is_live(log: &[Exchange], key: &Key, stamp: Stamp) -> bool
    ensures { result ≡ is_live log.now key.now stamp }
{
    match log {
        [] => false,
        [exchange, before @ ..] => {
            !discards(exchange, stamp)
                && (accepts(exchange, key, stamp) || is_live(before, key, stamp))
        }
    }
}

/// Whether the version is not below its item's floor, and is committed or was not discarded.
fn is_kept(alloc: Global, log: &[Exchange], version: &Record) -> Result<bool, AllocError>
    ensures { IfOk result (λ test. test ≡ is_kept log.now version.now) }
{
    if version.stamp < floor(alloc, log, &version.key)? {
        return Ok(false);
    }
    Ok(is_committed(log, &version.key, version.stamp) || is_live(log, &version.key, version.stamp))
}

/// Whether a call is the COMMIT of a stamp.
fn commits(call: &Call, stamp: Stamp) -> bool
    ensures { result ≡ commits call.now stamp }
{
    match call {
        Call::Commit(committed) => stamp == *committed,
        _ => false,
    }
}

/// Whether a COMMIT of the version came once it was prepared.
pub(super) fn is_committed(log: &[Exchange], key: &Key, stamp: Stamp) -> bool
    ensures { result ≡ is_committed log.now key.now stamp }
{
    match log {
        [] => false,
        [exchange, before @ ..] => {
            (commits(&exchange.call, stamp) && is_live(before, key, stamp))
                || is_committed(before, key, stamp)
        }
    }
}

/// Whether the version is a committed one of the item.
fn is_committed_of(log: &[Exchange], key: &Key, version: &Record) -> bool
    ensures { result
        ≡ (bytes_eq version.now.key key.now
        && is_committed log.now version.now.key version.now.stamp) }
{
    version.key == *key && is_committed(log, &version.key, version.stamp)
}

/// The committed stamps of an item.
fn committed(alloc: Global, log: &[Exchange], key: &Key) -> Result<Vec<Stamp>, AllocError>
    ensures { IfOk result (λ list. list.items ≡ committed log.now key.now) }
{
    let versions = versions(alloc, log)?;
    let mut stamps = Vec::new(alloc);
    for version in &versions {
        if is_committed_of(log, key, version) {
            stamps.push(version.stamp)?;
        }
    }
    Ok(stamps)
}

/// The greatest committed stamp of an item, `0.0` where there is none.
pub(super) fn latest(alloc: Global, log: &[Exchange], key: &Key) -> Result<Stamp, AllocError>
    ensures { IfOk result (λ stamp. stamp ≡ latest log.now key.now) }
{
    Ok(lists::greatest(&committed(alloc, log, key)?))
}

/// A floor, raised by a collection.
fn raised(alloc: Global, keep: Keep, stamps: &[Stamp], floor: Stamp) -> Result<Stamp, AllocError>
    ensures { IfOk result (λ stamp. stamp ≡ raised (Call.Collect keep) stamps.now floor) }
{
    let kept = lists::kth_greatest(alloc, keep, stamps)?;
    Ok(lists::greater(floor, kept))
}

/// The floor of an item.
pub(super) fn floor(alloc: Global, log: &[Exchange], key: &Key) -> Result<Stamp, AllocError>
    ensures { IfOk result (λ stamp. stamp ≡ floor log.now key.now) }
{
    match log {
        [] => Ok(Stamp::ZERO),
        [exchange, before @ ..] => match &exchange.call {
            Call::Collect(keep) => {
                let stamps = committed(alloc, before, key)?;
                raised(alloc, *keep, &stamps, floor(alloc, before, key)?)
            }
            _ => floor(alloc, before, key),
        },
    }
}

/// The versions that were not dropped.
pub(super) fn kept(alloc: Global, log: &[Exchange]) -> Result<Vec<Record>, AllocError>
    ensures { IfOk result (λ list. list.items ≡ kept log.now) }
{
    let versions = versions(alloc, log)?;
    let mut kept = Vec::new(alloc);
    for version in &versions {
        if is_kept(alloc, log, version)? {
            kept.push(*version)?;
        }
    }
    Ok(kept)
}

/// The items that have an entry.
pub(super) fn items(alloc: Global, log: &[Exchange]) -> Result<Vec<Key>, AllocError>
    ensures { IfOk result (λ list. list.items ≡ items log.now) }
{
    lists::distinct(alloc, &keys_of(alloc, &versions(alloc, log)?)?)
}

/// The key of each version, in their order.
fn keys_of(alloc: Global, versions: &[Record]) -> Result<Vec<Key>, AllocError>
    ensures { IfOk result (λ list. list.items ≡ map (λ (v : Record). v.key) versions.now) }
{
    match versions {
        [] => Ok(Vec::new(alloc)),
        [version, rest @ ..] => lists::prepend(version.key, keys_of(alloc, rest)?),
    }
}

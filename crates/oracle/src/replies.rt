//! The reply of a cell to a call, after a log.
ghost use Rattle.std.specs.Prelude.{◌≡◌, ◌∷◌, ◌-◌, IfOk, count_by, ◌==◌, length, option_copied};
ghost use Rattle.plain_store.specs.Log.{kept};
ghost use Rattle.plain_store.specs.Replies.{IsSound, discard_reply, found_or, get_reply, is_droppable, prepare_reply, reply_after};
ghost use Rattle.oracle.specs.Words.{Counts};

use super::log::{self, Exchange};
use super::{lists, marks, tags};
use plain_store::{Call, DiscardReply, PrepareReply, ReadReply, Reply};
use stamps::{Keep, Key, Record, Stamp};
use std::alloc::{AllocError, Global};
use std::marker::Model;

/// How many versions and how many items a cell has room for.
#[derive(Clone, Copy)]
pub(super) struct Room {
    pub(super) slots: u32,
    pub(super) items: u32,
    pub(super) clients: u32,
}

impl Model for Room {
    ghost use Rattle.plain_store.specs.Words.{Room as Limit};

    ghost Value = { Limit };

    ghost view = { λ r. record { slots = r.slots; items = r.items; clients = r.clients } };

    ghost inverse = { λ r. record { slots = r.slots; items = r.items; clients = r.clients } };
}

/// The reply to a PREPARE.
#[tactic(auto, unfolding(plain_store::specs::Replies::prepare_reply))]
fn prepare_reply(
    alloc: Global,
    room: &Room,
    log: &[Exchange],
    version: &Record,
) -> Result<PrepareReply, AllocError>
    ensures { IfOk result (λ reply. reply ≡ prepare_reply room.now log.now version.now) }
{
    if version.stamp < log::floor(alloc, log, &version.key)? {
        return Ok(PrepareReply::Prepared);
    }
    let kept = log::kept(alloc, log)?;
    if let Some(known) = log::find_version(&kept, &version.key, version.stamp) {
        return Ok(if *known == *version {
            PrepareReply::Prepared
        } else {
            PrepareReply::Clash
        });
    }
    if version.stamp <= marks::mark(alloc, log, version.stamp.client())? {
        return Ok(PrepareReply::Discarded);
    }
    let items = log::items(alloc, log)?;
    if !lists::has_key(&items, &version.key) && items.len() == room.items as usize {
        return Ok(PrepareReply::FullItems);
    }
    if kept.len() == room.slots as usize {
        return Ok(PrepareReply::FullSlots);
    }
    Ok(PrepareReply::Prepared)
}

/// The version that was found, or else that it is unknown.
fn found_or_unknown(known: Option<&Record>) -> ReadReply
    ensures { result ≡ found_or ReadReply.Unknown (option_copied known.entry) }
{
    match known {
        Some(known) => ReadReply::Version(*known),
        None => ReadReply::Unknown,
    }
}

/// The reply to a GET.
#[tactic(auto, unfolding(plain_store::specs::Replies::get_reply))]
fn get_reply(
    alloc: Global,
    log: &[Exchange],
    key: &Key,
    stamp: Option<Stamp>,
) -> Result<ReadReply, AllocError>
    ensures { IfOk result (λ reply. reply ≡ get_reply log.now key.now stamp) }
{
    let Some(stamp) = stamp else {
        let latest = log::latest(alloc, log, key)?;
        if latest == Stamp::ZERO {
            return Ok(ReadReply::Initial);
        }
        return Ok(found_or_unknown(log::record_of(alloc, log, key, latest)?.as_ref()));
    };
    let floor = log::floor(alloc, log, key)?;
    if stamp < floor {
        return Ok(ReadReply::Collected(floor));
    }
    let kept = log::kept(alloc, log)?;
    Ok(found_or_unknown(log::find_version(&kept, key, stamp)))
}

/// How many of the versions have a stamp.
fn count_stamp(versions: &[Record], stamp: Stamp) -> usize
    ensures { Counts result (count_by (λ v. v.stamp == stamp) versions.now) (length versions.now) }
{
    match versions {
        [] => 0,
        [version, rest @ ..] => {
            let count = count_stamp(rest, stamp);
            if version.stamp == stamp {
                1 + count
            } else {
                count
            }
        }
    }
}

/// The log after one more exchange.
pub(super) fn with_exchange(
    alloc: Global,
    exchange: Exchange,
    log: &[Exchange],
) -> Result<Vec<Exchange>, AllocError>
    ensures { IfOk result (λ list. list.items ≡ exchange ∷ log.now) }
{
    lists::prepend(exchange, Vec::from_slice(alloc, log)?)
}

/// How many of the versions that were kept a collection gives up.
fn count_freed(alloc: Global, keep: Keep, log: &[Exchange]) -> Result<usize, AllocError>
    ensures { IfOk result (λ count. count
        ≡ (length (kept log.now) - length
        (kept (record { call = Call.Collect keep; reply = Reply.Freed 0 } ∷ log.now)))) }
{
    let collection = Exchange {
        call: Call::Collect(keep),
        reply: Reply::Freed(0),
    };
    let before = log::kept(alloc, log)?;
    let after = log::kept(alloc, &with_exchange(alloc, collection, log)?)?;
    Ok(before.len().saturating_sub(after.len()))
}

/// Whether a kept version is of the stamp and not committed.
fn is_droppable(log: &[Exchange], stamp: Stamp, version: &Record) -> bool
    ensures { result ≡ is_droppable log.now stamp version.now }
{
    if version.stamp != stamp {
        return false;
    }
    !log::is_committed(log, &version.key, version.stamp)
}

/// How many of these versions a DISCARD of the stamp drops.
fn count_droppable(log: &[Exchange], stamp: Stamp, versions: &[Record]) -> usize
    ensures { Counts result (count_by (is_droppable log.now stamp) versions.now)
        (length versions.now) }
{
    match versions {
        [] => 0,
        [version, rest @ ..] => {
            let count = count_droppable(log, stamp, rest);
            if is_droppable(log, stamp, version) {
                1 + count
            } else {
                count
            }
        }
    }
}

/// The reply to a DISCARD.
#[tactic(auto, unfolding(plain_store::specs::Replies::discard_reply))]
fn discard_reply(
    alloc: Global,
    room: &Room,
    log: &[Exchange],
    stamp: Stamp,
) -> Result<DiscardReply, AllocError>
    requires { IsSound room.now log.now }
    ensures { IfOk result (λ reply. reply ≡ discard_reply room.now log.now stamp) }
{
    let _greatest_count = room.slots;
    if stamp == Stamp::ZERO {
        return Ok(DiscardReply::Dropped(0));
    }
    if marks::mark(alloc, log, stamp.client())? == Stamp::ZERO
        && marks::marked(alloc, log)?.len() >= room.clients as usize
    {
        return Ok(DiscardReply::FullMarks);
    }
    let kept = log::kept(alloc, log)?;
    Ok(DiscardReply::Dropped(count_droppable(log, stamp, &kept) as u32))
}

/// The reply to a call.
#[tactic(auto, unfolding(plain_store::specs::Replies::reply_after))]
pub(super) fn reply_after(
    alloc: Global,
    room: &Room,
    log: &[Exchange],
    call: &Call,
) -> Result<Reply, AllocError>
    requires { IsSound room.now log.now }
    ensures { IfOk result (λ reply. reply ≡ reply_after room.now log.now call.now) }
{
    let _greatest_count = room.slots;
    match call {
        Call::Prepare(version) => Ok(Reply::Prepare(prepare_reply(alloc, room, log, version)?)),
        Call::Commit(stamp) => {
            let kept = log::kept(alloc, log)?;
            Ok(Reply::Committed(count_stamp(&kept, *stamp) as u32))
        }
        Call::Get(key, stamp) => Ok(Reply::Get(get_reply(alloc, log, key, *stamp)?)),
        Call::Found(tag) => Ok(Reply::Found(tags::findings(alloc, room, log, tag)?)),
        Call::Collect(keep) => Ok(Reply::Freed(count_freed(alloc, *keep, log)? as u32)),
        Call::Discard(stamp) => Ok(Reply::Discard(discard_reply(alloc, room, log, *stamp)?)),
    }
}

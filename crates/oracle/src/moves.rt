//! What a transaction does when its client takes a reply.
ghost use Rattle.std.specs.Prelude.{◌≡◌, ◌≤◌, ◌==◌, IfOk, Some, false, length, not};
ghost use Rattle.std.specs.List.{list_any};
ghost use Rattle.stamps.specs.Limits.{max_keys};
ghost use Rattle.plain_store.specs.Finding.{all_keys_found, total_found};
ghost use Rattle.plain_store.specs.History.{Finds};
ghost use Rattle.plain_store.specs.Moves.{calls_of, find_move, first_move, is_answered, move_of, read_move, same_place, search_move, second_move, write_move};
ghost use Rattle.oracle.specs.Words.{IsFew, ReadsFew, plain_outcome, told_move};
ghost use Rattle.plain_store.specs.declared.message.Message.{Message as Told};
ghost use Rattle.plain_store.specs.Words.{home};

use super::history::{Intent, Setup, Transaction};
use super::writing::{self, Outgoing};
use super::{finding, rounds};
use plain_store::{
    Call, Found, Message, PrepareReply, ReadReply, Reading, Readings, Refusal, Reply,
};
use stamps::{Item, Key, Stamp, Tag, limits};
use std::alloc::{AllocError, Global};

/// What a transaction does.
#[derive(Drop)]
pub(super) enum Move {
    Waits,
    Decides(Stamp, Vec<Outgoing>),
    Finishes(Stamp),
    Asks(Vec<Outgoing>),
    Begins(Vec<Outgoing>),
    Reads(Readings),
    Lists(Readings),
    Restarts(Key, Stamp),
    Fails(Refusal, Vec<Outgoing>),
}

/// What a writer does, with the reply that was just taken among the replies.
fn write_move(
    alloc: Global,
    setup: &Setup,
    stamp: Stamp,
    items: &[Item],
    replies: &[Message],
    message: &Message,
) -> Result<Move, AllocError>
    ensures { IfOk result (λ move. plain_outcome move
        ≡ write_move setup.now stamp items.now replies.now message.now.call message.now.reply) }
{
    match (&message.call, &message.reply) {
        (Call::Prepare(_), Some(Reply::Prepare(PrepareReply::Prepared))) => {
            if !writing::all_prepared(stamp, items, replies) {
                return Ok(Move::Waits);
            }
            Ok(Move::Decides(
                stamp,
                writing::calls_to_homes(alloc, setup, &Call::Commit(stamp), items)?,
            ))
        }
        (Call::Prepare(_), Some(Reply::Prepare(PrepareReply::FullSlots))) => Ok(Move::Fails(
            Refusal::FullSlots,
            writing::calls_to_homes(alloc, setup, &Call::Discard(stamp), items)?,
        )),
        (Call::Prepare(_), Some(Reply::Prepare(PrepareReply::FullItems))) => Ok(Move::Fails(
            Refusal::FullItems,
            writing::calls_to_homes(alloc, setup, &Call::Discard(stamp), items)?,
        )),
        (Call::Prepare(_), Some(Reply::Prepare(PrepareReply::Clash))) => Ok(Move::Fails(
            Refusal::Clash,
            Vec::new(alloc),
        )),
        (Call::Prepare(_), Some(Reply::Prepare(PrepareReply::Discarded))) => Ok(Move::Fails(
            Refusal::Discarded,
            Vec::new(alloc),
        )),
        (Call::Commit(_), Some(Reply::Committed(_))) => {
            if !writing::all_committed(alloc, setup, stamp, items, replies)? {
                return Ok(Move::Waits);
            }
            Ok(Move::Finishes(stamp))
        }
        _ => Ok(Move::Waits),
    }
}

/// What is reported of the readings: all of them or, of a search, those that carry its tag.
fn tell(alloc: Global, tag: &Option<Tag>, readings: &[Reading]) -> Result<Move, AllocError>
    requires { length readings.now ≤ max_keys }
    ensures { IfOk result (λ move. plain_outcome move ≡ told_move tag.now readings.now) }
{
    match tag {
        None => Ok(Move::Reads(Readings::of(readings).unwrap())),
        Some(tag) => {
            let carrying = finding::carrying(alloc, tag, readings)?;
            Ok(Move::Lists(Readings::of(&carrying).unwrap()))
        }
    }
}

/// What a reader does with a reply of round one: round one being complete, the late keys are asked for, if there are any.
fn first_move(
    alloc: Global,
    setup: &Setup,
    keys: &[Key],
    replies: &[Message],
    tag: &Option<Tag>,
    key: &Key,
    reply: &ReadReply,
) -> Result<Move, AllocError>
    requires { length keys.now ≤ max_keys }
    ensures { IfOk result (λ move. plain_outcome move
        ≡ first_move setup.now keys.now replies.now (told_move tag.now) key.now reply.now) }
{
    if rounds::is_false_first(key, reply) {
        return Ok(Move::Fails(Refusal::Torn, Vec::new(alloc)));
    }
    if !rounds::round_one_complete(keys, replies) {
        return Ok(Move::Waits);
    }
    if rounds::all_shown_late(keys, replies, keys) {
        return tell(
            alloc,
            tag,
            &rounds::readings_of(alloc, keys, replies, keys)?,
        );
    }
    Ok(Move::Asks(rounds::late_calls(alloc, setup, keys, replies, keys)?))
}

/// What a reader does with a reply of round two.
fn second_move(
    alloc: Global,
    keys: &[Key],
    replies: &[Message],
    tag: &Option<Tag>,
    key: &Key,
    stamp: Stamp,
    reply: &ReadReply,
) -> Result<Move, AllocError>
    requires { length keys.now ≤ max_keys }
    ensures { IfOk result (λ move. plain_outcome move
        ≡ second_move keys.now replies.now (told_move tag.now) key.now stamp reply.now) }
{
    match reply {
        ReadReply::Version(_) => {
            if rounds::is_false_second(replies, key, stamp, reply) {
                return Ok(Move::Fails(Refusal::Torn, Vec::new(alloc)));
            }
            if !rounds::round_one_complete(keys, replies)
                || !rounds::all_shown_late(keys, replies, keys)
            {
                return Ok(Move::Waits);
            }
            tell(
                alloc,
                tag,
                &rounds::readings_of(alloc, keys, replies, keys)?,
            )
        }
        ReadReply::Collected(floor) if stamp < *floor => Ok(Move::Restarts(*key, *floor)),
        ReadReply::Collected(_) | ReadReply::Initial | ReadReply::Unknown => Ok(Move::Fails(
            Refusal::Torn,
            Vec::new(alloc),
        )),
    }
}

/// What a reader of these keys does.
fn read_move(
    alloc: Global,
    setup: &Setup,
    keys: &[Key],
    replies: &[Message],
    tag: &Option<Tag>,
    message: &Message,
) -> Result<Move, AllocError>
    requires { IsFew keys.now message.now.call }
    ensures { IfOk result (λ move. plain_outcome move
        ≡ read_move setup.now keys.now replies.now
        (told_move tag.now) message.now.call message.now.reply) }
{
    match (&message.call, &message.reply) {
        (Call::Get(key, None), Some(Reply::Get(reply))) => first_move(
            alloc, setup, keys, replies, tag, key, reply,
        ),
        (Call::Get(key, Some(stamp)), Some(Reply::Get(reply))) => second_move(
            alloc, keys, replies, tag, key, *stamp, reply,
        ),
        _ => Ok(Move::Waits),
    }
}

/// What a search does once each partition told what it found: too many, nothing, or the keys to read.
fn search_move(alloc: Global, setup: &Setup, replies: &[Message]) -> Result<Move, AllocError>
    ensures { IfOk result (λ move. plain_outcome move
        ≡ search_move setup.now (total_found replies.now) (all_keys_found replies.now)) }
{
    let total = finding::total_found(replies);
    if total > limits::MAX_FOUND as u64 {
        return Ok(Move::Fails(Refusal::TooMany, Vec::new(alloc)));
    }
    if total == 0 {
        return Ok(Move::Lists(Readings::of(&[]).unwrap()));
    }
    let keys = finding::all_keys_found(alloc, replies)?;
    Ok(Move::Begins(rounds::first_calls(alloc, setup, &keys)?))
}

/// Whether the home of a key is another partition.
fn has_stray(setup: &Setup, partition: u32, keys: &[Key]) -> bool
    ensures { result ≡ list_any (λ key. not (home setup.now key == partition)) keys.now }
{
    match keys {
        [] => false,
        [key, rest @ ..] => writing::home(setup, key) != partition
            || has_stray(setup, partition, rest),
    }
}

/// What a search does.
fn find_move(
    alloc: Global,
    setup: &Setup,
    tag: &Tag,
    replies: &[Message],
    message: &Message,
) -> Result<Move, AllocError>
    requires { IsFew (all_keys_found replies.now) message.now.call }
    ensures { IfOk result (λ move. plain_outcome move
        ≡ find_move setup.now tag.now replies.now
        message.now.partition message.now.call message.now.reply) }
{
    match (&message.call, &message.reply) {
        (Call::Found(_), Some(Reply::Found(told))) => {
            if has_stray(setup, message.partition, told.keys()) {
                return Ok(Move::Fails(Refusal::Torn, Vec::new(alloc)));
            }
            if !finding::all_found(alloc, setup, replies)? {
                return Ok(Move::Waits);
            }
            search_move(alloc, setup, replies)
        }
        _ => read_found(alloc, setup, tag, replies, message),
    }
}

/// What a search does that reads what it found.
fn read_found(
    alloc: Global,
    setup: &Setup,
    tag: &Tag,
    replies: &[Message],
    message: &Message,
) -> Result<Move, AllocError>
    requires { IsFew (all_keys_found replies.now) message.now.call }
    ensures { IfOk result (λ move. plain_outcome move
        ≡ read_move setup.now (all_keys_found replies.now) replies.now
        (told_move (Some tag.now)) message.now.call message.now.reply) }
{
    let keys = finding::all_keys_found(alloc, replies)?;
    read_move(alloc, setup, &keys, replies, &Some(*tag), message)
}

/// What a transaction does, with the reply that was just taken among the replies.
pub(super) fn move_of(
    alloc: Global,
    setup: &Setup,
    transaction: &Transaction<'_>,
    replies: &[Message],
    message: &Message,
) -> Result<Move, AllocError>
    requires { ReadsFew transaction.now.request replies.now message.now.call }
    ensures { IfOk result (λ move. plain_outcome move
        ≡ move_of setup.now transaction.now.request replies.now message.now) }
{
    match transaction.request {
        Intent::Writes(stamp, items) => write_move(alloc, setup, stamp, items, replies, message),
        Intent::Gets(keys) => read_move(alloc, setup, keys, replies, &None, message),
        Intent::Finds(tag) => find_move(alloc, setup, &tag, replies, message),
    }
}

/// The calls of a search: until all partitions have answered a FOUND to each, then those of its read.
pub(super) fn search_calls(
    alloc: Global,
    setup: &Setup,
    tag: &Tag,
    replies: &[Message],
) -> Result<Vec<Outgoing>, AllocError>
    ensures { IfOk result (λ list. list.items
        ≡ calls_of setup.now false (Finds tag.now) replies.now) }
{
    if !finding::all_found(alloc, setup, replies)? {
        return Ok(finding::found_calls(alloc, setup, tag)?);
    }
    let keys = finding::all_keys_found(alloc, replies)?;
    Ok(rounds::reading_calls(alloc, setup, &keys, replies)?)
}

/// The calls of the part that a transaction is in, in their order.
pub(super) fn calls_of(
    alloc: Global,
    setup: &Setup,
    decided: bool,
    transaction: &Transaction<'_>,
    replies: &[Message],
) -> Result<Vec<Outgoing>, AllocError>
    ensures { IfOk result (λ list. list.items
        ≡ calls_of setup.now decided transaction.now.request replies.now) }
{
    match transaction.request {
        Intent::Writes(stamp, items) if decided => Ok(writing::calls_to_homes(
            alloc,
            setup,
            &Call::Commit(stamp),
            items,
        )?),
        Intent::Writes(stamp, items) => Ok(writing::prepare_calls(alloc, setup, stamp, items)?),
        Intent::Gets(keys) => Ok(rounds::reading_calls(alloc, setup, keys, replies)?),
        Intent::Finds(tag) => search_calls(alloc, setup, &tag, replies),
    }
}

/// Whether a client takes two messages of a transaction for one: of one key and round, or of one partition.
fn same_place(partition: u32, call: &Call, message: &Message) -> bool
    ensures { result ≡ same_place partition call.now message.now.partition message.now.call }
{
    match (call, &message.call) {
        (Call::Prepare(version), Call::Prepare(other)) => version.key == other.key,
        (Call::Commit(_), Call::Commit(_)) | (Call::Found(_), Call::Found(_)) => partition
            == message.partition,
        (Call::Get(key, None), Call::Get(other, None)) => *key == *other,
        (Call::Get(key, Some(_)), Call::Get(other, Some(_))) => *key == *other,
        _ => false,
    }
}

/// Whether a reply in that place was taken.
pub(super) fn is_answered(replies: &[Message], partition: u32, call: &Call) -> bool
    ensures { result ≡ is_answered replies.now partition call.now }
{
    match replies {
        [] => false,
        [message, rest @ ..] => same_place(partition, call, message)
            || is_answered(rest, partition, call),
    }
}

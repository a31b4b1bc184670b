//! A search: each partition reports what stands under the tag, and what they told is then read.
ghost use Rattle.std.specs.Prelude.{◌≡◌, ◌++◌, IfOk, filter, flat_map, map, min, sum_by};
ghost use Rattle.std.specs.List.{list_all, list_any};
ghost use Rattle.plain_store.specs.Finding.{all_found, all_keys_found, below, carrying, count_found, found_calls, keys_found, says_found, total_found};
ghost use Rattle.plain_store.specs.declared.message.Message.{Message as Told};

use super::history::Setup;
use super::writing::{self, Outgoing};
use super::{lists, tags};
use plain_store::{Call, Message, Reading, Reply};
use stamps::{Key, Tag};
use std::alloc::{AllocError, Global};

/// The first numbers, so many.
fn below(alloc: Global, count: u32) -> Result<Vec<u32>, AllocError>
    ensures { IfOk result (λ list. list.items ≡ below count) }
{
    let mut numbers = Vec::new(alloc);
    for number in 0..count {
        numbers.push(number)?;
    }
    Ok(numbers)
}

/// A FOUND to each partition, in ascending order.
pub(super) fn found_calls(
    alloc: Global,
    setup: &Setup,
    tag: &Tag,
) -> Result<Vec<Outgoing>, AllocError>
    ensures { IfOk result (λ list. list.items ≡ found_calls setup.now tag.now) }
{
    writing::calls_at(alloc, &Call::Found(*tag), &below(alloc, setup.partitions)?)
}

/// How many items a message says that there are.
fn count_found(message: &Message) -> u64
    ensures { result ≡ count_found message.now.reply }
{
    match &message.reply {
        Some(Reply::Found(told)) => u64::from(told.count()),
        _ => 0,
    }
}

/// The keys that a message reports, before those that are given.
fn with_keys_found(alloc: Global, message: &Message, keys: &[Key]) -> Result<Vec<Key>, AllocError>
    ensures { IfOk result (λ list. list.items ≡ keys_found message.now.reply ++ keys.now) }
{
    match &message.reply {
        Some(Reply::Found(told)) => lists::join(Vec::from_slice(alloc, told.keys())?, keys),
        _ => Vec::from_slice(alloc, keys),
    }
}

/// Whether a message reports what the partition found.
fn says_found(partition: u32, message: &Message) -> bool
    ensures { result ≡ says_found partition message.now.partition message.now.reply }
{
    match &message.reply {
        Some(Reply::Found(_)) => message.partition == partition,
        _ => false,
    }
}

/// Whether one of the replies reports what the partition found.
fn is_told(replies: &[Message], partition: u32) -> bool
    ensures { result
        ≡ list_any (λ (m : Told). says_found partition m.partition m.reply) replies.now }
{
    match replies {
        [] => false,
        [message, rest @ ..] => says_found(partition, message) || is_told(rest, partition),
    }
}

/// Whether the replies tell what each of these partitions found.
fn all_told(replies: &[Message], partitions: &[u32]) -> bool
    ensures { result
        ≡ list_all
        (λ partition.
        list_any
        (λ (m : Told). says_found partition m.partition m.reply) replies.now) partitions.now }
{
    match partitions {
        [] => true,
        [partition, rest @ ..] => is_told(replies, *partition) && all_told(replies, rest),
    }
}

/// Whether the replies tell what each partition found.
pub(super) fn all_found(
    alloc: Global,
    setup: &Setup,
    replies: &[Message],
) -> Result<bool, AllocError>
    ensures { IfOk result (λ test. test ≡ all_found setup.now replies.now) }
{
    Ok(all_told(replies, &below(alloc, setup.partitions)?))
}

/// How many items were found in all, or the greatest number where they are more.
pub(super) fn total_found(replies: &[Message]) -> u64
    ensures { result ≡ min (total_found replies.now) u64.MAX }
{
    match replies {
        [] => 0,
        [message, rest @ ..] => count_found(message).saturating_add(total_found(rest)),
    }
}

/// The keys that the messages tell, one after another.
fn keys_in(alloc: Global, replies: &[Message]) -> Result<Vec<Key>, AllocError>
    ensures { IfOk result (λ list. list.items
        ≡ flat_map (λ (m : Told). keys_found m.reply) replies.now) }
{
    match replies {
        [] => Ok(Vec::new(alloc)),
        [message, rest @ ..] => with_keys_found(alloc, message, &keys_in(alloc, rest)?),
    }
}

/// The keys that were found, in byte order.
pub(super) fn all_keys_found(alloc: Global, replies: &[Message]) -> Result<Vec<Key>, AllocError>
    ensures { IfOk result (λ list. list.items ≡ all_keys_found replies.now) }
{
    lists::sorted_keys(alloc, &keys_in(alloc, replies)?)
}

/// Of what was read, that which carries the tag.
pub(super) fn carrying(
    alloc: Global,
    tag: &Tag,
    readings: &[Reading],
) -> Result<Vec<Reading>, AllocError>
    ensures { IfOk result (λ list. list.items ≡ carrying tag.now readings.now) }
{
    match readings {
        [] => Ok(Vec::new(alloc)),
        [reading, others @ ..] => {
            let rest = carrying(alloc, tag, others)?;
            if !tags::is_tagged(tag, &reading.item.tag) {
                return Ok(rest);
            }
            lists::prepend(*reading, rest)
        }
    }
}

//! What a hub's partitions leave.
ghost use Rattle.std.specs.Prelude.{◌≡◌, ◌≤◌, ◌+◌, IfSome, IsTrue, length, map, vec_capacity, vec_len};
ghost use Rattle.std.specs.Arc.{arc_value};
ghost use mathlib.Core.List.{IsPrefix};
ghost use Rattle.partition.specs.Accounts.{account_of};
ghost use Rattle.history.specs.Entries.{count};
ghost use Rattle.shard.specs.Held.{IsHandedOut};
ghost use Rattle.traced_book.specs.Traced.{AreTraced};
ghost use Rattle.hub.specs.Hubs.{config_view, AllSoundBooks, AllTraced, AreSeen, IsSoundBook};
ghost use Rattle.hub.specs.Shards.{AreShardsFrom, IsConfigOf};

use closed_store::Config;
use history::{Front, Naming};
use partition::{Counts, Journal};
use shard::Shard;
use stamps::Limits;
use std::alloc::Global;
use std::sync::{Arc, Wait};
use traced_book::TracedBook;

/// What was seen, with what seats had seen, if they left that.
pub fn seen_with<G: Naming>(seen: Front<G>, seats: &Option<Front<G>>) -> Front<G>
    ensures { IfSome seats.now (λ theirs. IsPrefix theirs result) }
{
    match seats {
        Some(theirs) => {
            let mut all = seen;
            all.learn(theirs);
            all
        }
        None => seen,
    }
}

/// Sees the history as it is now, and puts how many calls it has of each partition into the list, which has room for them.
pub fn look_at_calls<G: Naming, R: Wait>(
    rt: &R,
    parts: u32,
    shards: &[Arc<Shard<G>>],
    calls: &mut Vec<u64>,
    seen: &mut Front<G>,
)
    requires room { (length shards.now ≡ parts) × (vec_len calls.old ≡ 0)
        × (parts ≤ vec_capacity calls.old) }
    ensures calls { AreSeen parts seen.new calls.new.items }
    ensures seen { IsPrefix seen.old seen.new }
{
    for partition in 0..parts {
        let its = shards[partition as usize].look_at_calls(rt, parts, partition, seen);
        calls.push_reserved(its);
    }
}

/// What the partitions have left so far, in their order: their journals, and how many events these have.
#[derive(Drop)]
pub struct LeftJournals {
    pub journals: Vec<Vec<Journal>>,
    pub counts: Vec<Counts>,
}

/// Takes each partition's book out of its shard, as `take_out` does, and puts what it leaves into the lists, which are empty and have room
/// for it.
pub fn take_all<G: Naming>(
    alloc: Global,
    config: &Config,
    shards: Vec<Arc<Shard<G>>>,
    calls: Vec<u64>,
    seen: &Front<G>,
    left: LeftJournals,
) -> LeftJournals
    requires shards { (length shards.items ≡ config.now.parts)
        × AreShardsFrom config.now 0 shards.items }
    requires calls { AreSeen config.now.parts seen.now calls.items }
    requires journals { (vec_len left.journals ≡ 0)
        × (config.now.parts ≤ vec_capacity left.journals) }
    requires counts { (vec_len left.counts ≡ 0) × (config.now.parts ≤ vec_capacity left.counts) }
    ensures parts { length result.journals.items ≡ config.now.parts }
    ensures books { AllSoundBooks
        (config_view config.now) 0 result.journals.items result.counts.items }
    ensures traced { AllTraced seen.now 0 result.journals.items }
{
    let LeftJournals {
        mut journals,
        mut counts,
    } = left;
    for shard in shards {
        let partition = journals.len() as u32;
        let its = calls[partition as usize];
        let (of_book, count) = take_out(alloc, config, partition, shard, seen, its);
        journals.push_reserved(of_book);
        counts.push_reserved(count);
    }
    LeftJournals { journals, counts }
}

/// The journals of a partition that no thread has any more. None where its book is not there, is not that of this partition, or
/// is not of these tenants: what lies behind a lock is known only by its type. And none where the history has other calls of the
/// partition than these, of which there are so many: all that were seen are in the journals, or in epochs that were cut off them.
pub fn take_out<G: Naming>(
    alloc: Global,
    config: &Config,
    partition: u32,
    shard: Arc<Shard<G>>,
    seen: &Front<G>,
    calls: u64,
) -> (Vec<Journal>, Counts)
    requires shard { IsConfigOf config.now partition (arc_value shard).config }
    requires calls { calls ≤ count (partition + 1) seen.now }
    ensures book { IsSoundBook (config_view config.now) partition result.0 result.1 }
    ensures traced { AreTraced seen.now partition (map account_of result.0.items) }
{
    if let Some(book) = book_of(shard) {
        if let Ok(whole) = book.into_book(seen, calls) {
            let (journals, counts) = whole.into_journals();
            if are_under(journals.as_slice(), config.limits.as_slice()) {
                return (journals, counts);
            }
        }
    }
    let counts = Counts {
        of_seats: 0,
        of_collector: 0,
    };
    (Vec::new(alloc), counts)
}

/// The book of a shard that no thread has any more, where it is there.
fn book_of<G: Naming>(shard: Arc<Shard<G>>) -> Option<TracedBook<G>>
    ensures { IfSome result (λ book. IsHandedOut (arc_value shard).config book) }
{
    match Arc::into_inner(shard) {
        Some(shard) => shard.into_book(),
        None => None,
    }
}

/// Whether there is a journal of each tenant, under its limits.
fn are_under(journals: &[Journal], limits: &[Limits]) -> bool
    ensures { IsTrue result → map (λ journal. journal.limits) journals.now ≡ limits.now }
{
    if journals.len() != limits.len() {
        return false;
    }
    for tenant in 0..limits.len() {
        if !are_same(&journals[tenant].limits, &limits[tenant]) {
            return false;
        }
    }
    true
}

/// Whether limits are the same.
fn are_same(one: &Limits, other: &Limits) -> bool
    ensures { IsTrue result → one.now ≡ other.now }
{
    let is_same_room = one.slots == other.slots && one.items == other.items;
    is_same_room && one.keep == other.keep && one.clients == other.clients
}

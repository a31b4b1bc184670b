//! hub: the running store over threads, and what it leaves.
ghost use Rattle.std.specs.Prelude.{◌≡◌};

use crate::values::{client, item, key, limits, no_parts, tag};
use hub::{
    Closed, Config, Entry, EntryList, Front, Gate, Hub, HubFault, JoinFault, Named, Naming,
    NewStore, Seat, Sink, Transcript,
};
use partition::{Counts, Epoch, Journal};
use plain_store::{Answer, Refusal};
use stamps::{Client, Counter, Item, Keep, Key, Limits, Tag};
use std::alloc::Global;
use std::marker::Brand;
use std::sync::Wait;
use std::thread::Threads;

/// Watches and holds nobody.
#[derive(Drop)]
struct Watcher;

impl Gate for Watcher {
    fn pass(&self, _partition: u32, _nth: u64) {}

    fn inside(&self, _partition: u32, _nth: u64) {}
}

/// Keeps nothing.
#[derive(Drop)]
struct Keeper;

impl<J: Naming> Sink<J> for Keeper {
    fn epoch(&self, _partition: u32, _tenant: u32, _epoch: Epoch, _seen: &Front<J>) {}
}

/// A store of two partitions and one tenant.
fn config(alloc: Global) -> Option<Config> {
    let limits: Vec<Limits> = Vec::from_slice(alloc, &[limits(4)?]).ok()?;
    Some(Config {
        parts: 2u32,
        limits,
        queue: 64u32,
        every: 64u32,
        epoch: 0u32,
    })
}

fn number_of_hub_fault(fault: HubFault) -> u8 {
    match fault {
        HubFault::OutOfMemory => 0,
        HubFault::Thread => 1,
    }
}

fn number_of_join_fault(fault: JoinFault) -> u8 {
    match fault {
        JoinFault::Base => 0,
        JoinFault::Numbers => 1,
        JoinFault::OutOfMemory => 2,
    }
}

/// Whether a transcript has its fields, and no entry.
fn is_transcript(transcript: &Transcript) -> bool {
    let (tenant, client): (u32, Client) = (transcript.tenant, transcript.client);
    let (turn, seat): (u64, u64) = (transcript.turn, transcript.seat);
    let (base, counter): (Counter, Counter) = (transcript.base, transcript.counter);
    let entries: &EntryList = &transcript.entries;
    let is_first = tenant == 0 && client.get() == 1 && turn == 1 && seat == 1;
    is_first && base.get() == 0 && counter.get() == 0 && entries.is_empty()
}

fn number_of_entry(entry: &Entry) -> u64 {
    match entry {
        Entry::Began(_) => 0,
        Entry::Took {
            number,
            partition: _,
            place: _,
            reply: _,
        } => *number,
        Entry::Answered(_) => 100,
    }
}

/// Whether the entries of a write, a read and a search are these: the second is the reply to the first call.
fn are_entries(alloc: Global, entries: &EntryList) -> Option<bool> {
    let _named = no_parts();
    if entries.len() != 12 {
        return None;
    }
    let began: Entry = entries.entry(alloc, 0).ok()?;
    let took: Entry = entries.entry(alloc, 1).ok()?;
    let answered: Entry = entries.entry(alloc, 3).ok()?;
    let is_begun = number_of_entry(&began) == 0 && number_of_entry(&took) == 1;
    Some(is_begun && number_of_entry(&answered) == 100)
}

/// Whether a seat writes, reads and searches, and hands out its entries.
fn is_served<G: Gate + Naming, R: Wait>(
    rt: &R,
    alloc: Global,
    hub: &Hub<G>,
    left: &mut Vec<Transcript>,
) -> Option<bool> {
    let (client, base): (Client, Counter) = (client(1)?, Counter::new(0)?);
    let seated: Result<Seat<'_, G>, Refusal> = hub.seat(rt, 0, client, base);
    let mut seat = seated.ok()?;
    let (items, keys): ([Item; 1], [Key; 1]) = ([item("x")?], [key("x")?]);
    let red: Tag = tag("red")?;
    let put: Answer = seat.put_all(rt, &items);
    let got: Answer = seat.get_all(rt, &keys);
    let found: Answer = seat.find(rt, red);
    let handed: EntryList = seat.drain();
    let transcript: Transcript = seat.end(rt);
    let is_put = matches!(put, Answer::Done(_)) && matches!(got, Answer::Read(_));
    let is_handed = are_entries(alloc, &handed)? && is_transcript(&transcript);
    left.push(transcript).ok()?;
    Some(is_put && matches!(found, Answer::Listed(_)) && is_handed)
}

/// Whether a seat that records nothing serves as others do, and leaves nothing.
fn is_unrecorded<G: Gate + Naming, R: Wait>(rt: &R, hub: &Hub<G>) -> Option<bool> {
    let mut seat = hub.seat(rt, 0, client(1)?, Counter::new(0)?).ok()?;
    let was: bool = seat.is_recorded();
    seat.stop_recording();
    let put: Answer = seat.put_all(rt, &[item("z")?]);
    let is_put = matches!(put, Answer::Done(_)) && was && !seat.is_recorded();
    let handed: EntryList = seat.drain();
    let transcript: Transcript = seat.end(rt);
    Some(is_put && handed.is_empty() && transcript.entries.is_empty())
}

/// Whether a write that takes no reply is abandoned.
fn is_abandoned<G: Gate + Naming, R: Wait>(rt: &R, hub: &Hub<G>) -> Option<bool> {
    let seat = hub.seat(rt, 0, client(2)?, Counter::new(0)?).ok()?;
    let left: Transcript = seat.abandon(rt, &[item("y")?], 0);
    let set: Result<(), Refusal> = hub.set_keep(rt, 0, Keep::new(2)?);
    Some(left.entries.len() == 1 && left.tenant == 0 && left.seat == 2 && set == Ok(()))
}

/// What was asked of a hub, and what it left.
fn closed<R: Threads + Wait + Clone + Send + Drop + 'static>(
    rt: &R,
    alloc: Global,
) -> Option<(bool, Closed)> {
    let store: NewStore = NewStore::of(config(alloc)?);
    closed_in::<Brand, R>(rt, alloc, store)
}

fn closed_in<
    J: Naming + Send + Sync + Drop + 'static,
    R: Threads + Wait + Clone + Send + Drop + 'static,
>(rt: &R, alloc: Global, store: NewStore) -> Option<(bool, Closed)>
    requires { store.history.seen.book ≡ J.book }
{
    let gate: Named<J, Watcher> = Named::new(Watcher);
    let opened: Result<Hub<Named<J, Watcher>>, HubFault> = Hub::open(
        rt, alloc, store, gate, Keeper,
    );
    let hub = opened.ok()?;
    let mut left: Vec<Transcript> = Vec::new(alloc);
    let is_served = is_served(rt, alloc, &hub, &mut left);
    let is_abandoned = is_abandoned(rt, &hub);
    let is_unrecorded = is_unrecorded(rt, &hub);
    let keeps: bool = hub.has_journals();
    let closed: Closed = hub.close(rt, left);
    Some((
        is_served? && is_abandoned? && is_unrecorded? && keeps,
        closed,
    ))
}

/// Whether what is left has its parts, of which another like it is made, and is joined with nothing.
fn is_left(alloc: Global, closed: Closed) -> Option<bool> {
    let Closed {
        config,
        journals,
        counts,
        transcripts,
    } = closed;
    let (journals, counts): (Vec<Vec<Journal>>, Vec<Counts>) = (journals, counts);
    let again: Closed = Closed::of(config, journals, counts, transcripts);
    let epochs: Vec<(u32, u32, Epoch)> = Vec::new(alloc);
    let entries: Vec<(u64, EntryList)> = Vec::new(alloc);
    let joined: Result<Closed, JoinFault> = again.join(epochs, entries);
    let joined = joined.ok()?;
    let count: &Counts = joined.counts.first()?;
    let (seats, collector): (u128, u128) = (count.of_seats, count.of_collector);
    let parts = joined.journals.len() == 2 && seats == 7 && collector == 0;
    Some(parts && joined.transcripts.len() == 1 && joined.config.parts == 2)
}

fn has_its_calls<R: Threads + Wait + Clone + Send + Drop + 'static>(
    rt: &R,
    alloc: Global,
) -> Option<bool> {
    let (is_served, closed) = closed(rt, alloc)?;
    let is_left = is_left(alloc, closed)?;
    let is_thread = number_of_hub_fault(HubFault::Thread) == 1;
    let bare: NewStore = NewStore::of(config(alloc)?).without_journals();
    let is_thread = is_thread && !bare.journals;
    Some(is_served && is_left && is_thread && number_of_join_fault(JoinFault::Numbers) == 1)
}

#[test]
fn hub_has_its_calls(rt: HostRuntime) {
    assert!(rt; has_its_calls(&rt, rt.alloc()) == Some(true));
}

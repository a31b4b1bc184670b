//! partition: all tenants' cells of one partition, and the book that has a journal of each.
use crate::values::{key, limits, no_parts, record, stamp};
use partition::{Book, Epoch, Event, EventList, Journal, Shelf};
use plain_store::{Call, OutOfMemory, PrepareReply, ReadReply, Refusal, Reply};
use prepare_commit::{Base, GetReply};
use stamps::Limits;
use std::alloc::{AllocError, Global};

/// Whether a tenant of a shelf is served.
fn is_served(alloc: Global) -> Option<bool> {
    let _named = no_parts();
    let opened: Result<Shelf, AllocError> = Shelf::open(alloc, &[limits(1)?]);
    let mut shelf = opened.ok()?;
    let tenants: u32 = shelf.tenants();
    if tenants == 0 {
        return Some(false);
    }
    let reply: Reply = shelf.apply(0, &Call::Prepare(record("x", 1)?));
    if shelf.tenants() == 0 {
        return Some(false);
    }
    let read: GetReply<'_> = shelf.get(0, &key("x")?, Some(stamp(1)?));
    let is_read = read.copied() == ReadReply::Version(record("x", 1)?);
    Some(reply == Reply::Prepare(PrepareReply::Prepared) && is_read)
}

/// What a book of one tenant answers to seat 1: the place and the reply.
fn asked(book: &mut Book, number: u64, call: &Call) -> Option<(u64, Reply)> {
    let _named = no_parts();
    if book.tenants() == 0 {
        return None;
    }
    let served: Result<(u64, Reply), Refusal> = book.serve(1, number, 0, call);
    served.ok()
}

/// The epoch that is over of the one tenant's journal.
fn cut(book: &mut Book) -> Option<Epoch> {
    if book.tenants() == 0 {
        return None;
    }
    let cut: Result<Epoch, Refusal> = book.cut(0);
    cut.ok()
}

/// Whether an event has its parts.
fn is_event(event: &Event, number: u64, call: &Call, reply: &Reply) -> bool {
    let _named = no_parts();
    let (seat, its): (u64, u64) = (event.seat(), event.number());
    let (asked, told): (Call, Reply) = (event.call(), event.reply());
    seat == 1 && its == number && asked == *call && told == *reply
}

/// Whether a book that is opened at a base reads the version that the base holds.
fn reads_at(alloc: Global, base: &Base) -> Option<bool> {
    let _named = no_parts();
    let opened: Result<Book, OutOfMemory> = Book::at(alloc, base);
    let mut book = opened.ok()?;
    let call = Call::Get(key("x")?, Some(stamp(1)?));
    let reply = Reply::Get(ReadReply::Version(record("x", 1)?));
    Some(asked(&mut book, 1, &call) == Some((1, reply)))
}

/// Whether a book enters what it serves, and cuts its journal.
fn is_entered(alloc: Global) -> Option<bool> {
    let _named = no_parts();
    let opened: Result<Book, AllocError> = Book::open(alloc, &[limits(1)?]);
    let mut book = opened.ok()?;
    let (call, reply) = (
        Call::Prepare(record("x", 1)?),
        Reply::Prepare(PrepareReply::Prepared),
    );
    let is_placed = asked(&mut book, 1, &call) == Some((1, reply));
    let Epoch {
        number,
        base,
        events,
    } = cut(&mut book)?;
    let (number, base, events): (u64, Base, EventList) = (number, base, events);
    let event: Event = events.get(0)?;
    let next: Epoch = cut(&mut book)?;
    let is_read = reads_at(alloc, &next.base)?;
    let is_cut = number == 1 && base.is_empty() && events.len() == 1;
    Some(is_placed && is_cut && is_read && is_event(&event, 1, &call, &reply))
}

/// Whether a journal has its fields: the epoch that is left in it, with its number and the base at which it began.
fn is_journal(alloc: Global) -> Option<bool> {
    let journal: Journal = Journal::of(alloc, limits(1)?, EventList::new(alloc));
    let (number, base): (u64, &Base) = (journal.number, &journal.base);
    let (limits, events): (&Limits, &EventList) = (&journal.limits, &journal.events);
    Some(number == 1 && base.is_empty() && limits.slots == 1 && events.is_empty())
}

#[test]
fn partition_has_its_calls(rt: HostRuntime) {
    let yes = Some(true);
    assert!(rt; is_served(rt.alloc()) == yes && is_entered(rt.alloc()) == yes);
    assert!(rt; is_journal(rt.alloc()) == yes);
}

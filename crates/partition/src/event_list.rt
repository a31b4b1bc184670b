//! Events, packed one behind the other.
ghost use Rattle.std.specs.Prelude.{◌≡◌, ℕ, ◌+◌, ◌<◌, ◌≤◌, ◌^◌, ◌++◌, ◌∷◌, ◌↔◌, [], length, take, count_by, Some, IsTrue, slice_get, IfOk, OnOk, OnErr};
ghost use Rattle.std.specs.Option.{option_map};
ghost use Rattle.packed.specs.Laying.{PutsValue};
ghost use Rattle.packed.specs.Reading.{number_at};
ghost use Rattle.partition.specs.Events.{event, is_reply_to};
ghost use Rattle.partition.specs.Accounts.{is_of_seat, is_of_collector};
ghost use Rattle.partition.specs.PackedEvents.{packed_event, event_from, event_at, event_in, called_at, caller_at, caller_of, IsStoreEvent, IsPackedEvent};
ghost use Rattle.partition.specs.Sizes.{max_event_bytes};

use crate::{Event, PackedReply};
use packed::{Buffer, MAX_NUMBER_BYTES, PackEntry, PackedList, put_number, read_number};
use packed_steps::{
    CallPlace, MAX_CALL_BYTES, MAX_REPLY_BYTES, put_call, put_reply, read_call, read_reply,
};
use plain_store::{Call, Reply};
use std::alloc::{AllocError, Global};
use std::marker::Model;

/// The most bytes that an event takes: a seat, a number, a call and its reply.
const MAX_EVENT_BYTES: usize = 2 * MAX_NUMBER_BYTES + MAX_CALL_BYTES + MAX_REPLY_BYTES;

/// Events, packed one behind the other, some 50 bytes each. Contracts see them in order, and whether one more can be put
/// without an allocation.
pub struct EventList {
    list: PackedList,
}

// What lies in it is released here, so that no crate above proves it anew.
impl Drop for EventList {
    fn drop(self) {
        let EventList { list: _ } = self;
    }
}

impl Model for EventList {
    ghost use Rattle.std.specs.Prelude.{◌&&◌, nat_le, nat_lt};
    ghost use Rattle.partition.specs.PackedEvents.{ArePackedEvents, Happenings, events_in};
    ghost use Rattle.partition.specs.Sizes.{max_event_bytes};

    ghost Value = { Happenings };

    ghost view = { λ l. record { items = events_in l.list.items; has_room = nat_lt 0 l.list.places && nat_le max_event_bytes l.list.bytes } };

    ghost invariant = { λ l. ArePackedEvents l.list.items };
}

impl EventList {
    /// No events. It takes no memory.
    pub fn new(alloc: Global) -> EventList
        ensures { result.items ≡ [] }
    {
        EventList {
            list: PackedList::new(alloc),
        }
    }

    /// The list of these events.
    pub fn of(alloc: Global, events: &[Event]) -> Result<EventList, AllocError>
        ensures { IfOk result (λ list. list.items ≡ events.now) }
    {
        let mut list = EventList::new(alloc);
        for event in events {
            list.push(event)?;
        }
        Ok(list)
    }

    /// The allocator with which it was made.
    pub fn alloc(&self) -> Global {
        self.list.alloc()
    }

    /// The number of events.
    pub fn len(&self) -> usize
        ensures count { result ≡ length self.now.items }
        ensures few { length self.now.items < 2 ^ 63 }
    {
        self.list.len()
    }

    /// Whether there is no event.
    pub fn is_empty(&self) -> bool
        ensures { IsTrue result ↔ (self.now.items ≡ []) }
    {
        self.len() == 0
    }

    /// The event at a place, from 0.
    pub fn event(&self, at: usize) -> Event
        requires { at < length self.now.items }
        ensures { Some result ≡ slice_get self.now.items at }
    {
        unpacked(self.list.get(at))
    }

    /// The event at a place, from 0, if it is there.
    pub fn get(&self, at: usize) -> Option<Event>
        ensures { result ≡ slice_get self.now.items at }
    {
        if at < self.len() {
            Some(self.event(at))
        } else {
            None
        }
    }

    /// Writes the call of the event at a place, from 0, into the caller's buffer, and answers the rest of the event. The reply is not
    /// unpacked.
    pub fn call_into(&self, at: usize, call: &mut CallPlace) -> CalledEvent<'_>
        requires { at < length self.now.items }
        ensures { Some (event result.seat result.number call.new result.reply)
            ≡ slice_get self.now.items at }
    {
        called_in(self.list.get(at), call)
    }

    /// The seat of the event at a place, from 0, of which nothing else is read.
    pub fn seat(&self, at: usize) -> u64
        requires { at < length self.now.items }
        ensures { Some result ≡ option_map (λ e. e.seat) (slice_get self.now.items at) }
    {
        seat_in(self.list.get(at))
    }

    /// The seat and the number of the event at a place, from 0, if it is there. Nothing else of it is read.
    pub fn caller(&self, at: usize) -> Option<(u64, u64)>
        ensures { result ≡ option_map caller_of (slice_get self.now.items at) }
    {
        if at < self.len() {
            Some(caller_in(self.list.get(at)))
        } else {
            None
        }
    }

    /// How many events are those of seats.
    pub fn of_seats(&self) -> u128
        ensures { result ≡ count_by is_of_seat self.now.items }
    {
        let mut count = 0;
        for at in 0..self.len() {
            if self.seat(at) != 0 {
                count += 1;
            }
        }
        count
    }

    /// How many events are the collector's.
    pub fn of_collector(&self) -> u128
        ensures { result ≡ count_by is_of_collector self.now.items }
    {
        let mut count = 0;
        for at in 0..self.len() {
            if self.seat(at) == 0 {
                count += 1;
            }
        }
        count
    }

    /// Makes room for one more event. At `Err` the events are as they were.
    pub fn reserve(&mut self) -> Result<(), AllocError>
        ensures items { self.new.items ≡ self.old.items }
        ensures room { OnOk result (IsTrue self.new.has_room) }
    {
        if self.list.has_room(1, MAX_EVENT_BYTES) {
            return Ok(());
        }
        self.list.reserve(1, MAX_EVENT_BYTES)?;
        Ok(())
    }

    /// Puts the event of a call and its reply at the end, for which there is room. It takes no memory.
    pub fn push_reserved(&mut self, seat: u64, number: u64, call: &Call, reply: &Reply)
        requires room { IsTrue self.old.has_room }
        requires fits { IsTrue (is_reply_to call.now reply.now) }
        ensures items { self.new.items
            ≡ self.old.items ++ event seat number call.now reply.now ∷ [] }
        ensures few { length self.new.items < 2 ^ 63 }
    {
        let parts = EventParts {
            seat,
            number,
            call,
            reply,
        };
        self.list.push_packed(&parts);
        let _few = self.list.len();
    }

    /// Puts an event at the end. At `Err` the events are as they were.
    pub fn push(&mut self, event: &Event) -> Result<(), AllocError>
        ensures ok { OnOk result (self.new.items ≡ self.old.items ++ event.now ∷ []) }
        ensures err { OnErr result (self.new.items ≡ self.old.items) }
    {
        self.reserve()?;
        event.read_fit();
        self.push_reserved(event.seat(), event.number(), &event.call(), &event.reply());
        Ok(())
    }

    /// Puts the events of another list at the end. At `Err` the first of them may stand there.
    pub fn append(&mut self, other: &EventList) -> Result<(), AllocError>
        ensures ok { OnOk result (self.new.items ≡ self.old.items ++ other.now.items) }
        ensures some { (many : ℕ) × (self.new.items ≡ self.old.items ++ take many other.now.items) }
    {
        for at in 0..other.len() {
            self.push(&other.event(at))?;
        }
        Ok(())
    }

    /// Hands out the events with the memory that they take, and has room for about as many more, where there is memory for that.
    pub fn take_on(&mut self) -> EventList
        ensures given { result.items ≡ self.old.items }
        ensures empty { self.new.items ≡ [] }
    {
        EventList {
            list: self.list.take_on(),
        }
    }

    /// Hands out the events with the memory that they take. The list is empty then, and has no room.
    pub fn take(&mut self) -> EventList
        ensures given { result.items ≡ self.old.items }
        ensures empty { self.new.items ≡ [] }
    {
        EventList {
            list: self.list.take(),
        }
    }
}

/// What an event has beside its call.
#[derive(Drop)]
pub struct CalledEvent<'a> {
    /// The seat that sent the call; 0 is the collector.
    pub seat: u64,
    /// Which of the seat's calls it was, from 1.
    pub number: u64,
    /// The reply, as it lies packed.
    pub reply: PackedReply<'a>,
}

/// An event that is to be packed, its call and its reply borrowed.
#[derive(Drop)]
struct EventParts<'a> {
    seat: u64,
    number: u64,
    call: &'a Call,
    reply: &'a Reply,
    ghost fits: { IsTrue (is_reply_to call.now reply.now) },
}

impl<'a> PackEntry for EventParts<'a> {
    ghost use Rattle.partition.specs.Events.{event};
    ghost use Rattle.partition.specs.PackedEvents.{packed_event, IsStoreEvent};
    ghost use Rattle.partition.specs.Sizes.{max_event_bytes};

    ghost packed_as = { λ e. packed_event (event e.seat e.number e.call.now e.reply.now) };

    ghost most_bytes = { λ e. max_event_bytes };

    ghost is_stored = { λ e. IsStoreEvent (event e.seat e.number e.call.now e.reply.now) };

    fn put(&self, out: &mut Buffer) {
        put_event(out, self.seat, self.number, self.call, self.reply);
    }
}

/// Packs an event at the end of bytes that have room for it.
fn put_event(out: &mut Buffer, seat: u64, number: u64, call: &Call, reply: &Reply)
    requires room { length out.old.items + max_event_bytes ≤ out.old.capacity }
    requires fits { IsTrue (is_reply_to call.now reply.now) }
    ensures { PutsValue (packed_event (event seat number call.now reply.now)) max_event_bytes
        (IsStoreEvent (event seat number call.now reply.now)) out.old out.new }
{
    put_number(out, seat);
    put_number(out, number);
    put_call(out, call);
    put_reply(out, reply);
}

fn event_from(seat: u64, number: u64, call: &Call, reply: &Reply) -> Option<Event>
    ensures { result ≡ event_from seat number call.now reply.now }
{
    Event::new(seat, number, call, reply)
}

#[tactic(auto, unfolding(crate::specs::PackedEvents::event_at))]
fn event_at(bytes: &[u8]) -> Option<Event>
    ensures { result ≡ event_at bytes.now }
{
    let (seat, rest) = read_number(bytes)?;
    let (number, rest) = read_number(rest)?;
    let Some((call, rest)) = read_call(rest) else {
        return None;
    };
    let Some((reply, _)) = read_reply(rest) else {
        return None;
    };
    event_from(seat, number, &call, &reply)
}

/// The event of these bytes.
fn unpacked(bytes: &[u8]) -> Event
    requires { IsPackedEvent bytes.now }
    ensures { result ≡ event_in bytes.now }
{
    event_at(bytes).unwrap()
}

#[tactic(auto, unfolding(crate::specs::PackedEvents::called_at))]
fn called_at<'a>(bytes: &'a [u8], call: &mut CallPlace) -> Option<(u64, u64, &'a [u8])>
    ensures { option_map (λ p. (p.0, p.1, call.new, p.2.now)) result ≡ called_at bytes.now }
{
    let (seat, rest) = read_number(bytes)?;
    let (number, rest) = read_number(rest)?;
    let rest = call.read(rest)?;
    Some((seat, number, rest))
}

/// The event of these bytes, with its call in the caller's buffer.
fn called_in<'a>(bytes: &'a [u8], call: &mut CallPlace) -> CalledEvent<'a>
    requires { IsPackedEvent bytes.now }
    ensures { event result.seat result.number call.new result.reply ≡ event_in bytes.now }
{
    let (seat, number, reply) = called_at(bytes, call).unwrap();
    CalledEvent {
        seat,
        number,
        reply: PackedReply { bytes: reply },
    }
}

fn first_number(bytes: &[u8]) -> Option<u64>
    ensures { result ≡ option_map (λ p. p.0) (number_at bytes.now) }
{
    let (number, _) = read_number(bytes)?;
    Some(number)
}

/// The seat of the event of these bytes.
fn seat_in(bytes: &[u8]) -> u64
    requires { IsPackedEvent bytes.now }
    ensures { result ≡ (event_in bytes.now).seat }
{
    first_number(bytes).unwrap()
}

fn first_numbers(bytes: &[u8]) -> Option<(u64, u64)>
    ensures { result ≡ caller_at bytes.now }
{
    let (seat, rest) = read_number(bytes)?;
    let (number, _) = read_number(rest)?;
    Some((seat, number))
}

/// The seat and the number of the event of these bytes.
fn caller_in(bytes: &[u8]) -> (u64, u64)
    requires { IsPackedEvent bytes.now }
    ensures { result ≡ caller_of (event_in bytes.now) }
{
    first_numbers(bytes).unwrap()
}

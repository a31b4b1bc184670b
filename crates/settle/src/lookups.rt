//! What is looked up in journals and transcripts.
ghost use Rattle.std.specs.Prelude.{◌≡◌, ◌↔◌, ◌<◌, IsTrue, length, slice_get};
ghost use Rattle.std.specs.Option.{option_copied, option_map};
ghost use Rattle.partition.specs.PackedEvents.{caller_of};
ghost use Rattle.stamps.specs.declared.bounds.Limits.{Limits};
ghost use Rattle.settle.specs.Input.{journal_of_closed, events_of_partition, input_of};
ghost use Rattle.settle.specs.Program.{at_place};
ghost use Rattle.settle.specs.Fronts.{IsRequest, IsEventOf};

use closed_store::Closed;
use partition::{Event, Journal};
use plain_store::Act;
use stamps::Client;

/// The element at a place, from 1 on.
pub fn at_place<T: Copy>(list: &[T], place: u64) -> Option<T>
    ensures { result ≡ at_place list.now place }
{
    if place == 0 {
        return None;
    }
    list.get((place - 1) as usize).copied()
}

/// The tenant's journal at a partition, if the closed hub left one there.
pub fn journal_at(closed: &Closed, tenant: u32, partition: usize) -> Option<&Journal>
    ensures { option_copied result ≡ journal_of_closed closed.now tenant partition }
{
    closed.journals.get(partition)?.get(tenant as usize)
}

/// The number of the tenant's events at a partition; 0 where there is no journal.
pub fn count_of_events(closed: &Closed, tenant: u32, partition: usize) -> usize
    requires { partition < closed.now.config.parts }
    ensures { (limits : Limits)
        → result ≡ length (events_of_partition (input_of closed.now tenant limits) partition) }
{
    match journal_at(closed, tenant, partition) {
        Some(journal) => journal.events.len(),
        None => 0,
    }
}

/// The tenant's event at a partition that follows so many.
pub fn event_after(closed: &Closed, tenant: u32, partition: usize, count: usize) -> Option<Event>
    requires { partition < closed.now.config.parts }
    ensures { (limits : Limits)
        → result
        ≡ slice_get (events_of_partition (input_of closed.now tenant limits) partition) count }
{
    match journal_at(closed, tenant, partition) {
        Some(journal) => journal.events.get(count),
        None => None,
    }
}

/// The seat and the number of the tenant's event at a partition that follows so many.
pub fn caller_after(
    closed: &Closed,
    tenant: u32,
    partition: usize,
    count: usize,
) -> Option<(u64, u64)>
    requires { partition < closed.now.config.parts }
    ensures { (limits : Limits)
        → result
        ≡ option_map caller_of
        (slice_get (events_of_partition (input_of closed.now tenant limits) partition) count) }
{
    match journal_at(closed, tenant, partition) {
        Some(journal) => journal.events.caller(count),
        None => None,
    }
}

/// The seat and the number of the tenant's event at a partition at a place, from 1 on.
fn caller_at(closed: &Closed, tenant: u32, partition: usize, place: u64) -> Option<(u64, u64)>
    requires { partition < closed.now.config.parts }
    ensures { (limits : Limits)
        → result
        ≡ option_map caller_of
        (at_place (events_of_partition (input_of closed.now tenant limits) partition) place) }
{
    if place == 0 {
        return None;
    }
    caller_after(closed, tenant, partition, (place - 1) as usize)
}

/// Whether the act begins a transaction of the client, or ends or begins its session, as a raise of its counter does.
pub fn is_request(client: Client, act: &Act) -> bool
    ensures { IsTrue result ↔ IsRequest client act.now }
{
    match act {
        Act::Put(own, _)
        | Act::Get(own, _)
        | Act::Find(own, _)
        | Act::Stop(own)
        | Act::Hello(own, _) => *own == client,
        _ => false,
    }
}

/// Whether the event of a seat's call of a number stands at a place of the tenant's journal at a partition.
pub fn is_event_of(
    closed: &Closed,
    tenant: u32,
    partition: usize,
    seat: u64,
    number: u64,
    place: u64,
) -> bool
    requires { partition < closed.now.config.parts }
    ensures { (limits : Limits)
        → IsTrue result
        ↔ IsEventOf
        (events_of_partition (input_of closed.now tenant limits) partition) seat number place }
{
    match caller_at(closed, tenant, partition, place) {
        Some((its_seat, its_number)) => its_seat == seat && its_number == number,
        None => false,
    }
}

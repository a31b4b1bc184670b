//! Adds the events of epochs to the counts of their partitions.
ghost use Rattle.std.specs.Prelude.{◌≡◌};
ghost use Rattle.partition.specs.Accounts.{is_of_seat, is_of_collector};
ghost use Rattle.closed_store.specs.Counting.{AreCounted, counted_with, events_given};

use partition::{Counts, Epoch};

/// Adds to the counts of each partition the events of the epochs that are given for it. A sum past 2^128 - 1 stays there. An
/// epoch of a partition without counts adds nothing. Takes no memory.
///
/// For each partition it goes over all epochs, and over the events of those given for it.
pub(crate) fn add_counts(counts: &mut [Counts], given: &[(u32, u32, Epoch)])
    ensures { AreCounted given.now counts.old counts.new }
{
    for place in 0..counts.len() {
        let more = counts_of(given, place);
        add(&mut counts[place], more.of_seats, more.of_collector);
    }
}

/// How many events the epochs have that are given for a partition. A sum past 2^128 - 1 stays there.
fn counts_of(given: &[(u32, u32, Epoch)], place: usize) -> Counts
    ensures seats { result.of_seats ≡ counted_with 0 (events_given is_of_seat given.now place) }
    ensures collector { result.of_collector
        ≡ counted_with 0 (events_given is_of_collector given.now place) }
{
    let mut counts = Counts {
        of_seats: 0,
        of_collector: 0,
    };
    for (partition, _, epoch) in given {
        if *partition as usize == place {
            let events = &epoch.events;
            add(&mut counts, events.of_seats(), events.of_collector());
        }
    }
    counts
}

/// Adds to the counts of a partition.
fn add(counts: &mut Counts, of_seats: u128, of_collector: u128)
    ensures seats { counts.new.of_seats ≡ counted_with counts.old.of_seats of_seats }
    ensures collector { counts.new.of_collector
        ≡ counted_with counts.old.of_collector of_collector }
{
    counts.of_seats = counts.of_seats.saturating_add(of_seats);
    counts.of_collector = counts.of_collector.saturating_add(of_collector);
}

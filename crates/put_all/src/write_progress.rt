//! The items of a write, and what their partitions answered.
ghost use Rattle.std.specs.Prelude.{◌≡◌, ◌<◌, ◌≤◌, [], length, map, position};
ghost use Rattle.std.specs.List.{list_any, list_all};
ghost use Rattle.stamps.specs.Bounds.{IsParts};
ghost use Rattle.stamps.specs.Key.{IsTransactionKeys};
ghost use Rattle.stamps.specs.Limits.{max_keys};
ghost use Rattle.plain_store.specs.Writing.{keys_written};
ghost use Rattle.put_all.specs.WriteProgress.{MarksPrepared, MarksCommitted, place_for, with_prepared, with_committed, awaits_prepared, awaits_committed, is_at};

use lists::SmallList;
use stamps::{Item, Key, limits};
use std::marker::Model;

/// An item of a write: where it is at home, in a byte, and what was answered of it.
#[derive(Clone, Copy)]
pub(crate) struct ItemProgress {
    pub(crate) key: Key,
    pub(crate) home: u8,
    /// Its PREPARE was answered Prepared.
    pub(crate) is_prepared: bool,
    /// The COMMIT at its home was answered.
    pub(crate) is_committed: bool,
}

impl ItemProgress {
    /// An item of which nothing was answered.
    #[inline(always)]
    fn new(key: &Key, parts: u32) -> ItemProgress
        requires { IsParts parts }
        ensures { result ≡ place_for parts key.now }
    {
        ItemProgress {
            key: *key,
            home: stamps::home(key, parts) as u8,
            is_prepared: false,
            is_committed: false,
        }
    }

    /// Takes that the COMMIT at this partition was answered, and says whether that was awaited.
    fn take_committed(&mut self, partition: u32) -> bool
        ensures place { self.new ≡ with_committed partition self.old }
        ensures awaited { result ≡ awaits_committed partition self.old }
    {
        let awaits = self.awaits_committed(partition);
        self.is_committed |= awaits;
        awaits
    }

    /// Whether a Prepared of this key is the first.
    fn awaits_prepared(&self, key: &Key) -> bool
        ensures { result ≡ awaits_prepared key.now self.now }
    {
        // A key is compared only where its answer is awaited.
        !self.is_prepared && self.key == *key
    }

    /// Whether this partition is its home.
    fn is_at(&self, partition: u32) -> bool
        ensures { result ≡ is_at partition self.now }
    {
        u32::from(self.home) == partition
    }

    /// Whether an answered COMMIT of this partition is the first.
    fn awaits_committed(&self, partition: u32) -> bool
        ensures { result ≡ awaits_committed partition self.now }
    {
        self.is_at(partition) && !self.is_committed
    }
}

/// What a Prepared did to the items of a write.
#[derive(Clone, Copy)]
pub(crate) struct Marked {
    /// An item waited for it.
    pub(crate) was_awaited: bool,
    /// Each item is prepared now.
    pub(crate) are_prepared: bool,
}

/// What an answered COMMIT did to the items of a write.
#[derive(Clone, Copy)]
pub(crate) struct CommitMarked {
    /// An item waited for it.
    pub(crate) was_awaited: bool,
    /// The COMMIT at the home of each item is answered now.
    pub(crate) are_committed: bool,
}

/// The items of a write in the order given, up to `MAX_KEYS`.
#[derive(Drop)]
pub(crate) struct WriteProgress {
    places: SmallList<ItemProgress, { limits::MAX_KEYS }>,
    /// Of how many no PREPARE was answered Prepared.
    awaited: usize,
}

impl Model for WriteProgress {
    ghost use Rattle.std.specs.Prelude.{◌≡◌, List};
    ghost use Rattle.put_all.specs.declared.write_progress.ItemProgress.{ItemProgress};

    ghost Value = { List ItemProgress };

    ghost use Rattle.put_all.specs.WriteProgress.{AreApart, count_awaited};

    ghost view = { λ p. p.places };

    ghost invariant = { λ p. AreApart p.places × (p.awaited ≡ count_awaited p.places) };
}

impl WriteProgress {
    /// The places of these items, of which nothing was answered.
    pub(crate) fn of(items: &[Item], parts: u32) -> WriteProgress
        requires parts { IsParts parts }
        requires some { 0 < length items.now }
        requires room { length items.now ≤ max_keys }
        requires keys { IsTransactionKeys (keys_written items.now) }
        ensures { result ≡ map (λ item. place_for parts item.key) items.now }
    {
        let mut places = WriteProgress::none(items[0].key);
        places.reset(items, parts);
        places
    }

    /// No places. The key fills the unused rest of the array.
    pub(crate) fn none(filler: Key) -> WriteProgress
        ensures { result ≡ [] }
    {
        WriteProgress {
            places: SmallList::empty(ItemProgress::new(&filler, 1)),
            awaited: 0,
        }
    }

    /// Puts in its place those of these items, of which nothing was answered.
    pub(crate) fn reset(&mut self, items: &[Item], parts: u32)
        requires parts { IsParts parts }
        requires room { length items.now ≤ max_keys }
        requires keys { IsTransactionKeys (keys_written items.now) }
        ensures { self.new ≡ map (λ item. place_for parts item.key) items.now }
    {
        self.places.clear();
        for item in items {
            self.places.push(ItemProgress::new(&item.key, parts));
        }
        self.awaited = items.len();
    }

    fn as_slice(&self) -> &[ItemProgress]
        ensures places { result.now ≡ self.now }
        ensures few { length result.now ≤ max_keys }
    {
        self.places.as_slice()
    }

    /// How many they are.
    pub(crate) fn len(&self) -> usize
        ensures count { result ≡ length self.now }
        ensures few { length self.now ≤ max_keys }
    {
        self.as_slice().len()
    }

    /// Whether an item of this key waits for its Prepared.
    pub(crate) fn await_prepared(&self, key: &Key) -> bool
        ensures { result ≡ list_any (awaits_prepared key.now) self.now }
    {
        self.as_slice()
            .iter()
            .any(|place| place.awaits_prepared(key))
    }

    /// The place, from 0, of the item of this key that waits for its Prepared.
    fn awaited_place(&self, key: &Key) -> Option<usize>
        ensures { result ≡ position (awaits_prepared key.now) self.now }
    {
        self.as_slice()
            .iter()
            .position(|place| place.awaits_prepared(key))
    }

    /// Whether an item belongs to this partition.
    pub(crate) fn are_at(&self, partition: u32) -> bool
        ensures { result ≡ list_any (is_at partition) self.now }
    {
        self.as_slice().iter().any(|place| place.is_at(partition))
    }

    pub(crate) fn are_prepared(&self) -> bool
        ensures { result ≡ list_all (λ place. place.is_prepared) self.now }
    {
        self.awaited == 0
    }

    /// Takes the Prepared of this key. Where no item of it waits for that, they stay as they were.
    pub(crate) fn mark_prepared(&mut self, key: &Key) -> Marked
        ensures { MarksPrepared key.now self.old self.new result }
    {
        let Some(at) = self.awaited_place(key) else {
            return Marked {
                was_awaited: false,
                are_prepared: self.are_prepared(),
            };
        };
        let mut place = self.as_slice()[at];
        place.is_prepared = true;
        self.places.set(at, place);
        self.awaited -= 1;
        Marked {
            was_awaited: true,
            are_prepared: self.are_prepared(),
        }
    }

    /// Takes the answered COMMIT of this partition. Where no item waits for that, they stay as they were.
    pub(crate) fn mark_committed(&mut self, partition: u32) -> CommitMarked
        ensures { MarksCommitted partition self.old self.new result }
    {
        take_committed_of(&mut self.places, partition)
    }
}

/// Has each item of the list take that the COMMIT at the partition was answered.
fn take_committed_of(
    places: &mut SmallList<ItemProgress, { limits::MAX_KEYS }>,
    partition: u32,
) -> CommitMarked
    ensures { MarksCommitted partition places.old places.new result }
{
    places.change(|places| take_committed(places, partition))
}

/// Has each place take that the COMMIT at the partition was answered. It looks through them once.
fn take_committed(places: &mut [ItemProgress], partition: u32) -> CommitMarked
    ensures { MarksCommitted partition places.old places.new result }
{
    let mut marked = CommitMarked {
        was_awaited: false,
        are_committed: true,
    };
    for place in places.iter_mut() {
        let awaits = place.take_committed(partition);
        marked.was_awaited |= awaits;
        marked.are_committed &= place.is_committed;
    }
    marked
}

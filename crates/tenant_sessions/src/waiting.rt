//! The calls that a transaction waits for.
ghost use Rattle.std.specs.Prelude.{◌≡◌, ◌≢◌, ◌<◌, ◌≤◌, ◌↔◌, IsTrue, true, false, nat_lt, map, not, filter, length, slice_get, AllPairs};
ghost use Rattle.std.specs.List.{filter_map, list_all};
ghost use Rattle.std.specs.Option.{option_map_or};
ghost use Rattle.stamps.specs.Bounds.{IsParts};
ghost use Rattle.stamps.specs.Limits.{max_keys, max_parts};
ghost use Rattle.stamps.specs.Key.{IsTransactionKeys};
ghost use Rattle.tenant_sessions.specs.Asking.{Awaits, PutsCall};
ghost use Rattle.plain_store.specs.Writing.{keys_written, record_for};
ghost use Rattle.tenant_sessions.specs.Parts.{Prepares, Commits, First, Second, Founds, AnswersOne, batch_calls, is_answered_at};

use crate::call_batch::CallBatch;
use crate::pending_set::PendingSet;
use get_all::LateKeys;
use plain_store::Message;
use put_all::Partitions;
use stamps::{Item, Key, Stamp, Tag};
use std::marker::Model;

/// Keeps of these places those of calls whose place the message's reply does not take. Where `are_apart` says that the reply
/// takes one place at most, and that is the first, no other is looked at.
fn keep_unanswered(
    places: &mut PendingSet,
    part: &CallBatch,
    parts: u32,
    message: &Message,
    are_apart: bool,
)
    requires parts { IsParts parts }
    requires apart { are_apart ≡ true
        → AnswersOne (batch_calls parts part.now) message.now places.old }
    ensures { places.new ≡ filter (λ place. not
        (is_answered_at (batch_calls parts part.now) message.now place)) places.old }
{
    if are_apart && is_first_answered(places, part, parts, message) {
        places.drop_first();
        return;
    }
    keep_each_unanswered(places, part, parts, message, are_apart);
}

/// Whether there is a place, and the message's reply takes that of the call at the first one.
fn is_first_answered(places: &PendingSet, part: &CallBatch, parts: u32, message: &Message) -> bool
    requires { IsParts parts }
    ensures { result ≡ option_map_or (is_answered_at (batch_calls parts part.now) message.now)
        (slice_get places.now 0) false }
{
    match places.get(0) {
        Some(place) => part.is_answered_at(parts, usize::from(place), message),
        None => false,
    }
}

/// Does what `keep_unanswered` does, place by place: each that is kept is moved forward where it lies. Where `are_apart` says
/// that the reply takes one place at most, no call is compared once that was found. It stands alone, since replies mostly come
/// in the order of the calls.
#[inline(never)]
fn keep_each_unanswered(
    places: &mut PendingSet,
    part: &CallBatch,
    parts: u32,
    message: &Message,
    are_apart: bool,
)
    requires parts { IsParts parts }
    requires apart { are_apart ≡ true
        → AnswersOne (batch_calls parts part.now) message.now places.old }
    ensures { places.new ≡ filter (λ place. not
        (is_answered_at (batch_calls parts part.now) message.now place)) places.old }
{
    let mut kept = 0;
    let mut is_found = false;
    for at in 0..places.as_slice().len() {
        let place = places.as_slice()[at];
        if is_found || !part.is_answered_at(parts, usize::from(place), message) {
            places.set(kept, place);
            kept += 1;
        } else {
            is_found = are_apart;
        }
    }
    places.truncate(kept);
}

/// Makes of them the places of all calls of this part, in a store of so many partitions; of more than `MAX_PARTS` the first.
fn fill_all(places: &mut PendingSet, part: &CallBatch, parts: u32)
    requires { IsParts parts }
    ensures within { list_all
        (λ place. nat_lt place (length (batch_calls parts part.now))) places.new ≡ true }
    ensures all { length (batch_calls parts part.now) ≤ max_parts
        → filter_map (slice_get (batch_calls parts part.now)) places.new
        ≡ batch_calls parts part.now }
    ensures few { length (filter_map (slice_get (batch_calls parts part.now)) places.new)
        ≤ length (batch_calls parts part.now) }
    ensures once { AllPairs (λ i j. i ≢ j) places.new }
{
    places.fill(part.len(parts));
}

/// Whether each of these partitions is above the one before it.
fn are_ascending(partitions: &[u8]) -> bool
    ensures { result ≡ true → AllPairs (λ i j. i < j) partitions.now }
{
    for at in 1..partitions.len() {
        if partitions[at - 1] >= partitions[at] {
            return false;
        }
    }
    true
}

/// The calls of one part of a transaction that have no reply taken, in their order: up to `MAX_PARTS`.
#[derive(Drop)]
pub(crate) struct Waiting {
    part: CallBatch,
    parts: u32,
    places: PendingSet,
    /// That no reply takes the place of two of the calls. False where this is not known.
    are_apart: bool,
}

impl Model for Waiting {
    ghost use Rattle.std.specs.Prelude.{◌≡◌, ◌≢◌, List, AllPairs, true, nat_lt, length, slice_get};
    ghost use Rattle.std.specs.List.{filter_map, list_all};
    ghost use Rattle.stamps.specs.Bounds.{IsParts};
    ghost use Rattle.plain_store.specs.Writing.{Outgoing as Sent};
    ghost use Rattle.tenant_sessions.specs.Parts.{AreApart, batch_calls};

    ghost Value = { List Sent };

    ghost view = { λ w. filter_map (slice_get (batch_calls w.parts w.part)) w.places };

    ghost invariant = { λ w. IsParts w.parts × (list_all (λ place. nat_lt place (length (batch_calls w.parts w.part))) w.places ≡ true) × AllPairs (λ i j. i ≢ j) w.places × (w.are_apart ≡ true → AreApart (batch_calls w.parts w.part)) };
}

impl Waiting {
    ghost use Rattle.std.specs.Prelude.{false, Some};
    ghost use Rattle.tenant_sessions.specs.Parts.{batch_calls, is_replaced_by};
    ghost use Rattle.std.specs.Prelude.{All};
    ghost use Rattle.plain_store.specs.declared.calls.Call.TheVariants.{Commit};
    ghost use Rattle.tenant_sessions.specs.Sending.{IsGet};

    /// No calls.
    pub(crate) fn none(tag: Tag) -> Waiting {
        Waiting {
            part: CallBatch::none(tag),
            parts: 1,
            places: PendingSet::none(),
            are_apart: false,
        }
    }

    /// Makes of them the PREPAREs of these items under this stamp, in a store of so many partitions, and says whether it could: a
    /// write may have them.
    pub(crate) fn prepare(&mut self, stamp: Stamp, items: &[Item], parts: u32) -> bool
        requires written { 0 < stamp }
        requires parts { IsParts parts }
        ensures exact { IsTrue result ↔ IsTransactionKeys (keys_written items.now) }
        ensures made { result ≡ true
            → length (batch_calls parts (Prepares (map (record_for stamp items.now) items.now)))
            ≤ max_parts → self.new
            ≡ batch_calls parts (Prepares (map (record_for stamp items.now) items.now)) }
    {
        let is_made = self.part.prepare(stamp, items);
        fill_all(&mut self.places, &self.part, parts);
        self.parts = parts;
        self.are_apart = is_made;
        is_made
    }

    /// Makes of them the COMMITs of this stamp at these partitions; and so do the three below.
    pub(crate) fn commit(&mut self, stamp: Stamp, partitions: Partitions, parts: u32)
        requires parts { IsParts parts }
        ensures awaits { Awaits (batch_calls parts (Commits stamp partitions))
            (length partitions) self.new }
        ensures commits { All (λ out. out.call ≡ Commit stamp) self.new }
    {
        let are_apart = are_ascending(partitions.as_slice());
        self.part.commit(stamp, partitions);
        fill_all(&mut self.places, &self.part, parts);
        self.parts = parts;
        self.are_apart = are_apart;
    }

    /// The GETs of the latest versions of these keys, up to `MAX_KEYS`. With `are_apart` no key stands twice.
    pub(crate) fn read(&mut self, keys: &[Key], parts: u32, are_apart: bool)
        requires few { length keys.now ≤ max_keys }
        requires parts { IsParts parts }
        requires apart { are_apart ≡ true → AllPairs (λ j k. j ≢ k) keys.now }
        ensures awaits { Awaits (batch_calls parts (First keys.now)) (length keys.now) self.new }
        ensures gets { All (λ out. IsGet out.call) self.new }
    {
        self.part.read(keys);
        fill_all(&mut self.places, &self.part, parts);
        self.parts = parts;
        self.are_apart = are_apart;
    }

    /// The GETs of these late versions.
    pub(crate) fn read_late(&mut self, late: LateKeys, parts: u32)
        requires parts { IsParts parts }
        ensures awaits { Awaits (batch_calls parts (Second late)) (length late) self.new }
        ensures gets { All (λ out. IsGet out.call) self.new }
    {
        self.part.read_late(late);
        fill_all(&mut self.places, &self.part, parts);
        self.parts = parts;
        self.are_apart = false;
    }

    /// The searches by this tag.
    pub(crate) fn search(&mut self, tag: Tag, parts: u32)
        requires parts { IsParts parts }
        ensures { length (batch_calls parts (Founds tag)) ≤ max_parts
            → self.new ≡ batch_calls parts (Founds tag) }
    {
        self.part.search(tag);
        fill_all(&mut self.places, &self.part, parts);
        self.parts = parts;
        self.are_apart = false;
    }

    /// How many there are.
    pub(crate) fn len(&self) -> u32
        ensures value { result ≡ length self.now }
        ensures few { result ≤ max_parts }
    {
        self.places.as_slice().len() as u32
    }

    /// Writes the call at this place among them, from 0, and its partition into the message, and says whether there is one.
    /// Where there is none, the message is as it was.
    pub(crate) fn call_into(&self, nth: u32, message: &mut Message) -> bool
        ensures { PutsCall self.now nth result message.old message.new }
    {
        let Some(place) = self.places.get(nth) else {
            return false;
        };
        self.part.call_into(self.parts, usize::from(place), message)
    }

    /// Waits no more for the call whose place the message's reply takes.
    pub(crate) fn forget(&mut self, message: &Message)
        ensures { self.new ≡ filter (λ out. not (is_replaced_by message.now out)) self.old }
    {
        keep_unanswered(
            &mut self.places,
            &self.part,
            self.parts,
            message,
            self.are_apart,
        );
    }
}

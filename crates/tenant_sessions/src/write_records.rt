//! The records of a write.
ghost use Rattle.std.specs.Prelude.{◌≡◌, ◌<◌, ◌≤◌, ◌↔◌, true, false, length, map, slice_get, take, Contains, IsTrue};
ghost use Rattle.std.specs.Option.{option_map_or};
ghost use Rattle.stamps.specs.Bounds.{IsParts};
ghost use Rattle.stamps.specs.Key.{IsTransactionKeys};
ghost use Rattle.tenant_sessions.specs.Asking.{PutsCall};
ghost use Rattle.plain_store.specs.Writing.{keys_written, record_for};
ghost use Rattle.tenant_sessions.specs.Parts.{prepares, record_of};

use plain_store::{Call, Message};
use stamps::{Item, Key, Record, Stamp, Tag, Value, WriteSet};
use std::marker::Model;

/// The records that a write prepares, in the order of its items: 1 to `MAX_KEYS`. All have one stamp and one write set.
#[derive(Drop)]
pub(crate) struct WriteRecords {
    stamp: Stamp,
    writes: WriteSet,
    items: [Item; WriteSet::MAX_LEN],
    len: u8,
}

impl Model for WriteRecords {
    ghost use Rattle.std.specs.Prelude.{◌≡◌, ◌<◌, ◌≤◌, List, true, map, length, take};
    ghost use Rattle.std.specs.List.{list_all};
    ghost use Rattle.stamps.specs.Limits.{max_keys};
    ghost use Rattle.stamps.specs.Record.{Record as Fields};
    ghost use Rattle.stamps.specs.WriteSet.{contains_key};
    ghost use Rattle.tenant_sessions.specs.Parts.{record_of};

    ghost Value = { List Fields };

    ghost view = { λ v. map (record_of v.stamp v.writes) (take v.len v.items) };

    ghost invariant = { λ v. (0 < v.stamp) × (list_all (λ item. contains_key v.writes item.key) (take v.len v.items) ≡ true) × (v.len ≤ max_keys) × (length v.items ≡ max_keys) };
}

/// Whether the call prepares a record of this key.
fn prepares(key: &Key, call: &Call) -> bool
    ensures { result ≡ prepares key.now call.now }
{
    match call {
        Call::Prepare(version) => *key == version.key,
        _ => false,
    }
}

impl WriteRecords {
    ghost use Rattle.std.specs.Prelude.{false, Some, None};
    ghost use Rattle.tenant_sessions.specs.Parts.{Prepares, batch_calls};

    /// No records. The key fills the unused array.
    pub(crate) fn none(filler: Key) -> WriteRecords {
        let nothing = b"";
        let item = Item {
            key: filler,
            tag: Tag::read(nothing).unwrap(),
            value: Value::read(nothing).unwrap(),
        };
        WriteRecords {
            stamp: Stamp::new(1, 1).unwrap(),
            writes: WriteSet::of(&[filler]).unwrap(),
            items: [item; WriteSet::MAX_LEN],
            len: 0,
        }
    }

    /// Makes of them the records of these items under this stamp, with the write set of their keys, and says whether there is
    /// one.
    pub(crate) fn reset(&mut self, stamp: Stamp, items: &[Item]) -> bool
        requires { 0 < stamp }
        ensures exact { IsTrue result ↔ IsTransactionKeys (keys_written items.now) }
        ensures made { result ≡ true → self.new ≡ map (record_for stamp items.now) items.now }
    {
        self.len = 0;
        if !put_all::put_write_set(items, &mut self.writes) {
            return false;
        }
        let used = &mut self.items[..items.len()];
        used.copy_from_slice(items);
        self.stamp = stamp;
        self.len = items.len() as u8;
        true
    }

    /// How many records there are.
    pub(crate) fn len(&self) -> usize
        ensures { result ≡ length self.now }
    {
        usize::from(self.len)
    }

    /// Whether there is a record at this place, from 0, and this call prepares one of its key.
    pub(crate) fn is_prepared_at(&self, place: usize, call: &Call) -> bool
        ensures { result
            ≡ option_map_or (λ version. prepares version.key call.now)
            (slice_get self.now place) false }
    {
        let items = &self.items[..usize::from(self.len)];
        match items.get(place) {
            Some(item) => prepares(&item.key, call),
            None => false,
        }
    }

    /// Writes the PREPARE of the record at this place, from 0, and its partition into the message, and says whether there is one.
    /// Where there is none, the message is as it was.
    pub(crate) fn call_into(&self, parts: u32, place: usize, message: &mut Message) -> bool
        requires { IsParts parts }
        ensures { PutsCall
            (batch_calls parts (Prepares self.now)) place result message.old message.new }
    {
        let items = &self.items[..usize::from(self.len)];
        let Some(item) = items.get(place) else {
            return false;
        };
        message.partition = stamps::home(&item.key, parts);
        put_prepare(item, self.stamp, &self.writes, &mut message.call);
        true
    }
}

/// Puts a PREPARE of this item into the caller's buffer, under this stamp and with this write set. One that lies there is
/// written over where it lies: a record has some 750 bytes.
fn put_prepare(item: &Item, stamp: Stamp, writes: &WriteSet, place: &mut Call)
    requires written { 0 < stamp }
    requires member { Contains writes.now item.now.key }
    ensures { place.new ≡ Call.Prepare (record_of stamp writes.now item.now) }
{
    if let Call::Prepare(old) = place {
        write_over(item, stamp, writes, old);
        return;
    }
    begin_prepare(item, stamp, writes, place);
}

/// Writes the item over a record, under this stamp and with this write set.
fn write_over(item: &Item, stamp: Stamp, writes: &WriteSet, old: &mut Record)
    requires written { 0 < stamp }
    requires member { Contains writes.now item.now.key }
    ensures { old.new ≡ record_of stamp writes.now item.now }
{
    old.key = item.key;
    old.tag = item.tag;
    old.value.copy_from(&item.value);
    old.stamp = stamp;
    old.writes.copy_from(writes);
}

/// Puts a PREPARE over another call. It stands alone, so that what is written over its like has no room for a call.
#[cold]
#[inline(never)]
fn begin_prepare(item: &Item, stamp: Stamp, writes: &WriteSet, place: &mut Call)
    requires written { 0 < stamp }
    requires member { Contains writes.now item.now.key }
    ensures { place.new ≡ Call.Prepare (record_of stamp writes.now item.now) }
{
    *place = Call::Prepare(Record {
        key: item.key,
        tag: item.tag,
        value: item.value,
        stamp,
        writes: *writes,
    });
}

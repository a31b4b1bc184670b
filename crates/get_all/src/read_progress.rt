//! The keys of a read, and the replies that counted.
ghost use Rattle.std.specs.Prelude.{◌≡◌, true, false, ◌&&◌, ◌<◌, ◌≤◌, ◌+◌, ◌++◌, ◌∷◌, length, map, max, cond, nat_lt, option_copied, slice_index_or, slice_set, position, take, drop, Some};
ghost use Rattle.std.specs.List.{list_any, list_all};
ghost use Rattle.stamps.specs.Key.{IsTransactionKeys};
ghost use Rattle.stamps.specs.Limits.{max_keys};
ghost use Rattle.stamps.specs.Stamp.{greatest_by};
ghost use Rattle.plain_store.specs.Rounds.{stamp_for, stamp_seen, reading_of, flat};
ghost use Rattle.get_all.specs.declared.read_progress.KeyProgress.{KeyProgress};
ghost use Rattle.get_all.specs.ReadProgress.{slot_for, with_first, with_second, awaits_first, has_first, first_shows, is_late_by, needed_by, awaits_second, is_answered_by, late_by, readings_by};

use crate::record_place::{FirstShown, RecordPlace};
use crate::{Late, LateKeys};
use plain_store::{Reading, Readings};
use stamps::{Item, Key, Record, Stamp, Tag, Value, WriteSet, limits};
use std::array;
use std::marker::Model;

/// A key that is read.
#[derive(Drop)]
pub(crate) struct KeyProgress {
    pub(crate) key: Key,
    /// What round one showed: nothing yet, the initial version, or a record.
    pub(crate) first: FirstShown,
    /// What round two showed, once it did.
    pub(crate) second: RecordPlace,
}

impl KeyProgress {
    /// A key of which nothing was shown.
    fn new(key: Key) -> KeyProgress
        ensures { result ≡ slot_for key }
    {
        KeyProgress {
            key,
            first: FirstShown::nothing(),
            second: RecordPlace::empty(),
        }
    }

    /// Makes of it a key of which nothing was shown, in place.
    fn reset(&mut self, key: &Key)
        ensures { self.new ≡ slot_for key.now }
    {
        self.key = *key;
        self.first.clear();
        self.second.clear();
    }

    /// Whether what round one shows of this key is the first of it.
    fn awaits_first(&self, key: &Key) -> bool
        ensures { result ≡ awaits_first key.now self.now }
    {
        // A key is compared only where its reply is awaited.
        self.first.is_none() && self.key == *key
    }

    /// Takes what round one showed of this key.
    fn put_first(&mut self, shown: Option<&Record>)
        ensures { self.new ≡ record self.old { first = Some (option_copied shown.entry) } }
    {
        self.first.put(shown);
    }

    /// Takes what round two showed of a key: the first counts.
    fn take_second(&mut self, key: &Key, version: &Record)
        ensures { self.new ≡ with_second key.now version.now self.old }
    {
        if self.key == *key && self.second.is_none() {
            self.second.put(version);
        }
    }

    /// The greater of this stamp and that of what round one showed, where its transaction wrote the key.
    fn raise(&self, key: &Key, needed: Stamp) -> Stamp
        ensures { result ≡ max needed (stamp_for key.now self.now.first) }
    {
        match self.first.version() {
            Some(version) if is_later(version, key, needed) => version.stamp,
            _ => needed,
        }
    }

    /// The stamp of what round one showed.
    fn first_stamp(&self) -> Stamp
        ensures { result ≡ stamp_seen self.now.first }
    {
        match self.first.version() {
            Some(version) => version.stamp,
            None => Stamp::ZERO,
        }
    }

    /// Whether round one showed here a later transaction than that of this stamp, which wrote the key.
    fn outdates(&self, key: &Key, stamp: Stamp) -> bool
        ensures { result ≡ nat_lt stamp (stamp_for key.now self.now.first) }
    {
        match self.first.version() {
            Some(version) => is_later(version, key, stamp),
            None => false,
        }
    }

    /// The record that is read where the key is late or is not, or none for the initial version.
    fn version(&self, is_late: bool) -> Option<&Record>
        ensures { option_copied result ≡ cond is_late self.now.second (flat self.now.first) }
    {
        if is_late {
            self.second.get()
        } else {
            self.first.version()
        }
    }

    /// Puts what is read where the key is late or is not at this place of the caller's buffer.
    fn read_into(&self, is_late: bool, at: usize, place: &mut Readings)
        requires place { at ≤ length place.old }
        requires room { at < max_keys }
        ensures { place.new ≡ take at place.old
            ++ (reading_of self.now.key (cond is_late self.now.second (flat self.now.first)))
            ∷ drop (at + 1) place.old }
    {
        match self.version(is_late) {
            Some(version) => place.put_record(at, version),
            None => place.put(at, &initial(self.key)),
        }
    }

    /// Whether round one showed a record of this stamp with these writes.
    fn shows(&self, stamp: Stamp, writes: &WriteSet) -> bool
        ensures { result ≡ first_shows stamp writes.now self.now.first }
    {
        match self.first.version() {
            Some(version) => version.stamp == stamp && version.writes == *writes,
            None => false,
        }
    }
}

/// The initial version of a key, as it is read.
fn initial(key: Key) -> Reading
    ensures { result ≡ reading_of key None }
{
    let nothing = b"";
    Reading {
        item: Item {
            key,
            tag: Tag::read(nothing).unwrap(),
            value: Value::read(nothing).unwrap(),
        },
        stamp: Stamp::ZERO,
    }
}

/// The slots of a read's keys in the order given, up to `MAX_KEYS`, which stay where they lie. Contracts see the list.
#[derive(Drop)]
struct KeyProgressList {
    slots: [KeyProgress; ReadProgress::MAX_LEN],
    len: usize,
}

impl Model for KeyProgressList {
    ghost use Rattle.std.specs.Prelude.{◌≡◌, ◌≤◌, List, length, take};
    ghost use Rattle.stamps.specs.Limits.{max_keys};
    ghost use Rattle.get_all.specs.declared.read_progress.KeyProgress.{KeyProgress};

    ghost Value = { List KeyProgress };

    ghost view = { λ l. take l.len l.slots };

    ghost invariant = { λ l. (l.len ≤ max_keys) × (length l.slots ≡ max_keys) };
}

impl KeyProgressList {
    ghost use Rattle.std.specs.Prelude.{[]};

    /// No slots. The key lies in the unused places.
    fn empty(filler: Key) -> KeyProgressList
        ensures { result ≡ [] }
    {
        KeyProgressList {
            slots: array::from_fn(|_| KeyProgress::new(filler)),
            len: 0,
        }
    }

    fn as_slice(&self) -> &[KeyProgress]
        ensures value { result.now ≡ self.now }
        ensures few { length result.now ≤ max_keys }
    {
        &self.slots[..self.len]
    }

    /// Puts in its place those of these keys, of which nothing was shown.
    fn reset(&mut self, keys: &[Key])
        requires { length keys.now ≤ max_keys }
        ensures { self.new ≡ map slot_for keys.now }
    {
        reset_first(&mut self.slots, keys);
        self.len = keys.len();
    }

    /// Has the slot at this place take what round one showed of its key.
    fn put_first(&mut self, at: usize, shown: Option<&Record>)
        requires { at < length self.old }
        ensures { (slot : KeyProgress) → slot ≡ slice_index_or self.old at slot
            → self.new
            ≡ slice_set self.old at (record slot { first = Some (option_copied shown.entry) }) }
    {
        self.slots[..self.len][at].put_first(shown);
    }

    /// Whether round one showed a later transaction than the one that it showed of this slot's key, which wrote the key.
    fn is_late(&self, slot: &KeyProgress) -> bool
        ensures { result ≡ is_late_by self.now slot.now }
    {
        let stamp = slot.first_stamp();
        outdate(self.as_slice(), &slot.key, stamp)
    }

    /// Whether some key is late. One whose stamp is the greatest that was shown never is.
    fn are_late(&self) -> bool
        ensures { result ≡ list_any (is_late_by self.now) self.now }
    {
        self.are_late_below(newest(self.as_slice()))
    }

    /// Whether some key is late, of those whose stamp is below this one.
    fn are_late_below(&self, newest: Stamp) -> bool
        ensures { result ≡ list_any (λ slot. nat_lt (stamp_seen slot.first) newest
            && is_late_by self.now slot) self.now }
    {
        self.as_slice()
            .iter()
            .any(|slot| slot.first_stamp() < newest && self.is_late(slot))
    }

    /// Whether it is known that no key is late: they are looked through once all are shown.
    fn are_current(&self, are_shown: bool) -> bool
        ensures { result ≡ true → list_any (is_late_by self.now) self.now ≡ false }
    {
        are_shown && !self.are_late()
    }

    /// Has each slot take what round two showed of the key.
    fn take_second(&mut self, key: &Key, version: &Record)
        ensures { self.new ≡ map (with_second key.now version.now) self.old }
    {
        take_second(&mut self.slots[..self.len], key, version);
    }
}

/// The keys of a read in the order given, up to `MAX_KEYS`.
#[derive(Drop)]
pub(crate) struct ReadProgress {
    slots: KeyProgressList,
    /// Of how many keys round one showed nothing.
    unshown: usize,
    /// It is known that no key is late.
    is_current: bool,
}

impl Model for ReadProgress {
    ghost use Rattle.std.specs.Prelude.{◌≡◌, ◌<◌, ◌≤◌, List, true, false, length};
    ghost use Rattle.std.specs.List.{list_any};
    ghost use Rattle.stamps.specs.Limits.{max_keys};
    ghost use Rattle.get_all.specs.declared.read_progress.KeyProgress.{KeyProgress};

    ghost Value = { List KeyProgress };

    ghost use Rattle.get_all.specs.ReadProgress.{is_late_by, AreApart, count_unshown};

    ghost view = { λ s. s.slots };

    ghost invariant = { λ s. (0 < length s.slots) × (length s.slots ≤ max_keys) × (s.is_current ≡ true → list_any (is_late_by s.slots) s.slots ≡ false) × AreApart s.slots × (s.unshown ≡ count_unshown s.slots) };
}

impl ReadProgress {
    pub(crate) const MAX_LEN: usize = limits::MAX_KEYS;

    /// The slots of these keys, of which nothing was shown.
    pub(crate) fn of(keys: &[Key]) -> ReadProgress
        requires { IsTransactionKeys keys.now }
        ensures { result ≡ map slot_for keys.now }
    {
        let mut slots = KeyProgressList::empty(keys[0]);
        slots.reset(keys);
        ReadProgress {
            slots,
            unshown: keys.len(),
            is_current: false,
        }
    }

    /// Puts in its place those of these keys, of which nothing was shown.
    pub(crate) fn reset(&mut self, keys: &[Key])
        requires { IsTransactionKeys keys.now }
        ensures { self.new ≡ map slot_for keys.now }
    {
        self.is_current = false;
        self.slots.reset(keys);
        self.unshown = keys.len();
    }

    fn as_slice(&self) -> &[KeyProgress]
        ensures slots { result.now ≡ self.now }
        ensures some { 0 < length self.now }
        ensures few { length self.now ≤ max_keys }
    {
        self.slots.as_slice()
    }

    /// Whether the key of the slot at this place is late.
    fn is_late_at(&self, i: usize) -> bool
        requires { i < length self.now }
        ensures { (slot : KeyProgress) → slot ≡ slice_index_or self.now i slot
            → result ≡ is_late_by self.now slot }
    {
        if self.is_current {
            return false;
        }
        self.slots.is_late(&self.as_slice()[i])
    }

    /// The place, from 0, of the slot of which a first-round reply of this key is the first.
    pub(crate) fn first_place(&self, key: &Key) -> Option<usize>
        ensures { result ≡ position (awaits_first key.now) self.now }
    {
        self.as_slice()
            .iter()
            .position(|slot| slot.awaits_first(key))
    }

    /// Whether round one is complete.
    pub(crate) fn are_shown(&self) -> bool
        ensures { result ≡ list_all has_first self.now }
    {
        self.unshown == 0
    }

    /// The greatest stamp that round one showed of a transaction that wrote the key.
    pub(crate) fn needed(&self, key: &Key) -> Stamp
        ensures { result ≡ needed_by self.now key.now }
    {
        needed_above(self.as_slice(), key, Stamp::ZERO)
    }

    /// Whether a second-round reply of this key is the first, and was asked for.
    pub(crate) fn await_second(&self, key: &Key) -> bool
        ensures { result ≡ list_any (awaits_second self.now key.now) self.now }
    {
        for (i, slot) in self.as_slice().iter().enumerate() {
            if slot.key == *key && self.is_late_at(i) && slot.second.is_none() {
                return true;
            }
        }
        false
    }

    /// Whether each late key has its version.
    pub(crate) fn are_answered(&self) -> bool
        ensures { result ≡ list_all (is_answered_by self.now) self.now }
    {
        for (i, slot) in self.as_slice().iter().enumerate() {
            if self.is_late_at(i) && slot.second.is_none() {
                return false;
            }
        }
        true
    }

    /// Whether round one showed a record of this stamp with these writes.
    pub(crate) fn show(&self, stamp: Stamp, writes: &WriteSet) -> bool
        ensures { result ≡ list_any (λ slot. first_shows stamp writes.now slot.first) self.now }
    {
        self.as_slice().iter().any(|slot| slot.shows(stamp, writes))
    }

    /// Takes what round one showed of the key, whose slot, at this place, waits for it. Says whether round one is complete
    /// then.
    #[inline(always)]
    pub(crate) fn mark_first(&mut self, at: usize, key: &Key, shown: Option<&Record>) -> bool
        requires { position (awaits_first key.now) self.old ≡ Some at }
        ensures slots { self.new ≡ map (with_first key.now (option_copied shown.entry)) self.old }
        ensures shown { result ≡ list_all has_first self.new }
    {
        self.slots.put_first(at, shown);
        self.unshown -= 1;
        let are_shown = self.unshown == 0;
        self.is_current = self.slots.are_current(are_shown);
        are_shown
    }

    /// Takes what round two showed of the key.
    pub(crate) fn mark_second(&mut self, key: &Key, version: &Record)
        ensures { self.new ≡ map (with_second key.now version.now) self.old }
    {
        self.slots.take_second(key, version);
    }

    /// The late keys, each with the stamp that is needed of it.
    pub(crate) fn late_keys(&self) -> LateKeys
        ensures { result ≡ late_by self.now }
    {
        let slots = self.as_slice();
        let mut late = LateKeys::empty(Late {
            key: slots[0].key,
            stamp: Stamp::ZERO,
        });
        for (i, slot) in slots.iter().enumerate() {
            if self.is_late_at(i) {
                late.push(Late {
                    key: slot.key,
                    stamp: self.needed(&slot.key),
                });
            }
        }
        late
    }

    /// Puts what is read, in the order given, into the caller's buffer.
    pub(crate) fn readings_into(&self, place: &mut Readings)
        ensures { place.new ≡ readings_by self.now }
    {
        let slots = self.as_slice();
        place.truncate(slots.len());
        for (i, slot) in slots.iter().enumerate() {
            slot.read_into(self.is_late_at(i), i, place);
        }
    }
}

/// Has the first slots be those of these keys, of which nothing was shown.
fn reset_first(slots: &mut [KeyProgress], keys: &[Key])
    requires { length keys.now ≤ length slots.old }
    ensures slots { take (length keys.now) slots.new ≡ map slot_for keys.now }
    ensures len { length slots.new ≡ length slots.old }
{
    for (i, key) in keys.iter().enumerate() {
        slots[i].reset(key);
    }
}

/// Whether the version is of a later transaction than that of this stamp, which wrote the key. The write set is looked through
/// only where it is later.
fn is_later(version: &Record, key: &Key, stamp: Stamp) -> bool
    ensures { result ≡ nat_lt stamp (stamp_for key.now (Some (Some version.now))) }
{
    stamp < version.stamp && version.writes.contains(key)
}

/// Whether round one showed a later transaction than that of this stamp, which wrote the key.
fn outdate(slots: &[KeyProgress], key: &Key, stamp: Stamp) -> bool
    ensures { result
        ≡ list_any (λ slot. nat_lt stamp (stamp_for key.now slot.first)) slots.now }
{
    slots.iter().any(|slot| slot.outdates(key, stamp))
}

/// The greatest stamp that round one showed.
fn newest(slots: &[KeyProgress]) -> Stamp
    ensures { result ≡ greatest_by (λ slot. stamp_seen slot.first) slots.now }
{
    let mut newest = Stamp::ZERO;
    for slot in slots {
        let stamp = slot.first_stamp();
        if newest < stamp {
            newest = stamp;
        }
    }
    newest
}

/// Has each slot take what round two showed of the key.
fn take_second(slots: &mut [KeyProgress], key: &Key, version: &Record)
    ensures { slots.new ≡ map (with_second key.now version.now) slots.old }
{
    for slot in slots.iter_mut() {
        slot.take_second(key, version);
    }
}

/// The greatest stamp that was shown in round one of a transaction that wrote the key, or this stamp where that is greater.
fn needed_above(slots: &[KeyProgress], key: &Key, stamp: Stamp) -> Stamp
    ensures { result ≡ max stamp (needed_by slots.now key.now) }
{
    let mut needed = stamp;
    for slot in slots {
        needed = slot.raise(key, needed);
    }
    needed
}

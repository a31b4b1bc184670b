//! Items, and the records that transactions make of them.
ghost use Rattle.std.specs.Prelude.{◌≡◌, ◌<◌, ◌↔◌, IsSome, IfSome, IsTrue, Contains};
ghost use Rattle.stamps.specs.Record.{IsRecord};

use crate::{Key, Stamp, Tag, Value, WriteSet};
use std::marker::Model;

/// What a client writes to one key. Any three parts are one.
#[derive(Clone, Copy, Debug, PartialEq, Eq)]
pub struct Item {
    /// The name of the item.
    pub key: Key,
    /// The tag under which the item is found, or the empty one.
    pub tag: Tag,
    /// What the item holds.
    pub value: Value,
}

/// A version of an item: what was written, by which transaction, and which keys this transaction wrote, as RAMP-Fast
/// keeps it (Bailis and others, "Scalable Atomic Visibility with RAMP Transactions"). The stamp is never `0.0`, and the
/// key is one of the write set.
#[derive(Clone, Copy, Debug)]
pub struct Record {
    /// The name of the item.
    pub key: Key,
    /// The tag under which the item is found, or the empty one.
    pub tag: Tag,
    /// What the item holds.
    pub value: Value,
    /// The transaction's stamp.
    pub stamp: Stamp,
    /// All the keys that the transaction wrote, this one among them.
    pub writes: WriteSet,
}

impl Model for Record {
    ghost use Rattle.stamps.specs.Record.{Record as Fields, IsRecord};

    ghost Value = { Fields };

    ghost view = { λ r. record { key = r.key; tag = r.tag; value = r.value; stamp = r.stamp; writes = r.writes } };

    ghost invariant = { λ r. IsRecord (record { key = r.key; tag = r.tag; value = r.value; stamp = r.stamp; writes = r.writes }) };

    ghost inverse = { λ r. record { key = r.key; tag = r.tag; value = r.value; stamp = r.stamp; writes = r.writes } };
}

impl Record {
    /// The record of these parts. `None` where the stamp is `0.0`, or the key is not in the write set.
    pub fn new(key: Key, tag: Tag, value: Value, stamp: Stamp, writes: WriteSet) -> Option<Record>
        ensures exact { IsSome result ↔ (0 < stamp) × Contains writes key }
        ensures value { IfSome result (λ r. r
            ≡ record { key = key; tag = tag; value = value; stamp = stamp; writes = writes }) }
    {
        if stamp == Stamp::ZERO || !writes.contains(&key) {
            return None;
        }
        Some(Record {
            key,
            tag,
            value,
            stamp,
            writes,
        })
    }
}

impl Record {
    /// The record of these parts, which are known to make one. It checks nothing.
    #[inline(always)]
    pub fn of_stored(key: Key, tag: Tag, value: Value, stamp: Stamp, writes: WriteSet) -> Record
        requires { IsRecord
            (record { key = key; tag = tag; value = value; stamp = stamp; writes = writes }) }
        ensures { result
            ≡ record { key = key; tag = tag; value = value; stamp = stamp; writes = writes } }
    {
        Record {
            key,
            tag,
            value,
            stamp,
            writes,
        }
    }
}

impl Record {
    /// Makes of it a copy of another one, part by part in place: of value and write set it writes no more than either one needs.
    pub fn copy_from(&mut self, other: &Record)
        ensures { self.new ≡ other.now }
    {
        self.key = other.key;
        self.tag = other.tag;
        self.value.copy_from(&other.value);
        self.stamp = other.stamp;
        self.writes.copy_from(&other.writes);
    }
}

impl Record {
    ghost use Rattle.stamps.specs.Record.{record_eq};

    /// Whether all parts are the same.
    #[tactic(auto, unfolding(crate::specs::Record::record_eq))]
    fn has_content_of(&self, other: &Record) -> bool
        ensures { result ≡ record_eq self.now other.now }
    {
        self.key == other.key
            && self.tag == other.tag
            && self.value == other.value
            && self.stamp == other.stamp
            && self.writes == other.writes
    }
}

impl PartialEq for Record {
    ghost use Rattle.stamps.specs.Record.{record_eq};
    ghost use Rattle.stamps.specs.RecordLaws.{record_eq-Decides};
    ghost use Rattle.stamps.specs.Equality.{partial_equivalence};

    ghost eq = { record_eq };

    ghost laws = { partial_equivalence record_eq-Decides };

    #[tactic(auto, using(crate::specs::RecordLaws::same_record))]
    fn eq(&self, other: &Record) -> bool
        ensures test { result ≡ record_eq self.now other.now }
        ensures same { IsTrue result ↔ (self.now ≡ other.now) }
    {
        self.has_content_of(other)
    }
}

impl Eq for Record {
    ghost use Rattle.stamps.specs.RecordLaws.{record_eq-Decides};
    ghost use Rattle.stamps.specs.Equality.{equivalence};

    ghost laws = { equivalence record_eq-Decides };
}

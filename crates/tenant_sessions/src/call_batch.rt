//! The parts of transactions: the calls that are sent at once.
ghost use Rattle.std.specs.Prelude.{◌≡◌, ◌<◌, ◌≤◌, ◌↔◌, true, false, length, map, slice_get, IsTrue};
ghost use Rattle.std.specs.Option.{option_map_or};
ghost use Rattle.stamps.specs.Bounds.{IsParts};
ghost use Rattle.stamps.specs.Limits.{max_keys};
ghost use Rattle.stamps.specs.Key.{IsTransactionKeys};
ghost use Rattle.tenant_sessions.specs.Asking.{PutsCall};
ghost use Rattle.plain_store.specs.Writing.{keys_written, record_for};
ghost use Rattle.tenant_sessions.specs.Parts.{Prepares, Commits, First, Second, Founds, reads_first, reads_second, is_commit_message, searches};

use crate::write_records::WriteRecords;
use get_all::{Late, LateKeys};
use lists::SmallList;
use plain_store::{Call, Message};
use put_all::Partitions;
use stamps::{Client, Item, Key, Stamp, Tag, WriteSet};
use std::marker::Model;

/// The keys of a read in their order, up to `MAX_KEYS`.
pub(crate) type ReadKeys = SmallList<Key, { WriteSet::MAX_LEN }>;

/// Which calls a part has.
#[derive(Clone, Copy)]
pub(crate) enum BatchKind {
    /// A PREPARE of each record, at the home of its key.
    Preparing,
    /// A COMMIT of the stamp at each of the partitions.
    Committing,
    /// A GET of the latest version of each key.
    ReadingFirst,
    /// A GET of the version of its stamp of each late key.
    ReadingSecond,
    /// A search by the tag at each partition.
    Searching,
}

/// The calls that a transaction sends at once. It has a place for what each kind of them needs, so that one part begins where
/// the one before it was: that of a write alone has some 2,900 bytes.
#[derive(Drop)]
pub(crate) struct CallBatch {
    kind: BatchKind,
    versions: WriteRecords,
    /// The stamp of the COMMITs.
    stamp: Stamp,
    partitions: Partitions,
    keys: ReadKeys,
    late: LateKeys,
    tag: Tag,
}

impl Model for CallBatch {
    ghost use Rattle.tenant_sessions.specs.Parts.{BatchView, batch_of};

    ghost Value = { BatchView };

    ghost view = { λ p. batch_of p.kind p.versions p.stamp p.partitions p.keys p.late p.tag };
}

/// A message of this client that awaits a call.
pub(crate) fn unwritten(client: Client) -> Message {
    Message {
        client,
        ticket: 0,
        partition: 0,
        call: Call::Commit(Stamp::ZERO),
        reply: None,
    }
}

/// Has the place of a message await a call: it has no reply. It stands alone, so that what makes a call has no room for a reply.
pub(crate) fn forget_reply(place: &mut Message)
    ensures { place.new ≡ record place.old { reply = None } }
{
    place.reply = None;
}

/// Puts a COMMIT of this stamp into the caller's buffer. One that lies there is written over where it lies: a call has some
/// 750 bytes.
fn put_commit(stamp: Stamp, place: &mut Call)
    ensures { place.new ≡ Call.Commit stamp }
{
    if let Call::Commit(old) = place {
        *old = stamp;
        return;
    }
    begin_commit(stamp, place);
}

/// Puts a GET of this key into the caller's buffer, as `put_commit` does.
fn put_get(key: &Key, stamp: Option<Stamp>, place: &mut Call)
    ensures { place.new ≡ Call.Get key.now stamp }
{
    if let Call::Get(old_key, old_stamp) = place {
        *old_key = *key;
        *old_stamp = stamp;
        return;
    }
    begin_get(key, stamp, place);
}

/// Puts a COMMIT over another call. It stands alone, so that what is written over its like has no room for a call; and so do
/// the two below.
#[cold]
#[inline(never)]
fn begin_commit(stamp: Stamp, place: &mut Call)
    ensures { place.new ≡ Call.Commit stamp }
{
    *place = Call::Commit(stamp);
}

/// Puts a GET over another call.
#[cold]
#[inline(never)]
fn begin_get(key: &Key, stamp: Option<Stamp>, place: &mut Call)
    ensures { place.new ≡ Call.Get key.now stamp }
{
    *place = Call::Get(*key, stamp);
}

/// Puts a search over another call.
#[cold]
#[inline(never)]
fn begin_found(tag: Tag, place: &mut Call)
    ensures { place.new ≡ Call.Found tag }
{
    *place = Call::Found(tag);
}

/// Whether the call is a GET of the latest version of this key.
fn reads_first(key: &Key, call: &Call) -> bool
    ensures { result ≡ reads_first key.now call.now }
{
    match call {
        Call::Get(other, None) => key == other,
        _ => false,
    }
}

/// Whether the call is a GET of some version of this key by its stamp.
fn reads_second(key: &Key, call: &Call) -> bool
    ensures { result ≡ reads_second key.now call.now }
{
    match call {
        Call::Get(other, Some(_)) => key == other,
        _ => false,
    }
}

/// Whether the message's call is a COMMIT at this partition.
fn commits(partition: u32, message: &Message) -> bool
    ensures { result ≡ is_commit_message partition message.now }
{
    match &message.call {
        Call::Commit(_) => partition == message.partition,
        _ => false,
    }
}

/// Whether the message's call is a search at this partition.
fn searches(partition: u32, message: &Message) -> bool
    ensures { result ≡ searches partition message.now }
{
    match &message.call {
        Call::Found(_) => partition == message.partition,
        _ => false,
    }
}

/// Whether there is a key at this place, from 0, and the call is a GET of its latest version.
fn is_first_at(keys: &[Key], place: usize, call: &Call) -> bool
    ensures { result
        ≡ option_map_or (λ key. reads_first key call.now) (slice_get keys.now place) false }
{
    match keys.get(place) {
        Some(key) => reads_first(key, call),
        None => false,
    }
}

/// Whether there is a late key at this place, from 0, and the call is a GET of some version of it by its stamp.
fn is_second_at(late: &[Late], place: usize, call: &Call) -> bool
    ensures { result
        ≡ option_map_or (λ own. reads_second own.key call.now) (slice_get late.now place) false }
{
    match late.get(place) {
        Some(own) => reads_second(&own.key, call),
        None => false,
    }
}

/// Whether there is a partition at this place, from 0, and the message's call is a COMMIT at it.
fn is_commit_at(partitions: &[u8], place: usize, message: &Message) -> bool
    ensures { result
        ≡ option_map_or (λ partition. is_commit_message partition message.now)
        (slice_get partitions.now place) false }
{
    match partitions.get(place) {
        Some(partition) => commits(u32::from(*partition), message),
        None => false,
    }
}

impl CallBatch {
    ghost use Rattle.std.specs.Prelude.{false, Some, None};
    ghost use Rattle.tenant_sessions.specs.Parts.{batch_calls, is_answered_at};

    /// Searches by this tag.
    pub(crate) fn none(tag: Tag) -> CallBatch {
        let text = b"-";
        let filler = Key::read(text).unwrap();
        let stamp = Stamp::ZERO;
        CallBatch {
            kind: BatchKind::Searching,
            versions: WriteRecords::none(filler),
            stamp,
            partitions: Partitions::none(),
            keys: ReadKeys::empty(filler),
            late: LateKeys::empty(Late { key: filler, stamp }),
            tag,
        }
    }

    /// Makes of it the PREPAREs of these items under this stamp, and says whether it could: a write may have them.
    pub(crate) fn prepare(&mut self, stamp: Stamp, items: &[Item]) -> bool
        requires { 0 < stamp }
        ensures exact { IsTrue result ↔ IsTransactionKeys (keys_written items.now) }
        ensures made { result ≡ true
            → self.new ≡ Prepares (map (record_for stamp items.now) items.now) }
    {
        self.kind = BatchKind::Preparing;
        self.versions.reset(stamp, items)
    }

    /// Makes of it the COMMITs of this stamp at these partitions.
    pub(crate) fn commit(&mut self, stamp: Stamp, partitions: Partitions)
        ensures { self.new ≡ Commits stamp partitions }
    {
        self.stamp = stamp;
        self.partitions = partitions;
        self.kind = BatchKind::Committing;
    }

    /// Makes of it the GETs of the latest versions of these keys, up to `MAX_KEYS`.
    pub(crate) fn read(&mut self, keys: &[Key])
        requires { length keys.now ≤ max_keys }
        ensures { self.new ≡ First keys.now }
    {
        self.keys.clear();
        self.keys.extend_from_slice(keys);
        self.kind = BatchKind::ReadingFirst;
    }

    /// Makes of it the GETs of these late versions.
    pub(crate) fn read_late(&mut self, late: LateKeys)
        ensures { self.new ≡ Second late }
    {
        self.late = late;
        self.kind = BatchKind::ReadingSecond;
    }

    /// Makes of it the searches by this tag.
    pub(crate) fn search(&mut self, tag: Tag)
        ensures { self.new ≡ Founds tag }
    {
        self.tag = tag;
        self.kind = BatchKind::Searching;
    }

    /// How many calls there are, in a store of so many partitions.
    pub(crate) fn len(&self, parts: u32) -> usize
        ensures { result ≡ length (batch_calls parts self.now) }
    {
        match self.kind {
            BatchKind::Preparing => self.versions.len(),
            BatchKind::Committing => self.partitions.as_slice().len(),
            BatchKind::ReadingFirst => self.keys.as_slice().len(),
            BatchKind::ReadingSecond => self.late.as_slice().len(),
            BatchKind::Searching => parts as usize,
        }
    }

    /// Writes the call at this place, from 0, and its partition into the message, and says whether there is one. Where there
    /// is none, the message is as it was. A call has some hundreds of bytes, so it is written where it stays.
    pub(crate) fn call_into(&self, parts: u32, place: usize, message: &mut Message) -> bool
        requires { IsParts parts }
        ensures { PutsCall (batch_calls parts self.now) place result message.old message.new }
    {
        match self.kind {
            BatchKind::Preparing => self.versions.call_into(parts, place, message),
            BatchKind::Committing => {
                let Some(partition) = self.partitions.as_slice().get(place) else {
                    return false;
                };
                message.partition = u32::from(*partition);
                put_commit(self.stamp, &mut message.call);
                true
            }
            BatchKind::ReadingFirst => {
                let Some(key) = self.keys.as_slice().get(place) else {
                    return false;
                };
                message.partition = stamps::home(key, parts);
                put_get(key, None, &mut message.call);
                true
            }
            BatchKind::ReadingSecond => {
                let Some(late) = self.late.as_slice().get(place) else {
                    return false;
                };
                message.partition = stamps::home(&late.key, parts);
                put_get(&late.key, Some(late.stamp), &mut message.call);
                true
            }
            BatchKind::Searching => CallBatch::found_into(self.tag, parts, place, message),
        }
    }

    /// Whether a reply to the message's call takes the place of one to the call at this place. This compares keys and
    /// partitions: a call has some hundreds of bytes.
    #[inline(always)]
    pub(crate) fn is_answered_at(&self, parts: u32, place: usize, message: &Message) -> bool
        requires { IsParts parts }
        ensures { result ≡ is_answered_at (batch_calls parts self.now) message.now place }
    {
        match self.kind {
            BatchKind::Preparing => self.versions.is_prepared_at(place, &message.call),
            BatchKind::Committing => is_commit_at(self.partitions.as_slice(), place, message),
            BatchKind::ReadingFirst => is_first_at(self.keys.as_slice(), place, &message.call),
            BatchKind::ReadingSecond => is_second_at(self.late.as_slice(), place, &message.call),
            BatchKind::Searching => place < parts as usize && searches(place as u32, message),
        }
    }

    /// Writes the search by this tag at the partition of this number into the message, if there is such a partition.
    fn found_into(tag: Tag, parts: u32, partition: usize, message: &mut Message) -> bool
        requires { IsParts parts }
        ensures { PutsCall
            (batch_calls parts (Founds tag)) partition result message.old message.new }
    {
        if partition >= parts as usize {
            return false;
        }
        message.partition = partition as u32;
        begin_found(tag, &mut message.call);
        true
    }
}

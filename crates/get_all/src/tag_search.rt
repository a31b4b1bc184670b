//! Searches over all partitions.
ghost use Rattle.std.specs.Prelude.{◌≡◌, ◌+◌, ◌≤◌, ◌==◌, [], length};
ghost use Rattle.std.specs.List.{list_all};
ghost use Rattle.stamps.specs.Bounds.{IsParts};
ghost use Rattle.stamps.specs.Key.{home_of};
ghost use Rattle.stamps.specs.Limits.{max_found};
ghost use Rattle.plain_store.specs.Finding.{carrying};
ghost use Rattle.plain_store.specs.Words.{is_tagged};

use crate::found_keys::{FoundKeys, filler};
use crate::told::AskedList;
use crate::{LateKeys, ReadMove, Reader};
use plain_store::{Found, ReadReply, Reading, Readings};
use stamps::{Key, Stamp, Tag, WriteSet, limits};

/// What a search does when a reply comes.
#[derive(Debug, Drop)]
pub enum FindMove {
    /// The reply was taken, and more are needed.
    Wait,
    /// Each partition told what it found: these keys are read, in byte order.
    Begin(FoundKeys),
    /// Round one of the read is complete, and these versions are needed.
    Ask(LateKeys),
    /// What is found, in byte order of the keys.
    List(Readings),
    /// A version that was asked for lies below this floor of its key.
    Restart(Key, Stamp),
    /// More than `MAX_FOUND` items were found.
    TooMany,
    /// The reply was inconsistent.
    Torn,
    /// Nobody waited for the reply.
    Ignored,
}

/// A search over all partitions that has no reader of its own: each partition reports which items stand under a tag, and these
/// are then read by the `Reader` that each call borrows, which is the same one until the search has ended. Of each partition the
/// first reply counts.
#[derive(Drop)]
pub struct TagSearch {
    tag: Tag,
    parts: u32,
    asked: AskedList,
    /// How many items were found so far, or one past `MAX_FOUND` where they are more.
    total: u32,
    /// Their keys, as long as they are no more than `MAX_FOUND`.
    keys: FoundKeys,
    /// Whether what was found is read.
    reads: bool,
    has_ended: bool,
    ghost parts_in_range: { IsParts parts },
    ghost total_in_range: { total ≤ max_found + 1 },
    ghost keys_counted: { length keys ≤ total },
}

/// Whether each key belongs to the partition.
fn are_at_home(keys: &[Key], partition: u32, parts: u32) -> bool
    requires { IsParts parts }
    ensures { result ≡ list_all (λ key. home_of key parts == partition) keys.now }
{
    keys.iter().all(|key| stamps::home(key, parts) == partition)
}

/// Whether an item of this tag is one that is looked for; the empty tag is no tag.
fn is_tagged(tag: &Tag, own: &Tag) -> bool
    ensures { result ≡ is_tagged tag.now own.now }
{
    !tag.as_bytes().is_empty() && own == tag
}

/// The items of this tag among those that were read.
fn carrying(tag: &Tag, read: &Readings) -> Readings
    ensures { result ≡ carrying tag.now read.now }
{
    let read = read.as_slice();
    let Some(first) = read.first() else {
        return no_readings();
    };
    let mut items = [*first; Readings::MAX_LEN];
    let mut len = 0;
    for reading in read {
        if is_tagged(tag, &reading.item.tag) {
            items[len] = *reading;
            len += 1;
        }
    }
    Readings::of(&items[..len]).unwrap()
}

/// Nothing that was read.
fn no_readings() -> Readings
    ensures { result ≡ [] }
{
    let none: [Reading; 0] = [];
    Readings::of(&none).unwrap()
}

impl TagSearch {
    ghost use Rattle.std.specs.Prelude.{◌≡◌, ◌+◌, ◌*◌, ◌<◌, ◌≤◌, min, true, false, ◌||◌, List, [], ◌++◌, map, length, IsTrue};
    ghost use Rattle.std.specs.List.{list_all};
    ghost use Rattle.stamps.specs.Key.{IsTransactionKeys, sorted_keys};
    ghost use Rattle.stamps.specs.Limits.{max_found};
    ghost use Rattle.get_all.specs.Reader.{is_last, is_no_read, StandsFor as StandsForRead};
    ghost use Rattle.get_all.specs.declared.reader.Reader.{Reader as Reads};
    ghost use Rattle.stamps.specs.Bounds.{IsParts};
    ghost use Rattle.plain_store.specs.FoundKeys.{IsFound};
    ghost use Rattle.plain_store.specs.declared.message.Message.{Message};
    ghost use Rattle.plain_store.specs.Words.{Setup};
    ghost use Rattle.get_all.specs.AskedPartition.{with_told};
    ghost use Rattle.get_all.specs.TagSearch.{StandsFor, TakesFound, FindsInRound, listed, calls_left, calls_asked};

    /// The most items that a search lists.
    const MAX_ITEMS: u32 = limits::MAX_FOUND as u32;

    /// A search of the items of this tag in a store of so many partitions (1 to `MAX_PARTS`), which took no reply yet.
    pub fn new(tag: Tag, parts: u32) -> TagSearch
        requires { IsParts parts }
        ensures { (setup : Setup) (reader : Reads) → setup.partitions ≡ parts
            → StandsFor setup tag result reader [] }
    {
        TagSearch {
            tag,
            parts,
            asked: AskedList::new(parts),
            total: 0,
            keys: FoundKeys::empty(filler()),
            reads: false,
            has_ended: false,
        }
    }

    /// Makes of it a search of the items of this tag in a store of so many partitions (1 to `MAX_PARTS`), which took no reply yet.
    pub fn reset(&mut self, tag: Tag, parts: u32)
        requires { IsParts parts }
        ensures { (setup : Setup) (reader : Reads) → setup.partitions ≡ parts
            → StandsFor setup tag self.new reader [] }
    {
        self.tag = tag;
        self.parts = parts;
        self.asked.reset(parts);
        self.total = 0;
        self.keys.clear();
        self.reads = false;
        self.has_ended = false;
    }

    /// Takes what this partition found. Ignored where there is no such partition, where it told before, and
    /// once the search has ended. A key that is at home elsewhere tears it at once.
    pub fn take_found(&mut self, reader: &mut Reader, partition: u32, found: &Found) -> FindMove
        ensures { TakesFound partition found.now
            self.old reader.old result self.new reader.new }
    {
        if self.has_ended || !self.asked.await_told(partition) {
            return FindMove::Ignored;
        }
        if !are_at_home(found.keys(), partition, self.parts) {
            self.end();
            return FindMove::Torn;
        }
        self.add(partition, found);
        if !self.asked.have_told() {
            return FindMove::Wait;
        }
        self.begin(reader)
    }

    /// Takes the reply to the GET of this key in round 1 or 2, as a `Reader` does, and lists of what is read
    /// the items of the tag. Ignored before the read has begun, too.
    pub fn take(&mut self, reader: &mut Reader, key: &Key, round: u8, reply: &ReadReply) -> FindMove
        ensures { FindsInRound key.now round reply.now
            self.old reader.old result self.new reader.new }
    {
        if self.has_ended {
            return FindMove::Ignored;
        }
        if !self.reads {
            return FindMove::Ignored;
        }
        let answer = reader.take(key, round, reply);
        self.tell(answer)
    }

    /// Adds what this partition found.
    fn add(&mut self, partition: u32, found: &Found)
        ensures asked { self.new.asked ≡ map (with_told partition) self.old.asked }
        ensures total { self.new.total ≡ min (self.old.total + found.now.count) (max_found + 1) }
        ensures keys { self.new.total ≤ max_found
            → self.new.keys ≡ self.old.keys ++ found.now.keys }
        ensures same { self.new ≡ record self.old {
          asked = self.new.asked;
          total = self.new.total;
          keys = self.new.keys;
          total_in_range = self.new.total_in_range;
          keys_counted = self.new.keys_counted;
        } }
        ensures valid { IsFound found.now }
    {
        let keys = found.keys();
        self.asked.mark(partition);
        self.total = (self.total + found.count().min(TagSearch::MAX_ITEMS + 1)).min(
            TagSearch::MAX_ITEMS + 1,
        );
        if self.total <= TagSearch::MAX_ITEMS {
            self.keys.extend_from_slice(keys);
        }
    }

    /// Begins to read what was found, or ends where there is nothing or too much.
    fn begin(&mut self, reader: &mut Reader) -> FindMove
        ensures too_many { max_found < self.old.total
            → (result ≡ FindMove.TooMany) × (self.new ≡ record self.old { has_ended = true }) }
        ensures nothing { self.old.total ≤ max_found → (IsTransactionKeys self.old.keys → ⊥)
            → (result ≡ FindMove.List []) × (self.new ≡ record self.old { has_ended = true }) }
        ensures found { self.old.total ≤ max_found → IsTransactionKeys self.old.keys
            → (result ≡ FindMove.Begin (sorted_keys self.old.keys))
            × (self.new.tag ≡ self.old.tag) × (self.new.parts ≡ self.old.parts)
            × (self.new.asked ≡ self.old.asked) × (self.new.has_ended ≡ self.old.has_ended)
            × (self.new.reads ≡ true) × ((taken : List Message)
            → IsTrue (list_all is_no_read taken)
            → StandsForRead (sorted_keys self.old.keys) reader.new taken) }
        ensures few { list_all (λ asked. asked.has_told) self.old.asked ≡ true
            → calls_asked result + calls_left self.new reader.new ≤ 2 * max_found }
    {
        if self.total > TagSearch::MAX_ITEMS {
            self.end();
            return FindMove::TooMany;
        }
        let Some(keys) = WriteSet::of(self.keys.as_slice()) else {
            self.end();
            return FindMove::List(no_readings());
        };
        self.reads = reader.reset(keys.as_slice());
        let mut found = FoundKeys::empty(filler());
        found.extend_from_slice(keys.as_slice());
        FindMove::Begin(found)
    }

    /// Reports what the reader answered.
    fn tell(&mut self, answer: ReadMove) -> FindMove
        ensures answer { result ≡ listed self.old.tag answer }
        ensures ended { self.new
            ≡ record self.old { has_ended = self.old.has_ended || is_last answer } }
    {
        match answer {
            ReadMove::Wait => FindMove::Wait,
            ReadMove::Ask(late) => FindMove::Ask(late),
            ReadMove::Read(readings) => {
                self.end();
                FindMove::List(carrying(&self.tag, &readings))
            }
            ReadMove::Restart(key, floor) => {
                self.end();
                FindMove::Restart(key, floor)
            }
            ReadMove::Torn => {
                self.end();
                FindMove::Torn
            }
            ReadMove::Ignored => FindMove::Ignored,
        }
    }

    fn end(&mut self)
        ensures ended { self.new ≡ record self.old { has_ended = true } }
    {
        self.has_ended = true;
    }
}

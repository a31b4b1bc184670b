//! Finders.
use crate::{FindMove, Reader, TagSearch};
use plain_store::{Found, ReadReply};
use stamps::{Key, Tag};

/// The client's side of FIND: each partition reports which items stand under a tag, and these are then read as by
/// a `Reader`. Of each partition the first reply counts.
#[derive(Drop)]
pub struct Finder {
    search: TagSearch,
    /// The reader of what was found.
    reader: Reader,
}

impl Finder {
    ghost use Rattle.std.specs.Prelude.{◌≡◌, []};
    ghost use Rattle.stamps.specs.Bounds.{IsParts};
    ghost use Rattle.plain_store.specs.Words.{Setup};
    ghost use Rattle.get_all.specs.TagSearch.{TakesFound, FindsInRound};
    ghost use Rattle.get_all.specs.Finder.{StandsFor};

    /// A finder of the items of this tag in a store of so many partitions (1 to `MAX_PARTS`), which took no reply yet.
    pub fn new(tag: Tag, parts: u32) -> Finder
        requires { IsParts parts }
        ensures { (setup : Setup) → setup.partitions ≡ parts → StandsFor setup tag result [] }
    {
        Finder {
            search: TagSearch::new(tag, parts),
            reader: Reader::idle(),
        }
    }

    /// Takes what this partition found. Ignored where there is no such partition, where it told before, and
    /// once the search has ended. A key that is at home elsewhere tears it at once.
    pub fn take_found(&mut self, partition: u32, found: &Found) -> FindMove
        ensures { TakesFound partition found.now
            self.old.search self.old.reader result self.new.search self.new.reader }
    {
        self.search.take_found(&mut self.reader, partition, found)
    }

    /// Takes the reply to the GET of this key in round 1 or 2, as a `Reader` does, and lists of what is read
    /// the items of the tag. Ignored before the read has begun, too.
    pub fn take(&mut self, key: &Key, round: u8, reply: &ReadReply) -> FindMove
        ensures { FindsInRound key.now round reply.now
            self.old.search self.old.reader result self.new.search self.new.reader }
    {
        self.search.take(&mut self.reader, key, round, reply)
    }
}

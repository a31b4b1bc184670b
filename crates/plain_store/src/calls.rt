//! What a partition is asked, and what it replies.
use crate::Found;
use stamps::{Keep, Key, Record, Stamp, Tag};
use std::fmt;

/// What one tenant's cell at a partition is asked: the calls of RAMP-Fast (Bailis and others, "Scalable Atomic Visibility
/// with RAMP Transactions"), a search by tag, and a collection.
#[derive(Clone, Copy, PartialEq, Eq)]
pub enum Call {
    /// Keep this version.
    Prepare(Record),
    /// Commit the kept versions of this stamp.
    Commit(Stamp),
    /// Read the version of this stamp, or the latest committed one.
    Get(Key, Option<Stamp>),
    /// Tell the items that stand under this tag.
    Found(Tag),
    /// Give up what lies below the greatest committed stamps, of which so many stay.
    Collect(Keep),
    /// Drop the kept versions of this stamp that are not committed, and take no further one of it.
    Discard(Stamp),
}

/// What a cell replies to a PREPARE. Only `Prepared` may leave anything behind.
#[derive(Clone, Copy, Debug, PartialEq, Eq)]
pub enum PrepareReply {
    /// The version is kept, or was kept before, or is below its item's floor and need not be.
    Prepared,
    /// As many versions are kept as the cell has slots for.
    FullSlots,
    /// The item has no entry, and there are as many entries as the cell has room for.
    FullItems,
    /// Another record has this key and stamp.
    Clash,
    /// The version is not kept, and its client had versions of this or a later stamp dropped.
    Discarded,
}

/// What a cell replies to a GET.
#[derive(Clone, Copy, PartialEq, Eq)]
pub enum ReadReply {
    /// The version of the stamp that was asked for, committed or not, or the latest committed one.
    Version(Record),
    /// No version is committed, and no stamp was asked for.
    Initial,
    /// The stamp is below this floor: the version may have been dropped.
    Collected(Stamp),
    /// No version of the stamp is kept, and the stamp is not below the floor.
    Unknown,
}

/// What a cell replies to a DISCARD.
#[derive(Clone, Copy, Debug, PartialEq, Eq)]
pub enum DiscardReply {
    /// How many versions were dropped.
    Dropped(u32),
    /// The client has no mark, and there are as many marks as the cell has room for. Nothing was dropped.
    FullMarks,
}

/// What a cell replies.
#[derive(Clone, Copy, PartialEq, Eq)]
pub enum Reply {
    /// To a PREPARE.
    Prepare(PrepareReply),
    /// How many kept versions have the stamp.
    Committed(u32),
    /// To a GET.
    Get(ReadReply),
    /// What stands under the tag.
    Found(Found),
    /// How many versions were dropped.
    Freed(u32),
    /// To a DISCARD.
    Discard(DiscardReply),
}

// The form's name alone: what it holds has a text of its own.
impl fmt::Debug for Call {
    fn fmt<W: fmt::Write>(&self, f: &mut fmt::Formatter<W>) -> fmt::Result {
        f.write_str(match self {
            Call::Prepare(_) => "Prepare",
            Call::Commit(_) => "Commit",
            Call::Get(_, _) => "Get",
            Call::Found(_) => "Found",
            Call::Collect(_) => "Collect",
            Call::Discard(_) => "Discard",
        })
    }
}

// The form's name alone: what it holds has a text of its own.
impl fmt::Debug for ReadReply {
    fn fmt<W: fmt::Write>(&self, f: &mut fmt::Formatter<W>) -> fmt::Result {
        f.write_str(match self {
            ReadReply::Version(_) => "Version",
            ReadReply::Initial => "Initial",
            ReadReply::Collected(_) => "Collected",
            ReadReply::Unknown => "Unknown",
        })
    }
}

// The form's name alone: what it holds has a text of its own.
impl fmt::Debug for Reply {
    fn fmt<W: fmt::Write>(&self, f: &mut fmt::Formatter<W>) -> fmt::Result {
        f.write_str(match self {
            Reply::Prepare(_) => "Prepare",
            Reply::Committed(_) => "Committed",
            Reply::Get(_) => "Get",
            Reply::Found(_) => "Found",
            Reply::Freed(_) => "Freed",
            Reply::Discard(_) => "Discard",
        })
    }
}

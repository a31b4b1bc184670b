//! The replies of a cell to a PREPARE and to a GET.
ghost use Rattle.std.specs.Prelude.{◌≡◌, Some};
ghost use Rattle.prepare_commit.specs.GetReply.{copied};
ghost use Rattle.prepare_commit.specs.Layout.{insert_reply};

use plain_store::{DiscardReply, Found, PrepareReply, ReadReply, Reply};
use stamps::Stamp;
use version_chain::{Insert, StoredRecord};

/// What a read answers. The cell lends the record where it keeps it.
#[derive(Drop)]
pub enum GetReply<'a> {
    /// The version that was sought.
    Version(StoredRecord<'a>),
    /// No version of the item is committed.
    Initial,
    /// The stamp is below this one, the item's floor: the version may have been dropped.
    Collected(Stamp),
    /// No version of this stamp is kept.
    Unknown,
}

impl GetReply<'_> {
    ghost use Rattle.prepare_commit.specs.GetReply.{copied};

    /// The same reply, with a copy of the borrowed record.
    pub fn copied(&self) -> ReadReply
        ensures { result ≡ copied self.now }
    {
        match self {
            GetReply::Version(version) => ReadReply::Version(version.unpacked()),
            GetReply::Initial => ReadReply::Initial,
            GetReply::Collected(floor) => ReadReply::Collected(*floor),
            GetReply::Unknown => ReadReply::Unknown,
        }
    }
}

/// The reply to a PREPARE by what became of its version in the item's chain.
pub(crate) fn reply_of(insert: Insert) -> PrepareReply
    ensures { result ≡ insert_reply insert }
{
    match insert {
        Insert::Added | Insert::Same => PrepareReply::Prepared,
        Insert::Other => PrepareReply::Clash,
        Insert::Full => PrepareReply::FullSlots,
    }
}

/// Puts the reply to a PREPARE into the caller's buffer. One that lies there is written over where it lies: a reply has
/// some 750 bytes.
pub(crate) fn put_prepared(told: PrepareReply, place: &mut Option<Reply>)
    ensures { place.new ≡ Some (Reply.Prepare told) }
{
    if let Some(Reply::Prepare(old)) = place {
        *old = told;
        return;
    }
    begin_prepared(told, place);
}

/// Puts the reply to a COMMIT into the caller's buffer, as `put_prepared` does.
pub(crate) fn put_committed(count: u32, place: &mut Option<Reply>)
    ensures { place.new ≡ Some (Reply.Committed count) }
{
    if let Some(Reply::Committed(old)) = place {
        *old = count;
        return;
    }
    begin_committed(count, place);
}

/// Puts the reply to a GET into the caller's buffer, with a copy of the record, as `put_prepared` does.
pub(crate) fn put_read(told: &GetReply<'_>, place: &mut Option<Reply>)
    ensures { place.new ≡ Some (Reply.Get (copied told.now)) }
{
    match told {
        GetReply::Version(version) => put_version(version, place),
        _ => begin_read(told, place),
    }
}

/// Puts a version that was read into the caller's buffer, as `put_prepared` does.
fn put_version(version: &StoredRecord<'_>, place: &mut Option<Reply>)
    ensures { place.new ≡ Some (Reply.Get (ReadReply.Version version.now)) }
{
    if let Some(Reply::Get(ReadReply::Version(old))) = place {
        version.copy_into(old);
        return;
    }
    begin_version(version, place);
}

/// Puts what stands under a tag into the caller's buffer.
#[cold]
#[inline(never)]
pub(crate) fn put_found(found: Found, place: &mut Option<Reply>)
    ensures { place.new ≡ Some (Reply.Found found) }
{
    *place = Some(Reply::Found(found));
}

/// Puts the reply to a collection into the caller's buffer.
pub(crate) fn put_freed(count: u32, place: &mut Option<Reply>)
    ensures { place.new ≡ Some (Reply.Freed count) }
{
    *place = Some(Reply::Freed(count));
}

/// Puts the reply to a DISCARD into the caller's buffer.
pub(crate) fn put_discarded(told: DiscardReply, place: &mut Option<Reply>)
    ensures { place.new ≡ Some (Reply.Discard told) }
{
    *place = Some(Reply::Discard(told));
}

/// Puts the reply to a PREPARE over another reply. It stands alone, so that what is written over its like has no room for a
/// reply; and so do the three below.
#[cold]
#[inline(never)]
fn begin_prepared(told: PrepareReply, place: &mut Option<Reply>)
    ensures { place.new ≡ Some (Reply.Prepare told) }
{
    *place = Some(Reply::Prepare(told));
}

/// Puts the reply to a COMMIT over another reply.
#[cold]
#[inline(never)]
fn begin_committed(count: u32, place: &mut Option<Reply>)
    ensures { place.new ≡ Some (Reply.Committed count) }
{
    *place = Some(Reply::Committed(count));
}

/// Puts the reply to a GET over another reply.
#[cold]
#[inline(never)]
fn begin_read(told: &GetReply<'_>, place: &mut Option<Reply>)
    ensures { place.new ≡ Some (Reply.Get (copied told.now)) }
{
    *place = Some(Reply::Get(told.copied()));
}

/// Puts a version that was read over another reply.
#[cold]
#[inline(never)]
fn begin_version(version: &StoredRecord<'_>, place: &mut Option<Reply>)
    ensures { place.new ≡ Some (Reply.Get (ReadReply.Version version.now)) }
{
    *place = Some(Reply::Get(ReadReply::Version(version.unpacked())));
}

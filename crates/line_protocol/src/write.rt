//! Lines that go out. A `put_` function is called where there is room for the longest text that it appends.
ghost use Rattle.std.specs.Prelude.{◌+◌, ◌≤◌, ◌++◌, ◌↔◌, length, decimal, IsTrue, ◌<◌};
ghost use Rattle.plain_store.specs.Numbers.{number_of};
ghost use Rattle.line_protocol.specs.Stream.{terminated};
ghost use Rattle.line_protocol.specs.ServeSpelling.{bye_line, info_line, ready_as_line};
ghost use Rattle.line_protocol.specs.Spelling.{stamp_text, tag_text, record_text, keys_text, found_keys_text, prepare_text, read_text, reply_text, reply_line, refused_text};
ghost use Rattle.line_protocol.specs.Room.{Appends, WritesLine, number_room, stamp_room, tag_room, key_room, keys_room, record_room, refusal_room, reply_room, count_room};

use crate::LINE_LIMIT;
use bytes::BytesMut;
use itoa::Buffer;
use plain_store::{DiscardReply, Found, PrepareReply, ReadReply, Refusal, Reply};
use stamps::{Client, Counter, Key, Record, Stamp, Tag, WriteSet};

/// Which version it is, as `ramp --version` and a session's `info` report.
pub const VERSION: &str = "0.3.0";

/// Fewer than [`LINE_LIMIT`] bytes are spare, so that a line might not fit.
#[derive(Clone, Copy, Debug, PartialEq, Eq)]
pub struct NoRoom;

/// Appends the line of a cell's reply, with its LF. It succeeds exactly where [`LINE_LIMIT`] bytes are spare,
/// and takes no memory. Otherwise it is [`NoRoom`], and `out` is as it was.
pub fn write_reply(reply: &Reply, out: &mut BytesMut) -> Result<(), NoRoom>
    ensures { WritesLine LINE_LIMIT (reply_line reply.now) out.old out.new result }
{
    if has_no_room(out) {
        return Err(NoRoom);
    }
    put_reply(out, reply);
    put(out, b"\n");
    Ok(())
}

/// Appends the line of a refusal, with its LF. It succeeds exactly where [`LINE_LIMIT`] bytes are spare, and
/// takes no memory. Otherwise it is [`NoRoom`], and `out` is as it was.
pub fn write_refusal(refusal: Refusal, out: &mut BytesMut) -> Result<(), NoRoom>
    ensures { WritesLine LINE_LIMIT
        (terminated (refused_text (number_of refusal))) out.old out.new result }
{
    if has_no_room(out) {
        return Err(NoRoom);
    }
    put_refusal(out, refusal);
    put(out, b"\n");
    Ok(())
}

/// Appends the line that answers `bye`, with its LF. It succeeds exactly where [`LINE_LIMIT`] bytes are spare, and
/// takes no memory. Otherwise it is [`NoRoom`], and `out` is as it was.
pub fn write_bye(out: &mut BytesMut) -> Result<(), NoRoom>
    ensures { WritesLine LINE_LIMIT bye_line out.old out.new result }
{
    if has_no_room(out) {
        return Err(NoRoom);
    }
    put(out, b"bye\n");
    Ok(())
}

/// Appends the line that answers a `hello` for any client, with its LF: the session's counter, and the number that was free. It
/// succeeds exactly where [`LINE_LIMIT`] bytes are spare, and takes no memory. Otherwise it is [`NoRoom`], and `out` is as it was.
pub fn write_ready_as(counter: Counter, client: Client, out: &mut BytesMut) -> Result<(), NoRoom>
    ensures { WritesLine LINE_LIMIT (ready_as_line counter client) out.old out.new result }
{
    if has_no_room(out) {
        return Err(NoRoom);
    }
    put(out, b"ready ");
    put_number(out, counter.get());
    put(out, b" as ");
    put_number(out, u64::from(client.get()));
    put(out, b"\n");
    Ok(())
}

/// Appends the line that answers `info`, with its LF: [`VERSION`], the number of this store, which differs from run to run, and
/// whether its puts are newest by themselves. It succeeds exactly where [`LINE_LIMIT`] bytes are spare, and takes no memory. Otherwise
/// it is [`NoRoom`], and `out` is as it was.
pub fn write_info(store: u64, newest: bool, out: &mut BytesMut) -> Result<(), NoRoom>
    ensures { WritesLine LINE_LIMIT (info_line store newest) out.old out.new result }
{
    if has_no_room(out) {
        return Err(NoRoom);
    }
    put(out, b"info version=");
    put(out, VERSION.as_bytes());
    put(out, b" store=");
    put_number(out, store);
    if newest {
        put(out, b" newest=yes\n");
    } else {
        put(out, b" newest=no\n");
    }
    Ok(())
}

pub(crate) fn has_no_room(out: &BytesMut) -> bool
    ensures { IsTrue result ↔ (out.now.spare < LINE_LIMIT) }
{
    out.capacity() - out.len() < LINE_LIMIT
}

pub(crate) fn put(out: &mut BytesMut, text: &[u8])
    requires { length text.now ≤ out.old.spare }
    ensures { Appends (length text.now) out.old out.new text.now }
{
    out.extend_reserved(text);
}

// A client's number mostly has one digit, and a counter of a young store at most three.
pub(crate) fn put_number(out: &mut BytesMut, number: u64)
    requires { number_room ≤ out.old.spare }
    ensures { Appends number_room out.old out.new (decimal number) }
{
    if number < 10 {
        put(out, &[b'0' + number as u8]);
        return;
    }
    let last = b'0' + (number % 10) as u8;
    if number < 100 {
        put(out, &[b'0' + (number / 10) as u8, last]);
        return;
    }
    if number < 1000 {
        put(
            out,
            &[
                b'0' + (number / 10 / 10) as u8,
                b'0' + (number / 10 % 10) as u8,
                last,
            ],
        );
        return;
    }
    let mut digits = Buffer::new();
    put(out, digits.format(number).as_bytes());
}

pub(crate) fn put_stamp(out: &mut BytesMut, stamp: Stamp)
    requires { stamp_room ≤ out.old.spare }
    ensures { Appends stamp_room out.old out.new (stamp_text stamp) }
{
    put_number(out, stamp.counter());
    put(out, b".");
    put_number(out, u64::from(stamp.client()));
}

// The whole array, whose length is known where this is compiled; what stands behind the key is cut off.
pub(crate) fn put_key(out: &mut BytesMut, key: &Key)
    requires { key_room ≤ out.old.spare }
    ensures { Appends key_room out.old out.new key.now }
{
    let end = out.len() + key.len();
    put(out, key.padded());
    out.truncate(end);
}

/// A tag after a `#`, and nothing for the empty one.
pub(crate) fn put_tag(out: &mut BytesMut, tag: &Tag)
    requires { tag_room ≤ out.old.spare }
    ensures { Appends tag_room out.old out.new (tag_text tag.now) }
{
    let bytes = tag.as_bytes();
    if !bytes.is_empty() {
        put(out, b"#");
        put(out, bytes);
    }
}

fn put_record(out: &mut BytesMut, version: &Record)
    requires { record_room ≤ out.old.spare }
    ensures { Appends record_room out.old out.new (record_text version.now) }
{
    put_key(out, &version.key);
    put(out, b"@");
    put_stamp(out, version.stamp);
    put_tag(out, &version.tag);
    put(out, b"=");
    put(out, version.value.as_bytes());
}

fn put_keys(out: &mut BytesMut, keys: &WriteSet)
    requires { keys_room ≤ out.old.spare }
    ensures { Appends keys_room out.old out.new (keys_text keys.now) }
{
    for (i, key) in keys.as_slice().iter().enumerate() {
        if i > 0 {
            put(out, b",");
        }
        put_key(out, key);
    }
}

// Each key after a space.
fn put_found_keys(out: &mut BytesMut, found: &Found)
    requires { keys_room ≤ out.old.spare }
    ensures { Appends keys_room out.old out.new (found_keys_text found.now.keys) }
{
    for key in found.keys() {
        put(out, b" ");
        put_key(out, key);
    }
}

pub(crate) fn put_refusal(out: &mut BytesMut, refusal: Refusal)
    requires { refusal_room ≤ out.old.spare }
    ensures { Appends refusal_room out.old out.new (refused_text (number_of refusal)) }
{
    put(out, b"refused ");
    put_number(out, u64::from(refusal.number()));
}

fn put_prepare_reply(out: &mut BytesMut, reply: PrepareReply)
    requires { refusal_room ≤ out.old.spare }
    ensures { Appends refusal_room out.old out.new (prepare_text reply) }
{
    match reply {
        PrepareReply::Prepared => put(out, b"prepared"),
        PrepareReply::FullSlots => put_refusal(out, Refusal::FullSlots),
        PrepareReply::FullItems => put_refusal(out, Refusal::FullItems),
        PrepareReply::Clash => put_refusal(out, Refusal::Clash),
        PrepareReply::Discarded => put_refusal(out, Refusal::Discarded),
    }
}

fn put_read_reply(out: &mut BytesMut, reply: &ReadReply)
    requires { reply_room ≤ out.old.spare }
    ensures { Appends reply_room out.old out.new (read_text reply.now) }
{
    match reply {
        ReadReply::Version(version) => {
            put(out, b"version ");
            put_record(out, version);
            put(out, b" writes ");
            put_keys(out, &version.writes);
        }
        ReadReply::Initial => put(out, b"initial"),
        ReadReply::Collected(floor) => {
            put(out, b"collected ");
            put_stamp(out, *floor);
        }
        ReadReply::Unknown => put_refusal(out, Refusal::Unknown),
    }
}

pub(crate) fn put_reply(out: &mut BytesMut, reply: &Reply)
    requires { reply_room ≤ out.old.spare }
    ensures { Appends reply_room out.old out.new (reply_text reply.now) }
{
    match reply {
        Reply::Prepare(reply) => put_prepare_reply(out, *reply),
        Reply::Committed(count) => put_count(out, b"committed ", *count),
        Reply::Get(reply) => put_read_reply(out, reply),
        Reply::Found(found) => {
            put_count(out, b"found ", found.count());
            put_found_keys(out, found);
        }
        Reply::Freed(count) => put_count(out, b"freed ", *count),
        Reply::Discard(DiscardReply::Dropped(count)) => put_count(out, b"dropped ", *count),
        Reply::Discard(DiscardReply::FullMarks) => put_refusal(out, Refusal::FullMarks),
    }
}

/// A count after a word, which ends in a space.
pub(crate) fn put_count(out: &mut BytesMut, word: &[u8], count: u32)
    requires room { count_room ≤ out.old.spare }
    requires short { length word.now ≤ 10 }
    ensures { Appends count_room out.old out.new (word.now ++ decimal count) }
{
    put(out, word);
    put_number(out, u64::from(count));
}

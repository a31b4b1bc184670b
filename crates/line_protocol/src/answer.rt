//! The lines that answer steps.
ghost use Rattle.std.specs.Prelude.{◌+◌, ◌*◌, ◌≤◌, ◌++◌, ◌∷◌, length};
ghost use Rattle.plain_store.specs.declared.answer.Answer.TheVariants.{Replied, Restart, Sent};
ghost use Rattle.line_protocol.specs.AnswerSpelling.{rows_text, written_text, reading_text, readings_text, parted_readings_text, ending_text, answer_text, answer_line};
ghost use Rattle.line_protocol.specs.Spelling.{space, stamp_text};
ghost use Rattle.line_protocol.specs.Room.{Appends, WritesLine, rows_room, ending_room, stamped_rows_room, reading_room, spaced_reading_room, readings_room, answer_room, written_room};

use crate::LINE_LIMIT;
use crate::write::{
    NoRoom, has_no_room, put, put_count, put_key, put_number, put_refusal, put_reply, put_stamp,
    put_tag,
};
use bytes::BytesMut;
use plain_store::{Answer, Reading, Readings, Reply, Rows};
use stamps::{Key, Stamp};

/// Appends the line of an answer to a step, with its LF. It succeeds exactly where [`LINE_LIMIT`] bytes are spare,
/// and takes no memory. Otherwise it is [`NoRoom`], and `out` is as it was.
pub fn write_answer(answer: &Answer, out: &mut BytesMut) -> Result<(), NoRoom>
    ensures { WritesLine LINE_LIMIT (answer_line answer.now) out.old out.new result }
{
    if has_no_room(out) {
        return Err(NoRoom);
    }
    put_answer(out, answer);
    put(out, b"\n");
    Ok(())
}

fn put_answer(out: &mut BytesMut, answer: &Answer)
    requires { answer_room ≤ out.old.spare }
    ensures { Appends answer_room out.old out.new (answer_text answer.now) }
{
    match answer {
        Answer::Refused(refusal) => put_refusal(out, *refusal),
        Answer::Ready(counter) => {
            put(out, b"ready ");
            put_number(out, counter.get());
        }
        Answer::PutBegun(stamp, rows) => put_stamped_rows(out, b"put ", *stamp, *rows),
        Answer::GetBegun(rows) => put_begun(out, b"get ", *rows),
        Answer::FindBegun(rows) => put_begun(out, b"find ", *rows),
        Answer::Replied(row, reply) => put_replied(out, *row, reply),
        Answer::Ignored => put(out, b"ignored"),
        Answer::Wait => put(out, b"wait"),
        Answer::Decided(stamp, rows) => put_stamped_rows(out, b"decided ", *stamp, *rows),
        Answer::Done(stamp) => {
            put(out, b"done ");
            put_stamp(out, *stamp);
        }
        Answer::Ask(rows) => put_begun(out, b"ask ", *rows),
        Answer::BeginsRead(rows) => put_begun(out, b"found ", *rows),
        Answer::Read(readings) => {
            put(out, b"read ");
            put_parted_readings(out, readings);
        }
        Answer::Listed(readings) => {
            put(out, b"list");
            put_readings(out, readings.as_slice());
        }
        Answer::Restart(key, floor) => put_restart(out, key, *floor),
        Answer::Ended(refusal, rows) => {
            put(out, b"ended ");
            put_number(out, u64::from(refusal.number()));
            put_ending_rows(out, *rows);
        }
        Answer::Lost => put(out, b"lost"),
        Answer::Stopped => put(out, b"stopped"),
        Answer::Sent(rows) => put_sent(out, *rows),
        Answer::Freed(count) => put_count(out, b"freed ", *count),
        Answer::Keeps(keep) => put_count(out, b"keep ", u32::from(keep.get())),
    }
}

fn put_rows(out: &mut BytesMut, rows: Rows)
    requires { rows_room ≤ out.old.spare }
    ensures { Appends rows_room out.old out.new (rows_text rows) }
{
    put(out, b"rows ");
    put_number(out, rows.first);
    put(out, b"-");
    put_number(out, rows.last);
}

// Rows after a word, which ends in a space.
fn put_begun(out: &mut BytesMut, word: &[u8], rows: Rows)
    requires room { stamped_rows_room ≤ out.old.spare }
    requires short { length word.now ≤ 8 }
    ensures { Appends stamped_rows_room out.old out.new (word.now ++ rows_text rows) }
{
    put(out, word);
    put_rows(out, rows);
}

// A stamp and rows after a word, which ends in a space.
fn put_stamped_rows(out: &mut BytesMut, word: &[u8], stamp: Stamp, rows: Rows)
    requires room { stamped_rows_room ≤ out.old.spare }
    requires short { length word.now ≤ 8 }
    ensures { Appends stamped_rows_room out.old out.new (word.now
        ++ (stamp_text stamp ++ space ∷ rows_text rows)) }
{
    put(out, word);
    put_stamp(out, stamp);
    put(out, b" ");
    put_rows(out, rows);
}

fn put_replied(out: &mut BytesMut, row: u64, reply: &Reply)
    requires { answer_room ≤ out.old.spare }
    ensures { Appends answer_room out.old out.new (answer_text (Replied row reply.now)) }
{
    put(out, b"row ");
    put_number(out, row);
    put(out, b" ");
    put_reply(out, reply);
}

fn put_restart(out: &mut BytesMut, key: &Key, floor: Stamp)
    requires { stamped_rows_room ≤ out.old.spare }
    ensures { Appends stamped_rows_room out.old out.new (answer_text (Restart key.now floor)) }
{
    put(out, b"restart ");
    put_key(out, key);
    put(out, b" ");
    put_stamp(out, floor);
}

fn put_sent(out: &mut BytesMut, rows: Option<Rows>)
    requires { stamped_rows_room ≤ out.old.spare }
    ensures { Appends stamped_rows_room out.old out.new (answer_text (Sent rows)) }
{
    put(out, b"sent ");
    match rows {
        Some(rows) => put_rows(out, rows),
        None => put(out, b"none"),
    }
}

// The rows after a space, and nothing where there are none.
fn put_ending_rows(out: &mut BytesMut, rows: Option<Rows>)
    requires { ending_room ≤ out.old.spare }
    ensures { Appends ending_room out.old out.new (ending_text rows) }
{
    match rows {
        Some(rows) => {
            put(out, b" ");
            put_rows(out, rows);
        }
        None => (),
    }
}

// A tag and a value, and nothing for an initial version.
fn put_written(out: &mut BytesMut, reading: &Reading)
    requires { written_room ≤ out.old.spare }
    ensures { Appends written_room out.old out.new (written_text reading.now) }
{
    if reading.stamp == Stamp::ZERO {
        return;
    }
    put_tag(out, &reading.item.tag);
    put(out, b"=");
    put(out, reading.item.value.as_bytes());
}

fn put_reading(out: &mut BytesMut, reading: &Reading)
    requires { reading_room ≤ out.old.spare }
    ensures { Appends reading_room out.old out.new (reading_text reading.now) }
{
    put_key(out, &reading.item.key);
    put(out, b"@");
    put_stamp(out, reading.stamp);
    put_written(out, reading);
}

// Each after a space.
fn put_readings(out: &mut BytesMut, readings: &[Reading])
    requires room { spaced_reading_room * length readings.now ≤ out.old.spare }
    ensures { Appends (spaced_reading_room * length readings.now) out.old out.new
        (readings_text readings.now) }
{
    for reading in readings {
        put(out, b" ");
        put_reading(out, reading);
    }
}

// Separated by spaces.
fn put_parted_readings(out: &mut BytesMut, readings: &Readings)
    requires { readings_room ≤ out.old.spare }
    ensures { Appends readings_room out.old out.new (parted_readings_text readings.now) }
{
    if let [first, others @ ..] = readings.as_slice() {
        put_reading(out, first);
        put_readings(out, others);
    }
}

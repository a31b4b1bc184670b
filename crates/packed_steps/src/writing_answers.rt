//! Answers, packed at the end of bytes that have room for them.
ghost use Rattle.std.specs.Prelude.{◌+◌, ◌*◌, ◌≤◌, ◌++◌, ◌∷◌, [], length};
ghost use Rattle.std.specs.Int.{w64, to_le_bytes};
ghost use Rattle.stamps.specs.Limits.{max_keys};
ghost use Rattle.stamps.specs.Stamp.{IsStamp};
ghost use Rattle.packed_steps.specs.Lists.{packed_list};
ghost use Rattle.packed_steps.specs.Sizes.{max_rows_bytes, max_reading_bytes, max_readings_bytes, max_answer_bytes};
ghost use Rattle.packed_steps.specs.PackedAnswers.{packed_rows, AreStoreRows, packed_reading, IsStoreReading, AreStoreReadings, packed_answer, IsStoreAnswer};
ghost use Rattle.packed.specs.Laying.{Puts, PutsValue};
ghost use Rattle.packed.specs.Packing.{packed_number};
ghost use Rattle.plain_store.specs.Numbers.{number_of};
ghost use Rattle.packed.specs.Sizes.{max_number_bytes, stamp_bytes};

use crate::writing_acts::put_item;
use crate::writing_replies::put_reply;
use packed::{Buffer, put_key, put_number, put_stamp};
use plain_store::{Answer, Reading, Refusal, Rows};
use stamps::Stamp;

/// Rows. They take up to two numbers of `MAX_NUMBER_BYTES`.
pub fn put_rows(out: &mut Buffer, rows: &Rows)
    requires { length out.old.items + max_rows_bytes ≤ out.old.capacity }
    ensures { PutsValue (packed_rows rows.now) max_rows_bytes
        (AreStoreRows rows.now) out.old out.new }
{
    put_number(out, rows.first);
    put_number(out, rows.last);
}

/// A reading. It takes up to `MAX_ITEM_BYTES + STAMP_BYTES`.
pub fn put_reading(out: &mut Buffer, reading: &Reading)
    requires { length out.old.items + max_reading_bytes ≤ out.old.capacity }
    ensures { PutsValue (packed_reading reading.now) max_reading_bytes
        (IsStoreReading reading.now) out.old out.new }
{
    put_item(out, &reading.item);
    put_stamp(out, reading.stamp);
}

/// As many readings as a transaction has keys, or fewer, behind their count. They take up to `MAX_ANSWER_BYTES - 1`.
pub fn put_readings(out: &mut Buffer, readings: &[Reading])
    requires many { length readings.now ≤ max_keys }
    requires room { length out.old.items + max_readings_bytes ≤ out.old.capacity }
    ensures { PutsValue (packed_list packed_reading readings.now) max_readings_bytes
        (AreStoreReadings readings.now) out.old out.new }
{
    put_number(out, readings.len() as u64);
    for reading in readings {
        put_reading(out, reading);
    }
}

// A byte for the form of an answer, and that of a refusal's number.
fn put_form_of_refusal(out: &mut Buffer, form: u8, refusal: Refusal)
    requires { length out.old.items + 2 ≤ out.old.capacity }
    ensures { Puts (form ∷ number_of refusal ∷ []) 2 out.old out.new }
{
    out.push_reserved(form);
    out.push_reserved(refusal.number());
}

// A byte for the form of an answer, and a number.
fn put_form_of_number(out: &mut Buffer, form: u8, number: u64)
    requires { length out.old.items + (1 + max_number_bytes) ≤ out.old.capacity }
    ensures { Puts (form ∷ packed_number number) (1 + max_number_bytes) out.old out.new }
{
    out.push_reserved(form);
    put_number(out, number);
}

// A byte for the form of an answer, and rows.
fn put_form_of_rows(out: &mut Buffer, form: u8, rows: &Rows)
    requires { length out.old.items + (1 + max_rows_bytes) ≤ out.old.capacity }
    ensures { PutsValue (form ∷ packed_rows rows.now) (1 + max_rows_bytes)
        (AreStoreRows rows.now) out.old out.new }
{
    out.push_reserved(form);
    put_rows(out, rows);
}

// A byte for the form of an answer, a stamp and rows.
fn put_form_of_stamped_rows(out: &mut Buffer, form: u8, stamp: Stamp, rows: &Rows)
    requires { length out.old.items + (1 + stamp_bytes + max_rows_bytes) ≤ out.old.capacity }
    ensures { PutsValue (form ∷ to_le_bytes w64 stamp ++ packed_rows rows.now)
        (1 + stamp_bytes + max_rows_bytes)
        (IsStamp stamp × AreStoreRows rows.now) out.old out.new }
{
    out.push_reserved(form);
    put_stamp(out, stamp);
    put_rows(out, rows);
}

// A byte for the form of an answer, and readings.
fn put_form_of_readings(out: &mut Buffer, form: u8, readings: &[Reading])
    requires many { length readings.now ≤ max_keys }
    requires room { length out.old.items + (1 + max_readings_bytes) ≤ out.old.capacity }
    ensures { PutsValue (form ∷ packed_list packed_reading readings.now) (1 + max_readings_bytes)
        (AreStoreReadings readings.now) out.old out.new }
{
    out.push_reserved(form);
    put_readings(out, readings);
}

/// A byte for the form of the answer, and its parts. It takes up to `MAX_ANSWER_BYTES`.
pub fn put_answer(out: &mut Buffer, answer: &Answer)
    requires { length out.old.items + max_answer_bytes ≤ out.old.capacity }
    ensures { PutsValue (packed_answer answer.now) max_answer_bytes
        (IsStoreAnswer answer.now) out.old out.new }
{
    match answer {
        Answer::Refused(refusal) => put_form_of_refusal(out, 0, *refusal),
        Answer::Ready(counter) => put_form_of_number(out, 1, counter.get()),
        Answer::PutBegun(stamp, rows) => put_form_of_stamped_rows(out, 2, *stamp, rows),
        Answer::GetBegun(rows) => put_form_of_rows(out, 3, rows),
        Answer::FindBegun(rows) => put_form_of_rows(out, 4, rows),
        Answer::Replied(row, reply) => {
            out.push_reserved(5);
            put_number(out, *row);
            put_reply(out, reply);
        }
        Answer::Ignored => out.push_reserved(6),
        Answer::Wait => out.push_reserved(7),
        Answer::Decided(stamp, rows) => put_form_of_stamped_rows(out, 8, *stamp, rows),
        Answer::Done(stamp) => {
            out.push_reserved(9);
            put_stamp(out, *stamp);
        }
        Answer::Ask(rows) => put_form_of_rows(out, 10, rows),
        Answer::BeginsRead(rows) => put_form_of_rows(out, 11, rows),
        Answer::Read(readings) => put_form_of_readings(out, 12, readings.as_slice()),
        Answer::Listed(readings) => put_form_of_readings(out, 13, readings.as_slice()),
        Answer::Restart(key, floor) => {
            out.push_reserved(14);
            put_key(out, key);
            put_stamp(out, *floor);
        }
        Answer::Ended(refusal, None) => put_form_of_refusal(out, 15, *refusal),
        Answer::Ended(refusal, Some(rows)) => {
            out.push_reserved(16);
            out.push_reserved(refusal.number());
            put_rows(out, rows);
        }
        Answer::Lost => out.push_reserved(17),
        Answer::Stopped => out.push_reserved(18),
        Answer::Sent(None) => out.push_reserved(19),
        Answer::Sent(Some(rows)) => put_form_of_rows(out, 20, rows),
        Answer::Freed(count) => put_form_of_number(out, 21, u64::from(*count)),
        Answer::Keeps(keep) => {
            out.push_reserved(22);
            out.push_reserved(keep.get());
        }
    }
}

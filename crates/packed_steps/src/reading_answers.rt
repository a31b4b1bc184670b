//! The answers that were packed, from the front of the bytes, and the bytes behind each.
ghost use Rattle.std.specs.Prelude.{◌≡◌, ◌<◌, ◌≤◌};
ghost use Rattle.std.specs.Option.{option_map};
ghost use Rattle.stamps.specs.Limits.{max_keys};
ghost use Rattle.packed.specs.Packing.{IsReadAgain};
ghost use Rattle.packed_steps.specs.Lists.{many_at};
ghost use Rattle.packed_steps.specs.PackedAnswers.{packed_answer, IsStoreAnswer, rows_at, refusal_at, reading_at, readings_at, refused_at, ready_at, put_begun_at, decided_at, replied_at, done_at, read_at, listed_at, restart_at, ended_at, ended_with_at, freed_answer_at, keeps_at, get_begun_at, find_begun_at, ask_at, begins_read_at, sent_at, plain_answer, plain_answer_by, rows_answer_by, other_answer_by, answer_by, answer_at};

use crate::reading_acts::{read_counter, read_item, read_keep};
use crate::reading_replies::read_reply;
use packed::{read_byte, read_count, read_key, read_number, read_stamp};
use plain_store::{Answer, Reading, Readings, Refusal, Rows};
use stamps::{Item, Key, Stamp, Tag, Value};

/// The rows at the front.
#[tactic(auto, unfolding(crate::specs::PackedAnswers::rows_at))]
pub fn read_rows(bytes: &[u8]) -> Option<(Rows, &[u8])>
    ensures { option_map (λ p. (p.0, p.1.now)) result ≡ rows_at bytes.now }
{
    let Some((first, rest)) = read_number(bytes) else {
        return None;
    };
    let Some((last, rest)) = read_number(rest) else {
        return None;
    };
    Some((Rows { first, last }, rest))
}

/// The refusal at the front.
#[tactic(auto, unfolding(crate::specs::PackedAnswers::refusal_at))]
pub fn read_refusal(bytes: &[u8]) -> Option<(Refusal, &[u8])>
    ensures { option_map (λ p. (p.0, p.1.now)) result ≡ refusal_at bytes.now }
{
    let (number, rest) = read_byte(bytes)?;
    let refusal = Refusal::of_number(number)?;
    Some((refusal, rest))
}

/// The reading at the front.
#[tactic(auto, unfolding(crate::specs::PackedAnswers::reading_at))]
pub fn read_reading(bytes: &[u8]) -> Option<(Reading, &[u8])>
    ensures { option_map (λ p. (p.0, p.1.now)) result ≡ reading_at bytes.now }
{
    let Some((item, rest)) = read_item(bytes) else {
        return None;
    };
    let Some((stamp, rest)) = read_stamp(rest) else {
        return None;
    };
    Some((Reading { item, stamp }, rest))
}

/// What fills the unused places of an array of readings.
fn filler() -> Reading {
    let name = b"-";
    let nothing = b"";
    let item = Item {
        key: Key::read(name).unwrap(),
        tag: Tag::read(nothing).unwrap(),
        value: Value::read(nothing).unwrap(),
    };
    Reading {
        item,
        stamp: Stamp::ZERO,
    }
}

// So many readings.
fn readings_of(count: usize, bytes: &[u8]) -> Option<(Readings, &[u8])>
    requires { count ≤ max_keys }
    ensures { option_map (λ p. (p.0, p.1.now)) result ≡ many_at reading_at count bytes.now }
{
    let mut readings = [filler(); Readings::MAX_LEN];
    let mut rest = bytes;
    for at in 0..count {
        let Some((reading, after)) = read_reading(rest) else {
            return None;
        };
        readings[at] = reading;
        rest = after;
    }
    let told = Readings::of(&readings[..count]).unwrap();
    Some((told, rest))
}

/// The readings at the front.
#[tactic(auto, unfolding(crate::specs::PackedAnswers::readings_at))]
pub fn read_readings(bytes: &[u8]) -> Option<(Readings, &[u8])>
    ensures { option_map (λ p. (p.0, p.1.now)) result ≡ readings_at bytes.now }
{
    let (count, rest) = read_number(bytes)?;
    if count > Readings::MAX_LEN as u64 {
        return None;
    }
    readings_of(count as usize, rest)
}

#[tactic(auto, unfolding(crate::specs::PackedAnswers::refused_at))]
fn refused_at(bytes: &[u8]) -> Option<(Answer, &[u8])>
    ensures { option_map (λ p. (p.0, p.1.now)) result ≡ refused_at bytes.now }
{
    let Some((refusal, rest)) = read_refusal(bytes) else {
        return None;
    };
    Some((Answer::Refused(refusal), rest))
}

#[tactic(auto, unfolding(crate::specs::PackedAnswers::ready_at))]
fn ready_at(bytes: &[u8]) -> Option<(Answer, &[u8])>
    ensures { option_map (λ p. (p.0, p.1.now)) result ≡ ready_at bytes.now }
{
    let Some((counter, rest)) = read_counter(bytes) else {
        return None;
    };
    Some((Answer::Ready(counter), rest))
}

#[tactic(auto, unfolding(crate::specs::PackedAnswers::put_begun_at))]
fn put_begun_at(bytes: &[u8]) -> Option<(Answer, &[u8])>
    ensures { option_map (λ p. (p.0, p.1.now)) result ≡ put_begun_at bytes.now }
{
    let Some((stamp, rest)) = read_stamp(bytes) else {
        return None;
    };
    let Some((rows, rest)) = read_rows(rest) else {
        return None;
    };
    Some((Answer::PutBegun(stamp, rows), rest))
}

#[tactic(auto, unfolding(crate::specs::PackedAnswers::get_begun_at))]
fn get_begun_at(bytes: &[u8]) -> Option<(Answer, &[u8])>
    ensures { option_map (λ p. (p.0, p.1.now)) result ≡ get_begun_at bytes.now }
{
    let Some((rows, rest)) = read_rows(bytes) else {
        return None;
    };
    Some((Answer::GetBegun(rows), rest))
}

#[tactic(auto, unfolding(crate::specs::PackedAnswers::find_begun_at))]
fn find_begun_at(bytes: &[u8]) -> Option<(Answer, &[u8])>
    ensures { option_map (λ p. (p.0, p.1.now)) result ≡ find_begun_at bytes.now }
{
    let Some((rows, rest)) = read_rows(bytes) else {
        return None;
    };
    Some((Answer::FindBegun(rows), rest))
}

#[tactic(auto, unfolding(crate::specs::PackedAnswers::replied_at))]
fn replied_at(bytes: &[u8]) -> Option<(Answer, &[u8])>
    ensures { option_map (λ p. (p.0, p.1.now)) result ≡ replied_at bytes.now }
{
    let Some((row, rest)) = read_number(bytes) else {
        return None;
    };
    let Some((reply, rest)) = read_reply(rest) else {
        return None;
    };
    Some((Answer::Replied(row, reply), rest))
}

#[tactic(auto, unfolding(crate::specs::PackedAnswers::decided_at))]
fn decided_at(bytes: &[u8]) -> Option<(Answer, &[u8])>
    ensures { option_map (λ p. (p.0, p.1.now)) result ≡ decided_at bytes.now }
{
    let Some((stamp, rest)) = read_stamp(bytes) else {
        return None;
    };
    let Some((rows, rest)) = read_rows(rest) else {
        return None;
    };
    Some((Answer::Decided(stamp, rows), rest))
}

#[tactic(auto, unfolding(crate::specs::PackedAnswers::done_at))]
fn done_at(bytes: &[u8]) -> Option<(Answer, &[u8])>
    ensures { option_map (λ p. (p.0, p.1.now)) result ≡ done_at bytes.now }
{
    let Some((stamp, rest)) = read_stamp(bytes) else {
        return None;
    };
    Some((Answer::Done(stamp), rest))
}

#[tactic(auto, unfolding(crate::specs::PackedAnswers::ask_at))]
fn ask_at(bytes: &[u8]) -> Option<(Answer, &[u8])>
    ensures { option_map (λ p. (p.0, p.1.now)) result ≡ ask_at bytes.now }
{
    let Some((rows, rest)) = read_rows(bytes) else {
        return None;
    };
    Some((Answer::Ask(rows), rest))
}

#[tactic(auto, unfolding(crate::specs::PackedAnswers::begins_read_at))]
fn begins_read_at(bytes: &[u8]) -> Option<(Answer, &[u8])>
    ensures { option_map (λ p. (p.0, p.1.now)) result ≡ begins_read_at bytes.now }
{
    let Some((rows, rest)) = read_rows(bytes) else {
        return None;
    };
    Some((Answer::BeginsRead(rows), rest))
}

#[tactic(auto, unfolding(crate::specs::PackedAnswers::read_at))]
fn read_at(bytes: &[u8]) -> Option<(Answer, &[u8])>
    ensures { option_map (λ p. (p.0, p.1.now)) result ≡ read_at bytes.now }
{
    let Some((readings, rest)) = read_readings(bytes) else {
        return None;
    };
    Some((Answer::Read(readings), rest))
}

#[tactic(auto, unfolding(crate::specs::PackedAnswers::listed_at))]
fn listed_at(bytes: &[u8]) -> Option<(Answer, &[u8])>
    ensures { option_map (λ p. (p.0, p.1.now)) result ≡ listed_at bytes.now }
{
    let Some((readings, rest)) = read_readings(bytes) else {
        return None;
    };
    Some((Answer::Listed(readings), rest))
}

#[tactic(auto, unfolding(crate::specs::PackedAnswers::restart_at))]
fn restart_at(bytes: &[u8]) -> Option<(Answer, &[u8])>
    ensures { option_map (λ p. (p.0, p.1.now)) result ≡ restart_at bytes.now }
{
    let Some((key, rest)) = read_key(bytes) else {
        return None;
    };
    let Some((floor, rest)) = read_stamp(rest) else {
        return None;
    };
    Some((Answer::Restart(key, floor), rest))
}

#[tactic(auto, unfolding(crate::specs::PackedAnswers::ended_at))]
fn ended_at(bytes: &[u8]) -> Option<(Answer, &[u8])>
    ensures { option_map (λ p. (p.0, p.1.now)) result ≡ ended_at bytes.now }
{
    let Some((refusal, rest)) = read_refusal(bytes) else {
        return None;
    };
    Some((Answer::Ended(refusal, None), rest))
}

#[tactic(auto, unfolding(crate::specs::PackedAnswers::ended_with_at))]
fn ended_with_at(bytes: &[u8]) -> Option<(Answer, &[u8])>
    ensures { option_map (λ p. (p.0, p.1.now)) result ≡ ended_with_at bytes.now }
{
    let Some((refusal, rest)) = read_refusal(bytes) else {
        return None;
    };
    let Some((rows, rest)) = read_rows(rest) else {
        return None;
    };
    Some((Answer::Ended(refusal, Some(rows)), rest))
}

#[tactic(auto, unfolding(crate::specs::PackedAnswers::sent_at))]
fn sent_at(bytes: &[u8]) -> Option<(Answer, &[u8])>
    ensures { option_map (λ p. (p.0, p.1.now)) result ≡ sent_at bytes.now }
{
    let Some((rows, rest)) = read_rows(bytes) else {
        return None;
    };
    Some((Answer::Sent(Some(rows)), rest))
}

#[tactic(auto, unfolding(crate::specs::PackedAnswers::freed_answer_at))]
fn freed_answer_at(bytes: &[u8]) -> Option<(Answer, &[u8])>
    ensures { option_map (λ p. (p.0, p.1.now)) result ≡ freed_answer_at bytes.now }
{
    let Some((count, rest)) = read_count(bytes) else {
        return None;
    };
    Some((Answer::Freed(count), rest))
}

#[tactic(auto, unfolding(crate::specs::PackedAnswers::keeps_at))]
fn keeps_at(bytes: &[u8]) -> Option<(Answer, &[u8])>
    ensures { option_map (λ p. (p.0, p.1.now)) result ≡ keeps_at bytes.now }
{
    let Some((keep, rest)) = read_keep(bytes) else {
        return None;
    };
    Some((Answer::Keeps(keep), rest))
}

// The answer of a form that has no parts.
fn plain_answer(form: u8) -> Option<Answer>
    ensures { result ≡ plain_answer form }
{
    match form {
        6 => Some(Answer::Ignored),
        7 => Some(Answer::Wait),
        17 => Some(Answer::Lost),
        18 => Some(Answer::Stopped),
        19 => Some(Answer::Sent(None)),
        _ => None,
    }
}

#[tactic(auto, unfolding(crate::specs::PackedAnswers::plain_answer_by))]
fn plain_answer_by(form: u8, bytes: &[u8]) -> Option<(Answer, &[u8])>
    ensures { option_map (λ p. (p.0, p.1.now)) result ≡ plain_answer_by form bytes.now }
{
    let Some(answer) = plain_answer(form) else {
        return None;
    };
    Some((answer, bytes))
}

// The parts of a form whose parts are rows alone, or of one that has none.
#[tactic(auto, unfolding(crate::specs::PackedAnswers::rows_answer_by))]
fn rows_answer_by(form: u8, bytes: &[u8]) -> Option<(Answer, &[u8])>
    ensures { option_map (λ p. (p.0, p.1.now)) result ≡ rows_answer_by form bytes.now }
{
    match form {
        3 => get_begun_at(bytes),
        4 => find_begun_at(bytes),
        10 => ask_at(bytes),
        11 => begins_read_at(bytes),
        20 => sent_at(bytes),
        _ => plain_answer_by(form, bytes),
    }
}

// The parts of a form that ends no operation.
#[tactic(auto, unfolding(crate::specs::PackedAnswers::other_answer_by))]
fn other_answer_by(form: u8, bytes: &[u8]) -> Option<(Answer, &[u8])>
    ensures { option_map (λ p. (p.0, p.1.now)) result ≡ other_answer_by form bytes.now }
{
    match form {
        1 => ready_at(bytes),
        2 => put_begun_at(bytes),
        5 => replied_at(bytes),
        8 => decided_at(bytes),
        21 => freed_answer_at(bytes),
        22 => keeps_at(bytes),
        _ => rows_answer_by(form, bytes),
    }
}

// The parts of this form.
#[tactic(auto, unfolding(crate::specs::PackedAnswers::answer_by))]
fn answer_by(form: u8, bytes: &[u8]) -> Option<(Answer, &[u8])>
    ensures { option_map (λ p. (p.0, p.1.now)) result ≡ answer_by form bytes.now }
{
    match form {
        0 => refused_at(bytes),
        9 => done_at(bytes),
        12 => read_at(bytes),
        13 => listed_at(bytes),
        14 => restart_at(bytes),
        15 => ended_at(bytes),
        16 => ended_with_at(bytes),
        _ => other_answer_by(form, bytes),
    }
}

#[tactic(auto, unfolding(crate::specs::PackedAnswers::answer_at))]
fn answer_at(bytes: &[u8]) -> Option<(Answer, &[u8])>
    ensures { option_map (λ p. (p.0, p.1.now)) result ≡ answer_at bytes.now }
{
    let (form, rest) = read_byte(bytes)?;
    answer_by(form, rest)
}

/// The answer at the front. Where the bytes begin with a packed answer, it is that one.
pub fn read_answer(bytes: &[u8]) -> Option<(Answer, &[u8])>
    ensures exact { option_map (λ p. (p.0, p.1.now)) result ≡ answer_at bytes.now }
    ensures again { IsReadAgain packed_answer IsStoreAnswer
        (option_map (λ p. (p.0, p.1.now)) result) bytes.now }
{
    answer_at(bytes)
}

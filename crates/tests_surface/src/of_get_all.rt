//! get_all: the client's side of a read and of a search.
use crate::values::{key, record, tag};
use get_all::{FindMove, Finder, Late, ReadMove, Reader};
use plain_store::{Found, ReadReply, Readings};
use stamps::{Key, Stamp};

/// How many keys are asked for, how many are read, or the number of the move.
fn number_of_read(moved: &ReadMove) -> usize {
    match moved {
        ReadMove::Wait => 20,
        ReadMove::Ask(late) => late.as_slice().len(),
        ReadMove::Read(readings) => count(readings),
        ReadMove::Restart(_, _) => 21,
        ReadMove::Torn => 22,
        ReadMove::Ignored => 23,
    }
}

fn count(readings: &Readings) -> usize {
    readings.as_slice().len()
}

/// How many keys are read, how many are listed, or the number of the move.
fn number_of_search(moved: &FindMove) -> usize {
    match moved {
        FindMove::Wait => 20,
        FindMove::Begin(keys) => keys.as_slice().len(),
        FindMove::Ask(late) => late.as_slice().len(),
        FindMove::List(readings) => count(readings),
        FindMove::Restart(_, _) => 21,
        FindMove::TooMany => 24,
        FindMove::Torn => 22,
        FindMove::Ignored => 23,
    }
}

/// Whether a key is read.
fn is_read() -> Option<bool> {
    let x: Key = key("x")?;
    let reader: Option<Reader> = Reader::new(&[x]);
    let mut reader = reader?;
    let read: ReadMove = reader.take(&x, 1, &ReadReply::Version(record("x", 1)?));
    let ignored: ReadMove = reader.take(&x, 1, &ReadReply::Initial);
    let late = Late {
        key: x,
        stamp: Stamp::ZERO,
    };
    let is_ignored = number_of_read(&ignored) == 23;
    Some(number_of_read(&read) == 1 && is_ignored && late.key == x)
}

/// Whether a key is found and listed.
fn is_listed() -> Option<bool> {
    let x: Key = key("x")?;
    let mut finder: Finder = Finder::new(tag("red")?, 1);
    let found: Found = Found::new(1, &[x]);
    let begun: FindMove = finder.take_found(0, &found);
    let listed: FindMove = finder.take(&x, 1, &ReadReply::Version(record("x", 1)?));
    Some(number_of_search(&begun) == 1 && number_of_search(&listed) == 1)
}

#[test]
fn get_all_has_its_calls(rt: HostRuntime) {
    assert!(rt; is_read() == Some(true) && is_listed() == Some(true));
}

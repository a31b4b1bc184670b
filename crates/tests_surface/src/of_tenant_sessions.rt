//! tenant_sessions: the sessions of a tenant's clients.
use crate::values::{client, item, key, no_parts, tag};
use plain_store::{Message, OutOfMemory, ReadReply, Refusal, Reply};
use stamps::{Client, Counter, Item, Key, Tag};
use std::alloc::Global;
use tenant_sessions::{Begin, Move, Sessions};

/// How many calls a transaction begins with, 0 where it is refused.
fn calls_of(begin: &Result<Begin<'_>, Refusal>) -> u32 {
    match begin {
        Ok(begin) => begin.calls(),
        Err(_) => 0,
    }
}

/// Whether a session is opened and closed, and begins each transaction.
fn are_begun(alloc: Global) -> Option<bool> {
    let opened: Result<Sessions, OutOfMemory> = Sessions::open(alloc, 2, 1);
    let mut sessions = opened.ok()?;
    let (client, base): (Client, Counter) = (client(1)?, Counter::new(7)?);
    let ready: Result<Counter, Refusal> = sessions.hello(client, base);
    let items: [Item; 1] = [item("x")?];
    let keys: [Key; 1] = [key("x")?];
    let red: Tag = tag("red")?;
    let put: Result<Begin<'_>, Refusal> = sessions.begin_put(client, &items);
    let get: Result<Begin<'_>, Refusal> = sessions.begin_get(client, &keys);
    let find: Result<Begin<'_>, Refusal> = sessions.begin_find(client, red);
    let are_begun = calls_of(&put) == 1 && calls_of(&get) == 1 && calls_of(&find) == 2;
    let sent: Result<u32, Refusal> = sessions.retry(client);
    let stopped: Result<(), Refusal> = sessions.stop(client);
    let is_idle = sent == Ok(0) && stopped == Ok(());
    Some(ready == Ok(base) && are_begun && is_idle)
}

/// How many keys were read or listed, or the number of the move.
fn number_of_move(moved: &Move) -> usize {
    match moved {
        Move::Wait => 20,
        Move::Decided(_) => 21,
        Move::Done(_) => 22,
        Move::Ask => 23,
        Move::Begins => 24,
        Move::Read(readings) => readings.as_slice().len(),
        Move::Listed(readings) => readings.as_slice().len(),
        Move::Restart(_, _) => 25,
        Move::Ended(_, _) => 26,
        Move::Ignored => 27,
    }
}

/// Whether the reply to a read's call is taken, and its repeat is ignored.
fn is_taken(alloc: Global) -> Option<bool> {
    let _named = no_parts();
    let (client, keys): (Client, [Key; 1]) = (client(1)?, [key("x")?]);
    let mut sessions = Sessions::open(alloc, 2, 1).ok()?;
    if sessions.hello(client, Counter::new(0)?).is_err() {
        return None;
    }
    let begin: Result<Begin<'_>, Refusal> = sessions.begin_get(client, &keys);
    match &begin {
        Ok(begin) => sessions.start(begin),
        Err(_) => return None,
    }
    let call: Message = sessions.call(client, 0)?;
    let message = Message {
        reply: Some(Reply::Get(ReadReply::Initial)),
        ..call
    };
    let read: Move = sessions.take(&message);
    let ignored: Move = sessions.take(&message);
    let sends: bool = read.sends();
    Some(number_of_move(&read) == 1 && number_of_move(&ignored) == 27 && !sends)
}

#[test]
fn tenant_sessions_has_its_calls(rt: HostRuntime) {
    assert!(rt; are_begun(rt.alloc()) == Some(true) && is_taken(rt.alloc()) == Some(true));
}

//! message_table: a tenant's messages by row.
use crate::values::{client, no_parts, stamp};
use message_table::Table;
use plain_store::{Call, Message, OutOfMemory};
use std::alloc::Global;

fn message() -> Option<Message> {
    Some(Message {
        client: client(1)?,
        ticket: 1,
        partition: 0,
        call: Call::Commit(stamp(1)?),
        reply: None,
    })
}

/// Whether a message is sent, seen and lost.
fn is_sent(alloc: Global) -> Option<bool> {
    let _named = no_parts();
    let message = message()?;
    let mut table: Table = Table::open(alloc);
    let reserved: Result<(), OutOfMemory> = table.reserve(1);
    let row: Result<u64, OutOfMemory> = table.send(message);
    let row = row.ok()?;
    let seen: Option<&Message> = table.get(row);
    let is_seen = seen == Some(&message);
    let lost: bool = table.lose(row);
    Some(reserved.is_ok() && row == 1 && is_seen && lost)
}

#[test]
fn message_table_has_its_calls(rt: HostRuntime) {
    assert!(rt; is_sent(rt.alloc()) == Some(true));
}

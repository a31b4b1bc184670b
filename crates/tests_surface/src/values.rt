//! Values that the tests share. In a store of two partitions x belongs to the first, and y at the second.
use plain_store::{Call, ReadReply, Reply};
use stamps::{Client, Item, Keep, Key, Limits, Record, Stamp, Tag, Value, WriteSet};

pub fn key(text: &str) -> Option<Key> {
    Key::read(text.as_bytes())
}

pub fn tag(text: &str) -> Option<Tag> {
    Tag::read(text.as_bytes())
}

/// A stamp of client 1.
pub fn stamp(counter: u64) -> Option<Stamp> {
    Stamp::new(counter, 1)
}

/// The item with the value 1, under the tag `red`.
pub fn item(text: &str) -> Option<Item> {
    Some(Item {
        key: key(text)?,
        tag: tag("red")?,
        value: Value::read(b"1")?,
    })
}

/// The version of an item that client 1 wrote under this counter, in a transaction that wrote it alone.
pub fn record(text: &str, counter: u64) -> Option<Record> {
    let Item { key, tag, value } = item(text)?;
    Record::new(key, tag, value, stamp(counter)?, WriteSet::new(&[key])?)
}

/// Room for so many versions, for four items and four clients; a collection keeps one committed version of an item.
pub fn limits(slots: u32) -> Option<Limits> {
    Limits::new(slots, 4, Keep::new(1)?, 4)
}

pub fn client(number: u16) -> Option<Client> {
    Client::new(number)
}

/// No call and no reply. A function that keeps one names the types of its parts by it, which the checker does not find in the call's or
/// the reply's.
pub fn no_parts() -> Option<(Stamp, Record, Call, Reply, ReadReply)> {
    None
}

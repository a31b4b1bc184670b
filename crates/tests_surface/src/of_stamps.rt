//! stamps: the small values. Each may be copied, and so is used twice.
use crate::values::{item, key, limits, record, stamp};
use stamps::{
    Client, Counter, Item, Keep, Key, Limits, Record, Stamp, Tag, Value, Visits, WriteSet, home,
};

/// Whether texts are read.
fn are_texts() -> Option<bool> {
    let key: Option<Key> = Key::read(b"x");
    let tag: Option<Tag> = Tag::read(b"red");
    let value: Option<Value> = Value::read(b"1");
    let (key, tag, value) = (key?, tag?, value?);
    let [one, other]: [Key; 2] = [key, key];
    let [red, again]: [Tag; 2] = [tag, tag];
    let [first, second]: [Value; 2] = [value, value];
    Some(one == other && red == again && first == second && Key::read(b"").is_none())
}

/// Whether numbers are held within their ranges.
fn are_bounds() -> Option<bool> {
    let client: Option<Client> = Client::new(65535);
    let keep: Option<Keep> = Keep::new(255);
    let counter: Option<Counter> = Counter::new(1_099_511_627_775);
    let [client, other]: [Client; 2] = [client?; 2];
    let [keep, most]: [Keep; 2] = [keep?; 2];
    let [counter, last]: [Counter; 2] = [counter?; 2];
    let are_so = client.get() == 65535 && keep.get() == 255 && counter.get() == 1_099_511_627_775;
    let is_over = Counter::new(1_099_511_627_776).is_some() || Keep::new(0).is_some();
    Some(are_so && !is_over && client == other && keep == most && counter == last)
}

/// Whether limits have their fields.
fn are_limits() -> Option<bool> {
    let limits: Option<Limits> = Limits::new(65536, 65535, Keep::new(2)?, 1024);
    let [limits, _]: [Limits; 2] = [limits?; 2];
    let (slots, items): (u32, u32) = (limits.slots, limits.items);
    let (keep, clients): (Keep, u32) = (limits.keep, limits.clients);
    Some(slots == 65536 && items == 65535 && keep.get() == 2 && clients == 1024)
}

/// Whether stamps are in their order, and the next one is the client's own.
fn are_stamps() -> Option<bool> {
    let stamp: Option<Stamp> = Stamp::new(1, 2);
    let first = stamp?;
    let next: Option<Stamp> = first.next(5);
    let [next, other]: [Stamp; 2] = [next?; 2];
    let zero: Stamp = Stamp::ZERO;
    let is_drawn = next.counter() == 6 && next.client() == 2 && next == other;
    Some(zero < first && first < next && is_drawn)
}

/// Whether a record has its fields, and one of a transaction that did not write its key is none.
fn are_records() -> Option<bool> {
    let (x, y) = (key("x")?, key("y")?);
    let writes: Option<WriteSet> = WriteSet::new(&[x]);
    let [writes, others]: [WriteSet; 2] = [writes?; 2];
    let Item { key, tag, value }: Item = item("x")?;
    let made: Option<Record> = Record::new(key, tag, value, stamp(1)?, writes);
    let strange: Option<Record> = Record::new(y, tag, value, stamp(1)?, others);
    let [made, other]: [Record; 2] = [made?; 2];
    let is_item = made.key == x && made.tag == tag && made.value == value;
    let is_written = made.stamp == stamp(1)? && made.writes == others;
    Some(is_item && is_written && strange.is_none() && other == record("x", 1)?)
}

/// Whether each key has a home.
fn are_homes() -> Option<bool> {
    let at: u32 = home(&key("x")?, 2);
    let other: u32 = home(&key("y")?, 2);
    Some(at == 0 && other == 1 && limits(4)?.slots == 4)
}

/// Whether visits are counted.
fn are_visits() -> bool {
    let mut visits: Visits = Visits::new();
    visits.tick();
    let count: u64 = visits.count();
    count == 1
}

#[test]
fn stamps_has_its_calls(rt: HostRuntime) {
    let yes = Some(true);
    assert!(rt; are_texts() == yes && are_bounds() == yes && are_limits() == yes);
    assert!(rt; are_stamps() == yes && are_records() == yes);
    assert!(rt; are_homes() == yes && are_visits());
}

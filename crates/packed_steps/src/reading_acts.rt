//! The acts that were packed, from the front of the bytes, and the bytes behind each.
ghost use Rattle.std.specs.Prelude.{◌≡◌, IfOk};
ghost use Rattle.std.specs.Option.{option_map};
ghost use Rattle.packed.specs.Packing.{IsReadAgain};
ghost use Rattle.packed.specs.Reading.{key_at};
ghost use Rattle.packed_steps.specs.Lists.{many_at};
ghost use Rattle.packed_steps.specs.PackedActs.{packed_act, IsStoreAct, client_from, client_at, counter_from, counter_at, item_at, items_at, keys_at, hello_at, put_at, get_at, find_at, deliver_at, lose_at, retry_at, stop_at, collection_at, keep_at, kept_at, small_act_by, act_by, act_at};

use packed::{read_byte, read_count, read_key, read_number, read_tag, read_value};
use plain_store::{Act, Items, Keys};
use stamps::{Client, Counter, Item, Keep, Key};
use std::alloc::{AllocError, Global};

fn client_from(number: u64) -> Option<Client>
    ensures { result ≡ client_from number }
{
    if number > 65535 {
        return None;
    }
    Client::new(number as u16)
}

/// The client at the front.
#[tactic(auto, unfolding(crate::specs::PackedActs::client_at))]
pub fn read_client(bytes: &[u8]) -> Option<(Client, &[u8])>
    ensures { option_map (λ p. (p.0, p.1.now)) result ≡ client_at bytes.now }
{
    let (number, rest) = read_number(bytes)?;
    let client = client_from(number)?;
    Some((client, rest))
}

fn counter_from(number: u64) -> Option<Counter>
    ensures { result ≡ counter_from number }
{
    Counter::new(number)
}

/// The counter at the front.
#[tactic(auto, unfolding(crate::specs::PackedActs::counter_at))]
pub fn read_counter(bytes: &[u8]) -> Option<(Counter, &[u8])>
    ensures { option_map (λ p. (p.0, p.1.now)) result ≡ counter_at bytes.now }
{
    let (number, rest) = read_number(bytes)?;
    let counter = counter_from(number)?;
    Some((counter, rest))
}

/// The item at the front.
#[tactic(auto, unfolding(crate::specs::PackedActs::item_at))]
pub fn read_item(bytes: &[u8]) -> Option<(Item, &[u8])>
    ensures { option_map (λ p. (p.0, p.1.now)) result ≡ item_at bytes.now }
{
    let Some((key, rest)) = read_key(bytes) else {
        return None;
    };
    let Some((tag, rest)) = read_tag(rest) else {
        return None;
    };
    let Some((value, rest)) = read_value(rest) else {
        return None;
    };
    Some((Item { key, tag, value }, rest))
}

// So many items.
fn items_of(
    alloc: Global,
    count: u64,
    bytes: &[u8],
) -> Result<Option<(Vec<Item>, &[u8])>, AllocError>
    ensures { IfOk result (λ found. option_map (λ p. (p.0.items, p.1.now)) found
        ≡ many_at item_at count bytes.now) }
{
    let mut items = Vec::new(alloc);
    let mut rest = bytes;
    for at in 0..count {
        let _at = at;
        let Some((item, after)) = read_item(rest) else {
            return Ok(None);
        };
        items.push(item)?;
        rest = after;
    }
    Ok(Some((items, rest)))
}

#[tactic(auto, unfolding(crate::specs::PackedActs::items_at))]
fn items_at(alloc: Global, bytes: &[u8]) -> Result<Option<(Vec<Item>, &[u8])>, AllocError>
    ensures { IfOk result (λ found. option_map (λ p. (p.0.items, p.1.now)) found
        ≡ items_at bytes.now) }
{
    let Some((count, rest)) = read_number(bytes) else {
        return Ok(None);
    };
    items_of(alloc, count, rest)
}

// So many keys.
fn keys_of(alloc: Global, count: u64, bytes: &[u8]) -> Result<Option<(Vec<Key>, &[u8])>, AllocError>
    ensures { IfOk result (λ found. option_map (λ p. (p.0.items, p.1.now)) found
        ≡ many_at key_at count bytes.now) }
{
    let mut keys = Vec::new(alloc);
    let mut rest = bytes;
    for at in 0..count {
        let _at = at;
        let Some(read) = read_key(rest) else {
            return Ok(None);
        };
        keys.push(read.0)?;
        rest = read.1;
    }
    Ok(Some((keys, rest)))
}

#[tactic(auto, unfolding(crate::specs::PackedActs::keys_at))]
fn keys_at(alloc: Global, bytes: &[u8]) -> Result<Option<(Vec<Key>, &[u8])>, AllocError>
    ensures { IfOk result (λ found. option_map (λ p. (p.0.items, p.1.now)) found
        ≡ keys_at bytes.now) }
{
    let Some((count, rest)) = read_number(bytes) else {
        return Ok(None);
    };
    keys_of(alloc, count, rest)
}

#[tactic(auto, unfolding(crate::specs::PackedActs::put_at))]
fn put_at(alloc: Global, bytes: &[u8]) -> Result<Option<(Act, &[u8])>, AllocError>
    ensures { IfOk result (λ found. option_map (λ p. (p.0, p.1.now)) found ≡ put_at bytes.now) }
{
    let Some((client, rest)) = read_client(bytes) else {
        return Ok(None);
    };
    let Some((items, rest)) = items_at(alloc, rest)? else {
        return Ok(None);
    };
    Ok(Some((Act::Put(client, Items::new(items)), rest)))
}

#[tactic(auto, unfolding(crate::specs::PackedActs::get_at))]
fn get_at(alloc: Global, bytes: &[u8]) -> Result<Option<(Act, &[u8])>, AllocError>
    ensures { IfOk result (λ found. option_map (λ p. (p.0, p.1.now)) found ≡ get_at bytes.now) }
{
    let Some((client, rest)) = read_client(bytes) else {
        return Ok(None);
    };
    let Some((keys, rest)) = keys_at(alloc, rest)? else {
        return Ok(None);
    };
    Ok(Some((Act::Get(client, Keys::new(keys)), rest)))
}

#[tactic(auto, unfolding(crate::specs::PackedActs::hello_at))]
fn hello_at(bytes: &[u8]) -> Option<(Act, &[u8])>
    ensures { option_map (λ p. (p.0, p.1.now)) result ≡ hello_at bytes.now }
{
    let Some((client, rest)) = read_client(bytes) else {
        return None;
    };
    let Some((base, rest)) = read_counter(rest) else {
        return None;
    };
    Some((Act::Hello(client, base), rest))
}

#[tactic(auto, unfolding(crate::specs::PackedActs::find_at))]
fn find_at(bytes: &[u8]) -> Option<(Act, &[u8])>
    ensures { option_map (λ p. (p.0, p.1.now)) result ≡ find_at bytes.now }
{
    let Some((client, rest)) = read_client(bytes) else {
        return None;
    };
    let Some((tag, rest)) = read_tag(rest) else {
        return None;
    };
    Some((Act::Find(client, tag), rest))
}

#[tactic(auto, unfolding(crate::specs::PackedActs::deliver_at))]
fn deliver_at(bytes: &[u8]) -> Option<(Act, &[u8])>
    ensures { option_map (λ p. (p.0, p.1.now)) result ≡ deliver_at bytes.now }
{
    let Some((row, rest)) = read_number(bytes) else {
        return None;
    };
    Some((Act::Deliver(row), rest))
}

#[tactic(auto, unfolding(crate::specs::PackedActs::lose_at))]
fn lose_at(bytes: &[u8]) -> Option<(Act, &[u8])>
    ensures { option_map (λ p. (p.0, p.1.now)) result ≡ lose_at bytes.now }
{
    let Some((row, rest)) = read_number(bytes) else {
        return None;
    };
    Some((Act::Lose(row), rest))
}

#[tactic(auto, unfolding(crate::specs::PackedActs::retry_at))]
fn retry_at(bytes: &[u8]) -> Option<(Act, &[u8])>
    ensures { option_map (λ p. (p.0, p.1.now)) result ≡ retry_at bytes.now }
{
    let Some((client, rest)) = read_client(bytes) else {
        return None;
    };
    Some((Act::Retry(client), rest))
}

#[tactic(auto, unfolding(crate::specs::PackedActs::stop_at))]
fn stop_at(bytes: &[u8]) -> Option<(Act, &[u8])>
    ensures { option_map (λ p. (p.0, p.1.now)) result ≡ stop_at bytes.now }
{
    let Some((client, rest)) = read_client(bytes) else {
        return None;
    };
    Some((Act::Stop(client), rest))
}

#[tactic(auto, unfolding(crate::specs::PackedActs::collection_at))]
fn collection_at(bytes: &[u8]) -> Option<(Act, &[u8])>
    ensures { option_map (λ p. (p.0, p.1.now)) result ≡ collection_at bytes.now }
{
    let Some((partition, rest)) = read_count(bytes) else {
        return None;
    };
    Some((Act::Collect(partition), rest))
}

/// The number of kept versions at the front.
#[tactic(auto, unfolding(crate::specs::PackedActs::keep_at))]
pub fn read_keep(bytes: &[u8]) -> Option<(Keep, &[u8])>
    ensures { option_map (λ p. (p.0, p.1.now)) result ≡ keep_at bytes.now }
{
    let (number, rest) = read_byte(bytes)?;
    let keep = Keep::new(number)?;
    Some((keep, rest))
}

#[tactic(auto, unfolding(crate::specs::PackedActs::kept_at))]
fn kept_at(bytes: &[u8]) -> Option<(Act, &[u8])>
    ensures { option_map (λ p. (p.0, p.1.now)) result ≡ kept_at bytes.now }
{
    let Some((keep, rest)) = read_keep(bytes) else {
        return None;
    };
    Some((Act::Keep(keep), rest))
}

// The parts of a form that no list stands in.
#[tactic(auto, unfolding(crate::specs::PackedActs::small_act_by))]
fn small_act_by(form: u8, bytes: &[u8]) -> Option<(Act, &[u8])>
    ensures { option_map (λ p. (p.0, p.1.now)) result ≡ small_act_by form bytes.now }
{
    match form {
        0 => hello_at(bytes),
        3 => find_at(bytes),
        4 => deliver_at(bytes),
        5 => lose_at(bytes),
        6 => retry_at(bytes),
        7 => stop_at(bytes),
        8 => collection_at(bytes),
        9 => kept_at(bytes),
        _ => None,
    }
}

// The parts of this form.
#[tactic(auto, unfolding(crate::specs::PackedActs::act_by))]
fn act_by(alloc: Global, form: u8, bytes: &[u8]) -> Result<Option<(Act, &[u8])>, AllocError>
    ensures { IfOk result (λ found. option_map (λ p. (p.0, p.1.now)) found
        ≡ act_by form bytes.now) }
{
    match form {
        1 => put_at(alloc, bytes),
        2 => get_at(alloc, bytes),
        _ => Ok(small_act_by(form, bytes)),
    }
}

#[tactic(auto, unfolding(crate::specs::PackedActs::act_at))]
fn act_at(alloc: Global, bytes: &[u8]) -> Result<Option<(Act, &[u8])>, AllocError>
    ensures { IfOk result (λ found. option_map (λ p. (p.0, p.1.now)) found ≡ act_at bytes.now) }
{
    let Some((form, rest)) = read_byte(bytes) else {
        return Ok(None);
    };
    act_by(alloc, form, rest)
}

/// The act at the front. Where the bytes begin with a packed act, it is that one.
pub fn read_act(alloc: Global, bytes: &[u8]) -> Result<Option<(Act, &[u8])>, AllocError>
    ensures exact { IfOk result (λ found. option_map (λ p. (p.0, p.1.now)) found
        ≡ act_at bytes.now) }
    ensures again { IfOk result (λ found. IsReadAgain packed_act IsStoreAct
        (option_map (λ p. (p.0, p.1.now)) found) bytes.now) }
{
    act_at(alloc, bytes)
}

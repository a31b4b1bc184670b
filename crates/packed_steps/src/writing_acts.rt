//! Acts, packed at the end of bytes.
ghost use Rattle.std.specs.Prelude.{◌+◌, ◌≤◌, length};
ghost use Rattle.packed.specs.Packing.{packed_text};
ghost use Rattle.packed.specs.Sizes.{max_item_bytes};
ghost use Rattle.packed_steps.specs.Lists.{packed_list};
ghost use Rattle.plain_store.specs.declared.step.Act.TheVariants.{Put, Get, Find};
ghost use Rattle.packed_steps.specs.PackedActs.{packed_item, IsStoreItem, AreStoreItems, AreStoreKeys, packed_act, IsStoreAct};
ghost use Rattle.packed.specs.Laying.{PutsIfOk, PutsValue};

use packed::{
    Buffer, MAX_ITEM_BYTES, MAX_KEY_BYTES, MAX_NUMBER_BYTES, put_key, put_number, put_tag,
    put_value,
};
use plain_store::Act;
use stamps::{Client, Item, Key, Tag};
use std::alloc::AllocError;

/// An item, part by part. It takes up to `MAX_ITEM_BYTES`.
pub fn put_item(out: &mut Buffer, item: &Item)
    requires { length out.old.items + max_item_bytes ≤ out.old.capacity }
    ensures { PutsValue (packed_item item.now) max_item_bytes
        (IsStoreItem item.now) out.old out.new }
{
    put_key(out, &item.key);
    put_tag(out, &item.tag);
    put_value(out, &item.value);
}

/// Items behind their count. At `Err` some of their bytes may stand there.
pub fn put_items(out: &mut Buffer, items: &[Item]) -> Result<(), AllocError>
    ensures { PutsIfOk (packed_list packed_item items.now)
        (AreStoreItems items.now) out.old out.new result }
{
    out.reserve(MAX_NUMBER_BYTES)?;
    put_number(out, items.len() as u64);
    for item in items {
        out.reserve(MAX_ITEM_BYTES)?;
        put_item(out, item);
    }
    Ok(())
}

/// Any number of keys behind their count. At `Err` some of their bytes may stand there.
pub fn put_all_keys(out: &mut Buffer, keys: &[Key]) -> Result<(), AllocError>
    ensures { PutsIfOk (packed_list packed_text keys.now)
        (AreStoreKeys keys.now) out.old out.new result }
{
    out.reserve(MAX_NUMBER_BYTES)?;
    put_number(out, keys.len() as u64);
    for key in keys {
        out.reserve(MAX_KEY_BYTES)?;
        put_key(out, key);
    }
    Ok(())
}

/// An act that writes these items. At `Err` some of its bytes may stand there, and so it is of the two below.
pub fn put_put_act(out: &mut Buffer, client: Client, items: &[Item]) -> Result<(), AllocError>
    ensures { PutsIfOk (packed_act (Put client items.now))
        (IsStoreAct (Put client items.now)) out.old out.new result }
{
    out.reserve(1 + MAX_NUMBER_BYTES)?;
    out.push_reserved(1);
    put_number(out, u64::from(client.get()));
    put_items(out, items)
}

/// An act that reads these keys.
pub fn put_get_act(out: &mut Buffer, client: Client, keys: &[Key]) -> Result<(), AllocError>
    ensures { PutsIfOk (packed_act (Get client keys.now))
        (IsStoreAct (Get client keys.now)) out.old out.new result }
{
    out.reserve(1 + MAX_NUMBER_BYTES)?;
    out.push_reserved(2);
    put_number(out, u64::from(client.get()));
    put_all_keys(out, keys)
}

/// An act that searches by this tag.
pub fn put_find_act(out: &mut Buffer, client: Client, tag: &Tag) -> Result<(), AllocError>
    ensures { PutsIfOk (packed_act (Find client tag.now))
        (IsStoreAct (Find client tag.now)) out.old out.new result }
{
    out.reserve(1 + 3 * MAX_NUMBER_BYTES)?;
    out.push_reserved(3);
    put_number(out, u64::from(client.get()));
    put_tag(out, tag);
    Ok(())
}

/// A byte for the form of the act, and its parts. At `Err` some of their bytes may stand there.
pub fn put_act(out: &mut Buffer, act: &Act) -> Result<(), AllocError>
    ensures { PutsIfOk (packed_act act.now) (IsStoreAct act.now) out.old out.new result }
{
    out.reserve(1 + 3 * MAX_NUMBER_BYTES)?;
    match act {
        Act::Hello(client, base) => {
            out.push_reserved(0);
            put_number(out, u64::from(client.get()));
            put_number(out, base.get());
        }
        Act::Put(client, items) => put_put_act(out, *client, items.as_slice())?,
        Act::Get(client, keys) => put_get_act(out, *client, keys.as_slice())?,
        Act::Find(client, tag) => put_find_act(out, *client, tag)?,
        Act::Deliver(row) => {
            out.push_reserved(4);
            put_number(out, *row);
        }
        Act::Lose(row) => {
            out.push_reserved(5);
            put_number(out, *row);
        }
        Act::Retry(client) => {
            out.push_reserved(6);
            put_number(out, u64::from(client.get()));
        }
        Act::Stop(client) => {
            out.push_reserved(7);
            put_number(out, u64::from(client.get()));
        }
        Act::Collect(partition) => {
            out.push_reserved(8);
            put_number(out, u64::from(*partition));
        }
        Act::Keep(keep) => {
            out.push_reserved(9);
            out.push_reserved(keep.get());
        }
    }
    Ok(())
}

//! The table.
ghost use Rattle.std.specs.Prelude.{◌≡◌, ◌+◌, ◌-◌, ◌<◌, ◌≤◌, max, ℕ, IsOk, IfOk, OnOk, OnErr, List, [], ◌∷◌, ◌++◌, length, is_some, nat_eq, nat_le, nat_lt, ◌&&◌, if◌then◌else◌, Some, None};
ghost use Rattle.std.specs.FinMap as map;
ghost use Rattle.std.specs.Option.{option_copied};
ghost use Rattle.indexmap.specs.IndexMap.{IsUnique, IsUnchanged, Updates, spare};
ghost use Rattle.stamps.specs.Limits.{max_rows};
ghost use Rattle.plain_store.specs.declared.message.Message.{Message as Sent};
ghost use Rattle.plain_store.specs.History.{History, messages, lost_rows, message_at};
ghost use Rattle.message_table.specs.Content.{StandsFor, message_in};

use indexmap::IndexMap;
use plain_store::{Call, Message, OutOfMemory, ReadReply, Reply};
use stamps::{Stamp, limits};
use std::alloc::Global;
use std::marker::Model;

/// The live messages of a tenant: row `r` is the `r`-th message that was sent, from 1 on, lost ones excepted.
///
/// Contracts see how many were sent, the live ones by their rows, and for how many more there is room already.
///
/// Each message takes a place of the map, 1.5 KB, until it is lost, and the map has places for as many more as there is
/// room for. So memory goes by the greatest number of places that were needed at one time, which the map rounds up as it
/// grows.
/// What is lost gives its place back to later messages, and no memory to the allocator before the table ends; the map may
/// grow once more before it uses such a place again.
pub struct Table {
    sent: u64,
    reserved: u64,
    rows: IndexMap<u64, Message>,
}

// What lies in it is released here, so that no crate above proves it anew.
impl Drop for Table {
    fn drop(self) {
        let Table {
            sent: _,
            reserved: _,
            rows: _,
        } = self;
    }
}

impl Model for Table {
    ghost use Rattle.std.specs.Prelude.{◌+◌, ◌≤◌};
    ghost use Rattle.stamps.specs.Limits.{max_rows};
    ghost use Rattle.message_table.specs.Content.{TableContent, content_code};
    ghost use Rattle.message_table.specs.Layout.{live_in, HoldsRows};

    ghost Value = { TableContent };

    ghost coded = { content_code };

    ghost view = { λ t. record { sent = t.sent; live = live_in t.rows.entries; reserved = t.reserved } };

    ghost invariant = { λ t. HoldsRows t.sent t.reserved t.rows × (t.sent + t.reserved ≤ max_rows) };
}

impl Table {
    /// The most messages that a table takes.
    pub const MAX_ROWS: u64 = limits::MAX_ROWS;

    /// A table of no message. It takes no memory.
    pub fn open(alloc: Global) -> Table
        ensures value { result ≡ record { sent = 0; live = map.empty; reserved = 0 } }
        ensures stands { StandsFor result [] [] }
    {
        Table {
            sent: 0,
            reserved: 0,
            rows: IndexMap::new(alloc),
        }
    }

    /// How many messages were sent, lost ones too.
    pub fn sent(&self) -> u64
        ensures value { result ≡ self.now.sent }
        ensures in_range { result ≤ max_rows }
    {
        self.sent
    }

    /// Makes room for the next `n` messages, so that sending them takes no memory. Room that is there already counts.
    ///
    /// It fails where an allocation failed, and then nothing has changed.
    pub fn reserve(&mut self, n: u32) -> Result<(), OutOfMemory>
        requires { self.old.sent + n ≤ max_rows }
        ensures ok { OnOk result (self.new
            ≡ record self.old { reserved = max self.old.reserved n }) }
        ensures err { OnErr result (self.new ≡ self.old) }
        ensures succeeds { n ≤ self.old.reserved → IsOk result }
        ensures stands { (messages : List Sent) (lost : List ℕ) → StandsFor self.old messages lost
            → StandsFor self.new messages lost }
    {
        let wanted = u64::from(n);
        if wanted <= self.reserved {
            return Ok(());
        }
        self.rows.reserve(n as usize)?;
        self.reserved = wanted;
        Ok(())
    }

    /// Adds a message, and answers its row, which is one above the last one given.
    ///
    /// It takes memory where no room was made for it. It fails where an allocation failed, and then nothing has changed.
    pub fn send(&mut self, message: Message) -> Result<u64, OutOfMemory>
        requires { self.old.sent < max_rows }
        ensures row { IfOk result (λ row. row ≡ self.old.sent + 1) }
        ensures ok { OnOk result (self.new ≡ record {
          sent = self.old.sent + 1;
          live = map.insert self.old.live (self.old.sent + 1) message;
          reserved = self.old.reserved - 1;
        }) }
        ensures err { OnErr result (self.new ≡ self.old) }
        ensures succeeds { 0 < self.old.reserved → IsOk result }
        ensures next_row { (messages : List Sent) (lost : List ℕ) → StandsFor self.old messages lost
            → IfOk result (λ row. row ≡ length messages + 1) }
        ensures stands { (messages : List Sent) (lost : List ℕ) → StandsFor self.old messages lost
            → OnOk result (StandsFor self.new (messages ++ message ∷ []) lost) }
    {
        let row = self.sent + 1;
        let _named = no_call();
        put(&mut self.rows, row, message)?;
        self.sent = row;
        self.reserved = self.reserved.saturating_sub(1);
        Ok(row)
    }

    /// The message of a row, unless it was never sent or was lost.
    pub fn get(&self, row: u64) -> Option<&Message>
        ensures value { option_copied result ≡ map.get self.now.live row }
        ensures sent { (messages : List Sent) (lost : List ℕ) → StandsFor self.now messages lost
            → option_copied result ≡ message_in messages lost row }
        ensures in_history { (history : History)
            → StandsFor self.now (messages history) (lost_rows history)
            → option_copied result ≡ message_at history row }
    {
        self.rows.get(&row)
    }

    /// Loses the message of a row, and says whether there was one. Its row is not given again. This takes no memory.
    pub fn lose(&mut self, row: u64) -> bool
        ensures was_live { result ≡ map.contains_key self.old.live row }
        ensures value { self.new ≡ record self.old { live = map.remove self.old.live row } }
        ensures stands { (messages : List Sent) (lost : List ℕ) → StandsFor self.old messages lost
            → StandsFor self.new messages (if result then row ∷ lost else lost) }
    {
        if self.get(row).is_none() {
            return false;
        }
        self.rows.swap_remove(&row);
        true
    }
}

/// Puts the item under its row. It fails where an allocation failed, and then nothing has changed.
fn put<T: Drop>(rows: &mut IndexMap<u64, T>, row: u64, item: T) -> Result<(), OutOfMemory>
    ensures updates { OnOk result (Updates nat_eq rows.old rows.new row (Some item)) }
    ensures err { OnErr result (IsUnchanged rows.old rows.new) }
    ensures succeeds { 0 < spare rows.old → IsOk result }
    ensures spare { spare rows.old ≤ spare rows.new + 1 }
    ensures unique { IsUnique nat_eq rows.new }
{
    if rows.insert(row, item).is_err() {
        return Err(OutOfMemory);
    }
    Ok(())
}

/// No call. A function that keeps a message names the types of calls and replies by it, which the checker does not find in
/// the message's.
fn no_call() -> Option<(Call, Reply, ReadReply, Stamp)> {
    None
}

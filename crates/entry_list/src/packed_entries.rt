//! Entries, packed one behind the other.
ghost use Rattle.std.specs.Prelude.{◌≡◌, ℕ, ◌+◌, ◌<◌, ◌≤◌, ◌^◌, ◌++◌, ◌∷◌, ◌↔◌, [], length, take, Some, IsTrue, slice_get, option_and_then, IfOk, OnOk, OnErr};
ghost use Rattle.entry_list.specs.LentActs.{act_lent};
ghost use Rattle.entry_list.specs.Raises.{raise_entries};
ghost use Rattle.entry_list.specs.PackedEntries.{taken_of, answer_of, operation_of, entry_in, IsPackedEntry};

use crate::entry_decoding::{answer_in, operation_in, taken_in, unpacked};
use crate::entry_encoding::{
    AnsweredParts, GreetedParts, MAX_RAISE_BYTES, MAX_TOOK_BYTES, StoppedParts, TookParts,
    put_began,
};
use crate::kinds::{Entry, LentAct, Operation, Taken};
use packed::{Buffer, PackedList};
use plain_store::{Act, Answer, Reply};
use stamps::{Client, Counter, Item};
use std::alloc::{AllocError, Global};
use std::marker::Model;

/// Entries, packed one behind the other. Contracts see them in order, and for how many replies there is room: an answer
/// takes the room of 5.
pub struct EntryList {
    list: PackedList,
    // Where the entry that an operation began is packed first.
    scratch: Buffer,
    room: usize,
}

// What lies in it is released here, so that no crate above proves it anew.
impl Drop for EntryList {
    fn drop(self) {
        let EntryList {
            list: _,
            scratch: _,
            room: _,
        } = self;
    }
}

impl Model for EntryList {
    ghost use Rattle.std.specs.Prelude.{◌*◌, ◌<◌, ◌≤◌};
    ghost use Rattle.entry_list.specs.PackedEntries.{ArePackedEntries, EntriesView, entries_in};
    ghost use Rattle.entry_list.specs.Sizes.{max_took_bytes};

    ghost Value = { EntriesView };

    ghost view = { λ l. record { items = entries_in l.list.items; room = l.room } };

    ghost invariant = { λ l. ArePackedEntries l.list.items × (l.room ≤ l.list.places) × (max_took_bytes * l.room ≤ l.list.bytes) };
}

impl EntryList {
    /// No entries. It takes no memory.
    pub fn new(alloc: Global) -> EntryList
        ensures items { result.items ≡ [] }
        ensures room { result.room ≡ 0 }
    {
        EntryList {
            list: PackedList::new(alloc),
            scratch: Buffer::new(alloc),
            room: 0,
        }
    }

    /// The list of these entries.
    pub fn of(alloc: Global, entries: &[Entry]) -> Result<EntryList, AllocError>
        ensures { IfOk result (λ list. list.items ≡ entries.now) }
    {
        let mut list = EntryList::new(alloc);
        for entry in entries {
            list.push(entry)?;
        }
        Ok(list)
    }

    /// The allocator with which it was made.
    pub fn alloc(&self) -> Global {
        self.scratch.alloc()
    }

    /// The number of entries.
    pub fn len(&self) -> usize
        ensures count { result ≡ length self.now.items }
        ensures few { length self.now.items < 2 ^ 63 }
    {
        self.list.len()
    }

    /// Whether there is no entry.
    pub fn is_empty(&self) -> bool
        ensures { IsTrue result ↔ (self.now.items ≡ []) }
    {
        self.len() == 0
    }

    /// The entry at a place, from 0, with a copy of its items or keys.
    pub fn entry(&self, alloc: Global, at: usize) -> Result<Entry, AllocError>
        requires { at < length self.now.items }
        ensures { IfOk result (λ entry. Some entry ≡ slice_get self.now.items at) }
    {
        unpacked(alloc, self.packed(at))
    }

    /// The bytes of the entry at a place, from 0.
    fn packed(&self, at: usize) -> &[u8]
        requires { at < length self.now.items }
        ensures packed { IsPackedEntry result.now }
        ensures entry { Some (entry_in result.now) ≡ slice_get self.now.items at }
    {
        self.list.get(at)
    }

    /// The reply that was taken at a place, from 0, if the entry there is that. It takes no memory.
    pub fn taken(&self, at: usize) -> Option<Taken>
        ensures { result ≡ option_and_then taken_of (slice_get self.now.items at) }
    {
        if at < self.len() {
            taken_in(self.packed(at))
        } else {
            None
        }
    }

    /// What was answered at a place, from 0, if the entry there is that. It takes no memory.
    pub fn answer(&self, at: usize) -> Option<Answer>
        ensures { result ≡ option_and_then answer_of (slice_get self.now.items at) }
    {
        if at < self.len() {
            answer_in(self.packed(at))
        } else {
            None
        }
    }

    /// What the operation that was begun at a place, from 0, does, if the entry there is that of a put, a get or a find. It takes
    /// no memory.
    pub fn operation(&self, at: usize) -> Option<Operation>
        ensures { result ≡ option_and_then operation_of (slice_get self.now.items at) }
    {
        if at < self.len() {
            operation_in(self.packed(at))
        } else {
            None
        }
    }

    /// Makes room for so many replies. At `Err` the entries are as they were.
    pub fn reserve(&mut self, room: usize) -> Result<(), AllocError>
        requires { room < 2 ^ 32 }
        ensures items { self.new.items ≡ self.old.items }
        ensures room { OnOk result (self.new.room ≡ room) }
    {
        self.room = 0;
        self.list.reserve(room, MAX_TOOK_BYTES * room)?;
        self.room = room;
        Ok(())
    }

    /// Puts the entry that an operation began at the end, and makes room for so many replies behind it. At `Err` the entries
    /// are as they were.
    pub fn push_began(&mut self, act: &LentAct<'_>, room: usize) -> Result<(), AllocError>
        requires { room < 2 ^ 32 }
        ensures ok { OnOk result (self.new.items ≡ self.old.items
            ++ Entry.Began (act_lent act.now) ∷ []) }
        ensures room { OnOk result (self.new.room ≡ room) }
        ensures err { OnErr result (self.new.items ≡ self.old.items) }
    {
        self.room = 0;
        self.scratch.clear();
        put_began(&mut self.scratch, act)?;
        let entry = self.scratch.as_slice();
        self.list
            .reserve(room + 1, MAX_TOOK_BYTES * room + entry.len())?;
        self.list.push_reserved(entry);
        self.room = room;
        Ok(())
    }

    /// Puts the entries of a raise at the end: the client's session ends, and begins again from this counter. At `Err` the entries are
    /// as they were.
    pub fn push_raise(&mut self, client: Client, counter: Counter) -> Result<(), AllocError>
        ensures ok { OnOk result (self.new.items ≡ self.old.items ++ raise_entries client counter) }
        ensures err { OnErr result (self.new.items ≡ self.old.items) }
    {
        self.room = 0;
        self.list.reserve(2, MAX_RAISE_BYTES)?;
        self.list.push_packed(&StoppedParts { client });
        self.list.push_packed(&GreetedParts { client, counter });
        Ok(())
    }

    /// Puts the entry of a reply at the end, for which there is room. It takes no memory.
    pub fn push_took(&mut self, number: u64, partition: u32, place: u64, reply: &Reply)
        requires { 0 < self.old.room }
        ensures items { self.new.items ≡ self.old.items
            ++ Entry.Took number partition place reply.now ∷ [] }
        ensures room { self.new.room + 1 ≡ self.old.room }
    {
        let parts = TookParts {
            number,
            partition,
            place,
            reply,
        };
        self.list.push_packed(&parts);
        self.room -= 1;
    }

    /// Puts the entry of an answer at the end, for which there is the room of 5 replies. It takes no memory.
    pub fn push_answered(&mut self, answer: &Answer)
        requires { 5 ≤ self.old.room }
        ensures items { self.new.items ≡ self.old.items ++ Entry.Answered answer.now ∷ [] }
        ensures room { self.new.room + 5 ≡ self.old.room }
    {
        let parts = AnsweredParts { answer };
        self.list.push_packed(&parts);
        self.room -= 5;
    }

    /// Puts the entry that an operation began at the end. At `Err` the entries are as they were.
    fn push_act(&mut self, act: &Act) -> Result<(), AllocError>
        ensures ok { OnOk result (self.new.items ≡ self.old.items ++ Entry.Began act.now ∷ []) }
        ensures err { OnErr result (self.new.items ≡ self.old.items) }
    {
        if let Act::Put(client, items) = act {
            let items: &[Item] = items.as_slice();
            return self.push_began(&LentAct::Put(*client, items), 0);
        }
        self.push_began(&LentAct::Whole(act), 0)
    }

    /// Puts an entry at the end. At `Err` the entries are as they were.
    pub fn push(&mut self, entry: &Entry) -> Result<(), AllocError>
        ensures ok { OnOk result (self.new.items ≡ self.old.items ++ entry.now ∷ []) }
        ensures err { OnErr result (self.new.items ≡ self.old.items) }
    {
        match entry {
            Entry::Began(act) => self.push_act(act),
            Entry::Took {
                number,
                partition,
                place,
                reply,
            } => {
                self.reserve(1)?;
                self.push_took(*number, *partition, *place, reply);
                Ok(())
            }
            Entry::Answered(answer) => {
                self.reserve(5)?;
                self.push_answered(answer);
                Ok(())
            }
        }
    }

    /// Puts the entries of another list at the end. At `Err` the first of them may stand there.
    pub fn append(&mut self, other: &EntryList) -> Result<(), AllocError>
        ensures ok { OnOk result (self.new.items ≡ self.old.items ++ other.now.items) }
        ensures some { (many : ℕ) × (self.new.items ≡ self.old.items ++ take many other.now.items) }
    {
        for at in 0..other.len() {
            self.push_packed(other.packed(at))?;
        }
        Ok(())
    }

    /// Puts a packed entry at the end. At `Err` the entries are as they were.
    fn push_packed(&mut self, entry: &[u8]) -> Result<(), AllocError>
        requires { IsPackedEntry entry.now }
        ensures ok { OnOk result (self.new.items ≡ self.old.items ++ entry_in entry.now ∷ []) }
        ensures err { OnErr result (self.new.items ≡ self.old.items) }
    {
        self.room = 0;
        self.list.push(entry)
    }

    /// Takes all entries out, and keeps the memory for others. It has no room then, as contracts see it.
    pub fn clear(&mut self)
        ensures items { self.new.items ≡ [] }
        ensures room { self.new.room ≡ 0 }
    {
        self.room = 0;
        self.list.clear();
    }

    /// Hands out the entries with the memory that they take. The list is empty then, and has no room.
    pub fn take(&mut self) -> EntryList
        ensures given { result.items ≡ self.old.items }
        ensures empty { self.new.items ≡ [] }
        ensures room { self.new.room ≡ 0 }
    {
        let alloc = self.scratch.alloc();
        self.room = 0;
        EntryList {
            list: self.list.take(),
            scratch: Buffer::new(alloc),
            room: 0,
        }
    }
}

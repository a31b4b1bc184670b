//! What a seat did, packed, or in proofs alone.
ghost use Rattle.std.specs.Prelude.{◌≡◌, ◌<◌, ◌≤◌, ◌^◌, ◌++◌, ◌∷◌, [], true, false, cond, OnOk, OnErr};
ghost use Rattle.entry_list.specs.SeatEntries.{Enters, StaysEntered};
ghost use Rattle.entry_list.specs.LentActs.{act_lent};
ghost use Rattle.entry_list.specs.Raises.{raise_entries};

use crate::entry_encoding::{AnsweredParts, GreetedParts, TookParts};
use crate::kinds::{Entry, LentAct};
use crate::notes::EntryNotes;
use crate::packed_entries::EntryList;
use plain_store::{Answer, Reply};
use stamps::{Client, Counter};
use std::alloc::{AllocError, Global};
use std::marker::Model;

/// The entries of a seat, in order. Contracts see them, for how many replies there is room, and whether they are recorded: if not, nobody
/// can read them, and they take no memory and no time.
pub struct SeatEntries {
    list: EntryList,
    notes: EntryNotes,
    // The room where nothing is recorded.
    room: usize,
    is_recorded: bool,
}

// What lies in it is released here, so that no crate above proves it anew.
impl Drop for SeatEntries {
    fn drop(self) {
        let SeatEntries {
            list: _,
            notes: _,
            room: _,
            is_recorded: _,
        } = self;
    }
}

impl Model for SeatEntries {
    ghost use Rattle.std.specs.Prelude.{cond};
    ghost use Rattle.entry_list.specs.SeatEntries.{SeatEntriesView};

    ghost Value = { SeatEntriesView };

    ghost view = { λ e. record { items = cond e.is_recorded e.list.items e.notes.items; room = cond e.is_recorded e.list.room e.room; recorded = e.is_recorded } };
}

impl SeatEntries {
    /// No entries, and those to come are recorded. It takes no memory.
    pub fn new(alloc: Global) -> SeatEntries
        ensures { result ≡ record { items = []; room = 0; recorded = true } }
    {
        SeatEntries {
            list: EntryList::new(alloc),
            notes: EntryNotes::new(),
            room: 0,
            is_recorded: true,
        }
    }

    /// Takes all entries out, and records none of those to come.
    pub fn stop_recording(&mut self)
        ensures { self.new ≡ record { items = []; room = 0; recorded = false } }
    {
        let _ = self.list.take();
        self.notes = EntryNotes::new();
        self.room = 0;
        self.is_recorded = false;
    }

    /// Puts the entry that an operation began at the end, and makes room for so many replies behind it. At `Err` the entries
    /// are as they were.
    pub fn push_began(&mut self, act: &LentAct<'_>, room: usize) -> Result<(), AllocError>
        requires { room < 2 ^ 32 }
        ensures ok { OnOk result (self.new ≡ record self.old
            { items = self.old.items ++ Entry.Began (act_lent act.now) ∷ []; room = room }) }
        ensures err { OnErr result (StaysEntered self.old self.new) }
    {
        if self.is_recorded {
            return self.list.push_began(act, room);
        }
        self.notes = EntryNotes::and_began(&self.notes, act);
        self.room = room;
        Ok(())
    }

    /// Puts the entries of a raise at the end: the client's session ends, and begins again from this counter. At `Err` the entries are
    /// as they were.
    pub fn push_raise(&mut self, client: Client, counter: Counter) -> Result<(), AllocError>
        ensures ok { OnOk result ((self.new.items
            ≡ self.old.items ++ raise_entries client counter)
            × (self.new.recorded ≡ self.old.recorded)) }
        ensures err { OnErr result (StaysEntered self.old self.new) }
    {
        if self.is_recorded {
            return self.list.push_raise(client, counter);
        }
        self.notes = EntryNotes::and_raised(&self.notes, &GreetedParts { client, counter });
        Ok(())
    }

    /// Puts the entry of a reply at the end, for which there is room. It takes no memory.
    pub fn push_took(&mut self, number: u64, partition: u32, place: u64, reply: &Reply)
        requires { 0 < self.old.room }
        ensures { Enters (Entry.Took number partition place reply.now) 1 self.old self.new }
    {
        if self.is_recorded {
            self.list.push_took(number, partition, place, reply);
        } else {
            let took = TookParts {
                number,
                partition,
                place,
                reply,
            };
            self.notes = EntryNotes::and_took(&self.notes, &took);
            self.room -= 1;
        }
    }

    /// Puts the entry of an answer at the end, for which there is the room of 5 replies. It takes no memory.
    pub fn push_answered(&mut self, answer: &Answer)
        requires { 5 ≤ self.old.room }
        ensures { Enters (Entry.Answered answer.now) 5 self.old self.new }
    {
        if self.is_recorded {
            self.list.push_answered(answer);
        } else {
            self.notes = EntryNotes::and_answered(&self.notes, &AnsweredParts { answer });
            self.room -= 5;
        }
    }

    /// Takes all entries out, and keeps the memory for others. It has no room then, as contracts see it.
    pub fn clear(&mut self)
        ensures { self.new ≡ record self.old { items = []; room = 0 } }
    {
        self.list.clear();
        self.notes = EntryNotes::new();
        self.room = 0;
    }

    /// Hands out the entries with the memory that they take, or no entries where they are not recorded. There are none then, and no room.
    pub fn take(&mut self) -> EntryList
        ensures given { result.items ≡ cond self.old.recorded self.old.items [] }
        ensures empty { self.new ≡ record self.old { items = []; room = 0 } }
    {
        self.notes = EntryNotes::new();
        self.room = 0;
        if self.is_recorded {
            return self.list.take();
        }
        EntryList::new(self.list.alloc())
    }
}

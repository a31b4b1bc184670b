//! A client's word beside what the client has seen of the history.
ghost use Rattle.std.specs.Prelude.{◌≡◌, ◌<◌, ◌↔◌, [], ◌∷◌, IfErr, IfOk, IsTrue, OnOk};
ghost use mathlib.Core.List.{IsPrefix};
ghost use Rattle.stamps.specs.Limits.{max_parts};
ghost use Rattle.plain_store.specs.Words.{◌∈◌};
ghost use Rattle.history.specs.declared.entry.HistoryEntry.TheVariants.{Joined, Arrived, Began, Decided, GivenUp, ReadBegan};
ghost use Rattle.history.specs.Entries.{HasMark, own};
ghost use Rattle.history.specs.Legal.{MayDecide, MayEnd};
ghost use Rattle.history.specs.Rules.{TakesNoEntry};
ghost use Rattle.traced_client.specs.Clients.{CannotBegin, CannotEnd, EntersOwn, HasJoined, HasReadEntry, IsRefusedFor, IsSameClient, ending_of, new_trace, write_of};

use history::{Decision, Front, Mark, Naming, Tally, WriteToBegin};
use stamps::{Client, Item, Stamp};
use std::marker::Model;

/// The most entries of a word.
const MOST: u64 = 1 << 62;

/// A client, and the word that counts its entries. Contracts see the word, whose it is, the stamp of its last write (0 before its
/// first), and what was seen of the history: it has each write of the client, none above that stamp.
#[derive(Drop)]
pub struct TracedClient<J: Naming> {
    pub(crate) tenant: u32,
    pub(crate) client: Client,
    last: Stamp,
    /// Whether that write has neither been decided nor refused.
    is_open: bool,
    tally: Tally<J>,
    entries: u64,
    front: Front<J>,
}

impl<J: Naming> Model for TracedClient<J> {
    ghost use Rattle.std.specs.Prelude.{◌≡◌};
    ghost use Rattle.history.specs.Entries.{count};
    ghost use Rattle.traced_client.specs.Clients.{ClientTrace, IsTracedClient};

    ghost Value = { ClientTrace };

    ghost view = { λ c. record { word = c.tally.key; tenant = c.tenant; client = c.client; last = c.last; seen = c.front } };

    ghost invariant = { λ c. IsTracedClient c.tally.key c.tenant c.client c.last c.is_open c.front × (count c.tally.key c.front ≡ c.entries) };
}

impl<J: Naming> TracedClient<J> {
    /// A client that has just come for the first time: its word, and what was seen of the history then.
    pub fn new(tenant: u32, client: Client, tally: Tally<J>, front: Front<J>) -> TracedClient<J>
        requires word { max_parts < tally.key }
        requires joined { Joined
            (record { word = tally.key; tenant = tenant; client = client }) ∈ front }
        requires alone { own tally.key front ≡ Arrived tally.key ∷ [] }
        ensures { result ≡ new_trace tally.key tenant client front }
    {
        TracedClient {
            tenant,
            client,
            last: Stamp::ZERO,
            is_open: false,
            tally,
            entries: 1,
            front,
        }
    }

    /// What was seen of the history: it has each write of the client.
    pub fn seen(&self) -> Front<J>
        ensures { result ≡ self.now.seen }
    {
        self.front.again()
    }

    /// Whether it is this client of this tenant.
    pub fn is_of(&self, tenant: u32, client: Client) -> bool
        ensures { IsTrue result ↔ ((self.now.tenant ≡ tenant) × (self.now.client ≡ client)) }
    {
        self.tenant == tenant && self.client == client
    }

    /// Enters that a write of the client began under this stamp. It does not where the stamp is another client's, or not above that of
    /// the client's last write, and where the client has other entries than were seen here, or 2^62. Then nothing has changed, and what
    /// was found of the history is returned: it has those other entries.
    pub fn begin(&mut self, stamp: Stamp, items: &[Item]) -> Result<(), Front<J>>
        ensures began { OnOk result (Began (write_of self.old stamp items.now) ∈ self.new.seen) }
        ensures entered { OnOk result
            (EntersOwn (Began (write_of self.old stamp items.now)) stamp self.old self.new) }
        ensures whose { IsSameClient self.old self.new }
        ensures refused { IfErr result
            (IsRefusedFor (CannotBegin stamp self.old) self.old self.new) }
    {
        if stamp.client() != self.client.get() || stamp.number() <= self.last.number() {
            return Err(self.front.again());
        }
        if self.entries >= MOST {
            return Err(self.front.again());
        }
        let begun = WriteToBegin {
            word: self.tally.key,
            tenant: self.tenant,
            stamp,
            items,
        };
        let mut front = self.front.again();
        if !front.begin(&self.tally, self.entries, &begun) {
            return Err(front);
        }
        self.front = front;
        self.entries += 1;
        self.last = stamp;
        self.is_open = true;
        Ok(())
    }

    /// Enters that a read or a search of the client begins, behind all that the evidence has seen, and answers its mark: what has it
    /// has all that stands before this entry. It does not where the client has other entries than were seen here, or 2^62. Then nothing
    /// has changed, and what was found of the history is returned: it has those other entries.
    pub fn begin_read(&mut self, evidence: &Front<J>) -> Result<Mark, Front<J>>
        ensures since { IfOk result (λ mark. HasReadEntry mark self.new.seen evidence.now) }
        ensures marked { IfOk result (λ mark. HasMark self.new.seen mark) }
        ensures joined { IfOk result (λ mark. HasJoined mark.word self.old) }
        ensures entered { OnOk result
            (EntersOwn (ReadBegan self.old.word) self.old.last self.old self.new) }
        ensures whose { IsSameClient self.old self.new }
        ensures refused { IfErr result
            (IsRefusedFor (TakesNoEntry self.old.word self.old.seen) self.old self.new) }
    {
        if self.entries >= MOST {
            return Err(self.front.again());
        }
        let word = self.tally.key;
        let mut front = self.front.again();
        if !front.begin_read(&self.tally, self.entries, evidence, &word) {
            return Err(front);
        }
        self.front = front;
        self.entries += 1;
        Ok(Mark {
            word,
            entries: self.entries,
        })
    }

    /// Whether the write of this stamp may end: it is the client's last one, and was neither decided nor refused.
    fn may_end(&self, stamp: Stamp) -> bool
        ensures { IsTrue result ↔ ((stamp ≡ self.now.last)
            × MayEnd (own self.now.word self.now.seen) (ending_of self.now stamp)) }
    {
        self.is_open && stamp == self.last
    }

    /// Enters that the write of this stamp is decided. It does not where this is not the client's last write or has ended, and where the
    /// client has other entries than were seen here, or 2^62. Then nothing has changed, and what was found of the history is returned: it
    /// has those other entries. The evidence shows that all items of the write are prepared.
    pub fn decide(&mut self, stamp: Stamp, evidence: &Front<J>) -> Result<(), Front<J>>
        requires { ∥ MayDecide evidence.now (ending_of self.old stamp) ∥₁ }
        ensures decided { OnOk result (Decided (ending_of self.old stamp) ∈ self.new.seen) }
        ensures entered { OnOk result
            (EntersOwn (Decided (ending_of self.old stamp)) self.old.last self.old self.new) }
        ensures evidence { OnOk result (IsPrefix evidence.now self.new.seen) }
        ensures whose { IsSameClient self.old self.new }
        ensures refused { IfErr result
            (IsRefusedFor (CannotEnd stamp self.old) self.old self.new) }
    {
        if self.entries >= MOST || !self.may_end(stamp) {
            return Err(self.front.again());
        }
        let decision = Decision {
            word: self.tally.key,
            tenant: self.tenant,
            stamp,
        };
        let mut front = self.front.again();
        if !front.decide(&self.tally, self.entries, evidence, &decision) {
            return Err(front);
        }
        self.front = front;
        self.entries += 1;
        self.is_open = false;
        Ok(())
    }

    /// Enters that the write of this stamp was refused. It does not where this is not the client's last write or has ended, and where the
    /// client has other entries than were seen here, or 2^62. Then nothing has changed, and what was found of the history is returned: it
    /// has those other entries.
    pub fn give_up(&mut self, stamp: Stamp) -> Result<(), Front<J>>
        ensures given_up { OnOk result (GivenUp (ending_of self.old stamp) ∈ self.new.seen) }
        ensures entered { OnOk result
            (EntersOwn (GivenUp (ending_of self.old stamp)) self.old.last self.old self.new) }
        ensures whose { IsSameClient self.old self.new }
        ensures refused { IfErr result
            (IsRefusedFor (CannotEnd stamp self.old) self.old self.new) }
    {
        if self.entries >= MOST || !self.may_end(stamp) {
            return Err(self.front.again());
        }
        let decision = Decision {
            word: self.tally.key,
            tenant: self.tenant,
            stamp,
        };
        let mut front = self.front.again();
        if !front.give_up(&self.tally, self.entries, &decision) {
            return Err(front);
        }
        self.front = front;
        self.entries += 1;
        self.is_open = false;
        Ok(())
    }
}

//! What an operation is asked to do.
ghost use Rattle.std.specs.Prelude.{◌≡◌, ◌≤◌};

use entry_list::LentAct;
use plain_store::Refusal;
use stamps::{Client, Item, Key, Tag, WriteSet};
use tenant_sessions::ClientSession;

/// What an operation is asked to do.
#[derive(Clone, Copy)]
pub enum SeatRequest<'a> {
    /// To write these items.
    Put(&'a [Item]),
    /// To read these keys.
    Get(&'a [Key]),
    /// To find the items that carry this tag.
    Find(Tag),
}

impl<'a> SeatRequest<'a> {
    ghost use Rattle.std.specs.Prelude.{◌≡◌, ◌≤◌, ◌+◌, IfOk, IfErr, OnOk, OnErr};
    ghost use Rattle.stamps.specs.Bounds.{IsParts};
    ghost use Rattle.stamps.specs.Stamp.{stamp};
    ghost use Rattle.hub.specs.Limits.{max_calls};
    ghost use Rattle.tenant_sessions.specs.Begins.{HasBegun};
    ghost use Rattle.entry_list.specs.LentActs.{act_lent};
    ghost use Rattle.hub.specs.Requests.{act_of, calls_for, intent_of, test_of};

    /// How many calls it makes at most, in a store of so many partitions: a write and a read make two to each key, and a
    /// search asks each partition before it reads.
    pub fn most_calls(&self, parts: u32) -> usize
        requires { IsParts parts }
        ensures value { result ≡ calls_for parts self.now }
        ensures few { result ≤ max_calls }
    {
        match self {
            SeatRequest::Put(items) => 2 * items.len().min(WriteSet::MAX_LEN),
            SeatRequest::Get(keys) => 2 * keys.len().min(WriteSet::MAX_LEN),
            SeatRequest::Find(_) => parts as usize + 2 * WriteSet::MAX_LEN,
        }
    }

    /// The act that it is, of this client, with its items or keys where they lie.
    pub fn lent(&self, client: Client) -> LentAct<'a>
        ensures { act_lent result ≡ act_of client self.now }
    {
        match self {
            SeatRequest::Put(items) => LentAct::Put(client, items),
            SeatRequest::Get(keys) => LentAct::Get(client, keys),
            SeatRequest::Find(tag) => LentAct::Find(client, *tag),
        }
    }

    /// Begins its transaction in this client's session, in a store of so many partitions (1 to `MAX_PARTS`). It fails where the session
    /// refuses it. Then nothing has changed.
    pub fn start(
        &self,
        session: &mut ClientSession,
        client: Client,
        parts: u32,
    ) -> Result<(), Refusal>
        requires { IsParts parts }
        ensures refused { IfErr result (λ refusal. test_of session.old self.now ≡ Err refusal) }
        ensures unchanged { OnErr result (session.new ≡ session.old) }
        ensures passed { OnOk result (test_of session.old self.now ≡ Ok tt) }
        ensures begun { OnOk result
            (HasBegun parts
            (intent_of (stamp (session.old.counter + 1) client) self.now) session.old session.new) }
        ensures still_open { session.new.is_open ≡ session.old.is_open }
    {
        match self {
            SeatRequest::Put(items) => session.start_put(client, items, parts),
            SeatRequest::Get(keys) => session.start_get(keys, parts),
            SeatRequest::Find(tag) => session.start_find(*tag, parts),
        }
    }
}

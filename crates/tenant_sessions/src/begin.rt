//! Transactions that may begin.
ghost use Rattle.std.specs.Prelude.{◌≡◌, ◌≤◌};
ghost use Rattle.stamps.specs.Limits.{max_parts, max_counter};
ghost use Rattle.tenant_sessions.specs.Held.{IsTested, request_begun, drawn_counter};

use plain_store::{Answer, Rows};
use stamps::{Client, Item, Key, Stamp, Tag, WriteSet};

/// What begins.
#[derive(Clone, Copy)]
pub(crate) enum Beginning<'a> {
    /// A write of these items, under this stamp, with the write set of their keys.
    Put(Stamp, &'a [Item], WriteSet),
    /// A read of these keys.
    Get(&'a [Key]),
    /// A search for this tag.
    Find(Tag),
}

/// A transaction that passed its tests and has not begun: what they found out, beside the items or keys that it was asked
/// with.
#[derive(Drop)]
pub struct Begin<'a> {
    pub(crate) client: Client,
    pub(crate) kind: Beginning<'a>,
    /// How many calls it sends as it begins.
    pub(crate) calls: u32,
    ghost tested: { IsTested kind },
    ghost few_calls: { calls ≤ max_parts },
}

impl Beginning<'_> {
    /// The counter of the stamp that it drew, 0 where it drew none.
    pub(crate) fn counter(&self) -> u64
        ensures value { result ≡ drawn_counter (request_begun self.now) }
        ensures in_range { result ≤ max_counter }
    {
        match self {
            Beginning::Put(stamp, ..) => stamp.counter(),
            Beginning::Get(_) | Beginning::Find(_) => 0,
        }
    }
}

impl Begin<'_> {
    ghost use Rattle.std.specs.Prelude.{◌≡◌, ◌≤◌, length};
    ghost use Rattle.plain_store.specs.declared.step.Act.{Act as Asked};
    ghost use Rattle.plain_store.specs.Words.{Setup};
    ghost use Rattle.plain_store.specs.History.{History};
    ghost use Rattle.plain_store.specs.Run.{effect, next_rows};
    ghost use Rattle.tenant_sessions.specs.Sessions.{IsBegin, begin_answer};

    /// The client whose transaction it is.
    pub fn client(&self) -> Client
        ensures { result ≡ self.now.client }
    {
        self.client
    }

    /// How many calls it sends as it begins, up to `MAX_PARTS`.
    pub fn calls(&self) -> u32
        ensures sent { (setup : Setup) (history : History) (act : Asked)
            → IsBegin setup history act self.now
            → result ≡ length (effect setup history act).sent }
        ensures few { result ≤ max_parts }
    {
        self.calls
    }

    /// The answer to the step that begins it, where it sent these rows.
    pub fn answer(&self, rows: Rows) -> Answer
        ensures value { result ≡ begin_answer self.now rows }
        ensures told { (setup : Setup) (history : History) (act : Asked)
            → IsBegin setup history act self.now
            → rows ≡ next_rows history (length (effect setup history act).sent)
            → (effect setup history act).answer ≡ result }
    {
        match self.kind {
            Beginning::Put(stamp, ..) => Answer::PutBegun(stamp, rows),
            Beginning::Get(_) => Answer::GetBegun(rows),
            Beginning::Find(_) => Answer::FindBegun(rows),
        }
    }

    /// Does what `answer` does, and writes it into the caller's buffer.
    pub fn answer_into(&self, rows: Rows, answer: &mut Answer)
        ensures value { answer.new ≡ begin_answer self.now rows }
        ensures told { (setup : Setup) (history : History) (act : Asked)
            → IsBegin setup history act self.now
            → rows ≡ next_rows history (length (effect setup history act).sent)
            → (effect setup history act).answer ≡ answer.new }
    {
        match self.kind {
            Beginning::Put(stamp, ..) => *answer = Answer::PutBegun(stamp, rows),
            Beginning::Get(_) => *answer = Answer::GetBegun(rows),
            Beginning::Find(_) => *answer = Answer::FindBegun(rows),
        }
    }
}

//! A client's running transaction.
ghost use Rattle.std.specs.Prelude.{◌≡◌, ◌<◌};
ghost use Rattle.stamps.specs.Bounds.{IsParts};
ghost use Rattle.stamps.specs.Limits.{max_parts};

use crate::MoveKind;
use crate::begin::Beginning;
use crate::running_read::take_read;
use crate::running_search::take_found;
use crate::running_write::take_written;
use crate::waiting::Waiting;
use get_all::{Reader, TagSearch};
use plain_store::{Message, Readings};
use put_all::Writer;
use stamps::{Item, Key, Stamp, Tag};
use std::marker::Model;

/// What runs.
#[derive(Clone, Copy)]
pub(crate) enum TransactionKind {
    /// A write.
    Put,
    /// A read.
    Get,
    /// A search.
    Find,
}

/// A client's running transaction: the machine that takes its replies, and the calls that it waits for. It has a place for
/// each kind of machine, so that a transaction begins where the one before it was.
#[derive(Drop)]
pub(crate) struct Running {
    kind: TransactionKind,
    /// The stamp of a write.
    stamp: Stamp,
    writer: Writer,
    /// A read's, and that which a search borrows.
    reader: Reader,
    /// What a search found so far.
    search: TagSearch,
    waiting: Waiting,
    parts: u32,
}

impl Model for Running {
    ghost use Rattle.stamps.specs.Bounds.{IsParts};
    ghost use Rattle.tenant_sessions.specs.Holding.{RunningMachine, machine_of};

    ghost Value = { RunningMachine };

    ghost view = { λ r. record { machine = machine_of r.kind r.stamp r.writer r.reader r.search; waiting = r.waiting; parts = r.parts } };

    ghost invariant = { λ r. IsParts r.parts };
}

impl Running {
    ghost use Rattle.std.specs.Prelude.{◌≡◌, ◌+◌, ◌<◌, ◌≤◌, List, length, slice_get, nat_lt, not, false, Some, None, if◌then◌else◌};
    ghost use Rattle.plain_store.specs.Run.{are_bad};
    ghost use Rattle.tenant_sessions.specs.Parts.{outgoing_of};
    ghost use Rattle.plain_store.specs.declared.message.Message.{Message as Sent};
    ghost use Rattle.plain_store.specs.History.{Intent, Writes, Gets, Finds};
    ghost use Rattle.plain_store.specs.Words.{Key, Setup};
    ghost use Rattle.plain_store.specs.Writing.{keys_written};
    ghost use Rattle.tenant_sessions.specs.Held.{IsTested, request_begun};
    ghost use Rattle.tenant_sessions.specs.CallsLeft.{calls_sent, machine_left};
    ghost use Rattle.tenant_sessions.specs.Moves.{moved};
    ghost use Rattle.tenant_sessions.specs.Running.{MayBegin, IsReplyTo, RunningStands, Starts, TakesMessage, is_reply_of, waiting_calls};
    ghost use Rattle.tenant_sessions.specs.Sending.{SendsSo};
    ghost use Rattle.tenant_sessions.specs.Showing.{HasTaken, Shows};

    /// A transaction that nobody began, and that waits for no reply.
    pub(crate) fn idle() -> Running {
        let nothing = b"";
        let tag = Tag::read(nothing).unwrap();
        Running {
            kind: TransactionKind::Find,
            stamp: Stamp::ZERO,
            writer: Writer::idle(),
            reader: Reader::idle(),
            search: TagSearch::new(tag, 1),
            waiting: Waiting::none(tag),
            parts: 1,
        }
    }

    /// Makes of it what runs once this began, in a store of so many partitions (1 to `MAX_PARTS`).
    pub(crate) fn begin(&mut self, kind: &Beginning<'_>, parts: u32)
        requires tested { IsTested kind.now }
        requires parts { IsParts parts }
        ensures { (setup : Setup) → setup.partitions ≡ parts → MayBegin (request_begun kind.now)
            → Starts setup (request_begun kind.now) self.new }
    {
        match kind {
            Beginning::Put(stamp, items, _) => {
                self.begin_put(*stamp, items, parts);
            }
            Beginning::Get(keys) => {
                self.begin_get(keys, parts);
            }
            Beginning::Find(tag) => self.begin_find(*tag, parts),
        }
    }

    /// Makes of it a write of these items under this stamp, which took no reply yet, and says whether it could: a write may have
    /// them.
    pub(crate) fn begin_put(&mut self, stamp: Stamp, items: &[Item], parts: u32) -> bool
        requires written { 0 < stamp }
        requires parts { IsParts parts }
        ensures { (result ≡ not (are_bad (keys_written items.now)))
            × ((setup : Setup) → setup.partitions ≡ parts → MayBegin (Writes stamp items.now)
            → Starts setup (Writes stamp items.now) self.new) }
    {
        if !self.waiting.prepare(stamp, items, parts) {
            return false;
        }
        self.writer.reset(stamp, items, parts);
        self.kind = TransactionKind::Put;
        self.stamp = stamp;
        self.parts = parts;
        true
    }

    /// Makes of it a read of these keys, which took no reply yet, and says whether it could: a read may have them.
    pub(crate) fn begin_get(&mut self, keys: &[Key], parts: u32) -> bool
        requires { IsParts parts }
        ensures { (result ≡ not (are_bad keys.now)) × ((setup : Setup) → setup.partitions ≡ parts
            → MayBegin (Gets keys.now) → Starts setup (Gets keys.now) self.new) }
    {
        if !self.reader.reset(keys) {
            return false;
        }
        self.kind = TransactionKind::Get;
        self.waiting.read(keys, parts, true);
        self.parts = parts;
        true
    }

    /// Makes of it a search by this tag, which took no reply yet.
    pub(crate) fn begin_find(&mut self, tag: Tag, parts: u32)
        requires { IsParts parts }
        ensures { (setup : Setup) → setup.partitions ≡ parts → Starts setup (Finds tag) self.new }
    {
        self.search.reset(tag, parts);
        self.kind = TransactionKind::Find;
        self.waiting.search(tag, parts);
        self.parts = parts;
    }

    /// Takes a reply to one of its calls. Ignored where a reply in its place was taken before. Of a transaction
    /// that ended nothing is said. What was read, and what it does, is put into the caller's buffers.
    pub(crate) fn take(&mut self, message: &Message, readings: &mut Readings, kind: &mut MoveKind)
        ensures shown { (setup : Setup) (request : Intent) (taken : List Sent)
            → HasTaken setup request taken self.old.machine
            → Shows setup request taken message.now (moved kind.new readings.new)
            (λ replies. HasTaken setup request replies self.new.machine) }
        ensures takes { (setup : Setup) (request : Intent) (taken : List Sent)
            → RunningStands setup request taken self.old → IsReplyTo setup request taken message.now
            → TakesMessage setup request taken message.now (moved kind.new readings.new)
            (λ replies. RunningStands setup request replies self.new) }
        ensures calls { calls_sent (moved kind.new readings.new) (length self.new.waiting)
            + machine_left self.new.machine ≤ machine_left self.old.machine }
        ensures sent { SendsSo (moved kind.new readings.new) self.new.waiting }
        ensures foreign { is_reply_of message.now.call message.now.reply ≡ false
            → (kind.new ≡ MoveKind.Ignored) × (self.new ≡ self.old) }
    {
        match self.kind {
            TransactionKind::Put => take_written(
                self.stamp,
                &mut self.writer,
                &mut self.waiting,
                self.parts,
                message,
                kind,
            ),
            TransactionKind::Get => take_read(
                &mut self.reader,
                &mut self.waiting,
                self.parts,
                message,
                readings,
                kind,
            ),
            TransactionKind::Find => take_found(
                &mut self.search,
                &mut self.reader,
                &mut self.waiting,
                self.parts,
                message,
                readings,
                kind,
            ),
        }
    }

    /// How many of its calls have no reply taken, in the part that it is in: up to `MAX_PARTS`.
    pub(crate) fn waiting(&self) -> u32
        ensures value { (setup : Setup) (request : Intent) (taken : List Sent)
            → RunningStands setup request taken self.now
            → result ≡ length (waiting_calls setup request taken) }
        ensures waiting { result ≡ length self.now.waiting }
        ensures few { result ≤ max_parts }
    {
        self.waiting.len()
    }

    /// Writes the call at this place among those that have no reply taken, from 0, and its partition into the message, and says
    /// whether there is one. Where there is none, the message is as it was.
    pub(crate) fn call_into(&self, nth: u32, message: &mut Message) -> bool
        ensures made { result ≡ nat_lt nth (length self.now.waiting) }
        ensures told { (setup : Setup) (request : Intent) (taken : List Sent)
            → RunningStands setup request taken self.now
            → (if result then Some (outgoing_of message.new) else None)
            ≡ slice_get (waiting_calls setup request taken) nth }
        ensures there { (if result then Some (outgoing_of message.new) else None)
            ≡ slice_get self.now.waiting nth }
        ensures rest { message.new
            ≡ record message.old { partition = message.new.partition; call = message.new.call } }
        ensures unchanged { result ≡ false → message.new ≡ message.old }
    {
        self.waiting.call_into(nth, message)
    }
}

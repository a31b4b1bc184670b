//! The transaction of a client that runs, if one does.
ghost use Rattle.std.specs.Prelude.{◌≡◌, ◌<◌};
ghost use Rattle.stamps.specs.Bounds.{IsParts};
ghost use Rattle.tenant_sessions.specs.Runs.{RunsRead, RunsWrite};

use crate::MoveKind;
use crate::begin::Beginning;
use crate::running::Running;
use plain_store::{Message, OutOfMemory, Readings};
use stamps::{Item, Key, Stamp, Tag};
use std::alloc::Global;
use std::marker::Model;

/// The transaction that was begun and has not ended, if there is one. Contracts see it as an option of it: its place is there
/// also where none runs, so that one begins in place and is forgotten by a flag. The place has some tens of KB and lies in a
/// box, so that what holds it is small.
#[derive(Drop)]
pub(crate) struct Current {
    is_running: bool,
    running: Box<Running>,
}

impl Model for Current {
    ghost use Rattle.std.specs.Prelude.{cond, Option, Some, None};
    ghost use Rattle.tenant_sessions.specs.declared.running.Running.{Running};

    ghost Value = { Option Running };

    ghost view = { λ c. cond c.is_running (Some c.running.value) None };
}

impl Current {
    ghost use Rattle.std.specs.Prelude.{◌≡◌, ◌+◌, ◌≤◌, List, Some, None, false, IsSome, IfSome, IfOk, is_some};
    ghost use Rattle.std.specs.Option.{option_copied};
    ghost use Rattle.plain_store.specs.declared.message.Message.{Message as Sent};
    ghost use Rattle.plain_store.specs.History.{Intent, Writes, Gets, Finds};
    ghost use Rattle.plain_store.specs.Words.{Setup};
    ghost use Rattle.tenant_sessions.specs.Held.{IsTested, request_begun, GoesOn};
    ghost use Rattle.tenant_sessions.specs.CallsLeft.{calls_left, calls_sent, calls_waiting};
    ghost use Rattle.tenant_sessions.specs.Moves.{moved};
    ghost use Rattle.tenant_sessions.specs.Running.{MayBegin, IsReplyTo, RunningStands, Starts, TakesMessage, is_reply_of};
    ghost use Rattle.tenant_sessions.specs.Sending.{SendsSo, waiting_of};
    ghost use Rattle.tenant_sessions.specs.Showing.{IsShown, Shows};

    /// None runs. It fails where memory for its place was refused.
    pub(crate) fn none(alloc: Global) -> Result<Current, OutOfMemory>
        ensures { IfOk result (λ current. current ≡ None) }
    {
        match Box::new(alloc, Running::idle()) {
            Ok(running) => Ok(Current {
                is_running: false,
                running,
            }),
            Err(_) => Err(OutOfMemory),
        }
    }

    /// Whether one runs.
    pub(crate) fn is_some(&self) -> bool
        ensures { result ≡ is_some self.now }
    {
        self.is_running
    }

    /// The one that runs.
    pub(crate) fn as_ref(&self) -> Option<&Running>
        ensures value { option_copied result ≡ self.now }
    {
        if self.is_running {
            Some(&self.running)
        } else {
            None
        }
    }

    /// No transaction runs from now on.
    pub(crate) fn forget(&mut self)
        ensures { self.new ≡ None }
    {
        self.is_running = false;
    }

    /// Begins one, in a store of so many partitions (1 to `MAX_PARTS`).
    pub(crate) fn begin(&mut self, kind: &Beginning<'_>, parts: u32)
        requires tested { IsTested kind.now }
        requires parts { IsParts parts }
        ensures { (setup : Setup) → setup.partitions ≡ parts → MayBegin (request_begun kind.now)
            → IsSome self.new
            × IfSome self.new (λ running. Starts setup (request_begun kind.now) running) }
    {
        self.running.begin(kind, parts);
        self.is_running = true;
    }

    /// Begins a write of these items under this stamp, in a store of so many partitions (1 to `MAX_PARTS`), and says whether it
    /// could: a write may have them. Else none runs.
    pub(crate) fn begin_put(&mut self, stamp: Stamp, items: &[Item], parts: u32) -> bool
        requires written { 0 < stamp }
        requires parts { IsParts parts }
        ensures { RunsWrite parts stamp items.now result self.new }
    {
        if !self.running.begin_put(stamp, items, parts) {
            self.is_running = false;
            return false;
        }
        self.is_running = true;
        true
    }

    /// Begins a read of these keys, in a store of so many partitions (1 to `MAX_PARTS`), and says whether it could: a read may have
    /// them. Else none runs.
    pub(crate) fn begin_get(&mut self, keys: &[Key], parts: u32) -> bool
        requires { IsParts parts }
        ensures { RunsRead parts keys.now result self.new }
    {
        if !self.running.begin_get(keys, parts) {
            self.is_running = false;
            return false;
        }
        self.is_running = true;
        true
    }

    /// Begins a search by this tag, in a store of so many partitions (1 to `MAX_PARTS`).
    pub(crate) fn begin_find(&mut self, tag: Tag, parts: u32)
        requires { IsParts parts }
        ensures { (setup : Setup) → setup.partitions ≡ parts
            → IsSome self.new × IfSome self.new (λ running. Starts setup (Finds tag) running) }
    {
        self.running.begin_find(tag, parts);
        self.is_running = true;
    }

    /// Hands it a reply to one of its calls. Ignored where a reply in its place was taken before, and where none runs. What was
    /// read, and what it does, is put into the caller's buffers.
    pub(crate) fn take(&mut self, message: &Message, readings: &mut Readings, kind: &mut MoveKind)
        ensures idle { self.old ≡ None → (kind.new ≡ MoveKind.Ignored) × (self.new ≡ self.old) }
        ensures running { is_some self.new ≡ is_some self.old }
        ensures shown { (setup : Setup) (request : Intent) (taken : List Sent)
            → IsShown setup request taken self.old
            → Shows setup request taken message.now (moved kind.new readings.new)
            (λ replies. IsShown setup request replies self.new) }
        ensures taken { (setup : Setup) (request : Intent) (taken : List Sent) (running : Running)
            → self.old ≡ Some running
            → RunningStands setup request taken running → IsReplyTo setup request taken message.now
            → TakesMessage setup request taken message.now (moved kind.new readings.new)
            (λ replies. GoesOn setup request replies self.new) }
        ensures sent { SendsSo (moved kind.new readings.new) (waiting_of self.new) }
        ensures calls { calls_sent (moved kind.new readings.new) (calls_waiting self.new)
            + calls_left self.new ≤ calls_left self.old }
        ensures foreign { is_reply_of message.now.call message.now.reply ≡ false
            → (kind.new ≡ MoveKind.Ignored) × (self.new ≡ self.old) }
    {
        if !self.is_running {
            *kind = MoveKind::Ignored;
            return;
        }
        self.running.take(message, readings, kind);
    }
}

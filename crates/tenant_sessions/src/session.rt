//! One client's session.
ghost use Rattle.std.specs.Prelude.{◌≡◌, ◌+◌, ◌<◌, ◌≤◌, true, nat_le, not, length, IfSome, is_none, if◌then◌else◌};
ghost use Rattle.stamps.specs.Limits.{max_keys, max_parts, max_counter};
ghost use Rattle.stamps.specs.Stamp.{stamp};
ghost use Rattle.plain_store.specs.Run.{are_bad, counter_limit};
ghost use Rattle.plain_store.specs.Writing.{keys_written};

use crate::MoveKind;
use crate::begin::{Begin, Beginning};
use crate::call_batch::{forget_reply, unwritten};
use crate::current::Current;
use plain_store::{Message, OutOfMemory, ReadReply, Readings, Refusal, Reply};
use stamps::{Client, Counter, Item, Key, Stamp, Tag, WriteSet};
use std::alloc::Global;

/// What is held of a client that said hello: whether its session is open, its counter, the ticket of its last transaction,
/// and the transaction that runs.
///
/// Only the first hello takes memory: some tens of KB, to which it keeps a pointer, so that it is small itself.
#[derive(Drop)]
pub struct ClientSession {
    is_open: bool,
    /// No less than its bases, the counters of its stamps and those in the replies that it took.
    counter: Counter,
    /// How many transactions it began, which is the ticket of the last.
    ticket: u64,
    /// The transaction that was begun and has not ended.
    running: Current,
}

/// Whether a read may have these keys: 1 to `MAX_KEYS`, and none twice.
fn are_readable(keys: &[Key]) -> bool
    ensures exact { result ≡ not (are_bad keys.now) }
    ensures few { result ≡ true → length keys.now ≤ max_keys }
{
    WriteSet::are_keys(keys)
}

/// The stamp that the client draws next, whose counter is one above this one. None where this is the greatest counter.
fn next_stamp(counter: Counter, client: Client) -> Option<Stamp>
    ensures drawn { IfSome result (λ drawn. drawn ≡ stamp (counter + 1) client) }
    ensures above { IfSome result (λ drawn. 0 < drawn) }
    ensures used { is_none result ≡ nat_le counter_limit counter }
{
    Stamp::new(counter.get() + 1, client.get())
}

/// Why a write of these items does not begin where no stamp is left.
#[cold]
#[inline(never)]
fn unstamped(items: &[Item]) -> Refusal
    ensures { result ≡ (if are_bad (keys_written items.now)
        then Refusal.BadItems else Refusal.StampsUsed) }
{
    match put_all::write_set_of(items) {
        Some(_) => Refusal::StampsUsed,
        None => Refusal::BadItems,
    }
}

impl ClientSession {
    ghost use Rattle.std.specs.Prelude.{◌≡◌, ◌+◌, ◌≤◌, max, nat_lt, true, false, List, length, map, slice_get, Some, None, Ok, Err, IfOk, IfErr, if◌then◌else◌};
    ghost use Rattle.plain_store.specs.declared.message.Message.{Message as Sent};
    ghost use Rattle.plain_store.specs.History.{Intent, Writes, Gets, Finds, counter_in};
    ghost use Rattle.plain_store.specs.Run.{call_message};
    ghost use Rattle.plain_store.specs.Words.{Key, Setup};
    ghost use Rattle.stamps.specs.Bounds.{IsParts};
    ghost use Rattle.stamps.specs.Stamp.{stamp};
    ghost use Rattle.tenant_sessions.specs.Running.{MayBegin, RunningStands, waiting_calls};
    ghost use Rattle.tenant_sessions.specs.CallsLeft.{calls_waiting};
    ghost use Rattle.tenant_sessions.specs.Parts.{outgoing_of};
    ghost use Rattle.tenant_sessions.specs.Sending.{waiting_of};
    ghost use Rattle.tenant_sessions.specs.Held.{request_begun, drawn_counter, next_ticket, test_open, test_idle, test_put, test_get};
    ghost use Rattle.tenant_sessions.specs.Begins.{HasBegun};
    ghost use Rattle.tenant_sessions.specs.Asking.{BeginsIf, StartsIf, TakesIn};
    ghost use Rattle.tenant_sessions.specs.declared.running.Running.{Running};

    /// The session that a client's first hello opens. It fails where its allocation failed.
    pub fn hello(alloc: Global, base: Counter) -> Result<ClientSession, OutOfMemory>
        ensures { IfOk result (λ session. session
            ≡ record { is_open = true; counter = base; ticket = 0; running = None }) }
    {
        let running = Current::none(alloc)?;
        Ok(ClientSession {
            is_open: true,
            counter: base,
            ticket: 0,
            running,
        })
    }

    /// Opens it again, and answers its counter, which is then no less than the base. It fails where it is open (12).
    pub fn reopen(&mut self, base: Counter) -> Result<Counter, Refusal>
        ensures answer { result
            ≡ (if self.old.is_open then Err Refusal.Busy else Ok (max self.old.counter base)) }
        ensures after { self.new ≡ (if self.old.is_open then self.old
            else record self.old { is_open = true; counter = max base self.old.counter }) }
    {
        if self.is_open {
            return Err(Refusal::Busy);
        }
        self.is_open = true;
        self.raise(base.get());
        Ok(self.counter)
    }

    /// Its counter: no less than its bases, the counters of its stamps and those in the replies that it took.
    pub fn counter(&self) -> Counter
        ensures { result ≡ self.now.counter }
    {
        self.counter
    }

    /// A write of these items by this client, whose session it is. `start` begins it.
    ///
    /// It fails where the session is closed (19), a transaction is running (12), there is no item, more than `MAX_KEYS` or one key
    /// twice (13), and where the counter is at its greatest (14).
    pub fn begin_put<'a>(&self, client: Client, items: &'a [Item]) -> Result<Begin<'a>, Refusal>
        ensures { BeginsIf (test_put self.now items.now) client
            (Writes (stamp (self.now.counter + 1) client) items.now) (length items.now) result }
    {
        if let Err(refusal) = self.test_idle() {
            return Err(refusal);
        }
        let Some(writes) = put_all::write_set_of(items) else {
            return Err(Refusal::BadItems);
        };
        let Some(stamp) = next_stamp(self.counter, client) else {
            return Err(Refusal::StampsUsed);
        };
        Ok(Begin {
            client,
            kind: Beginning::Put(stamp, items, writes),
            calls: items.len() as u32,
        })
    }

    /// A read of these keys by this client, whose session it is. `start` begins it.
    ///
    /// It fails where the session is closed (19), a transaction is running (12), and where there is no key, more than `MAX_KEYS` or
    /// one twice (13).
    pub fn begin_get<'a>(&self, client: Client, keys: &'a [Key]) -> Result<Begin<'a>, Refusal>
        ensures { BeginsIf (test_get self.now keys.now) client
            (Gets keys.now) (length keys.now) result }
    {
        if let Err(refusal) = self.test_idle() {
            return Err(refusal);
        }
        if !are_readable(keys) {
            return Err(Refusal::BadItems);
        }
        Ok(Begin {
            client,
            kind: Beginning::Get(keys),
            calls: keys.len() as u32,
        })
    }

    /// A search for the items that carry this tag by this client, whose session it is, in a store of so many partitions (1 to
    /// `MAX_PARTS`). `start` begins it.
    ///
    /// It fails where the session is closed (19), and where a transaction is running (12).
    pub fn begin_find<'a>(&self, client: Client, tag: Tag, parts: u32) -> Result<Begin<'a>, Refusal>
        requires { IsParts parts }
        ensures { BeginsIf (test_idle self.now) client (Finds tag) parts result }
    {
        if let Err(refusal) = self.test_idle() {
            return Err(refusal);
        }
        Ok(Begin {
            client,
            kind: Beginning::Find(tag),
            calls: parts,
        })
    }

    /// Begins a transaction, in a store of so many partitions (1 to `MAX_PARTS`). Its calls are then told one by one by `call`.
    pub fn start(&mut self, begin: &Begin<'_>, parts: u32)
        requires { IsParts parts }
        ensures begun { MayBegin (request_begun begin.now.kind)
            → HasBegun parts (request_begun begin.now.kind) self.old self.new }
        ensures counter { self.new.counter
            ≡ max (drawn_counter (request_begun begin.now.kind)) self.old.counter }
        ensures still_open { self.new.is_open ≡ self.old.is_open }
    {
        self.draw(begin.kind.counter());
        self.running.begin(&begin.kind, parts);
    }

    /// Begins a write of these items by this client, whose session it is, in a store of so many partitions (1 to `MAX_PARTS`): what
    /// `begin_put` and `start` do. A `Begin` has some 600 bytes, and none is made here. Where it fails, as `begin_put` does, nothing
    /// has changed.
    pub fn start_put(&mut self, client: Client, items: &[Item], parts: u32) -> Result<(), Refusal>
        requires { IsParts parts }
        ensures { StartsIf (test_put self.old items.now) parts
            (Writes (stamp (self.old.counter + 1) client) items.now) self.old self.new result }
    {
        if let Err(refusal) = self.test_idle() {
            return Err(refusal);
        }
        let Some(stamp) = next_stamp(self.counter, client) else {
            return Err(unstamped(items));
        };
        if !self.running.begin_put(stamp, items, parts) {
            return Err(Refusal::BadItems);
        }
        self.draw(stamp.counter());
        Ok(())
    }

    /// Begins a read of these keys, in a store of so many partitions (1 to `MAX_PARTS`): what `begin_get` and `start` do. Where it fails, as
    /// `begin_get` does, nothing has changed.
    pub fn start_get(&mut self, keys: &[Key], parts: u32) -> Result<(), Refusal>
        requires { IsParts parts }
        ensures { StartsIf (test_get self.old keys.now) parts
            (Gets keys.now) self.old self.new result }
    {
        if let Err(refusal) = self.test_idle() {
            return Err(refusal);
        }
        if !self.running.begin_get(keys, parts) {
            return Err(Refusal::BadItems);
        }
        self.draw(0);
        Ok(())
    }

    /// Begins a search by this tag, in a store of so many partitions (1 to `MAX_PARTS`): what `begin_find` and `start` do. Where it fails, as
    /// `begin_find` does, nothing has changed.
    pub fn start_find(&mut self, tag: Tag, parts: u32) -> Result<(), Refusal>
        requires { IsParts parts }
        ensures { StartsIf (test_idle self.old) parts (Finds tag) self.old self.new result }
    {
        if let Err(refusal) = self.test_idle() {
            return Err(refusal);
        }
        self.draw(0);
        self.running.begin_find(tag, parts);
        Ok(())
    }

    /// Counts a transaction that begins, whose stamp has this counter; 0 where it draws none.
    fn draw(&mut self, counter: u64)
        requires { counter ≤ max_counter }
        ensures { self.new ≡ record self.old {
          counter = max counter self.old.counter;
          ticket = next_ticket self.old.ticket;
        } }
    {
        self.raise(counter);
        self.ticket = self.ticket.saturating_add(1);
    }

    /// Hands a reply to its transaction, if it is for that one, and says what that does. Where this sends calls, `call` then
    /// reports them one by one; the kind of the move reports the calls with which a transaction ends. One that ends is forgotten. What
    /// was read is put into the caller's buffer.
    pub fn take_into(&mut self, message: &Message, readings: &mut Readings) -> MoveKind
        ensures { TakesIn message.now self.old result readings.new self.new }
    {
        let mut kind = MoveKind::Ignored;
        self.move_into(message, readings, &mut kind);
        kind
    }

    /// Does what `take_into` does, and writes the move into the caller's buffer.
    pub fn move_into(&mut self, message: &Message, readings: &mut Readings, kind: &mut MoveKind)
        ensures { TakesIn message.now self.old kind.new readings.new self.new }
    {
        if message.ticket != self.ticket || !self.running.is_some() {
            *kind = MoveKind::Ignored;
            return;
        }
        self.running.take(message, readings, kind);
        if kind.is_ignored() {
            return;
        }
        if kind.is_last() {
            self.running.forget();
        }
        self.raise_by(&message.reply);
    }

    /// How many calls of its transaction are sent again, up to `MAX_PARTS`: those that no reply was taken to. 0 where none is running.
    /// `call` reports them one by one. It fails where it is closed (19).
    pub fn pending_calls(&self) -> Result<u32, Refusal>
        ensures refused { IfErr result (λ refusal. test_open self.now ≡ Err refusal) }
        ensures passed { IfOk result (λ _. test_open self.now ≡ Ok tt) }
        ensures idle { self.now.running ≡ None → IfOk result (λ count. count ≡ 0) }
        ensures count { (setup : Setup) (request : Intent) (taken : List Sent) (running : Running)
            → self.now.running ≡ Some running
            → RunningStands setup request taken running
            → IfOk result (λ count. count ≡ length (waiting_calls setup request taken)) }
        ensures waiting { IfOk result (λ count. count ≡ calls_waiting self.now.running) }
        ensures few { IfOk result (λ count. count ≤ max_parts) }
    {
        if let Err(refusal) = self.test_open() {
            return Err(refusal);
        }
        match self.running.as_ref() {
            Some(running) => Ok(running.waiting()),
            None => Ok(0),
        }
    }

    /// Closes it, and forgets its transaction. It fails where it is closed (19). Then nothing has changed.
    pub fn stop(&mut self) -> Result<(), Refusal>
        ensures answer { result ≡ test_open self.old }
        ensures after { self.new
            ≡ (if self.old.is_open
            then record self.old { is_open = false; running = None } else self.old) }
    {
        self.test_open()?;
        self.is_open = false;
        self.running.forget();
        Ok(())
    }

    /// The `nth` call, from 0, of those that its transaction has taken no reply to, as this client sends it, whose session it
    /// is.
    pub fn call(&self, client: Client, nth: u32) -> Option<Message>
        ensures idle { self.now.running ≡ None → result ≡ None }
        ensures told { (setup : Setup) (request : Intent) (taken : List Sent) (running : Running)
            → self.now.running ≡ Some running
            → RunningStands setup request taken running
            → result
            ≡ slice_get
            (map (call_message client self.now.ticket)
            (waiting_calls setup request taken)) nth }
    {
        let mut place = unwritten(client);
        if !self.call_into(client, nth, &mut place) {
            return None;
        }
        Some(place)
    }

    /// Does what `call` does, and writes the message into the caller's buffer. Says whether there is one; where there is
    /// none, the place is as it was.
    pub fn call_into(&self, client: Client, nth: u32, place: &mut Message) -> bool
        ensures idle { self.now.running ≡ None → result ≡ false }
        ensures made { result ≡ nat_lt nth (calls_waiting self.now.running) }
        ensures told { (setup : Setup) (request : Intent) (taken : List Sent) (running : Running)
            → self.now.running ≡ Some running
            → RunningStands setup request taken running → (if result then Some place.new else None)
            ≡ slice_get
            (map (call_message client self.now.ticket)
            (waiting_calls setup request taken)) nth }
        ensures unchanged { result ≡ false → place.new ≡ place.old }
    {
        if !self.call_over(client, nth, place) {
            return false;
        }
        forget_reply(place);
        true
    }

    /// Does what `call_into` does, and leaves the reply that lies in the caller's buffer: the next one, which is mostly of the same
    /// kind, is written over it. A reply has some 750 bytes.
    pub fn call_over(&self, client: Client, nth: u32, place: &mut Message) -> bool
        ensures idle { self.now.running ≡ None → result ≡ false }
        ensures made { result ≡ nat_lt nth (calls_waiting self.now.running) }
        ensures told { (setup : Setup) (request : Intent) (taken : List Sent) (running : Running)
            → self.now.running ≡ Some running
            → RunningStands setup request taken running
            → (if result then Some (record place.new { reply = None }) else None)
            ≡ slice_get
            (map (call_message client self.now.ticket)
            (waiting_calls setup request taken)) nth }
        ensures there { (if result then Some (outgoing_of place.new) else None)
            ≡ slice_get (waiting_of self.now.running) nth }
        ensures reply { place.new.reply ≡ place.old.reply }
        ensures unchanged { result ≡ false → place.new ≡ place.old }
    {
        let Some(running) = self.running.as_ref() else {
            return false;
        };
        if !running.call_into(nth, place) {
            return false;
        }
        place.client = client;
        place.ticket = self.ticket;
        true
    }

    /// Raises the counter to that of the stamp that a reply reports, if it reports one that is above it.
    fn raise_by(&mut self, reply: &Option<Reply>)
        ensures { self.new
            ≡ record self.old { counter = max (counter_in reply.now) self.old.counter } }
    {
        match reply {
            Some(Reply::Get(ReadReply::Version(version))) => self.raise(version.stamp.counter()),
            Some(Reply::Get(ReadReply::Collected(floor))) => self.raise(floor.counter()),
            _ => {}
        }
    }

    /// Raises the counter to the one that was seen, if that is above it.
    fn raise(&mut self, seen: u64)
        requires { seen ≤ max_counter }
        ensures { self.new ≡ record self.old { counter = max seen self.old.counter } }
    {
        if seen > self.counter.get() {
            self.counter = Counter::new(seen).unwrap();
        }
    }

    /// Whether it is open. It fails where it is closed (19).
    fn test_open(&self) -> Result<(), Refusal>
        ensures { result ≡ test_open self.now }
    {
        if self.is_open {
            Ok(())
        } else {
            Err(Refusal::Stopped)
        }
    }

    /// Whether a transaction may begin. It fails where it is closed (19), and where one is running (12).
    fn test_idle(&self) -> Result<(), Refusal>
        ensures { result ≡ test_idle self.now }
    {
        self.test_open()?;
        if self.running.is_some() {
            return Err(Refusal::Busy);
        }
        Ok(())
    }
}

//! One partition, as all that serve there reach it: its cells and journals behind a lock, and the numbers of its calls.
ghost use Rattle.std.specs.Prelude.{◌≡◌, ◌+◌, ◌<◌, ◌≤◌, ◌*◌, ◌^◌, ◌↔◌, ◌⊎◌, Some, false, true, All, map, length, replicate, IfSome, OnErr, IsTrue};
ghost use Rattle.std.specs.Sync.Mutex.{mutex_guard_value};
ghost use Rattle.std.specs.VecDeque.{deque_capacity, deque_len};
ghost use Rattle.partition.specs.Accounts.{events_at};
ghost use mathlib.Core.List.{IsPrefix};
ghost use Rattle.history.specs.Entries.{count};
ghost use Rattle.history.specs.Legal.{MayServe};
ghost use Rattle.shard.specs.Counted.{IsCounted, NotesEvent, NotesEvents, nothing_due};
ghost use Rattle.shard.specs.Journals.{AreOf, CameSo, came_to};
ghost use Rattle.shard.specs.Rounds.{AreShort, IsLongAt};
ghost use Rattle.traced_book.specs.Forgetting.{TakesCall};
ghost use Rattle.shard.specs.Serving.{RefusesSo};
ghost use Rattle.stamps.specs.Limits.{max_tenants};

use crate::collections::CollectionCounts;
use crate::collector::Collector;
use crate::counting::{LAST, next_number};
use crate::gate::Gate;
use crate::jobs::{Fault, PlacedReply};
use crate::seat_call::SeatCall;
use history::{Front, Naming};
use partition::Caller;
use plain_store::{Call, Refusal};
use std::collections::VecDeque;
use std::sync::atomic::{AtomicU64, Ordering};
use std::sync::{Arc, Mutex, MutexGuard, Wait};
use std::thread;
use traced_book::TracedBook;

/// How often a seat looks whether a lock is free before it lets other threads run. A yield puts it behind all that are ready to
/// run, so it looks for longer than most waits take.
const LOOKS: u32 = 100;

/// How many times it reads a word that stays as it is, between two looks. A look takes the lock's cache line from the thread that is to
/// release the lock, so looks that follow each other at once delay that. A hint to the processor compiles to nothing.
const WAITS: u32 = 200;

/// How often it lets other threads run before it sleeps.
const YIELDS: u32 = 16;

/// Bytes that nothing reads: what stands before them and what stands behind them lie on different cache lines.
type Gap = [u64; 16];

const GAP: Gap = [0; 16];

/// Which partition it is, of how many, how often it collects, whether it keeps journals, and how long they grow.
#[derive(Clone, Copy)]
pub struct ShardConfig {
    pub partition: u32,
    pub parts: u32,
    pub tenants: u32,
    pub every: u32,
    pub journals: bool,
    pub epoch: u32,
    ghost some_events: { 0 < every },
    ghost few_tenants: { tenants ≤ max_tenants },
}

/// What stands behind a partition's lock: its book, whose journals, if it keeps any, are those of this partition.
#[derive(Drop)]
pub struct ShardState<J: Naming> {
    /// The lock's word lies before it, and is written by those that wait.
    behind_lock: Gap,
    pub book: TracedBook<J>,
    /// Which partition it is, of how many.
    pub partition: u32,
    pub parts: u32,
    /// How many events of seats came since a collection was due.
    events: u32,
    /// How many collections each tenant had here.
    pub collections: CollectionCounts,
    ghost journals: { ∥ AreOf parts partition book.accounts ∥₁ },
    ghost its: { book.partition ≡ partition },
}

/// What is left to be done once the lock is released.
#[derive(Clone, Copy)]
pub struct FollowUp {
    /// To collect for each tenant.
    pub collects: bool,
    /// To have the worker cut a journal.
    pub cuts: bool,
}

/// What stands at one partition: its book behind a lock, and what threads read without it.
#[derive(Drop)]
pub struct Shard<J: Naming> {
    pub config: ShardConfig,
    pub collector: Arc<Collector>,
    /// What all threads only read lies before it.
    before_arrivals: Gap,
    arrivals: AtomicU64,
    behind_arrivals: Gap,
    state: Mutex<ShardState<J>>,
}

/// How far a staged call has come.
#[derive(Clone, Copy)]
pub enum CallState {
    Pending,
    /// Its journal was full: the worker serves it.
    Deferred,
    /// Which one of the tenant's calls it is, from 1, or why it is none.
    Served(Result<u64, Fault>),
}

/// A call of a seat's round. Where it was served, its reply is that of its place among the tenant's calls.
#[derive(Drop)]
pub struct Staged<J: Naming> {
    pub call: SeatCall<J>,
    pub stage: CallState,
    ghost came: { CameSo call.front call.mark call.partition call.tenant call.seat call.number call.message.value (came_to stage) },
}

impl CallState {
    /// What came of the call: its place, or why it has none. One that was not served has no tenant.
    pub fn outcome(self) -> Result<u64, Fault>
        ensures { result ≡ came_to self }
    {
        match self {
            CallState::Served(outcome) => outcome,
            CallState::Pending | CallState::Deferred => Err(Fault::NoTenant),
        }
    }
}

impl FollowUp {
    /// Nothing is due.
    pub fn nothing() -> FollowUp
        ensures { (result.collects ≡ false) × (result.cuts ≡ false) }
    {
        FollowUp {
            collects: false,
            cuts: false,
        }
    }
}

impl<J: Naming> Shard<J> {
    ghost use Rattle.shard.specs.Held.{HasItsJournals, IsHandedOut};

    /// A partition with this book, whose journals are its own. What it begins with behind its lock is that of `ShardState::new`.
    pub fn new(config: ShardConfig, collector: Arc<Collector>, book: TracedBook<J>) -> Shard<J>
        requires journals { ∥ AreOf config.parts config.partition book.accounts ∥₁ }
        requires its { (book.partition ≡ config.partition) × (book.journals ≡ config.journals) }
        ensures { result.config ≡ config }
    {
        let state = Mutex::new(ShardState::new(&config, book));
        Shard {
            config,
            collector,
            before_arrivals: GAP,
            arrivals: AtomicU64::new(0),
            behind_arrivals: GAP,
            state,
        }
    }

    /// The number of the next arrival, from 1. It stays at 2^62.
    pub fn next_arrival(&self) -> u64
        ensures few { result ≤ 2 ^ 62 }
        ensures positive { 0 < result }
    {
        next_number(&self.arrivals).unwrap_or(LAST)
    }

    /// Takes the lock where it is free.
    pub fn try_lock(&self) -> Option<MutexGuard<'_, ShardState<J>>>
        ensures { IfSome result (λ guard. HasItsJournals (mutex_guard_value guard)) }
    {
        self.state.try_lock()
    }

    /// Locks the state, and blocks as long as another thread has it.
    pub fn lock<R: Wait>(&self, rt: &R) -> MutexGuard<'_, ShardState<J>>
        ensures { HasItsJournals (mutex_guard_value result) }
    {
        self.state.lock(rt)
    }

    /// Waits for the lock, and looks for a while before it sleeps: a partition is held for a microsecond or two, and a thread that
    /// slept is woken later than that, with the lock kept for it meanwhile.
    pub fn lock_soon<R: Wait>(&self, rt: &R) -> MutexGuard<'_, ShardState<J>>
        ensures { HasItsJournals (mutex_guard_value result) }
    {
        for _ in 0..YIELDS {
            if let Some(guard) = self.look() {
                return guard;
            }
            thread::yield_now();
        }
        self.state.lock(rt)
    }

    /// Takes the lock where it gets free within so many looks.
    fn look(&self) -> Option<MutexGuard<'_, ShardState<J>>>
        ensures { IfSome result (λ guard. HasItsJournals (mutex_guard_value guard)) }
    {
        for _ in 0..LOOKS {
            if let Some(guard) = self.state.try_lock() {
                return Some(guard);
            }
            self.wait_a_little();
        }
        None
    }

    /// Lets some hundred cycles of the processor go by, without touching the lock.
    fn wait_a_little(&self) {
        for _ in 0..WAITS {
            let _ = self.arrivals.load(Ordering::SeqCst);
        }
    }

    /// Sees the history as it is now, and answers how many calls it has of this partition, one of so many: 0 where the state behind
    /// the lock is not that partition's.
    pub fn look_at_calls<R: Wait>(
        &self,
        rt: &R,
        parts: u32,
        partition: u32,
        seen: &mut Front<J>,
    ) -> u64
        ensures seen { IsPrefix seen.old seen.new }
        ensures calls { (result ≡ count (partition + 1) seen.new) ⊎ (result ≡ 0) }
    {
        let guard = self.lock(rt);
        let state = &*guard;
        if state.parts != parts || state.partition != partition {
            return 0;
        }
        state.book.look(seen)
    }

    /// The book, which no thread has any more. None where it is not this partition's, has not so many tenants, or keeps journals where
    /// this one does not, or none where it does: what lies behind a lock is known only by its type.
    pub fn into_book(self) -> Option<TracedBook<J>>
        ensures { IfSome result (λ book. IsHandedOut self.config book) }
    {
        let Shard {
            config,
            collector: _,
            before_arrivals: _,
            arrivals: _,
            behind_arrivals: _,
            state,
        } = self;
        let ShardState {
            book,
            partition,
            parts,
            ..
        } = state.into_inner();
        let is_here = partition == config.partition && parts == config.parts;
        let is_alike = book.tenants() == config.tenants && book.has_journals() == config.journals;
        if is_here && is_alike {
            Some(book)
        } else {
            None
        }
    }
}

impl<J: Naming> ShardState<J> {
    ghost use Rattle.shard.specs.Asked.{asked_by, asked_of, IsOpenAt};
    ghost use Rattle.shard.specs.Held.{StaysAt};

    /// That of a partition with this book: no event of a seat came since a collection was due, and no tenant was collected.
    fn new(config: &ShardConfig, book: TracedBook<J>) -> ShardState<J>
        requires journals { ∥ AreOf config.now.parts config.now.partition book.accounts ∥₁ }
        requires its { book.partition ≡ config.now.partition }
        ensures book { result.book ≡ book }
        ensures partition { (result.partition ≡ config.now.partition)
            × (result.parts ≡ config.now.parts) }
        ensures events { result.events ≡ 0 }
        ensures collections { result.collections ≡ replicate max_tenants 0 }
    {
        ShardState {
            behind_lock: GAP,
            book,
            partition: config.partition,
            parts: config.parts,
            events: 0,
            collections: CollectionCounts::new(),
        }
    }

    /// Serves those of the staged calls that are for this partition, in their order, under this one lock. A call whose journal
    /// is full is left to the worker. Answers what is due then: to collect, and to cut a journal that has just an epoch's events.
    pub fn serve_round<G: Gate>(
        &mut self,
        config: &ShardConfig,
        gate: &G,
        calls: &mut VecDeque<Staged<J>>,
    ) -> FollowUp
        ensures short { AreShort config.now.epoch self.old.book.accounts
            → AreShort config.now.epoch self.new.book.accounts }
        ensures calls { deque_len calls.new ≡ deque_len calls.old }
        ensures room { deque_capacity calls.new ≡ deque_capacity calls.old }
        // Each asks what it asked.
        ensures asked { map asked_by calls.new.items ≡ map asked_by calls.old.items }
        // None that is for this partition is as it was staged.
        ensures all { All (λ staged. IsOpenAt self.old.partition self.old.parts staged
            → ⊥) calls.new.items }
        ensures notes { NotesEvents config.now.every config.now.epoch self.old.book.accounts
            self.new.book.accounts self.old.events self.new.events nothing_due result }
        ensures stays { StaysAt self.old self.new }
    {
        let mut follow_up = FollowUp::nothing();
        for at in 0..calls.len() {
            let Some(staged) = calls.get_mut(at) else {
                break;
            };
            if !self.is_home_of(&staged.call) || !matches!(staged.stage, CallState::Pending) {
                continue;
            }
            if self.leaves(config, staged) {
                continue;
            }
            gate.inside(self.partition, staged.call.arrival);
            let outcome = self.serve(config, gate, &mut staged.call, &mut follow_up);
            staged.stage = CallState::Served(outcome);
        }
        follow_up
    }

    /// Whether this is the partition that the call is for.
    fn is_home_of(&self, call: &SeatCall<J>) -> bool
        ensures { IsTrue result
            ↔ ((call.now.partition ≡ self.now.partition) × (call.now.parts ≡ self.now.parts)) }
    {
        call.partition == self.partition && call.parts == self.parts
    }

    /// Leaves a staged call to the worker where its journal is full, and answers whether it does.
    fn leaves(&self, config: &ShardConfig, staged: &mut Staged<J>) -> bool
        ensures left { IsTrue result → (staged.new.stage ≡ CallState.Deferred)
            × (0 < config.now.epoch)
            × (2 * config.now.epoch
            ≤ length (events_at self.now.book.accounts staged.old.call.tenant)) }
        ensures short { result ≡ false → 0 < config.now.epoch
            → length (events_at self.now.book.accounts staged.old.call.tenant)
            < 2 * config.now.epoch }
        ensures call { staged.new.call ≡ staged.old.call }
    {
        let is_full = is_full(&self.book, config.epoch, staged.call.tenant);
        if is_full {
            staged.stage = CallState::Deferred;
        }
        is_full
    }

    /// Serves a call that a worker was sent. One that is for another partition has no tenant here.
    pub fn serve_sent<G: Gate>(
        &mut self,
        config: &ShardConfig,
        gate: &G,
        call: &mut SeatCall<J>,
        follow_up: &mut FollowUp,
    ) -> Result<u64, Fault>
        ensures came { CameSo call.new.front call.new.mark call.new.partition call.new.tenant
            call.new.seat call.new.number call.new.message.value result }
        ensures asked { asked_of call.new ≡ asked_of call.old }
        ensures mark { call.new.mark ≡ call.old.mark }
        ensures takes { TakesCall self.old.book.journals self.old.book.accounts
            self.new.book.accounts call.old.tenant call.old.seat call.old.number
            call.old.message.value.call (λ place. place)
            (λ _. call.new.message.value.reply) result }
        ensures refuses { call.old.partition ≡ self.old.partition → call.old.parts ≡ self.old.parts
            → RefusesSo self.old.book.accounts call.old.tenant call.old.seat
            call.old.number result }
        ensures notes { NotesEvent config.now.every config.now.epoch self.new.book.accounts
            call.old.tenant self.old.events self.new.events follow_up.old follow_up.new result }
        ensures stays { StaysAt self.old self.new }
    {
        if !self.is_home_of(call) {
            return Err(Fault::NoTenant);
        }
        gate.inside(self.partition, call.arrival);
        self.serve(config, gate, call, follow_up)
    }

    /// Serves a call that came to its partition, with the reply written into its message, and notes what is due then. Answers
    /// its event's place in the journal.
    fn serve<G: Gate>(
        &mut self,
        config: &ShardConfig,
        _gate: &G,
        call: &mut SeatCall<J>,
        follow_up: &mut FollowUp,
    ) -> Result<u64, Fault>
        requires home { (call.old.partition ≡ self.old.partition)
            × (call.old.parts ≡ self.old.parts) }
        requires inside { G.is_inside _gate.now self.old.partition call.old.arrival }
        ensures came { CameSo call.new.front call.new.mark call.new.partition call.new.tenant
            call.new.seat call.new.number call.new.message.value result }
        ensures asked { (asked_of call.new ≡ asked_of call.old) × (call.new.mark ≡ call.old.mark) }
        ensures unwritten { OnErr result
            (call.new.message.value.reply ≡ call.old.message.value.reply) }
        ensures takes { TakesCall self.old.book.journals self.old.book.accounts
            self.new.book.accounts call.old.tenant call.old.seat call.old.number
            call.old.message.value.call (λ place. place)
            (λ _. call.new.message.value.reply) result }
        ensures refuses { RefusesSo self.old.book.accounts call.old.tenant call.old.seat
            call.old.number result }
        ensures notes { NotesEvent config.now.every config.now.epoch self.new.book.accounts
            call.old.tenant self.old.events self.new.events follow_up.old follow_up.new result }
        ensures stays { StaysAt self.old self.new }
        // where its journal was not full
        ensures short { (0 < config.now.epoch
            → length (events_at self.old.book.accounts call.old.tenant) < 2 * config.now.epoch)
            → AreShort config.now.epoch self.old.book.accounts
            → AreShort config.now.epoch self.new.book.accounts }
    {
        if call.tenant >= self.book.tenants() {
            return Err(Fault::NoTenant);
        }
        let caller = Caller {
            seat: call.seat,
            number: call.number,
        };
        let message = &mut *call.message;
        let served = self.book.serve_into(
            caller,
            call.tenant,
            &message.call,
            &mut message.reply,
            &mut call.front,
        );
        let place = match served {
            Ok(place) => place,
            Err(Refusal::Late) => return Err(Fault::Late),
            Err(_) => return Err(Fault::OutOfMemory),
        };
        self.count(config, follow_up);
        if is_long(&self.book, config.epoch, call.tenant) {
            follow_up.cuts = true;
        }
        Ok(place)
    }

    /// Counts an event of a seat.
    fn count(&mut self, config: &ShardConfig, follow_up: &mut FollowUp)
        ensures book { self.new.book.accounts ≡ self.old.book.accounts }
        ensures stays { StaysAt self.old self.new }
        ensures cuts { follow_up.new.cuts ≡ follow_up.old.cuts }
        ensures counted { IsCounted config.now.every self.old.events self.new.events
            follow_up.old.collects follow_up.new.collects }
    {
        self.events = self.events.saturating_add(1);
        if self.events >= config.every {
            self.events = 0;
            follow_up.collects = true;
        }
    }
}

/// Whether a tenant's journal has twice as many events as an epoch, so that a seat waits until it was cut.
pub fn is_full<J: Naming>(book: &TracedBook<J>, epoch: u32, tenant: u32) -> bool
    ensures full { IsTrue result
        → (0 < epoch) × (tenant < length book.now.accounts)
        × (2 * epoch ≤ length (events_at book.now.accounts tenant)) }
    ensures short { result ≡ false → 0 < epoch
        → length (events_at book.now.accounts tenant) < 2 * epoch }
{
    if tenant >= book.tenants() {
        return false;
    }
    epoch > 0 && book.events(tenant) >= 2 * u64::from(epoch)
}

/// Whether a tenant's journal has just as many events as an epoch.
pub fn is_long<J: Naming>(book: &TracedBook<J>, epoch: u32, tenant: u32) -> bool
    ensures { IsTrue result ↔ IsLongAt epoch book.now.accounts tenant }
{
    epoch > 0 && tenant < book.tenants() && book.events(tenant) == u64::from(epoch)
}

/// Serves a call of a tenant that may not be there, if what the book has seen shows that it may be served.
pub fn answer<J: Naming>(
    book: &mut TracedBook<J>,
    seat: u64,
    number: u64,
    tenant: u32,
    call: &Call,
) -> Result<PlacedReply, Fault>
    requires { ∥ MayServe book.old.seen book.old.partition tenant call.now ∥₁ }
    ensures takes { TakesCall book.old.journals book.old.accounts book.new.accounts tenant seat
        number call.now (λ told. told.place) (λ told. Some told.reply) result }
    ensures refuses { RefusesSo book.old.accounts tenant seat number result }
    ensures partition { (book.new.partition ≡ book.old.partition)
        × (book.new.journals ≡ book.old.journals) }
{
    if tenant >= book.tenants() {
        return Err(Fault::NoTenant);
    }
    let mut reply = None;
    let mut evidence = book.seen();
    let caller = Caller { seat, number };
    match book.serve_into(caller, tenant, call, &mut reply, &mut evidence) {
        Ok(place) => Ok(PlacedReply {
            place,
            reply: reply.unwrap(),
        }),
        Err(Refusal::Late) => Err(Fault::Late),
        Err(_) => Err(Fault::OutOfMemory),
    }
}

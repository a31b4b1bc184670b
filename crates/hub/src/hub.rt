//! A hub: what seats share, and the threads that serve them.
ghost use mathlib.Core.List.{IsPrefix};
ghost use Rattle.stamps.specs.Bounds.{IsParts};
ghost use Rattle.history.specs.Legal.{HasParts};
ghost use Rattle.hub.specs.Hubs.{view_with, AllTraced, IsLeftBy};
ghost use Rattle.hub.specs.Registered.{IsDecidedBy, IsDeparture, is_unopened};
ghost use Rattle.hub.specs.Seats.{IsOpened};
ghost use Rattle.shard.specs.Queues.{unsent};
ghost use Rattle.shard.specs.UsedAt.{AreUsagesAt};
ghost use Rattle.std.specs.Prelude.{◌≡◌, ◌≤◌, ◌<◌, ◌+◌, ◌↔◌, ◌⊎◌, true, false, [], length, map, slice_get, vec_len, vec_capacity, Ok, IfOk, IfErr, IfSome, OnOk, IsErrOf, IsTrue, is_some};

use crate::clients::{AdmissionCheck, Clients, Departure};
use crate::clocks::Clocks;
use crate::closing::{LeftJournals, look_at_calls, seen_with, take_all};
use crate::dispatcher::Dispatcher;
use crate::new_store::NewStore;
use crate::seal::Sealed;
use crate::seat::{Ends, Seat};
use crate::start::{HubFault, PartitionLists, Started, Worker, join_all, start};
use closed_store::{Closed, Config, Transcript};
use history::{Front, Naming};
use partition::{Counts, Journal};
use plain_store::{Reading, Readings, Refusal};
use shard::{Collector, Gate, JobSender, SeatName, Shard, Sink, TenantUsage};
use stamps::{Client, Counter, Keep, Limits};
use std::alloc::{AllocError, Global};
use std::marker::Model;
use std::sync::{Arc, Mutex, Wait};
use std::thread::Threads;
use tenant_sessions::ClientSession;
use traced_client::TracedClient;

/// The running store. Any thread may hold a `&` to it and take seats; one thread opens and closes it.
///
/// Its calls wait for locks, queues and threads, and their promises hold if they return. Nothing is claimed of progress.
#[derive(Drop)]
pub struct Hub<G: Naming> {
    config: Config,
    /// Whether its partitions keep journals.
    journals: bool,
    pub(crate) alloc: Global,
    queues: Mutex<Vec<JobSender<G>>>,
    clients: Mutex<Clients<G>>,
    collector: Arc<Collector>,
    gate: Arc<G>,
    shards: Vec<Arc<Shard<G>>>,
    threads: Sealed<Vec<Worker>>,
    /// Room for the numbers of calls that the close sees.
    calls: Vec<u64>,
    /// Room for the journals that are left.
    left: Vec<Vec<Journal>>,
    counts: Vec<Counts>,
    /// Its opening: what each seat has seen of the history at first.
    seen: Front<G>,
    clocks: Clocks<G>,
}

impl<G: Naming> Model for Hub<G> {
    ghost use Rattle.std.specs.Prelude.{◌≡◌, ◌≤◌, length, vec_len, vec_capacity};
    ghost use Rattle.hub.specs.Hubs.{ConfigView, view_with};
    ghost use Rattle.history.specs.Legal.{HasParts};
    ghost use Rattle.hub.specs.Shards.{AreShardsFrom, KeepAlike};

    ghost Value = { ConfigView };

    ghost view = { λ h. view_with h.config h.journals };

    ghost invariant = { λ h. (length h.shards.items ≡ h.config.parts) × (vec_len h.left ≡ 0) × (vec_len h.counts ≡ 0) × (vec_len h.calls ≡ 0) × (h.config.parts ≤ vec_capacity h.left) × (h.config.parts ≤ vec_capacity h.counts) × (h.config.parts ≤ vec_capacity h.calls) × AreShardsFrom h.config 0 h.shards.items × KeepAlike h.journals h.shards.items × ∥ HasParts h.seen h.config.parts ∥₁ };
}

impl<G: Gate + Naming + Send + Sync + Drop + 'static> Hub<G> {
    /// Starts a worker for each partition. Epochs that workers cut go to the sink, which the workers drop as they end. It fails
    /// where memory or a thread was refused; then it has ended and joined the threads that it started.
    ///
    /// Where the store keeps no journals, no epoch is cut, and none comes to the sink.
    ///
    /// The gate's type carries the name of the store's history: `Named` puts a gate under a name.
    pub fn open<
        S: Sink<G> + Send + Sync + Drop + 'static,
        R: Threads + Wait + Clone + Send + Drop + 'static,
    >(rt: &R, alloc: Global, store: NewStore, gate: G, sink: S) -> Result<Hub<G>, HubFault>
        requires { store.history.seen.book ≡ G.book }
        ensures { IfOk result (λ h. h ≡ view_with store.config store.journals) }
    {
        let NewStore {
            config,
            journals,
            history,
        } = store;
        let (of_clients, mut words, seen) = history.named::<G>();
        let tenants = config.limits.len();
        let clients = Clients::of(alloc, tenants, of_clients, &seen)?;
        let mut clocks = Clocks::with_room(alloc, tenants)?;
        let started = start(rt, alloc, &config, journals, gate, sink, &mut words, &seen)?;
        clocks.fill(words, tenants);
        let Started {
            gate,
            collector,
            lists,
        } = started;
        let PartitionLists {
            shards,
            queues,
            threads,
            calls,
            journals: left,
            counts,
        } = lists;
        Ok(Hub {
            config,
            journals,
            alloc,
            queues: Mutex::new(queues),
            clients: Mutex::new(clients),
            collector,
            gate,
            shards,
            threads: Sealed::new(threads),
            calls,
            left,
            counts,
            seen,
            clocks,
        })
    }

    /// Ends and joins the threads, and takes each book out of its lock. The seats have ended, since they borrow the hub. A
    /// book that is not there, or that has not all calls of its partition, gives no journals and counts of 0: no proof excludes
    /// that. So does a store that keeps no journals. Takes no memory.
    pub fn close<R: Threads + Wait>(self, rt: &R, transcripts: Vec<Transcript>) -> Closed
        ensures { IsLeftBy self transcripts.items result }
    {
        let (closed, _) = self.close_with_history(rt, transcripts, &None);
        closed
    }

    /// As `close`, and answers what was seen of the history at last, by the seats too, if they left that. Where there are journals of
    /// a partition, all calls that this one history has of it are in them, or in epochs that were cut off them.
    pub fn close_with_history<R: Threads + Wait>(
        self,
        rt: &R,
        transcripts: Vec<Transcript>,
        seats: &Option<Front<G>>,
    ) -> (Closed, Front<G>)
        ensures left { IsLeftBy self transcripts.items result.0 }
        ensures history { AllTraced result.1 0 result.0.journals.items }
        ensures seats { IfSome seats.now (λ theirs. IsPrefix theirs result.1) }
    {
        let Hub {
            config,
            journals: _,
            alloc,
            queues,
            clients: _,
            collector: _,
            gate: _,
            shards,
            threads,
            mut calls,
            left: journals,
            counts,
            seen,
            clocks: _,
        } = self;
        let mut seen = seen_with(seen, seats);
        drop(queues);
        let _ = join_all(rt, threads.into_inner());
        look_at_calls(rt, config.parts, shards.as_slice(), &mut calls, &mut seen);
        let left = LeftJournals { journals, counts };
        let LeftJournals { journals, counts } = take_all(
            alloc, &config, shards, calls, &seen, left,
        );
        let closed = Closed {
            config,
            journals,
            counts,
            transcripts,
        };
        (closed, seen)
    }
}

impl<G: Naming> Hub<G> {
    /// Whether its partitions keep journals of the calls that they serve.
    pub fn has_journals(&self) -> bool
        ensures { result ≡ self.now.journals }
    {
        self.journals
    }

    /// After how many events of a journal its partition's worker cuts it; 0 where none is ever cut.
    pub fn epoch(&self) -> u32
        ensures { result ≡ self.now.epoch }
    {
        self.config.epoch
    }

    /// How many partitions it has, 1 to `MAX_PARTS`.
    pub fn parts(&self) -> u32
        ensures value { result ≡ self.now.parts }
        ensures in_range { IsParts result }
    {
        self.config.parts
    }

    /// Ends this session of a client, whose word comes back with it. A later one of that client goes on.
    pub(crate) fn leave<R: Wait>(
        &self,
        rt: &R,
        name: &SeatName,
        counter: Counter,
        ticket: u64,
        client: Option<TracedClient<G>>,
    ) -> Departure
        ensures { IsDeparture name.now counter ticket (is_some client) result }
    {
        self.clients.lock(rt).leave(name, counter, ticket, client)
    }
}

impl<G: Gate + Naming> Hub<G> {
    /// What it had seen of its history when it was opened: no call yet. Who looks at the store with `status` begins with it.
    pub fn opening(&self) -> Front<G>
        ensures { ∥ HasParts result self.now.parts ∥₁ }
    {
        self.seen.again()
    }

    /// Puts how much each tenant uses of a partition, in their order and at one moment, in place of what the list has, and sees the history as it
    /// is then: what each tenant uses is what all calls left that it has of the partition. It takes the partition's lock, and time for
    /// each tenant, and visits none of what they hold. Answers false where there is no such partition, or where the state
    /// behind its lock is another's, served fewer calls, or has not as many tenants. The one error is that an allocation
    /// failed.
    pub fn status<R: Wait>(
        &self,
        rt: &R,
        partition: u32,
        usages: &mut Vec<TenantUsage>,
        seen: &mut Front<G>,
    ) -> Result<bool, AllocError>
        ensures used { IfOk result (λ is_there. IsTrue is_there
            → AreUsagesAt seen.new self.now.parts partition usages.new.items) }
        ensures each { IfOk result (λ is_there. IsTrue is_there
            → length usages.new.items ≡ length self.now.limits) }
        ensures later { IsPrefix seen.old seen.new }
        ensures past { self.now.parts ≤ partition → result ≡ Ok false }
    {
        let Some(shard) = self.shards.get(partition as usize) else {
            return Ok(false);
        };
        if !shard.put_usages(rt, self.config.parts, partition, usages, seen)? {
            return Ok(false);
        }
        Ok(usages.len() == self.config.limits.len())
    }

    /// The limits of its tenants.
    pub fn limits(&self) -> &[Limits]
        ensures { result.now ≡ self.now.limits }
    {
        self.config.limits.as_slice()
    }

    /// How many clients of a tenant had a session: none more than its limits say. It waits for openings and ends of sessions, and
    /// for nothing else of them.
    pub fn clients<R: Wait>(&self, rt: &R, tenant: u32) -> usize
        ensures few { IfSome (slice_get self.now.limits tenant) (λ its. result ≤ its.clients) }
        ensures past { length self.now.limits ≤ tenant → result ≡ 0 }
    {
        match self.config.limits.get(tenant as usize) {
            Some(its) => self
                .clients
                .lock(rt)
                .register
                .clients(tenant)
                .min(its.clients as usize),
            None => 0,
        }
    }

    /// Opens a session of a client. The tests come first, in the order of the refusals' numbers, and then memory: 10 where
    /// there is no such tenant, 12 where the client has a session, 24 where the client is new and the tenant has as many as it may have,
    /// 26 where seats, tickets or the words of clients and clocks are used up, 30 where an allocation failed. A refusal changes nothing.
    pub fn seat<R: Wait>(
        &self,
        rt: &R,
        tenant: u32,
        client: Client,
        base: Counter,
    ) -> Result<Seat<'_, G>, Refusal>
        ensures opened { IfOk result (IsOpened self.now.parts tenant client base) }
        ensures no_tenant { IsErrOf result Refusal.NoTenant ↔ (length self.now.limits ≤ tenant) }
        ensures refusals { IfErr result (λ refusal. (refusal ≡ Refusal.NoTenant)
            ⊎ (is_unopened refusal ≡ true)) }
    {
        let (opened, _check) = self.seat_with_check(rt, tenant, client, base);
        opened
    }

    /// As `seat`, and answers by what that was decided: which client asked, what was kept of it, how many clients its tenant had, and how many
    /// seats there were. Each refusal but 30 has its cause there, or in the numbers of words and clocks.
    pub fn seat_with_check<R: Wait>(
        &self,
        rt: &R,
        tenant: u32,
        client: Client,
        base: Counter,
    ) -> (Result<Seat<'_, G>, Refusal>, AdmissionCheck)
        ensures opened { IfOk result.0 (IsOpened self.now.parts tenant client base) }
        ensures no_tenant { IsErrOf result.0 Refusal.NoTenant ↔ (length self.now.limits ≤ tenant) }
        ensures decided { IfSome (slice_get self.now.limits tenant)
            (λ its. IsDecidedBy result.1 tenant client its.clients base result.0) }
    {
        let mut guard = self.clients.lock(rt);
        let clients = &mut *guard;
        let mut check = clients.check(tenant, client);
        let Some(limits) = self.config.limits.get(tenant as usize) else {
            return (Err(Refusal::NoTenant), check);
        };
        let admission = match clients.register.offer(tenant, client, base, limits) {
            Ok(admission) => admission,
            Err(refusal) => return (Err(refusal), check),
        };
        let Some(clock) = self.clocks.of(tenant) else {
            return (Err(Refusal::RowsUsed), check);
        };
        let Ok(ends) = self.ends(rt, client, admission.counter) else {
            return (Err(Refusal::OutOfMemory), check);
        };
        let word = match clients.admit(tenant, client, &admission, &mut check) {
            Ok(word) => word,
            Err(refusal) => return (Err(refusal), check),
        };
        let name = SeatName {
            tenant,
            client,
            turn: admission.turn,
            seat: admission.seat,
            base,
            counter: admission.counter,
            is_recorded: true,
        };
        let mut seen = self.seen.again();
        seen.learn(&word.seen());
        let seat = Seat::new(self, name, admission.ticket, ends, seen, word, clock);
        (Ok(seat), check)
    }

    /// From now on each collection of this tenant keeps so many committed versions of an item. It begins with as many as its
    /// limits say. 10 where there is no such tenant. It takes no memory, and stands in no transcript.
    pub fn set_keep<R: Wait>(&self, rt: &R, tenant: u32, keep: Keep) -> Result<(), Refusal>
        ensures no_tenant { IsErrOf result Refusal.NoTenant ↔ (length self.now.limits ≤ tenant) }
        ensures no_other { IfErr result (λ e. e ≡ Refusal.NoTenant) }
    {
        if tenant as usize >= self.config.limits.len() {
            return Err(Refusal::NoTenant);
        }
        let _ = self.collector.set_keep(rt, tenant, keep);
        Ok(())
    }

    /// The resources of a seat: an endpoint of each queue, a queue for its replies, and its client's session.
    fn ends<R: Wait>(
        &self,
        rt: &R,
        client: Client,
        counter: Counter,
    ) -> Result<Ends<'_, G>, AllocError>
        ensures counter { IfOk result (λ ends. ends.session.counter ≡ counter) }
        ensures queues { IfOk result (λ ends. (ends.dispatcher.pool.client ≡ client)
            × (ends.dispatcher.parts ≡ self.now.parts)) }
    {
        let parts = self.config.parts;
        let jobs = ends_of(self.alloc, &mut *self.queues.lock(rt))?;
        let shards = self.shards.as_slice();
        let opening = self.seen.again();
        let dispatcher = Dispatcher::new(
            self.alloc,
            client,
            parts,
            opening,
            shards,
            &*self.gate,
            jobs,
        )?;
        let Ok(session) = ClientSession::hello(self.alloc, counter) else {
            return Err(AllocError);
        };
        let none: [Reading; 0] = [];
        let Ok(readings) = Box::new(self.alloc, Readings::of(&none).unwrap()) else {
            return Err(AllocError);
        };
        Ok(Ends {
            dispatcher,
            session,
            readings,
        })
    }
}

/// Another end of each of these queues, which has sent nothing.
fn ends_of<G: Naming>(
    alloc: Global,
    queues: &mut Vec<JobSender<G>>,
) -> Result<Vec<JobSender<G>>, AllocError>
    ensures ends { IfOk result (λ ends. ends.items ≡ map unsent queues.old.items) }
    ensures kept { OnOk result (queues.new.items ≡ queues.old.items) }
{
    let mut ends = Vec::with_capacity(alloc, queues.len())?;
    for at in 0..queues.len() {
        let queue = &mut queues[at];
        ends.push_reserved(queue.another()?);
    }
    Ok(ends)
}

//! The threads of a hub, and how they are started.
ghost use Rattle.std.specs.Prelude.{◌≡◌, ◌≤◌, ◌<◌, ◌+◌, ◌-◌, ◌^◌, vec_len, vec_capacity, IfErr, IfOk, OnOk};
ghost use Rattle.std.specs.Arc.{arc_value};
ghost use Rattle.stamps.specs.Limits.{max_parts};
ghost use Rattle.shard.specs.Journals.{AreOf};
ghost use Rattle.hub.specs.Shards.{IsConfigOf, IsOpeningOf, journals_of, partition_of};
ghost use Rattle.hub.specs.Starting.{AreEmptyFor, AreReady, AreStarted};

use closed_store::Config;
use history::{Front, Naming, PartitionWords, Tally};
use partition::{Book, Counts, Journal};
use shard::{
    Collector, Gate, JobReceiver, JobSender, KeepSettings, Shard, ShardConfig, Sink, WorkEnded,
    job_queue, work,
};
use std::alloc::{AllocError, Global};
use std::sync::{Arc, Wait};
use std::thread;
use std::thread::{Promise, PromisedHandle, Threads};
use traced_book::TracedBook;

/// Why no hub was opened. Nothing is left of it then.
#[derive(Clone, Copy, Debug, PartialEq, Eq)]
pub enum HubFault {
    /// Memory was refused.
    OutOfMemory,
    /// The system started no thread.
    Thread,
}

impl From<AllocError> for HubFault {
    ghost use Rattle.std.specs.Prelude.{◌≡◌};
    ghost use Rattle.hub.specs.declared.start.HubFault.TheVariants as faults;

    ghost from_gives = { λ _ fault. fault ≡ faults.OutOfMemory };

    fn from(_refused: AllocError) -> HubFault
        ensures { result ≡ faults.OutOfMemory }
    {
        HubFault::OutOfMemory
    }
}

/// The partition whose worker a thread runs.
#[derive(Clone, Copy, Drop)]
pub struct WorksAt {
    partition: u32,
}

impl Promise<WorkEnded> for WorksAt {
    ghost use Rattle.std.specs.Prelude.{◌≡◌};

    ghost kept_by = { λ its ended. ended.partition ≡ its.partition };
}

/// A thread that runs a worker.
pub type Worker = PromisedHandle<WorkEnded, WorksAt>;

/// How many workers have ended.
#[derive(Drop)]
pub struct EndedCount {
    count: usize,
}

impl EndedCount {
    /// Counts one more.
    fn add(&mut self, _ended: WorkEnded)
        requires { self.old.count < 2 ^ 64 - 1 }
        ensures { self.new.count ≡ self.old.count + 1 }
    {
        self.count += 1;
    }
}

/// A value that several threads are to hold. The one fault is that an allocation failed.
pub fn share<T: Drop>(alloc: Global, value: T) -> Result<Arc<T>, HubFault>
    ensures shared { IfOk result (λ shared. arc_value shared ≡ value) }
    ensures refused { IfErr result (λ fault. fault ≡ HubFault.OutOfMemory) }
{
    match Arc::new(alloc, value) {
        Ok(shared) => Ok(shared),
        Err(_) => Err(HubFault::OutOfMemory),
    }
}

/// What collects the tenants of a store that is opened with this. The one fault is that an allocation failed.
pub fn collector_of(alloc: Global, config: &Config) -> Result<Arc<Collector>, HubFault>
    ensures { IfErr result (λ fault. fault ≡ HubFault.OutOfMemory) }
{
    let keeps = KeepSettings::of(alloc, config.limits.as_slice())?;
    share(alloc, Collector::new(keeps))
}

/// The lists of a hub in which something stands for each partition.
#[derive(Drop)]
pub struct PartitionLists<G: Naming> {
    pub shards: Vec<Arc<Shard<G>>>,
    pub queues: Vec<JobSender<G>>,
    pub threads: Vec<Worker>,
    pub calls: Vec<u64>,
    pub journals: Vec<Vec<Journal>>,
    pub counts: Vec<Counts>,
}

impl<G: Naming> PartitionLists<G> {
    /// Empty lists with room for so many partitions. The one error is that an allocation failed.
    pub fn of(alloc: Global, parts: usize) -> Result<PartitionLists<G>, AllocError>
        ensures { IfOk result (λ lists. AreEmptyFor parts lists) }
    {
        Ok(PartitionLists {
            shards: Vec::with_capacity(alloc, parts)?,
            queues: Vec::with_capacity(alloc, parts)?,
            threads: Vec::with_capacity(alloc, parts)?,
            calls: Vec::with_capacity(alloc, parts)?,
            journals: Vec::with_capacity(alloc, parts)?,
            counts: Vec::with_capacity(alloc, parts)?,
        })
    }
}

/// Waits until each of these workers has ended, and counts them.
pub fn join_all<R: Threads>(rt: &R, threads: Vec<Worker>) -> EndedCount
    ensures { result.count ≡ vec_len threads }
{
    let _most = threads.len();
    let mut ended = EndedCount { count: 0 };
    for thread in threads {
        ended.add(thread.join(rt));
    }
    ended
}

/// What serves the calls of a hub.
#[derive(Drop)]
pub struct Started<G: Naming> {
    pub gate: Arc<G>,
    pub collector: Arc<Collector>,
    pub lists: PartitionLists<G>,
}

/// Starts what serves the calls of a hub. It fails where memory or a thread was refused; then it has ended and joined the threads that it
/// started.
pub fn start<
    G: Gate + Naming + Send + Sync + Drop + 'static,
    S: Sink<G> + Send + Sync + Drop + 'static,
    R: Threads + Wait + Clone + Send + Drop + 'static,
>(
    rt: &R,
    alloc: Global,
    config: &Config,
    journals: bool,
    gate: G,
    sink: S,
    words: &mut PartitionWords<G>,
    seen: &Front<G>,
) -> Result<Started<G>, HubFault>
    requires words { words.old.next ≡ 0 }
    requires opened { IsOpeningOf config.now seen.now }
    ensures { IfOk result (λ started. AreReady config.now journals started.lists) }
{
    let collector = collector_of(alloc, config)?;
    let gate = share(alloc, gate)?;
    let sink = share(alloc, sink)?;
    let mut lists = PartitionLists::of(alloc, config.parts as usize)?;
    let all = start_all(
        rt, alloc, config, journals, &gate, &sink, &collector, words, seen, &mut lists,
    );
    if let Err(fault) = all {
        let PartitionLists {
            queues,
            threads,
            ..
        } = lists;
        drop(queues);
        let _ = join_all(rt, threads);
        return Err(fault);
    }
    Ok(Started {
        gate,
        collector,
        lists,
    })
}

/// Starts a worker for each partition, with its shard, which keeps journals or none, and its queue. Where it fails, the threads started so far are in the lists.
pub fn start_all<
    G: Gate + Naming + Send + Sync + Drop + 'static,
    S: Sink<G> + Send + Sync + Drop + 'static,
    R: Threads + Wait + Clone + Send + Drop + 'static,
>(
    rt: &R,
    alloc: Global,
    config: &Config,
    journals: bool,
    gate: &Arc<G>,
    sink: &Arc<S>,
    collector: &Arc<Collector>,
    words: &mut PartitionWords<G>,
    seen: &Front<G>,
    lists: &mut PartitionLists<G>,
) -> Result<(), HubFault>
    requires shards { vec_len lists.old.shards + config.now.parts ≤ vec_capacity lists.old.shards }
    requires queues { vec_len lists.old.queues + config.now.parts ≤ vec_capacity lists.old.queues }
    requires threads { vec_len lists.old.threads + config.now.parts
        ≤ vec_capacity lists.old.threads }
    requires words { words.old.next ≡ 0 }
    requires opened { IsOpeningOf config.now seen.now }
    ensures started { OnOk result (AreStarted config.now journals lists.old lists.new) }
    ensures rest { (lists.new.calls ≡ lists.old.calls) × (lists.new.journals ≡ lists.old.journals)
        × (lists.new.counts ≡ lists.old.counts) }
{
    for partition in 0..config.parts {
        let tally = words.take().unwrap();
        let shard = shard_of(alloc, config, journals, collector, partition, tally, seen)?;
        let (queue, tasks) = job_queue(alloc, config.queue as usize)?;
        let theirs = Arc::try_clone(&shard)?;
        let thread = start_worker(rt, tasks, theirs, gate, sink)?;
        lists.shards.push_reserved(shard);
        lists.queues.push_reserved(queue);
        lists.threads.push_reserved(thread);
    }
    Ok(())
}

/// The shard of a partition that has served no call yet. The one fault is that an allocation failed.
fn shard_of<G: Naming>(
    alloc: Global,
    config: &Config,
    journals: bool,
    collector: &Arc<Collector>,
    partition: u32,
    tally: Tally<G>,
    seen: &Front<G>,
) -> Result<Arc<Shard<G>>, HubFault>
    requires tally { (tally.key ≡ partition + 1) × (partition < max_parts) }
    requires opened { IsOpeningOf config.now seen.now }
    ensures config { IfOk result
        (λ shard. IsConfigOf config.now partition (arc_value shard).config) }
    ensures journals { IfOk result (λ shard. journals_of shard ≡ journals) }
    ensures refused { IfErr result (λ fault. fault ≡ HubFault.OutOfMemory) }
{
    let collector = Arc::try_clone(collector)?;
    let its = ShardConfig {
        partition,
        parts: config.parts,
        tenants: config.limits.len() as u32,
        every: config.every,
        journals,
        epoch: config.epoch,
    };
    let book = book_of(alloc, config, journals, partition, tally, seen)?;
    share(alloc, Shard::new(its, collector, book))
}

/// The cells of a partition that has served no call yet, with journals or without. The one error is that an allocation failed.
fn book_of<G: Naming>(
    alloc: Global,
    config: &Config,
    journals: bool,
    partition: u32,
    tally: Tally<G>,
    seen: &Front<G>,
) -> Result<TracedBook<G>, AllocError>
    requires tally { (tally.key ≡ partition + 1) × (partition < max_parts) }
    requires opened { IsOpeningOf config.now seen.now }
    ensures its { IfOk result (λ book. (book.partition ≡ partition) × (book.journals ≡ journals)) }
    ensures of_partition { IfOk result
        (λ book. ∥ AreOf config.now.parts partition book.accounts ∥₁) }
{
    let limits = config.limits.as_slice();
    if journals {
        let book = Book::open(alloc, limits)?;
        Ok(TracedBook::new(book, partition, tally, seen.again()))
    } else {
        TracedBook::without_journals(alloc, limits, partition, tally, seen.again())
    }
}

/// Starts the worker of this shard's partition, which takes these tasks.
fn start_worker<
    G: Gate + Naming + Send + Sync + Drop + 'static,
    S: Sink<G> + Send + Sync + Drop + 'static,
    R: Threads + Wait + Clone + Send + Drop + 'static,
>(
    rt: &R,
    tasks: JobReceiver<G>,
    shard: Arc<Shard<G>>,
    gate: &Arc<G>,
    sink: &Arc<S>,
) -> Result<Worker, HubFault>
    ensures { IfOk result (λ thread. thread.promise.partition ≡ partition_of shard) }
{
    let handle = rt.clone()?;
    let gate = Arc::try_clone(gate)?;
    let sink = Arc::try_clone(sink)?;
    let its = WorksAt {
        partition: shard.config.partition,
    };
    match thread::spawn_with(
        rt,
        its,
        move || work(&handle, tasks, &shard, &*gate, &*sink),
    ) {
        Ok(thread) => Ok(thread),
        Err(_) => Err(HubFault::Thread),
    }
}

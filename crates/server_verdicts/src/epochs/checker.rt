//! Epochs that are checked while a store runs, by a thread for each partition.
ghost use Rattle.std.specs.Prelude.{◌≡◌, ◌⊎◌, ◌<◌, ◌≤◌, ◌+◌, ℕ, IfNone, IfOk, IfSome, IsSomeAnd, IsTrue, OnErr, OnOk, None, Some, [], length, slice_get, vec_len, vec_capacity};
ghost use Rattle.std.specs.Arc.{arc_value};
ghost use Rattle.server_verdicts.specs.Rows.{HavePlaces, at_place};
ghost use Rattle.partition.specs.declared.journal.Epoch.{Epoch as Cut};
ghost use Rattle.shard.specs.Journals.{WasCut};
ghost use Rattle.server_verdicts.specs.declared.epochs.checked.CheckProgress.{CheckProgress as ItsProgress};
ghost use Rattle.server_verdicts.specs.declared.epochs.checked.Checked.{Checked as KnownAtLast};

use crate::epochs::{CheckProgress, Checked, TakenEpoch};
use crossbeam_channel::{Receiver, Sender, bounded};
use hub::{Front, HubFault, Naming, Sink};
use partition::Epoch;
use stamps::Limits;
use std::alloc::{AllocError, Global};
use std::sync::{Arc, Mutex, Wait};
use std::thread;
use std::thread::{JoinHandle, Threads};

/// How many epochs of a partition may wait for its thread, each with a copy of what its tenant held when it began.
const MOST_WAITING: usize = 2;

/// What is known of the journals of a store: for each partition that of each tenant, each with a lock of its own.
pub type Known = Vec<Vec<Mutex<Checked>>>;

/// What is known of one journal, as threads share it.
///
/// `has_taken`, `has_told`, `has_lost` and `has_ended` stand for what these calls leave. An implementation need not say what they are. Code
/// for any journal learns them from these calls alone, so a contract that names them says that this one took the epoch, told its progress,
/// lost an epoch, or gave what was known of it at last.
pub trait JournalChecks {
    ghost has_taken: { Self → Cut → Type 0 } = { λ _ _. Unit {0} };

    ghost has_told: { Self → ItsProgress → Type 0 } = { λ _ _. Unit {0} };

    ghost has_lost: { Self → Type 0 } = { λ _. Unit {0} };

    ghost has_ended: { Self → KnownAtLast → Type 0 } = { λ _ _. Unit {0} };

    /// Takes the epoch that comes next, as `Checked::take` does. It waits for the lock.
    fn take_next<R: Wait>(&self, rt: &R, alloc: Global, epoch: Epoch) -> TakenEpoch
        ensures receipt { result.number ≡ epoch.number }
        ensures taken { has_taken self.now epoch };

    /// How far its checks have come. It waits where one of its epochs is being checked.
    fn progress_now<R: Wait>(&self, rt: &R) -> CheckProgress
        ensures { has_told self.now result };

    /// Loses it, as `Checked::lose` does: an epoch of it did not come to be checked. It waits for the lock.
    fn lose_epoch<R: Wait>(&self, rt: &R)
        ensures { has_lost self.now };

    /// What is known of it at last, once no thread has it any more.
    fn into_checked(self) -> Checked
        ensures { has_ended self result };
}

impl JournalChecks for Mutex<Checked> {
    fn take_next<R: Wait>(&self, rt: &R, alloc: Global, epoch: Epoch) -> TakenEpoch {
        self.lock(rt).take(alloc, epoch)
    }

    fn progress_now<R: Wait>(&self, rt: &R) -> CheckProgress {
        self.lock(rt).progress()
    }

    fn lose_epoch<R: Wait>(&self, rt: &R) {
        self.lock(rt).lose();
    }

    fn into_checked(self) -> Checked {
        self.into_inner()
    }
}

/// An epoch that was cut, with its journal's partition and tenant, on its way to the thread that checks it.
#[derive(Drop)]
pub struct QueuedEpoch {
    partition: u32,
    tenant: u32,
    epoch: Epoch,
    ghost was_cut: { WasCut partition tenant epoch },
}

/// An epoch that came to the thread that checks it. It cannot be dropped: `check_one` alone takes it.
struct ComeEpoch {
    partition: u32,
    tenant: u32,
    epoch: Epoch,
    ghost was_cut: { WasCut partition tenant epoch },
}

/// Where the epochs of a partition wait for the thread that checks them.
///
/// `has_come` stands for what an epoch that was sent leaves. An implementation need not say what it is. Code for any queue learns it from
/// this call alone, so a contract that names it says that the epoch was sent there.
pub trait EpochQueue {
    ghost has_come: { Self → ℕ → ℕ → Cut → Type 0 } = { λ _ _ _ _. Unit {0} };

    /// Sends an epoch, and says whether it did. It waits where as many as may be are waiting there.
    fn send_epoch<R: Wait>(&self, rt: &R, cut: QueuedEpoch) -> bool
        ensures { IsTrue result → has_come self.now cut.partition cut.tenant cut.epoch };
}

impl EpochQueue for Sender<QueuedEpoch> {
    fn send_epoch<R: Wait>(&self, rt: &R, cut: QueuedEpoch) -> bool {
        self.send(rt, cut).is_ok()
    }
}

/// A sink that hands each epoch to the thread that checks its partition's. It waits where as many as may be are waiting there:
/// none is passed over. Of a journal one of whose epochs could not be handed over, nothing is known any more.
#[derive(Drop)]
pub struct Checker<H, Q = Sender<QueuedEpoch>, C = Mutex<Checked>> {
    rt: H,
    known: Arc<Vec<Vec<C>>>,
    queues: Vec<Q>,
}

impl<J: Naming, H: Wait, Q: EpochQueue, C: JournalChecks> Sink<J> for Checker<H, Q, C> {
    ghost use Rattle.std.specs.Arc.{arc_value};
    ghost use Rattle.server_verdicts.specs.Checks.{IsHandedOn};

    ghost has_taken = { λ checker partition tenant epoch. IsHandedOn Q.has_come C.has_lost checker.queues.items (arc_value checker.known).items partition tenant epoch };

    fn epoch(&self, partition: u32, tenant: u32, epoch: Epoch, _seen: &Front<J>) {
        let Some(queue) = self.queue_of(partition) else {
            return;
        };
        let cut = QueuedEpoch {
            partition,
            tenant,
            epoch,
        };
        if queue.send_epoch(&self.rt, cut) {
            return;
        }
        if let Some(checked) = journal_of(&*self.known, partition, tenant) {
            checked.lose_epoch(&self.rt);
        }
    }
}

impl<H, Q, C> Checker<H, Q, C> {
    /// The queue of the thread of a partition, if that is there.
    fn queue_of(&self, partition: u32) -> Option<&Q>
        ensures there { IfSome result (λ queue. slice_get self.now.queues.items partition
            ≡ Some queue.now) }
        ensures not_there { IfNone result (slice_get self.now.queues.items partition ≡ None) }
    {
        self.queues.get(partition as usize)
    }
}

/// The threads that check the epochs of a store, and what they know of its journals.
#[derive(Drop)]
pub struct Checking {
    known: Arc<Known>,
    threads: Vec<JoinHandle<()>>,
}

impl Checking {
    /// Starts a thread for each of so many partitions of a store with tenants of these limits, before any epoch came. It fails
    /// where memory or a thread was refused; then the threads that it started have ended.
    pub fn start<H: Threads + Wait + Clone + Send + Drop + 'static>(
        rt: &H,
        alloc: Global,
        parts: u32,
        limits: &[Limits],
    ) -> Result<(Checking, Checker<H>), HubFault>
        ensures places { IfOk result
            (λ started. HavePlaces (arc_value started.0.known).items parts (length limits.now)) }
        ensures shared { IfOk result (λ started. arc_value started.1.known
            ≡ arc_value started.0.known) }
        ensures queues { IfOk result (λ started. vec_len started.1.queues ≡ parts) }
        ensures threads { IfOk result (λ started. vec_len started.0.threads ≡ parts) }
    {
        let known = shared(alloc, unchecked(alloc, parts, limits)?)?;
        let theirs = Arc::try_clone(&known)?;
        let handle = rt.clone()?;
        let mut queues = Vec::with_capacity(alloc, parts as usize)?;
        let mut threads = Vec::with_capacity(alloc, parts as usize)?;
        if let Err(fault) = start_all(rt, alloc, parts, &known, &mut queues, &mut threads) {
            drop(queues);
            let _ended = join_all(rt, threads);
            return Err(fault);
        }
        let checker = Checker {
            rt: handle,
            known: theirs,
            queues,
        };
        Ok((Checking { known, threads }, checker))
    }

    /// What is known of the journals so far, while its threads go on to check.
    pub fn known(&self) -> &Known
        ensures { result.now ≡ arc_value self.now.known }
    {
        &*self.known
    }

    /// Waits until each epoch that was handed over is checked, once the checker is dropped, and answers what is known then;
    /// nothing where the checker is not dropped.
    pub fn end<H: Threads>(self, rt: &H, alloc: Global) -> Known
        ensures { (result.items ≡ []) ⊎ (result ≡ arc_value self.known) }
    {
        let Checking { known, threads } = self;
        let _ended = join_all(rt, threads);
        taken_out(alloc, known)
    }
}

/// Starts a thread for each partition. Where it fails, the threads started so far are in `threads`.
fn start_all<H: Threads + Wait + Clone + Send + Drop + 'static>(
    rt: &H,
    alloc: Global,
    parts: u32,
    known: &Arc<Known>,
    queues: &mut Vec<Sender<QueuedEpoch>>,
    threads: &mut Vec<JoinHandle<()>>,
) -> Result<(), HubFault>
    requires queues { vec_len queues.old + parts ≤ vec_capacity queues.old }
    requires threads { vec_len threads.old + parts ≤ vec_capacity threads.old }
    ensures queues { OnOk result (vec_len queues.new ≡ vec_len queues.old + parts) }
    ensures threads { OnOk result (vec_len threads.new ≡ vec_len threads.old + parts) }
{
    for _partition in 0..parts {
        start_one(rt, alloc, known, queues, threads)?;
    }
    Ok(())
}

/// Starts the thread of one more partition, with its queue. Where it fails, neither is there.
fn start_one<H: Threads + Wait + Clone + Send + Drop + 'static>(
    rt: &H,
    alloc: Global,
    known: &Arc<Known>,
    queues: &mut Vec<Sender<QueuedEpoch>>,
    threads: &mut Vec<JoinHandle<()>>,
) -> Result<(), HubFault>
    requires queues { vec_len queues.old < vec_capacity queues.old }
    requires threads { vec_len threads.old < vec_capacity threads.old }
    ensures queues { OnOk result (vec_len queues.new ≡ vec_len queues.old + 1) }
    ensures threads { OnOk result (vec_len threads.new ≡ vec_len threads.old + 1) }
    ensures failed { OnErr result ((queues.new ≡ queues.old) × (threads.new ≡ threads.old)) }
    ensures room { (vec_capacity queues.new ≡ vec_capacity queues.old)
        × (vec_capacity threads.new ≡ vec_capacity threads.old) }
{
    let (queue, cuts) = bounded(alloc, MOST_WAITING)?;
    let handle = rt.clone()?;
    let known = Arc::try_clone(known)?;
    let Ok(thread) = thread::spawn(rt, move || check_all(&handle, alloc, &cuts, &*known)) else {
        return Err(HubFault::Thread);
    };
    queues.push_reserved(queue);
    threads.push_reserved(thread);
    Ok(())
}

/// Waits until each of these threads has ended, and answers how many have.
fn join_all<H: Threads>(rt: &H, threads: Vec<JoinHandle<()>>) -> usize
    ensures { result ≡ vec_len threads }
{
    let mut ended = 0;
    for thread in threads {
        thread.join(rt);
        ended += 1;
    }
    ended
}

/// Checks each epoch that comes, in the order in which they come, until no end sends any more and none is left.
fn check_all<H: Wait>(rt: &H, alloc: Global, cuts: &Receiver<QueuedEpoch>, known: &Known) {
    for _ in rt.forever() {
        let Some(come) = next_epoch(rt, cuts) else {
            break;
        };
        let _taken = check_one(rt, alloc, come, known);
    }
}

/// The next epoch that comes. None once no end sends any more and none is left.
fn next_epoch<H: Wait>(rt: &H, cuts: &Receiver<QueuedEpoch>) -> Option<ComeEpoch> {
    let Ok(cut) = cuts.recv(rt) else {
        return None;
    };
    let QueuedEpoch {
        partition,
        tenant,
        epoch,
    } = cut;
    Some(ComeEpoch {
        partition,
        tenant,
        epoch,
    })
}

/// Has what is known of the epoch's journal take it, and answers the receipt; none where there is no such journal.
fn check_one<C: JournalChecks, H: Wait>(
    rt: &H,
    alloc: Global,
    come: ComeEpoch,
    known: &Vec<Vec<C>>,
) -> Option<TakenEpoch>
    ensures taken { IfSome result (λ taken. taken.number ≡ come.epoch.number) }
    ensures took { IfSome result (λ _.
        IsSomeAnd (at_place known.now.items come.partition come.tenant)
        (λ its. C.has_taken its come.epoch)) }
    ensures none { IfNone result
        (at_place known.now.items come.partition come.tenant ≡ None) }
{
    let ComeEpoch {
        partition,
        tenant,
        epoch,
    } = come;
    let checked = journal_of(known, partition, tenant)?;
    Some(checked.take_next(rt, alloc, epoch))
}

/// How far the checks of a tenant's journal at a partition have come. It waits where one of its epochs is being checked. `None`
/// where there is no such journal.
pub fn progress_at<C: JournalChecks, R: Wait>(
    rt: &R,
    known: &Vec<Vec<C>>,
    partition: u32,
    tenant: u32,
) -> Option<CheckProgress>
    ensures told { IfSome result (λ progress.
        IsSomeAnd (at_place known.now.items partition tenant)
        (λ its. C.has_told its progress)) }
    ensures none { IfNone result (at_place known.now.items partition tenant ≡ None) }
{
    let asked = journal_of(known, partition, tenant)?;
    Some(asked.progress_now(rt))
}

/// What is known of a tenant's journal at a partition, if they are there.
fn journal_of<C>(known: &Vec<Vec<C>>, partition: u32, tenant: u32) -> Option<&C>
    ensures there { IfSome result (λ checked. at_place known.now.items partition tenant
        ≡ Some checked.now) }
    ensures not_there { IfNone result (at_place known.now.items partition tenant ≡ None) }
{
    known.get(partition as usize)?.get(tenant as usize)
}

/// What is known of the journals of a store of so many partitions and tenants of these limits before any epoch came.
fn unchecked(alloc: Global, parts: u32, limits: &[Limits]) -> Result<Known, AllocError>
    ensures { IfOk result (λ known. HavePlaces known.items parts (length limits.now)) }
{
    let mut known = Vec::with_capacity(alloc, parts as usize)?;
    for _row in 0..parts {
        known.push(unchecked_row(alloc, limits)?)?;
    }
    Ok(known)
}

/// What is known of the journals of a partition before any epoch came, of a tenant of each of these limits.
fn unchecked_row(alloc: Global, limits: &[Limits]) -> Result<Vec<Mutex<Checked>>, AllocError>
    ensures { IfOk result (λ row. vec_len row ≡ length limits.now) }
{
    let mut row = Vec::with_capacity(alloc, limits.len())?;
    for of_tenant in limits {
        row.push(Mutex::new(Checked::new(alloc, of_tenant)))?;
    }
    Ok(row)
}

/// What is known, for several threads to share.
fn shared(alloc: Global, known: Known) -> Result<Arc<Known>, AllocError>
    ensures { IfOk result (λ shared. arc_value shared ≡ known) }
{
    match Arc::new(alloc, known) {
        Ok(known) => Ok(known),
        Err(_) => Err(AllocError),
    }
}

/// What is known, where nobody shares it any more; else nothing.
fn taken_out(alloc: Global, known: Arc<Known>) -> Known
    ensures { (result.items ≡ []) ⊎ (result ≡ arc_value known) }
{
    match Arc::into_inner(known) {
        Some(known) => known,
        None => Vec::new(alloc),
    }
}

//! The queues of tasks, one for each partition. One rule serves all of them: the key of a job has as its home the partition
//! that the job carries.
ghost use Rattle.std.specs.Prelude.{◌≡◌, ◌<◌, ⊤, IfOk};
ghost use Rattle.crossbeam_channel.specs.Claims.{IsSeatAt, view as tally};
ghost use Rattle.crossbeam_channel.specs.Ends.{sends_on, receives_on, ruled_capacity};
ghost use Rattle.shard.specs.Queues.{QueueEnd, unsent};
ghost use Rattle.shard.specs.Journals.{CameSo};

use crate::seat_call::SeatCall;
use crossbeam_channel::protocol::{Free, Lesson, Outcome, Protocol, Split};
use crossbeam_channel::{Pass, RuledReceiver, RuledSender, Sender, bounded_with};
use history::{Front, Mark, Naming};
use plain_store::{Message, Refusal, Reply};
use std::alloc::{AllocError, Global};
use std::marker::Model;
use std::sync::Wait;

/// Why a call was not served.
#[derive(Clone, Copy, Debug, PartialEq, Eq)]
pub enum Fault {
    NoTenant,
    Late,
    OutOfMemory,
}

impl From<Fault> for Refusal {
    ghost use Rattle.std.specs.Prelude.{◌≡◌};
    ghost use Rattle.shard.specs.Jobs.{refusal_of};

    ghost from_gives = { λ fault refusal. refusal ≡ refusal_of fault };

    fn from(fault: Fault) -> Refusal
        ensures { result ≡ refusal_of fault }
    {
        match fault {
            Fault::NoTenant => Refusal::NoTenant,
            Fault::Late => Refusal::Late,
            Fault::OutOfMemory => Refusal::OutOfMemory,
        }
    }
}

/// A reply, and which one of the tenant's calls it is to, from 1.
#[derive(Clone, Copy)]
pub struct PlacedReply {
    pub place: u64,
    pub reply: Reply,
}

/// What came of one call of a seat: which one of the tenant's calls it is, from 1, and the message with its reply in it. It is in the
/// box that the call came in.
#[derive(Drop)]
pub struct SeatReply<J: Naming> {
    pub tenant: u32,
    pub seat: u64,
    pub number: u64,
    pub partition: u32,
    pub outcome: Result<u64, Fault>,
    pub message: Box<Message>,
    /// That of its call.
    pub mark: Mark,
    /// What was seen of the history: where the call was served, it stands there.
    pub front: Front<J>,
    ghost came: { CameSo front mark partition tenant seat number message.value outcome },
}

/// A call that the worker is to serve, and where its reply goes.
#[derive(Drop)]
pub struct Job<J: Naming> {
    pub call: SeatCall<J>,
    pub reply_to: Sender<SeatReply<J>>,
}

/// What a worker is sent.
#[derive(Drop)]
pub enum Task<J: Naming> {
    Serve(Job<J>),
    /// Cut the journals that are long enough.
    Cut,
}

/// The rule of every queue. Each end's pass counts the tasks that were sent or taken with it.
pub struct Homed;

impl<J: Naming> Protocol<Task<J>, u64> for Homed {
    ghost use Rattle.shard.specs.Jobs.{AreAtHome};

    ghost holds = { λ tasks views. AreAtHome tasks };

    ghost first = { 0 };
}

impl<J: Naming> Outcome<Task<J>, u64> for Homed {
    ghost use Rattle.std.specs.Prelude.{◌≡◌, ◌+◌};
    ghost use Rattle.shard.specs.Jobs.{IsTaskAtHome};

    ghost then = { λ v task w. (w ≡ v + 1) × IsTaskAtHome task };
}

impl<J: Naming> Lesson<Task<J>, u64> for Homed {
    ghost use Rattle.std.specs.Prelude.{⊤};

    ghost fact = { λ v tasks. ⊤ };
}

impl Split<u64> for Homed {
    ghost left = { λ v. v };

    ghost right = { λ v. 0 };
}

type Sending<J> = RuledSender<Task<J>, u64, Homed>;

type Receiving<J> = RuledReceiver<Task<J>, u64, Homed>;

/// An end that sends tasks, with its right to. A contract sees how many tasks its queue has room for, and how many this end sent.
pub struct JobSender<J: Naming> {
    queue: Sending<J>,
    pass: Pass<Task<J>, u64>,
}

// What lies in it is released here, so that no crate above proves it anew.
impl<J: Naming> Drop for JobSender<J> {
    fn drop(self) {
        let JobSender { queue: _, pass: _ } = self;
    }
}

impl<J: Naming> Model for JobSender<J> {
    ghost Value = { QueueEnd };

    ghost view = { λ s. record { capacity = ruled_capacity (sends_on s.queue); count = tally s.pass } };

    ghost invariant = { λ s. IsSeatAt (sends_on s.queue) s.pass };
}

/// The end that a worker takes tasks from, with its right to. A contract sees how many tasks its queue has room for, and how
/// many were taken.
pub struct JobReceiver<J: Naming> {
    queue: Receiving<J>,
    pass: Pass<Task<J>, u64>,
}

// What lies in it is released here, so that no crate above proves it anew.
impl<J: Naming> Drop for JobReceiver<J> {
    fn drop(self) {
        let JobReceiver { queue: _, pass: _ } = self;
    }
}

impl<J: Naming> Model for JobReceiver<J> {
    ghost Value = { QueueEnd };

    ghost view = { λ s. record { capacity = ruled_capacity (receives_on s.queue); count = tally s.pass } };

    ghost invariant = { λ s. IsSeatAt (receives_on s.queue) s.pass };
}

/// That no end sends to a queue any more. `JobReceiver::take` alone makes one.
#[derive(Drop)]
pub struct QueueOver(());

/// A queue of at most `capacity` tasks.
pub fn job_queue<J: Naming>(
    alloc: Global,
    capacity: usize,
) -> Result<(JobSender<J>, JobReceiver<J>), AllocError>
    requires { 0 < capacity }
    ensures room { IfOk result (λ ends. (ends.0.capacity ≡ capacity)
        × (ends.1.capacity ≡ capacity)) }
    ensures none { IfOk result (λ ends. (ends.0.count ≡ 0) × (ends.1.count ≡ 0)) }
{
    let (sending, receiving, mut pass) = bounded_with::<Task<J>, u64, Homed, Global>(
        alloc, capacity,
    )?;
    let other = sending.another::<Homed>(&mut pass);
    let sender = JobSender {
        queue: sending,
        pass,
    };
    let receiver = JobReceiver {
        queue: receiving,
        pass: other,
    };
    Ok((sender, receiver))
}

impl<J: Naming> JobSender<J> {
    ghost use Rattle.std.specs.Prelude.{◌≡◌, ◌+◌, IfErr, IfOk, OnErr, OnOk};
    ghost use Rattle.shard.specs.Jobs.{IsTaskAtHome};

    /// Waits for room, and puts the task at the back. An `Err` hands the task back.
    pub fn send<R: Wait>(&mut self, rt: &R, task: Task<J>) -> Result<(), Task<J>>
        requires { IsTaskAtHome task }
        ensures sent { OnOk result (self.new ≡ record self.old { count = self.old.count + 1 }) }
        ensures refused { IfErr result (λ back. back ≡ task) }
        ensures unsent { OnErr result (self.new ≡ self.old) }
    {
        match self.queue.send_as::<Homed, R>(rt, &mut self.pass, task) {
            Ok(()) => Ok(()),
            Err(refused) => Err(refused.into_inner()),
        }
    }

    /// Another end that sends to the same queue, and has sent nothing.
    pub fn another(&mut self) -> Result<JobSender<J>, AllocError>
        ensures other { IfOk result (λ other. other ≡ unsent self.old) }
        ensures queue { self.new ≡ self.old }
    {
        let queue = self.queue.try_clone()?;
        let pass = self.queue.another::<Homed>(&mut self.pass);
        Ok(JobSender { queue, pass })
    }
}

impl<J: Naming> JobReceiver<J> {
    ghost use Rattle.std.specs.Prelude.{◌≡◌, ◌+◌, IfOk, OnErr, OnOk};
    ghost use Rattle.shard.specs.Jobs.{IsTaskAtHome};

    /// Waits for a task, and takes it from the front. An `Err` once no end sends any more.
    pub fn take<R: Wait>(&mut self, rt: &R) -> Result<Task<J>, QueueOver>
        ensures home { IfOk result IsTaskAtHome }
        ensures taken { OnOk result (self.new ≡ record self.old { count = self.old.count + 1 }) }
        ensures over { OnErr result (self.new ≡ self.old) }
    {
        match self.queue.recv_as::<Homed, R>(rt, &mut self.pass) {
            Ok(task) => Ok(task),
            Err(_) => Err(QueueOver(())),
        }
    }
}

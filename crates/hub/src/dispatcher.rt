//! A seat's way to the partitions: its calls are staged, and served there or by a worker, and their replies come back.
ghost use Rattle.std.specs.Prelude.{◌≡◌, ◌<◌, ◌≤◌, ◌+◌, ◌-◌, ◌^◌, ◌↔◌, [], ℕ, None, Some, OnOk, IfOk, IsOkAnd, IfSome, IsSomeAnd, IfNone, IsTrue, cond, drop, false, is_some, length, map, min, slice_index_or, vec_len};
ghost use Rattle.std.specs.VecDeque.{deque_capacity, deque_len};
ghost use Rattle.stamps.specs.Bounds.{IsParts};
ghost use Rattle.history.specs.Entries.{HasMark};
ghost use Rattle.history.specs.Legal.{HasParts, IsOfPut};
ghost use Rattle.shard.specs.Asked.{asked_by, without_reply};
ghost use Rattle.shard.specs.Homes.{HasHome, place_of as place_for};
ghost use Rattle.hub.specs.Limits.{max_calls};
ghost use Rattle.shard.specs.declared.shard.Staged.{Staged as Waiting};
ghost use Rattle.hub.specs.Staging.{HasSentAt, is_unserved, place_if_open, unserved, IfFirst, IsFirstOf, IsReplyOf, IsStagedNext};

use crate::call_pool::CallPool;
use crossbeam_channel::{Receiver, RecvError, Sender};
use history::{Front, Mark, Naming};
use plain_store::{Call, Message};
use shard::{
    CallState, FollowUp, Gate, Job, JobSender, SeatCall, SeatName, SeatReply, Shard, Staged, Task,
    collect_at, replied,
};
use stamps::limits::{MAX_KEYS, MAX_PARTS};
use stamps::{Client, home};
use std::alloc::{AllocError, Global};
use std::collections::VecDeque;
use std::sync::{Arc, Wait};

/// The most calls of one operation: a search asks each partition, and then reads as many keys as a transaction names in two
/// rounds.
pub const MOST_CALLS: usize = MAX_PARTS as usize + 2 * MAX_KEYS;

/// What has a seat's calls served at their partitions, with the calls of the operation that runs.
pub struct Dispatcher<'a, G: Naming> {
    parts: u32,
    /// What shows that the store has so many partitions.
    opening: Front<G>,
    shards: &'a [Arc<Shard<G>>],
    gate: &'a G,
    jobs: Vec<JobSender<G>>,
    reply_to: Sender<SeatReply<G>>,
    replies: Receiver<SeatReply<G>>,
    /// Ends for the jobs to come.
    spare: Vec<Sender<SeatReply<G>>>,
    /// The boxes for the calls to come, which `stage` takes back.
    pub(crate) pool: CallPool,
    /// The calls whose replies are to be taken, and then those that are staged.
    calls: VecDeque<Staged<G>>,
    /// How many of them are no longer staged.
    served: usize,
    /// How many calls of this seat are with workers. Until each was answered, its other calls go the same way, so that none
    /// overtakes another.
    queued: usize,
    /// How many calls of this operation were staged: so many numbers are used.
    sent: usize,
    ghost parts_in_range: { IsParts parts },
    ghost few_sent: { sent ≤ max_calls },
    ghost of_store: { ∥ HasParts opening parts ∥₁ },
}

impl<'a, G: Naming> Drop for Dispatcher<'a, G> {
    fn drop(self) {
        let Dispatcher {
            parts: _,
            opening: _,
            shards: _,
            gate: _,
            jobs: _,
            reply_to: _,
            replies: _,
            spare: _,
            pool: _,
            calls: _,
            served: _,
            queued: _,
            sent: _,
        } = self;
    }
}

impl<'a, G: Naming> Dispatcher<'a, G> {
    ghost use Rattle.hub.specs.Rooms.{HandsOut, HasPlaces, HasRoom, SameRoom, TakesOne};

    /// A call dispatcher for a client's seat.
    pub fn new(
        alloc: Global,
        client: Client,
        parts: u32,
        opening: Front<G>,
        shards: &'a [Arc<Shard<G>>],
        gate: &'a G,
        jobs: Vec<JobSender<G>>,
    ) -> Result<Dispatcher<'a, G>, AllocError>
        requires parts { IsParts parts }
        requires opening { ∥ HasParts opening parts ∥₁ }
        ensures given { IfOk result (λ queues. (queues.pool.client ≡ client)
            × (queues.parts ≡ parts)
            × (queues.jobs ≡ jobs) × (queues.shards.now ≡ shards.now)) }
        ensures none_staged { IfOk result (λ queues. (queues.calls.items ≡ []) × (queues.served ≡ 0)
            × (queues.queued ≡ 0) × (queues.sent ≡ 0)) }
        ensures places { IfOk result (λ queues. max_calls ≤ deque_capacity queues.calls) }
    {
        // A reply takes no memory: the calls of one operation alone are on their way, and a seat with a fault begins no other.
        let (reply_to, replies) = crossbeam_channel::bounded(alloc, MOST_CALLS)?;
        let calls = VecDeque::with_capacity(alloc, MOST_CALLS)?;
        Ok(Dispatcher {
            parts,
            opening,
            shards,
            gate,
            jobs,
            reply_to,
            replies,
            spare: Vec::new(alloc),
            pool: CallPool::new(alloc, client),
            calls,
            served: 0,
            queued: 0,
            sent: 0,
        })
    }

    /// Makes room for so many calls of an operation: a box and a place for each, and an end for the reply to it, as far as they
    /// are missing.
    pub fn reserve(&mut self, most: usize) -> Result<(), AllocError>
        requires { most ≤ max_calls }
        ensures none_sent { self.new.sent ≡ 0 }
        ensures room { OnOk result (HasRoom most self.new) }
        ensures calls { (self.new.calls.items ≡ self.old.calls.items)
            × (self.new.served ≡ self.old.served) × (self.new.queued ≡ self.old.queued) }
    {
        self.sent = 0;
        self.pool.reserve(most)?;
        self.calls.reserve(most)?;
        let staged = self.calls.len().saturating_sub(self.served);
        let missing = (staged + most).saturating_sub(self.spare.len());
        self.spare.reserve(missing)?;
        for _made in 0..missing {
            self.spare.push(self.reply_to.clone()?)?;
        }
        Ok(())
    }

    /// How many calls of this operation were staged.
    pub fn sent(&self) -> usize
        ensures value { result ≡ self.now.sent }
        ensures few { result ≤ max_calls }
    {
        self.sent
    }

    /// Whether replies are still to come: to calls that are here, or to those with workers.
    pub fn awaits(&self) -> bool
        ensures { IsTrue result ↔ (0 < self.now.served + self.now.queued) }
    {
        self.served > 0 || self.queued > 0
    }

    /// A reply that is there, or else waits for one. It fails where none can come.
    fn receive<R: Wait>(&mut self, rt: &R) -> Result<SeatReply<G>, RecvError>
        ensures first { 0 < self.old.served
            → IfFirst self.old.calls.items (λ staged. IsOkAnd result (IsReplyOf staged)) }
        ensures left { 0 < self.old.served → self.new.calls.items ≡ drop 1 self.old.calls.items }
        ensures others { self.old.served ≡ 0 → self.new.calls ≡ self.old.calls }
        ensures takes { TakesOne self.old self.new }
    {
        if self.served > 0
            && let Some(staged) = self.calls.pop_front()
        {
            self.served -= 1;
            let outcome = staged.stage.outcome();
            return Ok(replied(staged.call, outcome));
        }
        let reply = self.replies.recv(rt)?;
        self.queued = self.queued.saturating_sub(1);
        Ok(reply)
    }

    /// The next reply to a call of this seat, and of the operation with this mark, which began after so many calls; it waits for it.
    /// None where none can come.
    pub fn next_reply<R: Wait>(
        &mut self,
        rt: &R,
        name: &SeatName,
        before: u64,
        mark: Mark,
    ) -> Option<SeatReply<G>>
        requires { before ≤ 2 ^ 62 }
        ensures first { 0 < self.old.served
            → IfFirst self.old.calls.items (λ staged. staged.call.tenant ≡ name.now.tenant
            → staged.call.seat ≡ name.now.seat → before < staged.call.number
            → staged.call.number ≤ before + self.old.sent → staged.call.mark ≡ mark
            → IsSomeAnd result (IsReplyOf staged)) }
        ensures own { IfSome result (λ reply. (reply.tenant ≡ name.now.tenant)
            × (reply.seat ≡ name.now.seat)) }
        ensures marked { IfSome result (λ reply. reply.mark ≡ mark) }
        ensures numbered { IfSome result (λ reply. (before < reply.number)
            × (reply.number ≤ before + self.old.sent)) }
        ensures takes { TakesOne self.old self.new }
    {
        let Ok(reply) = self.receive(rt) else {
            return None;
        };
        let last = before + self.sent as u64;
        if is_own(&reply, name, before, last, mark) {
            Some(reply)
        } else {
            None
        }
    }

    /// The partition of a staged call that nobody has served and that is not left to a worker, if the one at this place is.
    fn open_at(&self, at: usize) -> Option<u32>
        ensures { (other : Waiting G _) → at < deque_len self.now.calls
            → result ≡ place_if_open (slice_index_or self.now.calls.items at other) }
    {
        match self.calls.get(at) {
            Some(staged) if matches!(staged.stage, CallState::Pending) => Some(
                staged.call.partition,
            ),
            _ => None,
        }
    }

    /// Whether the staged call at this place was not served.
    fn is_left(&self, at: usize) -> bool
        ensures { (other : Waiting G _) → at < deque_len self.now.calls
            → result ≡ is_unserved (slice_index_or self.now.calls.items at other) }
    {
        match self.calls.get(at) {
            Some(staged) => !matches!(staged.stage, CallState::Served(_)),
            None => false,
        }
    }

    /// Takes out the first staged call that was not served.
    fn take_left(&mut self) -> Option<SeatCall<G>>
        ensures first { IfSome result
            (λ call. IsFirstOf self.old.served self.old.calls.items call self.new.calls.items) }
        ensures none { IfNone result (unserved self.old.served self.old.calls.items ≡ 0) }
        ensures unchanged { IfNone result (self.new.calls ≡ self.old.calls) }
        ensures left { unserved self.old.served self.old.calls.items
            ≡ unserved self.new.served self.new.calls.items + cond (is_some result) 1 0 }
        ensures same { (self.new.served ≡ self.old.served) × (self.new.sent ≡ self.old.sent)
            × (self.new.queued ≡ self.old.queued) }
        ensures calls { deque_len self.old.calls
            ≡ deque_len self.new.calls + cond (is_some result) 1 0 }
        ensures room { SameRoom self.old self.new }
    {
        for at in self.served..self.calls.len() {
            if self.is_left(at) {
                let staged = self.calls.remove(at).unwrap();
                return Some(staged.call);
            }
        }
        None
    }

    /// Sends a call to its partition's worker. It fails where there is no such partition, and where the queue hands the call back.
    fn enqueue<R: Wait>(&mut self, rt: &R, call: SeatCall<G>) -> bool
        requires { 0 < vec_len self.old.spare }
        ensures same { (self.new.sent ≡ self.old.sent) × (self.new.calls ≡ self.old.calls)
            × (self.new.served ≡ self.old.served) × (self.new.pool ≡ self.old.pool) }
        ensures refused { result ≡ false → self.new.queued ≡ self.old.queued }
        ensures queued { IsTrue result → self.new.queued ≡ min (self.old.queued + 1) (2 ^ 64 - 1) }
        ensures moved { IsTrue result
            → HasSentAt call.partition self.old.jobs.items self.new.jobs.items }
        ensures ends { vec_len self.old.spare ≡ vec_len self.new.spare + 1 }
    {
        let reply_to = self.spare.pop().unwrap();
        let Some(queue) = self.jobs.get_mut(call.partition as usize) else {
            return false;
        };
        if queue.send(rt, Task::Serve(Job { call, reply_to })).is_err() {
            return false;
        }
        self.queued = self.queued.saturating_add(1);
        true
    }

    /// Sends what was not served to the workers, in its order. No reply comes to one that its queue hands back. Where
    /// all go out, no call is lost or doubled: what is no longer here is with workers, and that is all that was not served.
    fn hand_over<R: Wait>(&mut self, rt: &R) -> bool
        requires { unserved self.old.served self.old.calls.items ≤ vec_len self.old.spare }
        ensures hands { HandsOut result self.old self.new }
        ensures handed { IsTrue result → deque_len self.old.calls + self.old.queued < 2 ^ 64
            → self.new.queued ≡ self.old.queued + unserved self.old.served self.old.calls.items }
        ensures here { unserved self.old.served self.old.calls.items ≡ 0
            → self.new.calls ≡ self.old.calls }
    {
        let mut all = true;
        for _taken in 0..self.calls.len() {
            let Some(call) = self.take_left() else {
                break;
            };
            if !self.enqueue(rt, call) {
                all = false;
            }
        }
        self.served = self.calls.len();
        all
    }

    /// Does what is due at a partition once its lock is released.
    fn follow_up<R: Wait>(&mut self, rt: &R, shard: &Shard<G>, follow_up: FollowUp)
        ensures same { (self.new.sent ≡ self.old.sent) × (self.new.calls ≡ self.old.calls)
            × (self.new.queued ≡ self.old.queued) × (self.new.served ≡ self.old.served) }
        ensures room { SameRoom self.old self.new }
    {
        let collected = follow_up.collects && collect_at(rt, shard).cuts();
        if (follow_up.cuts || collected)
            && let Some(queue) = self.jobs.get_mut(shard.config.partition as usize)
        {
            let _ = queue.send(rt, Task::Cut);
        }
    }
}

impl<'a, G: Gate + Naming> Dispatcher<'a, G> {
    ghost use Rattle.hub.specs.Rooms.{HandsOut, HasPlaces, HasRoom};

    /// Stages the call in this box as the seat's call of this number, for `dispatch`, once it has passed the gate, with the mark of its
    /// operation, and with what the seat has seen of the history: that shows of which put it is, and has the mark.
    pub fn stage(
        &mut self,
        name: &SeatName,
        number: u64,
        message: Box<Message>,
        mark: Mark,
        seen: &Front<G>,
    )
        requires places { HasPlaces 1 self.old }
        requires marked { HasMark seen.now mark }
        requires put { ∥ IsOfPut seen.now name.now.tenant message.value.call ∥₁ }
        ensures counted { self.new.sent ≡ self.old.sent + 1 }
        ensures calls { deque_len self.new.calls ≡ deque_len self.old.calls + 1 }
        ensures staged { IsStagedNext name.now self.old.parts number
            (Some (without_reply message.value)) self.old.calls.items self.new.calls.items }
        ensures same { (self.new.parts ≡ self.old.parts) × (self.new.pool ≡ self.old.pool)
            × (self.new.queued ≡ self.old.queued) }
        ensures room { (calls : ℕ) → HasPlaces (1 + calls) self.old → HasPlaces calls self.new }
    {
        let call = self.called(name, number, message, mark, seen);
        let stage = CallState::Pending;
        self.calls.push_back_reserved(Staged { call, stage });
        self.sent += 1;
    }

    /// A call of this seat on its way to the home of its key, if it has one, which has passed the gate.
    fn called(
        &self,
        name: &SeatName,
        number: u64,
        message: Box<Message>,
        mark: Mark,
        seen: &Front<G>,
    ) -> SeatCall<G>
        requires put { ∥ IsOfPut seen.now name.now.tenant message.value.call ∥₁ }
        requires marked { HasMark seen.now mark }
        ensures owner { (result.tenant ≡ name.now.tenant) × (result.seat ≡ name.now.seat)
            × (result.number ≡ number) × (result.parts ≡ self.now.parts) }
        ensures message { result.message ≡ message }
        ensures mark { result.mark ≡ mark }
        ensures place { result.partition
            ≡ place_for message.value.call self.now.parts message.value.partition }
        ensures passed { result.partition < length self.now.shards.now
            → G.has_passed self.now.gate.now result.partition result.arrival }
    {
        let partition = place_of(&message, self.parts);
        let mut front = seen.again();
        front.learn(&self.opening);
        SeatCall {
            partition,
            parts: self.parts,
            tenant: name.tenant,
            seat: name.seat,
            number,
            arrival: self.pass(partition),
            message,
            mark,
            front,
        }
    }

    /// Passes the gate for a call at this partition, and answers which arrival there it is, 1 where arrivals are not counted; 0 where
    /// there is no such partition.
    fn pass(&self, partition: u32) -> u64
        ensures there { partition < length self.now.shards.now → 0 < result }
        ensures passed { 0 < result → G.has_passed self.now.gate.now partition result }
    {
        let Some(shard) = self.shards.get(partition as usize) else {
            return 0;
        };
        let arrival = if G::COUNTS { shard.next_arrival() } else { 1 };
        self.gate.pass(partition, arrival);
        arrival
    }

    /// Has the staged calls served, those of one partition in their order and under one lock: first at the partitions that are
    /// free, then at those that another thread has. What cannot be served there goes to the worker of its partition. Says
    /// whether each is served or on its way.
    ///
    /// Where a call of this seat is with a worker as it begins, so are all that were not served before, once it answers true: none
    /// overtakes another.
    pub fn dispatch<R: Wait>(&mut self, rt: &R) -> bool
        requires { HasRoom 0 self.old }
        ensures hands { HandsOut result self.old self.new }
        ensures in_order { 0 < self.old.queued → IsTrue result
            → deque_len self.old.calls + self.old.queued < 2 ^ 64
            → self.new.queued ≡ self.old.queued + unserved self.old.served self.old.calls.items }
        // Where none went to a worker, each is here, in its place.
        ensures asked { IsTrue result → deque_len self.old.calls + self.old.queued < 2 ^ 64
            → self.new.queued ≡ self.old.queued
            → map asked_by self.new.calls.items ≡ map asked_by self.old.calls.items }
    {
        if self.served == self.calls.len() {
            return true;
        }
        if self.queued > 0 {
            return self.hand_over(rt);
        }
        let shards = self.shards;
        let mut left = self.calls.len();
        for at in self.served..self.calls.len() {
            if let Some(partition) = self.open_at(at)
                && let Some(shard) = shards.get(partition as usize)
            {
                match shard.try_lock() {
                    Some(guard) => {
                        let mut guard = guard;
                        let follow_up = guard.serve_round(
                            &shard.config,
                            self.gate,
                            &mut self.calls,
                        );
                        drop(guard);
                        self.follow_up(rt, shard, follow_up);
                    }
                    None => left = left.min(at),
                }
            }
        }
        for held in left..self.calls.len() {
            if let Some(partition) = self.open_at(held)
                && let Some(shard) = shards.get(partition as usize)
            {
                let mut guard = shard.lock_soon(rt);
                let follow_up = guard.serve_round(&shard.config, self.gate, &mut self.calls);
                drop(guard);
                self.follow_up(rt, shard, follow_up);
            }
        }
        self.hand_over(rt)
    }
}

/// Whether it is a reply to this seat, to a call of the operation with this mark, behind the first so many, up to the last.
fn is_own<G: Naming>(
    reply: &SeatReply<G>,
    name: &SeatName,
    before: u64,
    last: u64,
    mark: Mark,
) -> bool
    ensures { IsTrue result
        ↔ ((reply.now.tenant ≡ name.now.tenant) × (reply.now.seat ≡ name.now.seat)
        × (before < reply.now.number) × (reply.now.number ≤ last) × (reply.now.mark ≡ mark)) }
{
    let is_of_seat = reply.tenant == name.tenant && reply.seat == name.seat;
    let is_numbered = before < reply.number && reply.number <= last;
    is_of_seat && is_numbered && reply.mark == mark
}

/// The partition that a call goes to: the home of its key, if it has one, and else the one that it names.
fn place_of(message: &Message, parts: u32) -> u32
    requires { IsParts parts }
    ensures home { HasHome message.now.call parts result }
    ensures value { result ≡ place_for message.now.call parts message.now.partition }
{
    match &message.call {
        Call::Prepare(version) => home(&version.key, parts),
        Call::Get(key, _) => home(key, parts),
        _ => message.partition,
    }
}

//! What serves one partition's queue, and alone cuts its journals.
ghost use Rattle.std.specs.Prelude.{◌≡◌, ◌<◌, IfNone, IfSome};
ghost use Rattle.shard.specs.Asked.{IsReplyToCall};
ghost use Rattle.shard.specs.Journals.{CameSo};
ghost use Rattle.shard.specs.declared.jobs.SeatReply.{SeatReply as Told};

use crate::epoch_cut::{cut_full, hand_over};
use crate::gate::Gate;
use crate::jobs::{Fault, Job, JobReceiver, QueueOver, SeatReply, Task};
use crate::maintenance::{collect_at, cut_all};
use crate::seat_call::SeatCall;
use crate::shard::{FollowUp, Shard};
use crate::sink::Sink;
use crossbeam_channel::{SendError, Sender};
use history::Naming;
use std::sync::Wait;
use std::thread;

/// Where the reply to a call of a seat goes, which is an X.
///
/// `has_come` stands for what a reply that was sent leaves. An implementation need not say what it is. Code for any of them learns
/// it from this call alone, so a contract that names it says that the reply was sent.
trait ReplyTo<X> {
    ghost has_come: { Self → X → Type 0 } = { λ _ _. Unit {0} };

    /// Sends the reply. Hands it back where an allocation failed; where the seat is gone the reply is dropped.
    fn try_reply<R: Wait>(&self, rt: &R, reply: X) -> Option<X>
        ensures sent { IfNone result (has_come self.now reply) }
        ensures back { IfSome result (λ back. back ≡ reply) };
}

impl<X: Drop> ReplyTo<X> for Sender<X> {
    fn try_reply<R: Wait>(&self, rt: &R, reply: X) -> Option<X>
        ensures back { IfSome result (λ back. back ≡ reply) }
    {
        match self.send(rt, reply) {
            Err(SendError::OutOfMemory(back)) => Some(back),
            Ok(()) | Err(SendError::Disconnected(_)) => None,
        }
    }
}

// Sends the reply, again and again where an allocation failed.
fn send_reply<X: Drop, T: ReplyTo<X>, R: Wait>(rt: &R, to: &T, reply: X)
    ensures { T.has_come to.now reply }
{
    let mut left = reply;
    for _ in rt.forever() {
        match to.try_reply(rt, left) {
            None => return,
            Some(back) => left = back,
        }
        thread::yield_now();
    }
    unreachable!()
}

/// That a partition's worker has ended, since no end sends to its queue any more. `work` alone makes one.
#[derive(Drop)]
pub struct WorkEnded {
    pub partition: u32,
    over: QueueOver,
}

/// Does what it is sent until no end sends any more. After each task it cuts the journals that have `epoch` events.
pub fn work<J: Naming, G: Gate, S: Sink<J>, R: Wait>(
    rt: &R,
    mut tasks: JobReceiver<J>,
    shard: &Shard<J>,
    gate: &G,
    sink: &S,
) -> WorkEnded
    ensures { result.partition ≡ shard.now.config.partition }
{
    for _ in rt.forever() {
        match tasks.take(rt) {
            Ok(Task::Serve(Job { call, reply_to })) => {
                serve_job(rt, shard, gate, sink, call, &reply_to);
            }
            Ok(Task::Cut) => {}
            Err(over) => {
                let partition = shard.config.partition;
                return WorkEnded { partition, over };
            }
        }
        if shard.config.epoch > 0 {
            let _ = cut_all(rt, shard, sink);
        }
    }
    unreachable!()
}

/// Serves a call and sends the reply. A journal that is full is cut first, under the same lock, and its epoch goes to the sink
/// after the reply.
fn serve_job<J: Naming, G: Gate, S: Sink<J>, T: ReplyTo<SeatReply<J>>, R: Wait>(
    rt: &R,
    shard: &Shard<J>,
    gate: &G,
    sink: &S,
    call: SeatCall<J>,
    reply_to: &T,
)
    ensures { (reply : Told J _) × IsReplyToCall call reply × T.has_come reply_to.now reply }
{
    let mut call = call;
    let mut follow_up = FollowUp::nothing();
    let tenant = call.tenant;
    let mut guard = shard.lock(rt);
    let state = &mut *guard;
    let cut = cut_full(state, tenant, shard.config.epoch);
    let outcome = state.serve_sent(&shard.config, gate, &mut call, &mut follow_up);
    drop(guard);
    send_reply(rt, reply_to, replied(call, outcome));
    if let Ok(cut) = cut {
        hand_over(sink, cut);
    }
    if follow_up.collects {
        let _ = collect_at(rt, shard);
    }
}

/// What came of a call.
pub fn replied<J: Naming>(call: SeatCall<J>, outcome: Result<u64, Fault>) -> SeatReply<J>
    requires { CameSo call.front call.mark call.partition call.tenant call.seat call.number
        call.message.value outcome }
    ensures call { (result.number ≡ call.number) × (result.partition ≡ call.partition) }
    ensures seat { (result.tenant ≡ call.tenant) × (result.seat ≡ call.seat) }
    ensures outcome { (result.outcome ≡ outcome) × (result.message ≡ call.message)
        × (result.front ≡ call.front) }
    ensures mark { result.mark ≡ call.mark }
{
    let SeatCall {
        partition,
        tenant,
        seat,
        number,
        message,
        mark,
        front,
        ..
    } = call;
    SeatReply {
        tenant,
        seat,
        number,
        partition,
        outcome,
        message,
        mark,
        front,
    }
}

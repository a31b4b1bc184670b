//! An epoch, replayed.
ghost use Rattle.std.specs.Prelude.{◌≡◌, ◌≤◌, ◌↔◌, ◌++◌, ◌∷◌, [], List, IsSome, IfSome, IsSomeAnd, IfOk, IsTrue, reverse};
ghost use Rattle.prepare_commit.specs.Bases.{Frozen, HasLog};
ghost use Rattle.partition.specs.Events.{Event as Happened};
ghost use Rattle.partition.specs.Journals.{FollowsFrom, IsSoundFrom, IsEnd};
ghost use Rattle.settle.specs.OneEpoch.{HasPlayed, event_of};

use indexmap::IndexMap;
use packed_steps::CallPlace;
use partition::{CalledEvent, Epoch, ReplyRoom};
use plain_store::{Call, OutOfMemory, Reply};
use prepare_commit::{Base, Replica};
use std::alloc::Global;
use std::thread;

/// The number of each seat's last event in an epoch.
type CheckedNumbers = IndexMap<u64, u64>;

/// After how many events other threads may run. These take a tenth of a millisecond, and what serves calls waits for no more.
const STRETCH: usize = 256;

/// The base at the end of an epoch, by a replay of its calls on a replica that is opened at its base: Some exactly where the
/// epoch is sound. `epoch` is only read.
pub fn check_epoch(alloc: Global, epoch: &Epoch) -> Result<Option<Base>, OutOfMemory>
    ensures exact { IfOk result (λ o. IsSome o
        ↔ IsSoundFrom epoch.now.base epoch.now.events.items) }
    ensures end { IfOk result
        (λ o. IfSome o (λ base. IsEnd epoch.now.base epoch.now.events.items base)) }
{
    let mut replica = Replica::at(alloc, &epoch.base)?;
    if !play_epoch(alloc, &mut replica, epoch)? {
        return Ok(None);
    }
    Ok(Some(replica.base()?))
}

/// Whether an epoch is sound that begins at the content of this replica. Where it is, the replica holds then what the epoch
/// leads to. Where it is not, or an allocation failed, it holds what some of the calls left.
///
/// It takes time for each event, and lets other threads run now and then. Nothing is opened, compared or copied.
pub fn play_epoch(alloc: Global, replica: &mut Replica, epoch: &Epoch) -> Result<bool, OutOfMemory>
    requires { epoch.now.base ≡ replica.old }
    ensures exact { IfOk result (λ yes. IsTrue yes
        ↔ IsSoundFrom epoch.now.base epoch.now.events.items) }
    ensures end { IfOk result (λ yes. IsTrue yes
        → IsEnd epoch.now.base epoch.now.events.items replica.new) }
{
    let _log = epoch.base.slots();
    let mut lasts: CheckedNumbers = IndexMap::new(alloc);
    let mut room = ReplyRoom::open(alloc)?;
    let mut call = CallPlace::new();
    let mut reply = None;
    for at in 0..epoch.events.len() {
        let_others_run(at);
        let event = epoch.events.call_into(at, &mut call);
        if !play_one(
            replica,
            &mut lasts,
            &event,
            call.call(),
            &mut reply,
            &mut room,
        )? {
            return Ok(false);
        }
    }
    Ok(true)
}

/// Lets other threads run behind each stretch of events.
fn let_others_run(at: usize) {
    if at % STRETCH == STRETCH - 1 {
        thread::yield_now();
    }
}

/// Whether the replica gives an event's reply to its call, and the event's number is above the seat's last one. The replica's reply
/// is packed in the room, since the event's lies packed.
fn play_one(
    replica: &mut Replica,
    lasts: &mut CheckedNumbers,
    event: &CalledEvent<'_>,
    call: &Call,
    reply: &mut Option<Reply>,
    room: &mut ReplyRoom,
) -> Result<bool, OutOfMemory>
    ensures yes { (base : Frozen) → (before : List Happened)
        → HasPlayed base before replica.old lasts.old
        → IfOk result (λ yes. IsTrue yes
        → HasPlayed base (before ++ event_of call.now event.now ∷ []) replica.new lasts.new) }
    ensures no { (base : Frozen) → (before : List Happened) → HasLog base
        → HasPlayed base before replica.old lasts.old
        → IfOk result (λ yes. FollowsFrom base (reverse before) (event_of call.now event.now)
        → IsTrue yes) }
{
    lasts.reserve(1)?;
    let Ok(last) = lasts.insert(event.seat, event.number) else {
        return Err(OutOfMemory);
    };
    if is_late(last, event.number) {
        return Ok(false);
    }
    replica.serve(call, reply);
    let told = reply.as_ref().unwrap();
    Ok(event.reply.is(told, room))
}

/// Whether the number is not above a seat's last one, if it has one.
fn is_late(last: Option<u64>, number: u64) -> bool
    ensures { IsTrue result ↔ IsSomeAnd last (λ last. number ≤ last) }
{
    match last {
        Some(last) => number <= last,
        None => false,
    }
}

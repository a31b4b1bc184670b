//! Running reads.
ghost use Rattle.std.specs.Prelude.{◌≡◌, ◌+◌, ◌≤◌, All, List, false, length};
ghost use Rattle.stamps.specs.Bounds.{IsParts};
ghost use Rattle.plain_store.specs.declared.message.Message.{Message};
ghost use Rattle.plain_store.specs.History.{Gets};
ghost use Rattle.plain_store.specs.Words.{Key, Setup};
ghost use Rattle.get_all.specs.Reader.{StandsFor, calls_left};
ghost use Rattle.get_all.specs.ReadProgress.{late_by};
ghost use Rattle.tenant_sessions.specs.Asking.{Awaits};
ghost use Rattle.tenant_sessions.specs.CallsLeft.{calls_sent};
ghost use Rattle.tenant_sessions.specs.Moves.{moved};
ghost use Rattle.tenant_sessions.specs.Offering.{OffersToReader};
ghost use Rattle.tenant_sessions.specs.Parts.{Second, batch_calls};
ghost use Rattle.tenant_sessions.specs.Running.{IsReplyTo, IsReading, TakesMessage, is_reply_of};
ghost use Rattle.tenant_sessions.specs.Sending.{IsGet, SendsSo};
ghost use Rattle.tenant_sessions.specs.Showing.{Shows};

use crate::waiting::Waiting;
use crate::{Discards, MoveKind};
use get_all::{ReadMoveKind, Reader};
use plain_store::{Call, Message, Readings, Refusal, Reply};

/// Offers a reply to the reader, and puts what that does into the caller's buffer.
fn offer(reader: &mut Reader, message: &Message, kind: &mut ReadMoveKind)
    ensures { OffersToReader message.now reader.old kind.new reader.new }
{
    match &message.reply {
        Some(reply) => offer_reply(reader, message, reply, kind),
        None => *kind = ReadMoveKind::Ignored,
    }
}

/// Offers the message's reply to the reader, and puts what that does into the caller's buffer.
fn offer_reply(reader: &mut Reader, message: &Message, reply: &Reply, kind: &mut ReadMoveKind)
    ensures { message.now.reply ≡ Some reply.now
        → OffersToReader message.now reader.old kind.new reader.new }
{
    match (&message.call, reply) {
        (Call::Get(key, _), Reply::Get(reply)) => {
            reader.take_kind(key, message.round(), reply, kind);
        }
        _ => *kind = ReadMoveKind::Ignored,
    }
}

/// Waits for the second round of the read. It stands alone, so that no other reply has room for a part.
#[cold]
#[inline(never)]
fn await_late(reader: &Reader, waiting: &mut Waiting, parts: u32)
    requires { IsParts parts }
    ensures awaits { let late = late_by reader.now.slots in
        Awaits (batch_calls parts (Second late)) (length late) waiting.new }
    ensures gets { All (λ out. IsGet out.call) waiting.new }
{
    let late = reader.late_keys();
    waiting.read_late(late, parts);
}

/// Takes a reply to one of the calls of the read, and puts what it gave, and what it does, into the caller's buffers.
pub(crate) fn take_read(
    reader: &mut Reader,
    waiting: &mut Waiting,
    parts: u32,
    message: &Message,
    readings: &mut Readings,
    kind: &mut MoveKind,
)
    requires { IsParts parts }
    ensures shown { (setup : Setup) (keys : List Key) (taken : List Message)
        → StandsFor keys reader.old taken
        → Shows setup (Gets keys) taken message.now (moved kind.new readings.new)
        (StandsFor keys reader.new) }
    ensures takes { (setup : Setup) (keys : List Key) (taken : List Message)
        → setup.partitions ≡ parts → IsReading setup keys taken reader.old waiting.old
        → IsReplyTo setup (Gets keys) taken message.now
        → TakesMessage setup (Gets keys) taken message.now (moved kind.new readings.new)
        (λ replies. IsReading setup keys replies reader.new waiting.new) }
    ensures calls { calls_sent (moved kind.new readings.new) (length waiting.new)
        + calls_left reader.new ≤ calls_left reader.old }
    ensures sent { SendsSo (moved kind.new readings.new) waiting.new }
    ensures foreign { is_reply_of message.now.call message.now.reply ≡ false
        → (kind.new ≡ MoveKind.Ignored) × (reader.new ≡ reader.old)
        × (waiting.new ≡ waiting.old) }
{
    let mut answer = ReadMoveKind::Ignored;
    offer(reader, message, &mut answer);
    match answer {
        ReadMoveKind::Wait => {
            waiting.forget(message);
            *kind = MoveKind::Wait;
        }
        ReadMoveKind::Ask => {
            await_late(reader, waiting, parts);
            *kind = MoveKind::Ask;
        }
        ReadMoveKind::Read => {
            reader.readings_into(readings);
            *kind = MoveKind::Read;
        }
        ReadMoveKind::Restart(key, floor) => *kind = MoveKind::Restart(key, floor),
        ReadMoveKind::Torn => *kind = MoveKind::Ended(Refusal::Torn, Discards::none()),
        ReadMoveKind::Ignored => *kind = MoveKind::Ignored,
    }
}

//! Running writes.
ghost use Rattle.std.specs.Prelude.{◌≡◌, ◌+◌, ◌≤◌, All, List, false, length};
ghost use Rattle.plain_store.specs.declared.calls.Call.TheVariants.{Commit};
ghost use Rattle.stamps.specs.Bounds.{IsParts};
ghost use Rattle.stamps.specs.declared.record.Item.{Item};
ghost use Rattle.plain_store.specs.declared.message.Message.{Message};
ghost use Rattle.plain_store.specs.History.{Writes};
ghost use Rattle.plain_store.specs.Words.{Setup};
ghost use Rattle.put_all.specs.Writer.{StandsFor, ending_calls, calls_left};
ghost use Rattle.plain_store.specs.declared.reading.Reading.{Reading};
ghost use Rattle.tenant_sessions.specs.Asking.{Awaits};
ghost use Rattle.tenant_sessions.specs.CallsLeft.{calls_sent};
ghost use Rattle.tenant_sessions.specs.Moves.{moved};
ghost use Rattle.tenant_sessions.specs.Offering.{OffersToWriter};
ghost use Rattle.tenant_sessions.specs.Parts.{Commits, batch_calls};
ghost use Rattle.tenant_sessions.specs.Running.{IsReplyTo, IsWriting, TakesMessage, is_reply_of};
ghost use Rattle.tenant_sessions.specs.Sending.{SendsSo};
ghost use Rattle.tenant_sessions.specs.Showing.{Shows};

use crate::waiting::Waiting;
use crate::{Discards, MoveKind};
use plain_store::{Call, Message, Refusal, Reply};
use put_all::{Partitions, WriteMove, Writer};
use stamps::{Item, Stamp};

/// Offers a reply to the writer.
fn offer(writer: &mut Writer, message: &Message) -> WriteMove
    ensures { OffersToWriter message.now writer.old result writer.new }
{
    match &message.reply {
        Some(reply) => offer_reply(writer, message, reply),
        None => WriteMove::Ignored,
    }
}

/// Offers the message's reply to the writer.
fn offer_reply(writer: &mut Writer, message: &Message, reply: &Reply) -> WriteMove
    ensures { message.now.reply ≡ Some reply.now
        → OffersToWriter message.now writer.old result writer.new }
{
    match (&message.call, reply) {
        (Call::Prepare(version), Reply::Prepare(reply)) => {
            writer.take_prepare(&version.key, *reply)
        }
        (Call::Commit(_), Reply::Committed(_)) => writer.take_commit(message.partition),
        _ => WriteMove::Ignored,
    }
}

/// The calls with which the write of this stamp ends where it was refused so: DISCARDs where there was no room.
#[cold]
#[inline(never)]
fn discards_of(refusal: Refusal, stamp: Stamp, writer: &Writer) -> Discards
    ensures ending { (setup : Setup) (items : List Item) (taken : List Message)
        → StandsFor setup stamp items writer.now taken
        → result ≡ ending_calls setup stamp items refusal }
    ensures few { length result ≤ length writer.now.places }
{
    match refusal {
        Refusal::FullSlots | Refusal::FullItems => Discards::of(stamp, writer.partitions()),
        _ => Discards::none(),
    }
}

/// Waits for the COMMITs of this stamp at these partitions. It stands alone, so that no other reply has room for a part.
fn await_commits(stamp: Stamp, partitions: Partitions, waiting: &mut Waiting, parts: u32)
    requires { IsParts parts }
    ensures awaits { Awaits (batch_calls parts (Commits stamp partitions))
        (length partitions) waiting.new }
    ensures commits { All (λ out. out.call ≡ Commit stamp) waiting.new }
{
    waiting.commit(stamp, partitions, parts);
}

/// Takes a reply to one of the calls of the write of this stamp, and writes what it does into the caller's buffer.
pub(crate) fn take_written(
    stamp: Stamp,
    writer: &mut Writer,
    waiting: &mut Waiting,
    parts: u32,
    message: &Message,
    kind: &mut MoveKind,
)
    requires { IsParts parts }
    ensures takes { (setup : Setup) (items : List Item) (taken : List Message)
        (readings : List Reading) → setup.partitions ≡ parts
        → IsWriting setup stamp items taken writer.old waiting.old
        → IsReplyTo setup (Writes stamp items) taken message.now
        → TakesMessage setup (Writes stamp items) taken message.now (moved kind.new readings)
        (λ replies. IsWriting setup stamp items replies writer.new waiting.new) }
    ensures calls { (readings : List Reading)
        → calls_sent (moved kind.new readings) (length waiting.new) + calls_left writer.new
        ≤ calls_left writer.old }
    ensures sent { (readings : List Reading) → SendsSo (moved kind.new readings) waiting.new }
    // Whatever the message is.
    ensures shown { (setup : Setup) (items : List Item) (taken : List Message)
        (readings : List Reading) → StandsFor setup stamp items writer.old taken
        → Shows setup (Writes stamp items) taken message.now (moved kind.new readings)
        (StandsFor setup stamp items writer.new) }
    ensures foreign { is_reply_of message.now.call message.now.reply ≡ false
        → (kind.new ≡ MoveKind.Ignored) × (writer.new ≡ writer.old)
        × (waiting.new ≡ waiting.old) }
{
    match offer(writer, message) {
        WriteMove::Wait => {
            waiting.forget(message);
            *kind = MoveKind::Wait;
        }
        WriteMove::Decide => {
            await_commits(stamp, writer.partitions(), waiting, parts);
            *kind = MoveKind::Decided(stamp);
        }
        WriteMove::Done(_) => *kind = MoveKind::Done(stamp),
        WriteMove::Refused(refusal) => {
            *kind = MoveKind::Ended(refusal, discards_of(refusal, stamp, writer));
        }
        WriteMove::Ignored => *kind = MoveKind::Ignored,
    }
}

//! Running searches.
ghost use Rattle.std.specs.Prelude.{◌≡◌, ◌+◌, ◌≤◌, List, false, length};
ghost use Rattle.stamps.specs.Bounds.{IsParts};
ghost use Rattle.plain_store.specs.declared.message.Message.{Message};
ghost use Rattle.plain_store.specs.Finding.{keys_found, count_found};
ghost use Rattle.plain_store.specs.History.{Finds};
ghost use Rattle.plain_store.specs.Words.{Tag, Setup};
ghost use Rattle.get_all.specs.TagSearch.{StandsFor, calls_left};
ghost use Rattle.tenant_sessions.specs.CallsLeft.{calls_sent};
ghost use Rattle.tenant_sessions.specs.Moves.{moved};
ghost use Rattle.tenant_sessions.specs.Offering.{OffersToSearch};
ghost use Rattle.tenant_sessions.specs.Running.{IsReplyTo, IsFinding, TakesMessage, is_reply_of};
ghost use Rattle.tenant_sessions.specs.Sending.{SendsSo};
ghost use Rattle.tenant_sessions.specs.Showing.{Shows};

use crate::waiting::Waiting;
use crate::{Discards, MoveKind};
use get_all::{FindMove, Reader, TagSearch};
use plain_store::{Call, Message, Readings, Refusal, Reply};

/// A partition reports no more keys than it counts: this only reads them.
fn read_keys(reply: &Reply)
    ensures { length (keys_found (Some reply.now)) ≤ count_found (Some reply.now) }
{
    if let Reply::Found(found) = reply {
        let _keys = found.keys();
    }
}

/// Offers a reply to the search.
fn offer(search: &mut TagSearch, reader: &mut Reader, message: &Message) -> FindMove
    ensures { OffersToSearch message.now
        search.old reader.old result search.new reader.new }
{
    match &message.reply {
        Some(reply) => offer_reply(search, reader, message, reply),
        None => FindMove::Ignored,
    }
}

/// Offers the message's reply to the search.
fn offer_reply(
    search: &mut TagSearch,
    reader: &mut Reader,
    message: &Message,
    reply: &Reply,
) -> FindMove
    ensures { message.now.reply ≡ Some reply.now → OffersToSearch message.now
        search.old reader.old result search.new reader.new }
{
    read_keys(reply);
    match (&message.call, reply) {
        (Call::Found(_), Reply::Found(found)) => search.take_found(
            reader,
            message.partition,
            found,
        ),
        (Call::Get(key, _), Reply::Get(reply)) => search.take(reader, key, message.round(), reply),
        _ => FindMove::Ignored,
    }
}

/// Takes a reply to one of the calls of the search, and puts what it gave, and what it does, into the caller's buffers.
#[cold]
#[inline(never)]
pub(crate) fn take_found(
    search: &mut TagSearch,
    reader: &mut Reader,
    waiting: &mut Waiting,
    parts: u32,
    message: &Message,
    readings: &mut Readings,
    kind: &mut MoveKind,
)
    requires { IsParts parts }
    ensures shown { (setup : Setup) (tag : Tag) (taken : List Message)
        → StandsFor setup tag search.old reader.old taken
        → Shows setup (Finds tag) taken message.now (moved kind.new readings.new)
        (StandsFor setup tag search.new reader.new) }
    ensures takes { (setup : Setup) (tag : Tag) (taken : List Message) → setup.partitions ≡ parts
        → IsFinding setup tag taken search.old reader.old waiting.old
        → IsReplyTo setup (Finds tag) taken message.now
        → TakesMessage setup (Finds tag) taken message.now (moved kind.new readings.new)
        (λ replies. IsFinding setup tag replies search.new reader.new waiting.new) }
    ensures calls { calls_sent (moved kind.new readings.new) (length waiting.new)
        + calls_left search.new reader.new ≤ calls_left search.old reader.old }
    ensures sent { SendsSo (moved kind.new readings.new) waiting.new }
    ensures foreign { is_reply_of message.now.call message.now.reply ≡ false
        → (kind.new ≡ MoveKind.Ignored) × (search.new ≡ search.old)
        × (reader.new ≡ reader.old) × (waiting.new ≡ waiting.old) }
{
    match offer(search, reader, message) {
        FindMove::Wait => {
            waiting.forget(message);
            *kind = MoveKind::Wait;
        }
        FindMove::Begin(keys) => {
            waiting.read(keys.as_slice(), parts, false);
            *kind = MoveKind::Begins;
        }
        FindMove::Ask(late) => {
            waiting.read_late(late, parts);
            *kind = MoveKind::Ask;
        }
        FindMove::List(found) => {
            *readings = found;
            *kind = MoveKind::Listed;
        }
        FindMove::Restart(key, floor) => *kind = MoveKind::Restart(key, floor),
        FindMove::TooMany => *kind = MoveKind::Ended(Refusal::TooMany, Discards::none()),
        FindMove::Torn => *kind = MoveKind::Ended(Refusal::Torn, Discards::none()),
        FindMove::Ignored => *kind = MoveKind::Ignored,
    }
}

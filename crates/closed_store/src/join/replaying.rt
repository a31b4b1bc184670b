//! The epochs of one journal, replayed on a book.
ghost use Rattle.std.specs.Prelude.{◌≡◌, ◌<◌, ◌++◌, ◌↔◌, [], List, length, map, IfOk, IsTrue};
ghost use Rattle.stamps.specs.declared.bounds.Limits.{Limits as Bounds};
ghost use Rattle.prepare_commit.specs.Bases.{IsBase, empty_base};
ghost use Rattle.partition.specs.Events.{Event as Happened};
ghost use Rattle.partition.specs.Journals.{IsEnd, room_for};
ghost use Rattle.closed_store.specs.Joins.{AreRightReplies, AreInTurn, IsAmid};

use partition::{Book, Epoch, EventList};
use plain_store::OutOfMemory;
use prepare_commit::Base;
use stamps::Limits;
use std::alloc::Global;

/// Whether a book gives each event's reply to its call. The calls are numbered anew, so none of them is late.
fn serve_all(book: &mut Book, events: &EventList) -> Result<bool, OutOfMemory>
    requires { 0 < length book.old }
    ensures there { 0 < length book.new }
    ensures replayed { IfOk result (λ b. IsTrue b → (limits : Bounds) (before : List Happened)
        → IsAmid limits (room_for limits) before [] book.old
        → AreRightReplies (room_for limits) before events.now.items
        × IsAmid limits (room_for limits) before events.now.items book.new) }
    ensures differs { IfOk result (λ b. (limits : Bounds) (before : List Happened)
        → IsAmid limits (room_for limits) before [] book.old
        → AreRightReplies (room_for limits) before events.now.items → IsTrue b) }
{
    for place in 0..events.len() {
        let event = events.event(place);
        let seat = event.seat();
        let call = event.call();
        let Ok((_, reply)) = book.serve(seat, place as u64 + 1, 0, &call) else {
            return Err(OutOfMemory);
        };
        if !event.has_reply(&reply) {
            return Ok(false);
        }
    }
    Ok(true)
}

/// Whether a book that has come to the end of an epoch gives the replies of the next one, and had the content of its base.
fn replay_epoch(book: &mut Book, epoch: &Epoch) -> Result<bool, OutOfMemory>
    requires { 0 < length book.old }
    ensures there { 0 < length book.new }
    ensures replayed { IfOk result (λ b. IsTrue b → (limits : Bounds) (before : List Happened)
        → IsAmid limits (room_for limits) before [] book.old
        → AreRightReplies (room_for limits) before epoch.now.events.items
        × IsEnd (empty_base (room_for limits)) before epoch.now.base
        × IsAmid limits (room_for limits) (before ++ epoch.now.events.items) [] book.new) }
    ensures differs { IfOk result (λ b. (limits : Bounds) (before : List Happened)
        → IsAmid limits (room_for limits) before [] book.old
        → AreRightReplies (room_for limits) before epoch.now.events.items
        → IsEnd (empty_base (room_for limits)) before epoch.now.base → IsTrue b) }
{
    if !serve_all(book, &epoch.events)? {
        return Ok(false);
    }
    let Ok(begun) = book.cut(0) else {
        return Err(OutOfMemory);
    };
    let same = is_base(&begun.base, &epoch.base);
    Ok(same)
}

/// Whether two bases are equal. A base reports with its room that it is what some log leaves.
fn is_base(one: &Base, other: &Base) -> bool
    ensures same { IsTrue result ↔ (one.now ≡ other.now) }
    ensures bases { IsBase one.now × IsBase other.now }
{
    let _rooms = (one.slots(), other.slots());
    one.is(other)
}

/// Whether these are the epochs of one journal from its first on, as a book of these limits gives them. The one error is
/// that an allocation failed.
pub(crate) fn replay(alloc: Global, limits: &Limits, epochs: &[&Epoch]) -> Result<bool, OutOfMemory>
    ensures { IfOk result (λ b. IsTrue b
        ↔ AreInTurn (room_for limits.now) (map (λ e. e.now) epochs.now)) }
{
    let mut book = Book::open(alloc, &[*limits])?;
    for (place, epoch) in epochs.iter().enumerate() {
        if epoch.number != place as u64 + 1 {
            return Ok(false);
        }
        if !replay_epoch(&mut book, epoch)? {
            return Ok(false);
        }
    }
    Ok(true)
}

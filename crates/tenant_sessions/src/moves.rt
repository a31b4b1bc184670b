//! What a transaction does when a reply comes.
ghost use Rattle.std.specs.Prelude.{◌≡◌};
ghost use Rattle.tenant_sessions.specs.Moves.{ending_rows};

use crate::Discards;
use crate::call_batch::unwritten;
use plain_store::{Answer, Message, Readings, Refusal, Rows};
use stamps::{Client, Key, Stamp};

/// The rows of these calls, if there are any.
fn ending_rows(discards: &Discards, rows: Rows) -> Option<Rows>
    ensures { result ≡ ending_rows discards.now rows }
{
    if discards.are_none() {
        return None;
    }
    Some(rows)
}

/// Answers that the write of this stamp is done. Where the place has such an answer, it is written over where it lies: an answer
/// has some 3,200 bytes.
fn tell_done(stamp: Stamp, answer: &mut Answer)
    ensures { answer.new ≡ Answer.Done stamp }
{
    if let Answer::Done(old) = answer {
        *old = stamp;
        return;
    }
    begin_done(stamp, answer);
}

/// Answers what a read gave, as `tell_done` does.
fn tell_read(readings: &Readings, answer: &mut Answer)
    ensures { answer.new ≡ Answer.Read readings.now }
{
    if let Answer::Read(old) = answer {
        old.set(readings.as_slice());
        return;
    }
    begin_read(readings, answer);
}

/// Answers what a search gave, as `tell_done` does.
#[cold]
#[inline(never)]
fn tell_listed(readings: &Readings, answer: &mut Answer)
    ensures { answer.new ≡ Answer.Listed readings.now }
{
    if let Answer::Listed(old) = answer {
        old.set(readings.as_slice());
        return;
    }
    begin_listed(readings, answer);
}

/// Answers that a write is done, over another answer. It stands alone, so that what is written over its like has no room for an
/// answer; and so do the two below.
fn begin_done(stamp: Stamp, answer: &mut Answer)
    ensures { answer.new ≡ Answer.Done stamp }
{
    *answer = Answer::Done(stamp);
}

/// Answers what a read gave, over another answer.
#[cold]
#[inline(never)]
fn begin_read(readings: &Readings, answer: &mut Answer)
    ensures { answer.new ≡ Answer.Read readings.now }
{
    *answer = Answer::Read(*readings);
}

/// Answers what a search gave, over another answer.
#[cold]
#[inline(never)]
fn begin_listed(readings: &Readings, answer: &mut Answer)
    ensures { answer.new ≡ Answer.Listed readings.now }
{
    *answer = Answer::Listed(*readings);
}

/// What a client's transaction does when a reply comes, with what was read. It has some 3,200 bytes; a `MoveKind` is small.
#[derive(Drop)]
pub enum Move {
    /// The reply was taken, and more are needed.
    Wait,
    /// The write of this stamp is decided, and its COMMITs are sent.
    Decided(Stamp),
    /// The write of this stamp is done.
    Done(Stamp),
    /// The reader asks for the versions that it is late for.
    Ask,
    /// The search reads what it found.
    Begins,
    /// What a read gave, key by key in the order asked.
    Read(Readings),
    /// What a search gave, in byte order of the keys.
    Listed(Readings),
    /// A version that a reader asked for lies below this floor of its key.
    Restart(Key, Stamp),
    /// The transaction ended so, and sends these calls as it ends.
    Ended(Refusal, Discards),
    /// Nobody waited for the reply.
    Ignored,
}

impl Move {
    ghost use Rattle.std.specs.Prelude.{◌≡◌};
    ghost use Rattle.tenant_sessions.specs.Moves.{answer_of, sends_calls};

    /// The answer that reports it, with the rows of the calls that it sends; where it sends none they are not told.
    pub fn answer(&self, rows: Rows) -> Answer
        ensures { result ≡ answer_of self.now rows }
    {
        match self {
            Move::Wait => Answer::Wait,
            Move::Decided(stamp) => Answer::Decided(*stamp, rows),
            Move::Done(stamp) => Answer::Done(*stamp),
            Move::Ask => Answer::Ask(rows),
            Move::Begins => Answer::BeginsRead(rows),
            Move::Read(readings) => Answer::Read(*readings),
            Move::Listed(readings) => Answer::Listed(*readings),
            Move::Restart(key, floor) => Answer::Restart(*key, *floor),
            Move::Ended(refusal, discards) => Answer::Ended(*refusal, ending_rows(discards, rows)),
            Move::Ignored => Answer::Ignored,
        }
    }

    /// Whether calls are sent with it of which replies are then waited for: `call` of the session reports them.
    pub fn sends(&self) -> bool
        ensures { result ≡ sends_calls self.now }
    {
        match self {
            Move::Decided(_) | Move::Ask | Move::Begins => true,
            _ => false,
        }
    }
}

/// What a client's transaction does when a reply comes: a `Move` without what was read, which is put into the caller's buffer.
#[derive(Drop)]
pub enum MoveKind {
    /// The reply was taken, and more are needed.
    Wait,
    /// The write of this stamp is decided, and its COMMITs are sent.
    Decided(Stamp),
    /// The write of this stamp is done.
    Done(Stamp),
    /// The reader asks for the versions that it is late for.
    Ask,
    /// The search reads what it found.
    Begins,
    /// A read is whole.
    Read,
    /// A search is whole.
    Listed,
    /// A version that a reader asked for lies below this floor of its key.
    Restart(Key, Stamp),
    /// The transaction ended so, and sends these calls as it ends.
    Ended(Refusal, Discards),
    /// Nobody waited for the reply.
    Ignored,
}

impl MoveKind {
    ghost use Rattle.std.specs.Prelude.{◌≡◌, nat_lt, List, length, map, slice_get, true, false, Some, None, if◌then◌else◌, All};
    ghost use Rattle.plain_store.specs.declared.calls.Call.TheVariants.{Discard};
    ghost use Rattle.plain_store.specs.declared.reading.Reading.{Reading};
    ghost use Rattle.plain_store.specs.Run.{call_message};
    ghost use Rattle.plain_store.specs.Writing.{Outgoing};
    ghost use Rattle.tenant_sessions.specs.Moves.{moved, answer_of, sends_calls, ending, is_last, is_ignored};
    ghost use Rattle.tenant_sessions.specs.Sending.{IsDiscard};

    /// The move that it is with these readings, where something was read.
    pub fn told(self, readings: &Readings) -> Move
        ensures { result ≡ moved self readings.now }
    {
        match self {
            MoveKind::Wait => Move::Wait,
            MoveKind::Decided(stamp) => Move::Decided(stamp),
            MoveKind::Done(stamp) => Move::Done(stamp),
            MoveKind::Ask => Move::Ask,
            MoveKind::Begins => Move::Begins,
            MoveKind::Read => Move::Read(*readings),
            MoveKind::Listed => Move::Listed(*readings),
            MoveKind::Restart(key, floor) => Move::Restart(key, floor),
            MoveKind::Ended(refusal, discards) => Move::Ended(refusal, discards),
            MoveKind::Ignored => Move::Ignored,
        }
    }

    /// The answer that reports it, with these readings where something was read and the rows of the calls that it sends; where
    /// it sends none they are not told.
    pub fn answer(&self, readings: &Readings, rows: Rows) -> Answer
        ensures { result ≡ answer_of (moved self.now readings.now) rows }
    {
        match self {
            MoveKind::Wait => Answer::Wait,
            MoveKind::Decided(stamp) => Answer::Decided(*stamp, rows),
            MoveKind::Done(stamp) => Answer::Done(*stamp),
            MoveKind::Ask => Answer::Ask(rows),
            MoveKind::Begins => Answer::BeginsRead(rows),
            MoveKind::Read => Answer::Read(*readings),
            MoveKind::Listed => Answer::Listed(*readings),
            MoveKind::Restart(key, floor) => Answer::Restart(*key, *floor),
            MoveKind::Ended(refusal, discards) => Answer::Ended(
                *refusal,
                ending_rows(discards, rows),
            ),
            MoveKind::Ignored => Answer::Ignored,
        }
    }

    /// Does what `answer` does, and writes it into the caller's buffer.
    pub fn answer_into(&self, readings: &Readings, rows: Rows, answer: &mut Answer)
        ensures { answer.new ≡ answer_of (moved self.now readings.now) rows }
    {
        match self {
            MoveKind::Done(stamp) => tell_done(*stamp, answer),
            MoveKind::Read => tell_read(readings, answer),
            MoveKind::Listed => tell_listed(readings, answer),
            _ => self.begin_answer(readings, rows, answer),
        }
    }

    /// Writes the answer over another one.
    #[cold]
    #[inline(never)]
    fn begin_answer(&self, readings: &Readings, rows: Rows, answer: &mut Answer)
        ensures { answer.new ≡ answer_of (moved self.now readings.now) rows }
    {
        *answer = self.answer(readings, rows);
    }

    /// The `nth` of the calls that are sent at the transaction's end, from 0, as the client's transaction of this ticket
    /// sends it. No transaction is waiting for the replies.
    pub fn ending(&self, client: Client, ticket: u64, nth: u32) -> Option<Message>
        ensures { (readings : List Reading)
            → result
            ≡ slice_get (map (call_message client ticket) (ending (moved self.now readings))) nth }
    {
        let mut place = unwritten(client);
        if !self.ending_into(client, ticket, nth, &mut place) {
            return None;
        }
        Some(place)
    }

    /// Does what `ending` does, and writes the message into the caller's buffer. Says whether there is one; where there is
    /// none, the place is as it was.
    pub fn ending_into(&self, client: Client, ticket: u64, nth: u32, place: &mut Message) -> bool
        ensures told { (readings : List Reading) → (if result then Some place.new else None)
            ≡ slice_get (map (call_message client ticket) (ending (moved self.now readings))) nth }
        ensures discard { result ≡ true → IsDiscard place.new.call }
        ensures reply { result ≡ true → place.new.reply ≡ None }
        ensures unchanged { result ≡ false → place.new ≡ place.old }
    {
        match self {
            MoveKind::Ended(_, discards) => discards.message_into(client, ticket, nth, place),
            _ => false,
        }
    }

    /// The stamp of each DISCARD that is sent at the transaction's end; nothing else is sent then.
    pub fn discarded(&self) -> Stamp
        ensures { (readings : List Reading)
            → All (λ (out : Outgoing). out.call ≡ Discard result)
            (ending (moved self.now readings)) }
    {
        match self {
            MoveKind::Ended(_, discards) => discards.stamp(),
            _ => Stamp::ZERO,
        }
    }

    /// Whether there is a call at this place, from 0, among those that are sent at the transaction's end.
    pub fn has_ending(&self, nth: u32) -> bool
        ensures { (readings : List Reading)
            → result ≡ nat_lt nth (length (ending (moved self.now readings))) }
    {
        match self {
            MoveKind::Ended(_, discards) => discards.has(nth),
            _ => false,
        }
    }

    /// Whether calls are sent with it of which replies are then waited for: `call` of the session reports them.
    pub fn sends(&self) -> bool
        ensures { (readings : List Reading) → result ≡ sends_calls (moved self.now readings) }
    {
        match self {
            MoveKind::Decided(_) | MoveKind::Ask | MoveKind::Begins => true,
            _ => false,
        }
    }

    /// Whether it ends the transaction.
    pub fn is_last(&self) -> bool
        ensures { (readings : List Reading) → result ≡ is_last (moved self.now readings) }
    {
        match self {
            MoveKind::Done(_)
            | MoveKind::Read
            | MoveKind::Listed
            | MoveKind::Restart(_, _)
            | MoveKind::Ended(_, _) => true,
            _ => false,
        }
    }

    /// Whether the reply was not taken.
    pub(crate) fn is_ignored(&self) -> bool
        ensures { (readings : List Reading) → result ≡ is_ignored (moved self.now readings) }
    {
        match self {
            MoveKind::Ignored => true,
            _ => false,
        }
    }
}

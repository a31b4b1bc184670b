//! A client's session.
ghost use Rattle.std.specs.Prelude.{◌≡◌, ◌<◌, ◌≤◌, ◌+◌, ◌↔◌, ◌⊎◌, [], true, false, Some, OnOk, IfErr, IfSome, IfNone};
ghost use Rattle.stamps.specs.Stamp.{stamp};
ghost use Rattle.plain_store.specs.declared.step.Act.TheVariants.{Put};
ghost use mathlib.Core.List.{IsPrefix};
ghost use Rattle.history.specs.Legal.{HasParts, IsLegal};
ghost use Rattle.history.specs.Rules.{IsClockOf};
ghost use Rattle.hub.specs.Rooms.{awaited};
ghost use Rattle.hub.specs.Limits.{last_call, max_calls};
ghost use Rattle.hub.specs.Operations.{FindsTag, FindsTagAt, GetsAll, GetsAllAt, IsLater, PutsAll};
ghost use Rattle.hub.specs.Clocks.{HasSeenMore};
ghost use Rattle.hub.specs.Evidence.{HasEntryAt, IsOfClient, no_mark};
ghost use Rattle.hub.specs.Replies.{IfShows, IsDrawn, IsMoveFor, IsToldFor};
ghost use Rattle.hub.specs.Registered.{HasLeft};
ghost use Rattle.hub.specs.Requests.{act_of};
ghost use Rattle.hub.specs.Seats.{SeatView, Extends, IsEntered, IsNamed, begun_entries, is_unbegun, last_operation, recorded};
ghost use Rattle.hub.specs.Taken.{replies_in};
ghost use Rattle.shard.specs.Jobs.{refusal_of};

use crate::clients::Departure;
use crate::dispatcher::{Dispatcher, MOST_CALLS};
use crate::hub::Hub;
use crate::operation::{RunningOperation, tell_refusal};
use crate::seat_request::SeatRequest;
use closed_store::{Entry, EntryList, Transcript};
use history::{Front, Naming, Tally};
use plain_store::{Answer, Readings, Refusal};
use shard::{Fault, Gate, SeatName};
use stamps::{Counter, Item, Key, Tag};
use std::alloc::Global;
use std::marker::Model;
use std::sync::Wait;
use tenant_sessions::ClientSession;
use traced_client::TracedClient;

/// A seat that has sent more calls begins no operation.
const LAST_CALL: u64 = (1 << 62) - MOST_CALLS as u64;

/// The resources of a seat: its queue endpoints, its client's open session, and a buffer for what is read.
#[derive(Drop)]
pub(crate) struct Ends<'a, G: Naming> {
    pub(crate) dispatcher: Dispatcher<'a, G>,
    pub(crate) session: ClientSession,
    pub(crate) readings: Box<Readings>,
    ghost opened: { session.is_open ≡ true },
    ghost none_sent: { awaited dispatcher ≡ 0 },
}

/// A client's session. Contracts see its name, whether it was stopped, how many calls it has sent, its counter, how many partitions
/// there are, the mark of its last operation, its entries, and what it has seen of the store's history. Of one that goes on, each
/// call was answered.
///
/// A Seat that is dropped without `end` or `abandon` leaves its client's session open, and gives no transcript.
#[derive(Drop)]
pub struct Seat<'a, G: Naming> {
    pub(crate) hub: &'a Hub<G>,
    pub(crate) operation: RunningOperation<'a, G>,
    ticket: u64,
    stopped: bool,
    ghost answered: { stopped ≡ false → awaited operation.dispatcher ≡ 0 },
    ghost of_store: { ∥ HasParts operation.seen hub.now.parts ∥₁ },
}

impl<'a, G: Naming> Model for Seat<'a, G> {
    ghost use Rattle.hub.specs.Seats.{SeatView};

    ghost Value = { SeatView };

    ghost view = { λ s. record { name = s.operation.name; stopped = s.stopped; sent = s.operation.first; counter = s.operation.session.counter; parts = s.hub.now.parts; mark = s.operation.mark; entries = s.operation.entries.items; seen = s.operation.seen } };
}

impl<'a, G: Gate + Naming> Seat<'a, G> {
    pub(crate) fn new(
        hub: &'a Hub<G>,
        name: SeatName,
        ticket: u64,
        ends: Ends<'a, G>,
        seen: Front<G>,
        client: TracedClient<G>,
        clock: &'a Tally<G>,
    ) -> Seat<'a, G>
        requires whose { IsOfClient name (Some client) }
        requires clock { IsClockOf clock.now.key name.tenant }
        requires legal { ∥ IsLegal seen ∥₁ }
        requires of_store { ∥ HasParts seen hub.now.parts ∥₁ }
        requires recorded { name.is_recorded ≡ true }
        ensures seen { result.seen ≡ seen }
        ensures rest { (result.name ≡ name) × (result.stopped ≡ false) × (result.sent ≡ 0)
            × (result.counter ≡ ends.entry.session.counter) × (result.parts ≡ hub.now.parts)
            × (result.mark ≡ no_mark) × (result.entries ≡ []) }
    {
        let Ends {
            dispatcher,
            session,
            readings,
        } = ends;
        Seat {
            hub,
            operation: RunningOperation::new(
                hub.alloc, name, dispatcher, session, readings, seen, client, clock,
            ),
            ticket,
            stopped: false,
        }
    }

    /// The counter that opening the session answered.
    pub fn counter(&self) -> Counter
        ensures { result ≡ self.now.name.counter }
    {
        self.operation.name.counter
    }

    /// Its tenant's number.
    pub fn tenant(&self) -> u32
        ensures { result ≡ self.now.name.tenant }
    {
        self.operation.name.tenant
    }

    /// What it has seen of the store's history, in which each call of it that was answered has its place.
    pub fn seen(&self) -> Front<G>
        ensures same { result ≡ self.now.seen }
        ensures legal { IsLegal result }
    {
        self.operation.seen.again()
    }

    /// From now on it has seen what another has, such as a seat of another client: a read that begins then misses nothing that was
    /// committed by that.
    pub fn learn(&mut self, other: &Front<G>)
        ensures learned { IsPrefix other.now self.new.seen }
        ensures more { HasSeenMore self.old self.new }
    {
        self.operation.learn(other);
    }

    /// Hands out the entries so far, or none where they are not recorded. What it does from then on is entered after them, in a list that
    /// begins with nothing.
    pub fn drain(&mut self) -> EntryList
        ensures handed { result.items ≡ recorded self.old.name self.old.entries }
        ensures rest { self.new ≡ record self.old { entries = [] } }
    {
        self.operation.drain()
    }

    /// Forgets the entries so far, as `drain` does where nobody wants them, and keeps their memory for those to come.
    pub fn forget(&mut self)
        ensures { self.new ≡ record self.old { entries = [] } }
    {
        self.operation.forget();
    }

    /// Forgets the entries so far, and records none from now on: they take no memory and no time, and neither `drain` nor the transcript
    /// has them. Contracts see them still.
    pub fn stop_recording(&mut self)
        ensures { self.new ≡ record self.old
            { entries = []; name = record self.old.name { is_recorded = false } } }
    {
        self.operation.stop_recording();
    }

    /// Whether its entries are recorded, as they are until `stop_recording`.
    pub fn is_recorded(&self) -> bool
        ensures { result ≡ self.now.name.is_recorded }
    {
        self.operation.name.is_recorded
    }

    /// Writes the items, and returns when all calls were answered.
    ///
    /// Where the seat was stopped it answers 19, where its calls are used up 26, and where room for the operation was
    /// refused 30: nothing has changed then. 10, 25 and 30 of a worker stop the seat. Each other answer stands among the
    /// seat's entries, behind the one that this began and among the replies to its calls. Each reply is that of its place in the
    /// tenant's journal at its partition, to a call of this operation: one whose number is above those sent before.
    ///
    /// That it is done is the writer's answer to replies that this operation entered, whatever they are, each given to just the
    /// call that was answered by it, but for its stamp: each item's PREPARE was accepted, and then the COMMIT done at each home.
    /// So each key is committed in the store's one history, and no read misses it that begins when its seat has seen as much.
    ///
    /// Each other answer that is no refusal reports the plain store's move at the last of such replies, too: it has ended because that
    /// one refused a PREPARE.
    pub fn put_all<R: Wait>(&mut self, rt: &R, items: &[Item]) -> Answer
        ensures { PutsAll items.now self.old result self.new }
    {
        let mut answer = Answer::Ignored;
        self.put_all_into(rt, items, &mut answer);
        answer
    }

    /// As `put_all`, with the answer written into the caller's buffer.
    pub fn put_all_into<R: Wait>(&mut self, rt: &R, items: &[Item], answer: &mut Answer)
        ensures { PutsAll items.now self.old answer.new self.new }
    {
        self.run(rt, &SeatRequest::Put(items), usize::MAX, answer);
    }

    /// Reads the keys, and returns when all calls were answered. The refusals are those of `put_all`.
    ///
    /// What it reports is the reader's answer to replies that this operation entered, whatever they are, each given to just the
    /// call that was answered by it: each version that it reports was in one of them, and it shows no write in part among those
    /// whose write sets they told. So it is read atomic, by the puts of the store's one history: what it reports is what decided puts
    /// wrote, and none of them is shown in part. And it is fresh: no key is reported below a version that was committed before the
    /// read's entry in that history, whichever client had been told of it. All that this seat had seen stands before that entry.
    ///
    /// It restarts only by a reply whose floor is above the version that it had asked for.
    pub fn get_all<R: Wait>(&mut self, rt: &R, keys: &[Key]) -> Answer
        ensures { GetsAll keys.now self.old result self.new }
    {
        let mut answer = Answer::Ignored;
        self.get_all_into(rt, keys, &mut answer);
        answer
    }

    /// As `get_all`, with the answer written into the caller's buffer.
    ///
    /// It looks at its tenant's clock as it begins, and returns how many entries that had. A put by the clock that was reported under
    /// this number or a lower one is not missed: what is read of its keys is of that put, or of a greater stamp. The number says nothing
    /// where nothing is read.
    pub fn get_all_into<R: Wait>(&mut self, rt: &R, keys: &[Key], answer: &mut Answer) -> u64
        ensures { GetsAllAt result keys.now self.old answer.new self.new }
    {
        self.run(rt, &SeatRequest::Get(keys), usize::MAX, answer)
    }

    /// Finds the items that carry the tag, and returns when all calls were answered. The refusals are those of `put_all`.
    ///
    /// What it lists is the finder's answer to replies that this operation entered, whatever they are, each given to just the
    /// call that was answered by it: each version that it lists was in one of them, and it shows no write in part among those
    /// whose write sets they told. So it is read atomic and fresh, as `get_all` says.
    pub fn find<R: Wait>(&mut self, rt: &R, tag: Tag) -> Answer
        ensures { FindsTag tag self.old result self.new }
    {
        let mut answer = Answer::Ignored;
        self.find_into(rt, tag, &mut answer);
        answer
    }

    /// As `find`, with the answer written into the caller's buffer, and the number that `get_all_into` returns.
    pub fn find_into<R: Wait>(&mut self, rt: &R, tag: Tag, answer: &mut Answer) -> u64
        ensures { FindsTagAt result tag self.old answer.new self.new }
    {
        self.run(rt, &SeatRequest::Find(tag), usize::MAX, answer)
    }

    /// Begins to write the items, takes at most so many replies, and ends the session. What its moves ask for is sent before
    /// it ends. Where `put_all` would be refused without an entry, it only ends the session.
    pub fn abandon<R: Wait>(self, rt: &R, items: &[Item], takes: u32) -> Transcript
        ensures entries { Extends
            (recorded self.entry.name self.entry.entries) result.entries.items }
        ensures began { (result.entries.items ≡ recorded self.entry.name self.entry.entries)
            ⊎ Extends (recorded self.entry.name
            (begun_entries self.entry (Put self.entry.name.client items.now)))
            result.entries.items }
        ensures few { replies_in result.entries.items ≤ replies_in self.entry.entries + takes }
        ensures name { IsNamed result self.entry.name }
    {
        let mut seat = self;
        let mut answer = Answer::Ignored;
        seat.run(rt, &SeatRequest::Put(items), takes as usize, &mut answer);
        seat.end(rt)
    }

    /// Ends the session, and answers its transcript. Entries that were returned, or are not recorded, are not in it.
    pub fn end<R: Wait>(self, rt: &R) -> Transcript
        ensures entries { result.entries.items ≡ recorded self.entry.name self.entry.entries }
        ensures name { IsNamed result self.entry.name }
    {
        let (transcript, _departure) = self.end_with_departure(rt);
        transcript
    }

    /// As `end`, and answers that the hub's register has entered it: the client's number is free again, and its next session goes on at
    /// the seat's counter or above it. A seat that was stopped has left before, which changes nothing then.
    pub fn end_with_departure<R: Wait>(self, rt: &R) -> (Transcript, Departure)
        ensures entries { result.0.entries.items ≡ recorded self.entry.name self.entry.entries }
        ensures name { IsNamed result.0 self.entry.name }
        ensures left { HasLeft self.entry.name self.entry.counter result.1 }
    {
        let mut seat = self;
        let departure = seat.leave(rt);
        let Seat { operation, .. } = seat;
        let RunningOperation { name, entries, .. } = operation;
        let mut noted = entries;
        let entries = noted.take();
        let transcript = Transcript {
            tenant: name.tenant,
            client: name.client,
            turn: name.turn,
            seat: name.seat,
            base: name.base,
            counter: name.counter,
            entries,
        };
        (transcript, departure)
    }

    /// Runs an operation, takes at most so many replies, and writes its answer into the caller's buffer. It answers how many entries its
    /// tenant's clock had as a read or a search began.
    pub(crate) fn run<R: Wait>(
        &mut self,
        rt: &R,
        request: &SeatRequest<'_>,
        takes: usize,
        answer: &mut Answer,
    ) -> u64
        ensures entered { IsEntered
            (act_of self.old.name.client request.now) self.old answer.new self.new }
        ensures stopped { (answer.new ≡ Answer.Refused Refusal.Stopped)
            ↔ (self.old.stopped ≡ true) }
        ensures past { (answer.new ≡ Answer.Refused Refusal.RowsUsed)
            ↔ ((self.old.stopped ≡ false) × (last_call < self.old.sent)) }
        ensures later { IsLater max_calls self.old self.new }
        ensures told { IsToldFor (last_operation self.new) self.old.parts
            (IsDrawn self.old.name.client self.old.counter self.new.counter) request.now answer.new
            (begun_entries self.old (act_of self.old.name.client request.now)) self.new.entries }
        ensures moved { IsMoveFor (last_operation self.new) self.old.parts
            (stamp (self.old.counter + 1) self.old.name.client) request.now answer.new
            (begun_entries self.old (act_of self.old.name.client request.now)) self.new.entries }
        ensures few { replies_in self.new.entries ≤ replies_in self.old.entries + takes }
        // A read has its entry behind all that was seen before, and what its look at the clock showed.
        ensures since { IfShows request.now answer.new
            (HasEntryAt result self.new.name self.new.mark self.new.seen self.old.seen) }
        ensures legal { ∥ IsLegal self.new.seen ∥₁ }
        ensures of_store { ∥ HasParts self.new.seen self.old.parts ∥₁ }
    {
        if let Some(refusal) = self.refuses() {
            tell_refusal(refusal, answer);
            return 0;
        }
        let hub = self.hub;
        let parts = hub.parts();
        let Ok(number) = self.operation.prepare(parts, request) else {
            tell_refusal(Refusal::OutOfMemory, answer);
            return 0;
        };
        if let Some(own) = self.operation.begin(parts, request, answer) {
            self.operation.exchange(rt, own, takes, answer);
        }
        let told = self.operation.outcome();
        self.stopped = told.is_err();
        let sent = self.operation.count();
        self.finish(rt, sent, told, answer);
        number
    }

    /// Why it begins no operation, if it does not.
    pub(crate) fn refuses(&self) -> Option<Refusal>
        ensures stopped { (result ≡ Some Refusal.Stopped) ↔ (self.now.stopped ≡ true) }
        ensures past { (result ≡ Some Refusal.RowsUsed)
            ↔ ((self.now.stopped ≡ false) × (last_call < self.now.sent)) }
        ensures open { IfNone result ((self.now.stopped ≡ false) × (self.now.sent ≤ last_call)) }
        ensures unbegun { IfSome result (λ refusal. is_unbegun refusal ≡ true) }
    {
        if self.stopped {
            Some(Refusal::Stopped)
        } else if self.operation.first > LAST_CALL {
            Some(Refusal::RowsUsed)
        } else {
            None
        }
    }

    /// Ends an operation that sent calls or did not. Where a worker's fault ended it, which stopped the seat, that is the answer.
    fn finish<R: Wait>(&mut self, rt: &R, sent: bool, told: Result<(), Fault>, answer: &mut Answer)
        ensures served { OnOk told (answer.new ≡ answer.old) }
        ensures refused { IfErr told (λ fault. answer.new ≡ Answer.Refused (refusal_of fault)) }
        // What contracts see of the seat is as it was.
        ensures stays { self.new ≡ self.old }
    {
        if sent {
            self.ticket = self.ticket.saturating_add(1);
        }
        if let Err(fault) = told {
            let _ = self.leave(rt);
            tell_refusal(fault.into(), answer);
        }
    }

    /// Ends the client's session, with the counter that it has come to, and gives its word back.
    fn leave<R: Wait>(&mut self, rt: &R) -> Departure
        ensures left { HasLeft self.old.name self.old.counter result }
        ensures same { self.new ≡ self.old }
    {
        self.operation.leave(rt, self.hub, self.ticket)
    }
}
